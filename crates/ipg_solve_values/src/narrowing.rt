ghost use Rattle.std.specs.Prelude.{◌≡◌, ◌<◌, ℤ, length, slice_get, IfOk, Some};
ghost use Rattle.ipg_lin.specs.Formula.{assigned};
ghost use Rattle.ipg_solve_values.specs.Narrowed as spec;

use ipg_lin::Boxed;
use ipg_num::List;
use std::alloc::{AllocError, Global};

/// The box with other bounds of a variable.
pub fn narrowed(
    alloc: Global,
    b: &Boxed,
    x: usize,
    low: i64,
    high: i64,
) -> Result<Boxed, AllocError>
    requires { x < length b.now.bounds }
    ensures { IfOk result (λ made. made ≡ spec.narrowed b.now x low high) }
{
    let mut bounds = Vec::from_slice(alloc, b.bounds.as_slice())?;
    bounds[x] = (low, high);
    Ok(Boxed {
        bounds: List::from_vec(bounds),
    })
}

/// The value of a variable among these, 0 behind the last.
pub fn value_of(values: &[i64], x: usize) -> i64
    ensures { result ≡ assigned values.now x }
{
    values.get(x).copied().unwrap_or(0)
}

/// The lower bound of a variable.
pub fn low_at(b: &Boxed, x: usize) -> i64
    requires { x < length b.now.bounds }
    ensures { (bounds : ℤ × ℤ) → slice_get b.now.bounds x ≡ Some bounds → bounds.0 ≡ result }
{
    b.bounds.as_slice()[x].0
}

/// The upper bound of a variable.
pub fn high_at(b: &Boxed, x: usize) -> i64
    requires { x < length b.now.bounds }
    ensures { (bounds : ℤ × ℤ) → slice_get b.now.bounds x ≡ Some bounds → bounds.1 ≡ result }
{
    b.bounds.as_slice()[x].1
}
