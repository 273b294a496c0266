//! Solutions of which one variable has the least value.

ghost use Rattle.std.specs.Prelude.{◌≡◌, ◌<◌, ◌≤◌, ℤ, ◌≤ℤ◌, ◌<ℤ◌, ◌-ℤ◌, length, slice_get, IfOk};
ghost use Rattle.std.specs.Int.RustNames.{unsigned_abs};
ghost use Rattle.ipg_lin.specs.Formula.{assigned, width};
ghost use Rattle.ipg_solve.specs.Decides.{Solves};
ghost use Rattle.ipg_solve_values.specs.Least.{IsLeast, Settles};
ghost use Rattle.ipg_solve_values.specs.Halving.{IsLeastRange};

use crate::narrowing::{low_at, narrowed, value_of};
use ipg_lin::{Boxed, Formula};
use ipg_num::List;
use ipg_solve::{Decision, decide};
use std::alloc::{AllocError, Global};

/// What is known of the least value of a variable in a solution: it is at least `low`, and at most `high`, which it has
/// among values that are a solution.
#[derive(Drop)]
struct LeastRange {
    low: i64,
    high: i64,
    values: List<i64>,
}

fn distance(low: i64, high: i64) -> u128
    ensures { result ≡ unsigned_abs (high -ℤ low) }
{
    (i128::from(high) - i128::from(low)).unsigned_abs()
}

/// The middle of a range of two values or more.
fn middle(low: i64, high: i64) -> i64
    requires { low <ℤ high }
    ensures least { low ≤ℤ result }
    ensures most { result <ℤ high }
{
    let half = distance(low, high) / 2;
    (i128::from(low) + half as i128) as i64
}

/// What the solution that was found says.
fn first_range(b: &Boxed, x: usize, found: List<i64>) -> LeastRange
    requires { x < length b.now.bounds }
    ensures values { result.values ≡ found }
    ensures high { result.high ≡ assigned found x }
    ensures low { (bounds : ℤ × ℤ) → slice_get b.now.bounds x ≡ Some bounds → bounds.0 ≡ result.low }
{
    let high = value_of(found.as_slice(), x);
    LeastRange {
        low: low_at(b, x),
        high,
        values: found,
    }
}

/// Asks whether there is a solution in the lower half.
fn halved(
    alloc: Global,
    f: &Formula,
    b: &Boxed,
    x: usize,
    range: LeastRange,
) -> Result<LeastRange, AllocError>
    requires bounded { width f.now ≤ length b.now.bounds }
    requires there { x < length b.now.bounds }
    requires range { IsLeastRange f.now b.now x range }
    requires wide { range.low <ℤ range.high }
    ensures range { IfOk result (IsLeastRange f.now b.now x) }
    ensures less { IfOk result (λ next. unsigned_abs (next.high -ℤ next.low) < unsigned_abs (range.high -ℤ range.low)) }
{
    let at = middle(range.low, range.high);
    let lower = narrowed(alloc, b, x, range.low, at)?;
    match decide(alloc, f, &lower)? {
        Decision::Solution(values) => Ok(LeastRange {
            low: range.low,
            high: value_of(values.as_slice(), x),
            values,
        }),
        Decision::Refuted(_) => Ok(LeastRange {
            low: at + 1,
            high: range.high,
            values: range.values,
        }),
    }
}

/// A solution with the least value of x, where one was found. As many questions as halvings of its range.
fn least(
    alloc: Global,
    f: &Formula,
    b: &Boxed,
    x: usize,
    found: List<i64>,
) -> Result<List<i64>, AllocError>
    requires bounded { width f.now ≤ length b.now.bounds }
    requires there { x < length b.now.bounds }
    requires solves { Solves f.now b.now found }
    ensures { IfOk result (IsLeast f.now b.now x) }
{
    let mut range = first_range(b, x, found);
    while range.low < range.high {
        range = halved(alloc, f, b, x, range)?;
    }
    Ok(range.values)
}

/// A solution of which the variable has the least value that it has in any; or a refutation. It asks the solver as often
/// as the variable's range can be halved.
pub fn decide_least(alloc: Global, f: &Formula, b: &Boxed, x: usize) -> Result<Decision, AllocError>
    requires bounded { width f.now ≤ length b.now.bounds }
    requires there { x < length b.now.bounds }
    ensures { IfOk result (Settles f.now b.now x) }
{
    match decide(alloc, f, b)? {
        Decision::Solution(values) => Ok(Decision::Solution(least(alloc, f, b, x, values)?)),
        Decision::Refuted(r) => Ok(Decision::Refuted(r)),
    }
}
