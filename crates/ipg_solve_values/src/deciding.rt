//! Values that a variable has in every solution.

ghost use Rattle.std.specs.Prelude.{◌<◌, ◌≤◌, ◌<ℤ◌, length, IfOk};
ghost use Rattle.std.specs.Bool.{Decides};
ghost use Rattle.ipg_lin.specs.Formula.{width, Solvable};
ghost use Rattle.ipg_solve.specs.Decides.{Solves};
ghost use Rattle.ipg_solve_values.specs.Sure.{Tells};
ghost use Rattle.ipg_solve_values.specs.Narrowed as spec;
ghost use Rattle.ipg_solve_values.specs.Narrowed.{IsSolvedAt, IsWithin};

use crate::narrowing::{high_at, low_at, narrowed, value_of};
use ipg_lin::{Boxed, Formula};
use ipg_solve::{Decision, decide};
use std::alloc::{AllocError, Global};

/// Whether there is a solution in the box with these bounds of a variable.
fn has_within(
    alloc: Global,
    f: &Formula,
    b: &Boxed,
    x: usize,
    low: i64,
    high: i64,
) -> Result<bool, AllocError>
    requires bounded { width f.now ≤ length b.now.bounds }
    requires there { x < length b.now.bounds }
    ensures { IfOk result (λ has. Decides has (Solvable f.now (spec.narrowed b.now x low high))) }
{
    let within = narrowed(alloc, b, x, low, high)?;
    match decide(alloc, f, &within)? {
        Decision::Solution(_) => Ok(true),
        Decision::Refuted(_) => Ok(false),
    }
}

/// Whether the variable has a lesser value in some solution.
fn has_below(
    alloc: Global,
    f: &Formula,
    b: &Boxed,
    x: usize,
    value: i64,
) -> Result<bool, AllocError>
    requires bounded { width f.now ≤ length b.now.bounds }
    requires there { x < length b.now.bounds }
    requires within { IsWithin b.now x value }
    ensures { IfOk result (λ has. Decides has (IsSolvedAt f.now b.now x (λ other. other <ℤ value))) }
{
    let low = low_at(b, x);
    if value <= low {
        return Ok(false);
    }
    let has = has_within(alloc, f, b, x, low, value - 1)?;
    Ok(has)
}

/// Whether it has a greater one.
fn has_above(
    alloc: Global,
    f: &Formula,
    b: &Boxed,
    x: usize,
    value: i64,
) -> Result<bool, AllocError>
    requires bounded { width f.now ≤ length b.now.bounds }
    requires there { x < length b.now.bounds }
    requires within { IsWithin b.now x value }
    ensures { IfOk result (λ has. Decides has (IsSolvedAt f.now b.now x (λ other. value <ℤ other))) }
{
    let high = high_at(b, x);
    if high <= value {
        return Ok(false);
    }
    let has = has_within(alloc, f, b, x, value + 1, high)?;
    Ok(has)
}

/// The value that the variable has in every solution, if it has one, where a solution is known. It asks the solver twice
/// at most.
pub fn sure(
    alloc: Global,
    f: &Formula,
    b: &Boxed,
    x: usize,
    found: &[i64],
) -> Result<Option<i64>, AllocError>
    requires bounded { width f.now ≤ length b.now.bounds }
    requires there { x < length b.now.bounds }
    requires solves { Solves f.now b.now found.now }
    ensures { IfOk result (Tells f.now b.now x) }
{
    let value = value_of(found, x);
    if has_below(alloc, f, b, x, value)? {
        return Ok(None);
    }
    if has_above(alloc, f, b, x, value)? {
        return Ok(None);
    }
    Ok(Some(value))
}
