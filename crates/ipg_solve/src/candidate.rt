ghost use Rattle.std.specs.Prelude.{◌≡◌, ◌≤◌, length, int_le, ◌&&◌, IsTrue, IfOk, IfSome};
ghost use Rattle.ipg_lin.specs.Formula.{width};
ghost use Rattle.ipg_solve.specs.Decides.{Solves, Decides};
ghost use Rattle.ipg_solve.specs.Within.{AreWithin};

use crate::decision::Decision;
use ipg_cert::{Refutation, check};
use ipg_lin::{Boxed, Formula, holds};
use ipg_num::List;
use ipg_solve_search::SearchEnd;
use std::alloc::{AllocError, Global};

fn is_within(value: i64, bound: &(i64, i64)) -> bool
    ensures { result ≡ (int_le bound.now.0 value && int_le value bound.now.1) }
{
    bound.0 <= value && value <= bound.1
}

/// Whether each value is within the bounds at its place.
fn are_within(values: &[i64], bounds: &[(i64, i64)]) -> bool
    requires { length values.now ≡ length bounds.now }
    ensures { IsTrue result → AreWithin values.now bounds.now }
{
    for (x, bound) in bounds.iter().enumerate() {
        if !is_within(values[x], bound) {
            return false;
        }
    }
    true
}

/// Whether the values solve the formula.
pub fn solves(f: &Formula, b: &Boxed, values: &[i64]) -> bool
    requires { width f.now ≤ length b.now.bounds }
    ensures { IsTrue result → Solves f.now b.now values.now }
{
    if values.len() != b.bounds.len() {
        return false;
    }
    are_within(values, b.bounds.as_slice()) && holds(f, values)
}

/// What was found as a decision, if it stands.
pub fn checked(
    alloc: Global,
    f: &Formula,
    b: &Boxed,
    found: Option<SearchEnd>,
) -> Result<Option<Decision>, AllocError>
    requires { width f.now ≤ length b.now.bounds }
    ensures { IfOk result (λ kept. IfSome kept (Decides f.now b.now)) }
{
    match found {
        Some(SearchEnd::Values(values)) => Ok(solution(f, b, values)),
        Some(SearchEnd::Refuted(r)) => refutation(alloc, f, b, r),
        None => Ok(None),
    }
}

fn solution(f: &Formula, b: &Boxed, values: List<i64>) -> Option<Decision>
    requires { width f.now ≤ length b.now.bounds }
    ensures { IfSome result (Decides f.now b.now) }
{
    if solves(f, b, values.as_slice()) {
        Some(Decision::Solution(values))
    } else {
        None
    }
}

fn refutation(
    alloc: Global,
    f: &Formula,
    b: &Boxed,
    r: Refutation,
) -> Result<Option<Decision>, AllocError>
    ensures { IfOk result (λ kept. IfSome kept (Decides f.now b.now)) }
{
    if check(alloc, f, b, &r)? {
        Ok(Some(Decision::Refuted(r)))
    } else {
        Ok(None)
    }
}
