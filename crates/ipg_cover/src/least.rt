//! The least place that a gap's formula leaves out.

ghost use Rattle.std.specs.Prelude.{◌<◌, ◌≤◌, length, IfOk};
ghost use Rattle.ipg_lin.specs.Formula.{width};
ghost use Rattle.ipg_cover.specs.Cover.{IsLeastGap};
ghost use Rattle.ipg_cover.specs.Gaps.{TellsGap, IsLeastLength};

use ipg_cert::Refutation;
use ipg_cert::laws::checks_refute;
use ipg_lin::{Boxed, Formula};
use ipg_solve::Decision;
use ipg_solve_values::{decide_least, narrowed, value_of};
use std::alloc::{AllocError, Global};

/// What there is of a gap.
#[derive(Drop)]
pub enum LeastGap {
    /// None.
    Refuted(Refutation),
    /// The least length of the part, and the least place at it.
    Gap { at: i64, eoi: i64 },
}

/// The least place at the least length.
fn least_place(alloc: Global, part: &(Formula, Boxed), eoi: i64) -> Result<i64, AllocError>
    requires bounded { width part.now.0 ≤ length part.now.1.bounds }
    requires there { 1 < length part.now.1.bounds }
    requires least { IsLeastLength part.now eoi }
    ensures { IfOk result (λ at. IsLeastGap part.now at eoi) }
{
    checks_refute();
    let fixed = narrowed(alloc, &part.1, 0, eoi, eoi)?;
    match decide_least(alloc, &part.0, &fixed, 1)? {
        Decision::Solution(values) => Ok(value_of(values.as_slice(), 1)),
        Decision::Refuted(_) => unreachable!(),
    }
}

/// The least length of the part at which a place is left out, and the least such place; or a refutation.
pub fn least_gap(alloc: Global, part: &(Formula, Boxed)) -> Result<LeastGap, AllocError>
    requires bounded { width part.now.0 ≤ length part.now.1.bounds }
    requires there { 1 < length part.now.1.bounds }
    ensures { IfOk result (TellsGap part.now) }
{
    match decide_least(alloc, &part.0, &part.1, 0)? {
        Decision::Refuted(r) => Ok(LeastGap::Refuted(r)),
        Decision::Solution(values) => {
            let eoi = value_of(values.as_slice(), 0);
            let at = least_place(alloc, part, eoi)?;
            Ok(LeastGap::Gap { at, eoi })
        }
    }
}
