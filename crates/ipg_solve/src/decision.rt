ghost use Rattle.std.specs.Prelude.{◌≡◌, ◌+◌, ◌^◌, ◌<◌, ◌≤◌, [], ◌∷◌, length, max, int_lt, MatchOption, IfOk, IfSome};
ghost use Rattle.ipg_lin.specs.Formula.{width};
ghost use Rattle.ipg_cert.specs.declared.refutation.Step.TheVariants.{Combine};
ghost use Rattle.ipg_solve.specs.Decides.{Decides, IsExact};
ghost use Rattle.ipg_solve.specs.Differences.{IsDifference, IsShort};
ghost use Rattle.ipg_solve.specs.Domains.{AreFull};
ghost use Rattle.ipg_solve.specs.Cuts.{start_domains};
ghost use Rattle.ipg_solve.specs.Crossed.{IsCrossed};

use crate::candidate::checked;
use crate::counting::counted;
use crate::difference::{short_enough, wants_short};
use crate::halving::halve;
use crate::laws::ends_combine;
use crate::levels::decide_differences;
use ipg_cert::laws::checks_refute;
use ipg_cert::{Refutation, Step};
use ipg_lin::{Boxed, Formula};
use ipg_num::List;
use ipg_solve_search::seek;
use std::alloc::{AllocError, Global};

/// Whether a formula can hold in a box.
#[derive(Drop)]
pub enum Decision {
    /// A value for each variable.
    Solution(List<i64>),
    Refuted(Refutation),
}

fn is_crossed(bound: &(i64, i64)) -> bool
    ensures { result ≡ int_lt bound.now.1 bound.now.0 }
{
    bound.1 < bound.0
}

/// A variable whose least value is above its greatest.
pub fn crossed(bounds: &[(i64, i64)]) -> Option<usize>
    ensures { MatchOption result (AreFull (start_domains 0 bounds.now)) (λ x. IsCrossed bounds.now x) }
{
    for (x, bound) in bounds.iter().enumerate() {
        if is_crossed(bound) {
            return Some(x);
        }
    }
    None
}

/// The Combine of the two bounds of a variable that cross.
fn crossing(alloc: Global, x: usize) -> Result<Refutation, AllocError>
    ensures { IfOk result (λ r. r ≡ record { steps = Combine ((1, x + x) ∷ (1, x + x + 1) ∷ []) ∷ [] }) }
{
    let low_at = counted(x as u64, x as u64)?;
    let high_at = counted(low_at, 1)?;
    let entries = Vec::from_slice(alloc, &[(1, low_at), (1, high_at)])?;
    let mut steps = List::new(alloc);
    steps.push(Step::Combine(List::from_vec(entries)))?;
    Ok(Refutation { steps })
}

/// A solution of the formula in the box, exactly where there is one, and otherwise a refutation that
/// checks. Where the formula is differences alone, `x - y + c <= 0`, `x + c <= 0`, `-x + c <= 0` or
/// `c <= 0`, the refutation is one Combine of at most one fact more than it has variables, and two at least,
/// if it has fewer than 2^21. It recurses as deep as members stand in one another, as dropping the
/// formula does.
pub fn decide(alloc: Global, f: &Formula, b: &Boxed) -> Result<Decision, AllocError>
    requires { width f.now ≤ length b.now.bounds }
    ensures decided { IfOk result (λ decision. Decides f.now b.now decision) }
    ensures exact { IfOk result (λ decision. IsExact f.now b.now decision) }
    ensures short { IfOk result (λ decision. IsDifference f.now → width f.now < 2 ^ 21 → IsShort (max 1 (width f.now)) decision) }
{
    checks_refute();
    let decision = decided(alloc, f, b)?;
    Ok(decision)
}

fn decided(alloc: Global, f: &Formula, b: &Boxed) -> Result<Decision, AllocError>
    requires { width f.now ≤ length b.now.bounds }
    ensures decided { IfOk result (λ decision. Decides f.now b.now decision) }
    ensures short { IfOk result (λ decision. IsDifference f.now → width f.now < 2 ^ 21 → IsShort (max 1 (width f.now)) decision) }
{
    ends_combine();
    if let Some(x) = crossed(b.bounds.as_slice()) {
        return Ok(Decision::Refuted(crossing(alloc, x)?));
    }
    let found = searched(alloc, f, b)?;
    if let Some(decision) = short_enough(f, b, found) {
        return Ok(decision);
    }
    surely(alloc, f, b)
}

/// What the search finds, if it stands. Where memory is wanting inside the search, that is the answer:
/// halving would take more.
fn searched(alloc: Global, f: &Formula, b: &Boxed) -> Result<Option<Decision>, AllocError>
    requires { width f.now ≤ length b.now.bounds }
    ensures { IfOk result (λ kept. IfSome kept (Decides f.now b.now)) }
{
    let found = seek(alloc, f, b)?;
    checked(alloc, f, b, found)
}

/// Decides the formula with no search.
fn surely(alloc: Global, f: &Formula, b: &Boxed) -> Result<Decision, AllocError>
    requires valued { width f.now ≤ length b.now.bounds }
    requires full { AreFull (start_domains 0 b.now.bounds) }
    ensures decided { IfOk result (λ decision. Decides f.now b.now decision) }
    ensures short { IfOk result (λ decision. IsDifference f.now → width f.now < 2 ^ 21 → IsShort (max 1 (width f.now)) decision) }
{
    if wants_short(f) {
        return decide_differences(alloc, f, b);
    }
    let halved = halve(alloc, f, b)?;
    Ok(halved)
}
