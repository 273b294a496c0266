ghost use Rattle.std.specs.Prelude.{◌≡◌, ◌^◌, ◌<◌, ◌≤◌, max, ◌&&◌, ◌||◌, false, length, map, IsTrue, IfSome};
ghost use Rattle.ipg_lin.specs.Formula.{every, width};
ghost use Rattle.ipg_solve.specs.Decides.{Decides};
ghost use Rattle.ipg_solve.specs.declared.decision.Decision.TheVariants.{Refuted};
ghost use Rattle.ipg_solve.specs.Differences.{is_one, is_minus_one, is_difference, are_differences, IsDifference, IsShort};

use crate::decision::Decision;
use crate::width::width_of;
use ipg_cert::{Refutation, Step};
use ipg_lin::{Boxed, Formula};

fn is_one(z: i64) -> bool
    ensures { result ≡ is_one z }
{
    z == 1
}

fn is_minus_one(z: i64) -> bool
    ensures { result ≡ is_minus_one z }
{
    z == -1
}

fn is_difference(terms: &[(u64, i64)]) -> bool
    ensures { result ≡ is_difference terms.now }
{
    match terms {
        [] => true,
        [term] => is_one(term.1) || is_minus_one(term.1),
        [term, other] => {
            (is_one(term.1) && is_minus_one(other.1)) || (is_minus_one(term.1) && is_one(other.1))
        }
        _ => false,
    }
}

/// Whether the formula speaks of differences alone.
#[cycle(members)]
pub fn are_differences(f: &Formula) -> bool
    ensures { result ≡ are_differences f.now }
{
    match f {
        Formula::Atom(form) => is_difference(form.terms()),
        Formula::All(members) => all_differences(members.as_slice()),
        Formula::Any(_) => false,
    }
}

#[cycle(members)]
fn all_differences(members: &[Formula]) -> bool
    ensures { result ≡ every (map are_differences members.now) }
{
    for member in members {
        if !are_differences(member) {
            return false;
        }
    }
    true
}

/// Whether it is one Combine of at most one fact more than so many variables.
fn is_short_refutation(r: &Refutation, vars: u128) -> bool
    ensures { IsTrue result → IsShort vars (Refuted r.now) }
{
    match r.steps.as_slice() {
        [Step::Combine(entries)] => entries.len() as u128 <= vars.saturating_add(1),
        _ => false,
    }
}

fn is_short(decision: &Decision, vars: u128) -> bool
    ensures { IsTrue result → IsShort vars decision.now }
{
    match decision {
        Decision::Solution(_) => true,
        Decision::Refuted(r) => is_short_refutation(r, vars),
    }
}

/// Whether the formula speaks of differences alone, and of so few variables that one Combine refutes it.
pub fn wants_short(f: &Formula) -> bool
    ensures short { IsTrue result → IsDifference f.now × (width f.now < 2 ^ 21) }
    ensures long { result ≡ false → IsDifference f.now → 2 ^ 21 ≤ width f.now }
{
    width_of(f) < 1 << 21 && are_differences(f)
}

/// The decision that was found, unless it has to be short and is long.
pub fn short_enough(f: &Formula, b: &Boxed, found: Option<Decision>) -> Option<Decision>
    requires { IfSome found (Decides f.now b.now) }
    ensures decided { IfSome result (Decides f.now b.now) }
    ensures short { IfSome result (λ decision. IsDifference f.now → width f.now < 2 ^ 21 → IsShort (max 1 (width f.now)) decision) }
{
    let decision = found?;
    if is_short(&decision, width_of(f).max(1)) || !wants_short(f) {
        Some(decision)
    } else {
        None
    }
}
