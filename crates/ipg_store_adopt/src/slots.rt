//! How many slots rules have.

ghost use Rattle.std.specs.Prelude.{◌≡◌};
ghost use Rattle.std.specs.List.{sum_by};
ghost use Rattle.ipg_core.specs.Good.{slots_in};
ghost use Rattle.ipg_store_adopt.specs.Slots.{capped};
ghost use Rattle.ipg_store_adopt.specs.WellFormed.{has_few_slots};

use ipg_core::grammar::{CoreAlt, CoreRule, CoreTerm};

fn term_slots(term: &CoreTerm) -> u64
    ensures { result ≡ capped (slots_in term.now) }
{
    match term {
        CoreTerm::Slot(_) => 1,
        CoreTerm::Set { .. } => 0,
        CoreTerm::Test(_) => 0,
        CoreTerm::Repeat { .. } => 1,
        CoreTerm::Many { .. } => 1,
        CoreTerm::Pick { cases, .. } => (cases.len() as u64).saturating_add(1),
    }
}

#[tactic(auto, using(crate::proofs::Sums::begins, crate::proofs::Sums::goes_on, crate::proofs::Sums::ends))]
fn alt_slots(alt: &CoreAlt) -> u64
    ensures { result ≡ capped (sum_by slots_in alt.now.terms) }
{
    let mut total = 0u64;
    for term in alt.terms.as_slice() {
        total = total.saturating_add(term_slots(term));
    }
    total
}

#[tactic(auto, using(crate::proofs::Sums::begins, crate::proofs::Sums::goes_on, crate::proofs::Sums::ends))]
fn rule_slots(rule: &CoreRule) -> u64
    ensures { result ≡ capped (sum_by (λ alt. sum_by slots_in alt.terms) rule.now.alts) }
{
    let mut total = 0u64;
    for alt in rule.alts.as_slice() {
        total = total.saturating_add(alt_slots(alt));
    }
    total
}

/// How many slots, arrays, repetitions and branches of switches the rules have, or the greatest number.
#[tactic(auto, using(crate::proofs::Sums::begins, crate::proofs::Sums::goes_on, crate::proofs::Sums::ends))]
fn slots(rules: &[CoreRule]) -> u64
    ensures { result ≡ capped (sum_by (λ rule. sum_by (λ alt. sum_by slots_in alt.terms) rule.alts) rules.now) }
{
    let mut total = 0u64;
    for rule in rules {
        total = total.saturating_add(rule_slots(rule));
    }
    total
}

/// Whether they are fewer than 2^32.
#[tactic(auto, using(crate::proofs::Sums::few))]
pub(crate) fn has_few_slots(rules: &[CoreRule]) -> bool
    ensures { result ≡ has_few_slots rules.now }
{
    slots(rules) < 1 << 32
}
