//! Terms put in order, alternative by alternative.

ghost use Rattle.std.specs.Prelude.{◌≡◌, ◌≤◌, ◌+◌, length, IfOk, ℕ};
ghost use Rattle.ipg_order.specs.Ordered.{IsOrderedAlt, AreOrderedAlts, AreOrderedRules, AltStops, RuleStops, RulesStop, AreSmall, AreSmallRules};

use crate::arranging::{Arrangement, arrange};
use crate::fault::OrderFault;
use crate::providers::{Local, needs};
use ipg_complete::completed::{CompletedAlt, CompletedRule};
use ipg_core::grammar::{CoreAlt, CoreRule};
use ipg_num::List;
use std::alloc::{AllocError, AllocFailed, Global};

/// Why an alternative has no order: the leftmost term that can't run, or want of memory.
#[derive(Clone, Copy, Debug, PartialEq, Eq)]
pub(crate) enum AltFault {
    Stuck(u32),
    Memory,
}

impl From<AllocError> for AltFault {
    ghost use Rattle.ipg_order.specs.declared.ordering.AltFault.TheVariants.{Memory};

    ghost from_gives = { λ _ e. e ≡ Memory };

    fn from(_: AllocError) -> AltFault {
        AltFault::Memory
    }
}

/// An alternative at a place, with the order of its terms.
pub(crate) fn ordered_alt(
    alloc: Global,
    local: Local<'_>,
    at: (u32, u32),
    alt: CompletedAlt,
) -> Result<CoreAlt, AltFault>
    requires { length alt.terms ≤ 256 }
    ensures ok { IfOk result (λ new. IsOrderedAlt local.entry.holders.now local.entry.flags.now at alt new) }
    ensures err { AltStops local.entry.holders.now local.entry.flags.now at alt result }
{
    let needs = needs(alloc, local, at, alt.terms.as_slice())?;
    match arrange(alloc, needs.as_slice())? {
        Arrangement::Stuck(term) => Err(AltFault::Stuck(term)),
        Arrangement::Whole(order) => Ok(CoreAlt {
            terms: alt.terms,
            order: List::from_vec(order),
        }),
    }
}

/// Why a rule's alternatives have no order: the first that has none and its leftmost term that can't run, or want of
/// memory.
#[derive(Clone, Copy, Debug, PartialEq, Eq)]
pub(crate) enum RuleFault {
    Stuck { alt: u32, term: u32 },
    Memory,
}

impl From<AllocError> for RuleFault {
    ghost use Rattle.ipg_order.specs.declared.ordering.RuleFault.TheVariants.{Memory};

    ghost from_gives = { λ _ e. e ≡ Memory };

    fn from(_: AllocError) -> RuleFault {
        RuleFault::Memory
    }
}

impl<T: Drop> From<AllocFailed<T>> for RuleFault {
    ghost use Rattle.ipg_order.specs.declared.ordering.RuleFault.TheVariants.{Memory};

    ghost from_gives = { λ _ e. e ≡ Memory };

    fn from(_: AllocFailed<T>) -> RuleFault {
        RuleFault::Memory
    }
}

/// The alternatives of a rule, each with its order.
pub(crate) fn ordered_alts(
    alloc: Global,
    local: Local<'_>,
    rule: u32,
    alts: List<CompletedAlt>,
) -> Result<Vec<CoreAlt>, RuleFault>
    requires { AreSmall alts }
    ensures ok { IfOk result (λ new. AreOrderedAlts local.entry.holders.now local.entry.flags.now rule 0 alts new.items) }
    ensures err { RuleStops local.entry.holders.now local.entry.flags.now rule alts result }
{
    let mut ordered = Vec::new(alloc);
    for alt in alts.into_vec() {
        let number = ordered.len() as u32;
        match ordered_alt(alloc, local, (rule, number), alt) {
            Ok(alt) => ordered.push(alt)?,
            Err(AltFault::Stuck(term)) => return Err(RuleFault::Stuck { alt: number, term }),
            Err(AltFault::Memory) => return Err(RuleFault::Memory),
        }
    }
    Ok(ordered)
}

/// The rules, each alternative with its order.
pub(crate) fn ordered_rules(
    alloc: Global,
    local: Local<'_>,
    rules: List<CompletedRule>,
) -> Result<Vec<CoreRule>, OrderFault>
    requires { AreSmallRules rules }
    ensures ok { IfOk result (λ new. AreOrderedRules local.entry.holders.now local.entry.flags.now 0 rules new.items) }
    ensures err { RulesStop local.entry.holders.now local.entry.flags.now rules result }
{
    let mut ordered = Vec::new(alloc);
    for rule in rules.into_vec() {
        let number = ordered.len() as u32;
        match ordered_alts(alloc, local, number, rule.alts) {
            Ok(alts) => ordered.push(CoreRule {
                name: rule.name,
                holder: rule.holder,
                alts: List::from_vec(alts),
            })?,
            Err(RuleFault::Stuck { alt, term }) => {
                return Err(OrderFault::Circular {
                    rule: number,
                    alt,
                    term,
                });
            }
            Err(RuleFault::Memory) => return Err(OrderFault::Memory),
        }
    }
    Ok(ordered)
}
