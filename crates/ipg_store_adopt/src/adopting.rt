//! The good grammar that a body is of.

ghost use Rattle.std.specs.Prelude.{◌≡◌, map, MatchResult, IfOk};
ghost use Rattle.ipg_core.specs.Grammar.{Grammar};
ghost use Rattle.ipg_core.specs.Good.{WellFormed};
ghost use Rattle.ipg_store_adopt.specs.declared.adopting.AdoptFault.TheVariants.{Memory};
ghost use Rattle.ipg_store_body.specs.Fits.{FitsBody};
ghost use Rattle.ipg_store_adopt.specs.Adopted as spec;
ghost use Rattle.ipg_store_adopt.specs.Adopted.{IsGrammarOf, IsAdoptFault, grammar_in};

use crate::whole::is_well_formed;
use ipg_complete::completed::{Completed, CompletedAlt, CompletedRule};
use ipg_core::accepted::Core;
use ipg_core::grammar::{CoreAlt, CoreRule};
use ipg_num::List;
use ipg_order::laws::{formed_without_orders, good_is_not_stuck, orders_once};
use ipg_order::{OrderFault, order};
use ipg_store_body::Body;
use ipg_store_body::laws::body_is_shallow;
use std::alloc::{AllocError, Global};
use thiserror::Error;

/// Why a body is of no grammar.
#[derive(Clone, Copy, Debug, Drop, Error, PartialEq, Eq)]
pub enum AdoptFault {
    /// No good grammar has these names and rules.
    #[error("no good grammar has these names and rules")]
    NotGood,
    /// No memory was left.
    #[error("no memory is left")]
    Memory,
}

impl From<AllocError> for AdoptFault {
    ghost use Rattle.ipg_store_adopt.specs.declared.adopting.AdoptFault.TheVariants.{Memory};

    ghost from_gives = { λ _ e. e ≡ Memory };

    fn from(_: AllocError) -> AdoptFault {
        AdoptFault::Memory
    }
}

fn completed_alts(alloc: Global, alts: List<CoreAlt>) -> Result<List<CompletedAlt>, AllocError>
    ensures { IfOk result (λ made. made ≡ map spec.completed_alt alts) }
{
    let mut made = Vec::with_capacity(alloc, alts.len())?;
    for alt in alts.into_vec() {
        made.push(CompletedAlt { terms: alt.terms })?;
    }
    Ok(List::from_vec(made))
}

fn completed_rules(alloc: Global, rules: List<CoreRule>) -> Result<List<CompletedRule>, AllocError>
    ensures { IfOk result (λ made. made ≡ map spec.completed_rule rules) }
{
    let mut made = Vec::with_capacity(alloc, rules.len())?;
    for rule in rules.into_vec() {
        made.push(CompletedRule {
            name: rule.name,
            holder: rule.holder,
            alts: completed_alts(alloc, rule.alts)?,
        })?;
    }
    Ok(List::from_vec(made))
}

/// A body as a grammar whose terms have no order yet.
fn completed(alloc: Global, body: Body) -> Result<Completed, AllocError>
    requires fits { FitsBody body }
    requires well_formed { WellFormed (grammar_in body) }
    ensures { IfOk result (λ c. c ≡ spec.completed body) }
{
    let Body { names, rules } = body;
    Ok(Completed {
        rules: completed_rules(alloc, rules)?,
        names,
    })
}

/// The good grammar that has the names and the rules of the body, each alternative with its order. It is the only one.
///
/// # Errors
/// `NotGood` exactly where there is none: names and rules aren't well formed, or terms of an alternative wait for each other.
pub fn adopt(alloc: Global, body: Body) -> Result<Core, AdoptFault>
    requires fits { FitsBody body }
    ensures is { MatchResult result (IsGrammarOf body) (IsAdoptFault body) }
    ensures back { (g : Grammar) → IsGrammarOf body g → MatchResult result (λ core. core ≡ g) (λ fault. fault ≡ Memory) }
{
    orders_once();
    good_is_not_stuck();
    formed_without_orders();
    body_is_shallow();
    if !is_well_formed(alloc, body.rules.as_slice(), body.names.as_slice())? {
        return Err(AdoptFault::NotGood);
    }
    match order(alloc, completed(alloc, body)?) {
        Ok(core) => {
            core.rules();
            Ok(core)
        }
        Err(OrderFault::Circular { .. }) => Err(AdoptFault::NotGood),
        Err(OrderFault::Memory) => Err(AdoptFault::Memory),
    }
}
