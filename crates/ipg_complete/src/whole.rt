//! A grammar with its intervals written out.

ghost use Rattle.std.specs.Prelude.{◌≡◌, ◌<◌, ◌^◌, map, length, IfOk};
ghost use Rattle.std.specs.List.{AllByRecursion};
ghost use Rattle.ipg_complete.specs.Completion as spec;
ghost use Rattle.ipg_complete.specs.Lefts.{HasFewTerms, HaveFewTerms};

use crate::completed::{Completed, CompletedAlt, CompletedRule};
use crate::completing::terms;
use ipg_names::{NamedAlt, NamedGrammar, NamedRule};
use ipg_num::List;
use std::alloc::{AllocError, Global};

fn alts(alloc: Global, alts: List<NamedAlt>) -> Result<List<CompletedAlt>, AllocError>
    requires { AllByRecursion HasFewTerms alts }
    ensures { IfOk result (λ made. made ≡ map spec.alt_of alts) }
{
    let mut made = Vec::with_capacity(alloc, alts.len())?;
    for alt in alts.into_vec() {
        made.push(CompletedAlt {
            terms: terms(alloc, alt.terms)?,
        })?;
    }
    Ok(List::from_vec(made))
}

fn rules(alloc: Global, rules: List<NamedRule>) -> Result<List<CompletedRule>, AllocError>
    requires { AllByRecursion HaveFewTerms rules }
    ensures { IfOk result (λ made. made ≡ map spec.rule_of rules) }
{
    let mut made = Vec::with_capacity(alloc, rules.len())?;
    for rule in rules.into_vec() {
        made.push(CompletedRule {
            name: rule.name,
            holder: rule.holder,
            alts: alts(alloc, rule.alts)?,
        })?;
    }
    Ok(List::from_vec(made))
}

/// The grammar with every interval written out. The only other answer is want of memory.
///
/// `left` of an alternative's first term is 0, behind a slot or a switch it is that term's end, and behind an array or a
/// repetition the greatest end of its items that touch a byte, else its own `left`.
pub fn complete(alloc: Global, n: NamedGrammar) -> Result<Completed, AllocError>
    ensures { IfOk result (λ c. c ≡ spec.completed n) }
{
    let NamedGrammar {
        rules: written,
        names,
    } = n;
    Ok(Completed {
        rules: rules(alloc, written)?,
        names,
    })
}
