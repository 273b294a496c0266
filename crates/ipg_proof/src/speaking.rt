//! What a certificate in memory is: its numbers are those of their types.
ghost use Rattle.std.specs.List.{AllByRecursion};
ghost use Rattle.ipg_cert.specs.Texts.{IsEntry, IsWord, IsSignedWord};
ghost use Rattle.ipg_proof.specs.Speaks.{HasWords, HaveWords, IsTyped};

use crate::certificate::Certificate;
use ipg_cert::{Refutation, Step};
use ipg_num::List;

fn is_word(n: &u64)
    ensures { IsWord n.now }
{
    let _value = *n;
}

fn is_signed_word(n: &i64)
    ensures { IsSignedWord n.now }
{
    let _value = *n;
}

fn is_entry(entry: &(u64, u64))
    ensures { IsEntry entry.now }
{
    is_word(&entry.0);
    is_word(&entry.1);
}

fn are_entries(entries: &[(u64, u64)])
    ensures { AllByRecursion IsEntry entries.now }
{
    for entry in entries {
        is_entry(entry);
    }
}

fn has_words(step: &Step)
    ensures { HasWords step.now }
{
    match step {
        Step::Combine(entries) => are_entries(entries.as_slice()),
        Step::Split { var, at } => {
            is_word(var);
            is_signed_word(at);
        }
        Step::Either { fact, parts } => {
            is_word(fact);
            is_word(parts);
        }
    }
}

fn have_words(r: &Refutation)
    ensures { HaveWords r.now }
{
    for step in r.steps.as_slice() {
        has_words(step);
    }
}

fn dead_have_words(dead: &[(u32, Refutation)])
    ensures { AllByRecursion (λ entry. HaveWords entry.1) dead.now }
{
    for entry in dead {
        have_words(&entry.1);
    }
}

fn cycles_have_words(cycles: &[(List<u32>, Refutation)])
    ensures { AllByRecursion (λ entry. HaveWords entry.1) cycles.now }
{
    for entry in cycles {
        have_words(&entry.1);
    }
}

/// The numbers of a certificate are those of their types.
pub fn is_typed(c: &Certificate)
    ensures { IsTyped c.now }
{
    dead_have_words(c.dead.as_slice());
    cycles_have_words(c.cycles.as_slice());
    let _few = c.cycles.as_slice().len();
}
