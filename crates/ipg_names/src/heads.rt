//! The heads whose names are taken.
ghost use Rattle.std.specs.Prelude.{◌≡◌, ◌<◌, ◌^◌, ℕ, List, [], length};
ghost use Rattle.ipg_names_scope.specs.Scope.{rule_named};
ghost use Rattle.ipg_names_scope.specs.Marks.{look};
ghost use Rattle.ipg_names_scope.specs.View.{entries_view, entry_name, entry_at};
ghost use Rattle.ipg_names.specs.Fault.{first_of};
ghost use Rattle.ipg_names.specs.Faults.{head_faults};
ghost use Rattle.ipg_names.specs.Heads as spec;

use crate::fault::{NameFault, earlier};
use ipg_core::grammar::Primitive;
use ipg_names_scope::{ListedRule, Numbers, number_at};

/// The first fault of a head.
pub fn heads_fault(numbers: &Numbers<'_>, roster: &[ListedRule<'_>]) -> Option<NameFault>
    requires few { length roster.now < 2 ^ 32 }
    requires numbers { (x : List ℕ) → look numbers.now x ≡ rule_named (entries_view roster.now) x }
    ensures { result ≡ first_of (head_faults [] (entries_view roster.now)) }
{
    let mut fault = None;
    for (r, entry) in roster.iter().enumerate() {
        fault = earlier(fault, head_fault(numbers, r as u32, entry));
    }
    fault
}

fn head_fault(numbers: &Numbers<'_>, rule: u32, entry: &ListedRule<'_>) -> Option<NameFault>
    ensures { result ≡ spec.head_told (spec.is_rule (look numbers.now (entry_name entry.now)) rule) (entry_name entry.now) (entry_at entry.now) }
{
    let name = entry.rule.name.name.as_slice();
    let at = entry.rule.name.span.from;
    if !is_rule(number_at(numbers, name), rule) {
        Some(NameFault::DuplicateRule { at })
    } else if Primitive::of_word(name).is_some() {
        Some(NameFault::DuplicateRule { at })
    } else {
        None
    }
}

fn is_rule(known: Option<u32>, rule: u32) -> bool
    ensures { result ≡ spec.is_rule known rule }
{
    match known {
        None => false,
        Some(known) => known == rule,
    }
}
