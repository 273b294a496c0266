//! The rules by the names of their heads.
ghost use Rattle.std.specs.Prelude.{◌≡◌, ◌<◌, ◌^◌, ℕ, List, length, IfOk, OnOk};
ghost use Rattle.ipg_names_scope.specs.Scope.{rule_named};
ghost use Rattle.ipg_names_scope.specs.Marks.{look, or_else};
ghost use Rattle.ipg_names_scope.specs.View.{entries_view, number_if};

use crate::roster::ListedRule;
use indexmap::IndexMap;
use std::alloc::{AllocError, Global};

/// From names to the numbers of rules.
pub type Numbers<'a> = IndexMap<&'a [u8], u32>;

/// The first rule of each name.
pub fn numbers_of<'a>(alloc: Global, roster: &[ListedRule<'a>]) -> Result<Numbers<'a>, AllocError>
    requires { length roster.now < 2 ^ 32 }
    ensures { IfOk result (λ numbers. (x : List ℕ) → look numbers x ≡ rule_named (entries_view roster.now) x) }
{
    let mut numbers = IndexMap::new(alloc);
    for (r, entry) in roster.iter().enumerate() {
        add_head(&mut numbers, r as u32, entry.rule.name.name.as_slice())?;
    }
    Ok(numbers)
}

/// Adds a head, unless there is one of its name.
fn add_head<'a>(numbers: &mut Numbers<'a>, rule: u32, name: &'a [u8]) -> Result<(), AllocError>
    ensures { OnOk result ((x : List ℕ) → look numbers.new x ≡ or_else (look numbers.old x) (number_if name.now x rule)) }
{
    if !numbers.contains_key(name) {
        numbers.insert(name, rule)?;
    }
    Ok(())
}

/// The rule that is known by the name.
pub fn number_at(numbers: &Numbers<'_>, name: &[u8]) -> Option<u32>
    ensures { result ≡ look numbers.now name.now }
{
    numbers.get(name).copied()
}
