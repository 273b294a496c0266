ghost use Rattle.std.specs.Prelude.{◌&&◌, int_lt, ◌≡◌, ℕ, ℤ, pos, ◌+◌, ◌*◌, ◌^◌, ◌<◌, ◌≤◌, List, Option, None};
ghost use Rattle.std.specs.Prelude.{Some, Bool, true, slice_get, length, map, IfOk, OnOk, IsTrue};
ghost use Rattle.std.specs.List.{list_all};
ghost use Rattle.std.specs.Ordering.{int_eq};
ghost use Rattle.std.specs.Int.RustNames.{unsigned_abs};
ghost use Rattle.ipg_cert.specs.Facts.{AtMost, at_least, at_most};
ghost use Rattle.ipg_cert.specs.Checks.{atom_in, form_of_entry, weighted_sum, combines};
ghost use Rattle.ipg_cert.specs.Totals.{total_at, AddsTerms, AreWithin};
ghost use Rattle.ipg_cert.specs.Seen.{form_of, seen, all_seen, Weighs, AreZero, Sums};

use crate::fact_ref::{Bound, FactRef};
use crate::sum::{add_terms, weighted};
use ipg_lin::Linear;
use ipg_lin::sum::{LARGEST, plus};
use ipg_num::item_at;
use std::alloc::{AllocError, Global};

/// The most entries of a Combine.
pub const MOST_ENTRIES: usize = 1 << 21;

impl Bound {
    /// The variable is at least `low`.
    pub fn at_least(var: u64, low: i128) -> Bound
        requires { unsigned_abs low ≤ 2 ^ 63 }
        ensures { AtMost (form_of result) ≡ at_least var low }
    {
        Bound {
            var,
            sign: -1,
            constant: low,
        }
    }

    /// The variable is at most `high`.
    pub fn at_most(var: u64, high: i128) -> Bound
        requires { unsigned_abs high ≤ 2 ^ 63 }
        ensures { AtMost (form_of result) ≡ at_most var high }
    {
        Bound {
            var,
            sign: 1,
            constant: -high,
        }
    }
}

/// Adds `weight` times a form of one variable.
fn add_bound(totals: &mut Vec<i128>, weight: u64, bound: &Bound) -> Result<i128, AllocError>
    requires weight { weight ≤ 2 ^ 40 }
    requires size { AreWithin (2 ^ 120) totals.old.items }
    ensures { IfOk result (λ constant. Weighs weight totals.old.items totals.new.items (Some constant) (Some (form_of bound.now))) }
{
    let bound = *bound;
    add_terms(totals, weight, &[(bound.var, bound.sign)])?;
    Ok(weighted(weight, bound.constant))
}

/// Adds `weight` times the form of a fact, and gives `weight` times its constant, if the fact is an atom.
fn add_fact(totals: &mut Vec<i128>, weight: u64, fact: &FactRef) -> Result<Option<i128>, AllocError>
    requires weight { weight ≤ 2 ^ 40 }
    requires size { AreWithin (2 ^ 120) totals.old.items }
    ensures { IfOk result (λ found. Weighs weight totals.old.items totals.new.items found (atom_in (Some (seen fact.now)))) }
{
    match fact {
        FactRef::Limit(bound) => Ok(Some(add_bound(totals, weight, bound)?)),
        FactRef::Atom(form) => Ok(Some(add_form(totals, weight, form)?)),
        FactRef::Choice(_) => Ok(None),
    }
}

/// Adds `weight` times a linear form, and gives `weight` times its constant.
fn add_form(totals: &mut Vec<i128>, weight: u64, form: &Linear) -> Result<i128, AllocError>
    requires weight { weight ≤ 2 ^ 40 }
    requires size { AreWithin (2 ^ 120) totals.old.items }
    ensures { IfOk result (λ constant. Weighs weight totals.old.items totals.new.items (Some constant) (Some form.now)) }
{
    add_terms(totals, weight, form.terms())?;
    Ok(weighted(weight, i128::from(form.constant())))
}

/// Adds what an entry names, and gives its weighted constant, if the weight is in range and the fact an atom.
fn add_entry(
    totals: &mut Vec<i128>,
    known: &[FactRef],
    entry: &(u64, u64),
) -> Result<Option<i128>, AllocError>
    requires { AreWithin (2 ^ 120) totals.old.items }
    ensures { IfOk result (λ found. Weighs entry.now.0 totals.old.items totals.new.items found (form_of_entry (all_seen known.now) entry.now)) }
{
    if entry.0 == 0 || LARGEST < entry.0 {
        return Ok(None);
    }
    match item_at(known, entry.1 as usize) {
        Some(fact) => add_fact(totals, entry.0, fact),
        None => Ok(None),
    }
}

/// The weighted sum of the entries: its totals, and its constant.
fn weigh(
    entries: &[(u64, u64)],
    known: &[FactRef],
    totals: &mut Vec<i128>,
) -> Result<Option<i128>, AllocError>
    requires few { length entries.now ≤ 2 ^ 21 }
    requires zero { AreZero totals.old.items }
    ensures { IfOk result (λ found. Sums totals.new.items found (weighted_sum (all_seen known.now) entries.now)) }
{
    let mut constant = 0i128;
    for entry in entries {
        let Some(more) = add_entry(totals, known, entry)? else {
            return Ok(None);
        };
        constant = plus(more, constant);
    }
    Ok(Some(constant))
}

/// Whether no variable is left.
fn all_zero(totals: &[i128]) -> bool
    ensures { result ≡ list_all (λ z. int_eq z (pos 0)) totals.now }
{
    totals.iter().all(|total| *total == 0)
}

fn is_absurd(totals: &[i128], constant: i128) -> bool
    ensures { result ≡ (list_all (λ z. int_eq z (pos 0)) totals.now && int_lt (pos 0) constant) }
{
    all_zero(totals) && 0 < constant
}

/// Whether the entries' weighted sum reads `k <= 0` for a `k` above 0. No variable is taken before,
/// nor after a yes.
pub fn combine(
    entries: &[(u64, u64)],
    known: &[FactRef],
    totals: &mut Vec<i128>,
) -> Result<bool, AllocError>
    requires { AreZero totals.old.items }
    ensures combines { IfOk result (λ yes. yes ≡ combines entries.now (all_seen known.now)) }
    ensures zero { IfOk result (λ yes. IsTrue yes → AreZero totals.new.items) }
{
    if entries.is_empty() || MOST_ENTRIES < entries.len() {
        return Ok(false);
    }
    match weigh(entries, known, totals)? {
        Some(constant) => Ok(is_absurd(totals, constant)),
        None => Ok(false),
    }
}

/// Whether the Combine of these entries refutes the facts.
pub fn combines(
    alloc: Global,
    entries: &[(u64, u64)],
    known: &[FactRef],
) -> Result<bool, AllocError>
    ensures { IfOk result (λ yes. yes ≡ combines entries.now (all_seen known.now)) }
{
    let mut totals = Vec::new(alloc);
    combine(entries, known, &mut totals)
}
