//! About how much memory the completion of intervals takes, told before it is done. No clause speaks of it: it decides where
//! memory is wanting, and nothing else.

use ipg_core::grammar::Sym;
use ipg_names::{NamedPlace, NamedRule, NamedSlot, NamedTerm};

pub const BYTES_PER_MIB: usize = 1 << 20;

/// How many bytes the ends may take that completion writes: 512 MiB. Past it memory is wanting.
pub const MOST_COMPLETED: u64 = 1 << 29;

/// An expression without parts.
const PLACE: u64 = 64;

/// The place behind an array or a repetition, but for its own left.
const BEHIND: u64 = 80;

/// How often what stands to the left is written for an interval.
fn written(place: &NamedPlace) -> u64 {
    match place {
        NamedPlace::Open => 2,
        NamedPlace::Length(_) => 2,
        NamedPlace::Ends(_, _) => 0,
    }
}

fn written_in(term: &NamedTerm) -> u64 {
    match term {
        NamedTerm::Slot(slot) => written(&slot.place),
        NamedTerm::Set { .. } => 0,
        NamedTerm::Test(_) => 0,
        NamedTerm::Repeat { .. } => 0,
        NamedTerm::Many { item: _, place } => written(place),
        NamedTerm::Pick { cases, other } => {
            let mut sum = written(&other.place);
            for case in cases.as_slice() {
                sum = sum.saturating_add(written(&case.1.place));
            }
            sum
        }
    }
}

fn end_of(slot: &NamedSlot) -> u64 {
    match &slot.sym {
        Sym::Text(bytes) => PLACE.saturating_add(bytes.len() as u64),
        Sym::Prim(_) => PLACE,
        Sym::Rule(_) => PLACE,
    }
}

/// What stands to the left behind a term.
fn behind(term: &NamedTerm, left: u64) -> u64 {
    match term {
        NamedTerm::Slot(slot) => end_of(slot),
        NamedTerm::Set { .. } => left,
        NamedTerm::Test(_) => left,
        NamedTerm::Repeat { .. } => left.saturating_add(BEHIND),
        NamedTerm::Many { .. } => left.saturating_add(BEHIND),
        NamedTerm::Pick { .. } => PLACE,
    }
}

fn in_terms(terms: &[NamedTerm]) -> u64 {
    let mut left = PLACE;
    let mut sum: u64 = 0;
    for term in terms {
        sum = sum.saturating_add(written_in(term).saturating_mul(left));
        left = behind(term, left);
    }
    sum
}

/// The bytes that all ends take, at most.
pub fn completed_size(rules: &[NamedRule]) -> u64 {
    let mut sum: u64 = 0;
    for rule in rules {
        for alt in rule.alts.as_slice() {
            sum = sum.saturating_add(in_terms(alt.terms.as_slice()));
        }
    }
    sum
}
