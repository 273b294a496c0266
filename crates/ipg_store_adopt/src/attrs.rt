//! Attributes that terms set.

ghost use Rattle.std.specs.Prelude.{◌≡◌};
ghost use Rattle.ipg_store_adopt.specs.WellFormed as spec;

use ipg_core::grammar::CoreTerm;

/// Whether the term sets the attribute.
fn sets_attr(term: &CoreTerm, attr: u32) -> bool
    ensures { result ≡ spec.sets_attr attr term.now }
{
    match term {
        CoreTerm::Set { attr: set, .. } => *set == attr,
        CoreTerm::Slot(_) => false,
        CoreTerm::Test(_) => false,
        CoreTerm::Repeat { .. } => false,
        CoreTerm::Many { .. } => false,
        CoreTerm::Pick { .. } => false,
    }
}

/// Whether some term sets the attribute.
pub(crate) fn sets_some(terms: &[CoreTerm], attr: u32) -> bool
    ensures { result ≡ spec.sets_some terms.now attr }
{
    terms.iter().any(|term| sets_attr(term, attr))
}

/// Whether a term behind this one sets what it sets.
fn sets_again(term: &CoreTerm, behind: &[CoreTerm]) -> bool
    ensures { result ≡ spec.sets_again term.now behind.now }
{
    match term {
        CoreTerm::Set { attr, .. } => sets_some(behind, *attr),
        CoreTerm::Slot(_) => false,
        CoreTerm::Test(_) => false,
        CoreTerm::Repeat { .. } => false,
        CoreTerm::Many { .. } => false,
        CoreTerm::Pick { .. } => false,
    }
}

/// Whether no attribute is set by two terms.
pub(crate) fn sets_once(terms: &[CoreTerm]) -> bool
    ensures { result ≡ spec.sets_once terms.now }
{
    for (at, term) in terms.iter().enumerate() {
        if sets_again(term, &terms[at + 1..]) {
            return false;
        }
    }
    true
}
