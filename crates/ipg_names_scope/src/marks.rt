//! Where terms have a name: tables from names to the terms of an alternative.
ghost use Rattle.std.specs.Prelude.{◌≡◌, ℕ, List, OnOk, IfOk, if◌then◌else◌, bytes_eq};
ghost use Rattle.ipg_names_scope.specs.Terms.{names_in, what_calls, case_calls, calls_in, items_in, sets_in, has};
ghost use Rattle.ipg_names_scope.specs.Marks as spec;
ghost use Rattle.ipg_names_scope.specs.Marks.{look, IsMarked};

use indexmap::IndexMap;
use ipg_ast::{Case, Term, What};
use std::alloc::{AllocError, Global};

/// By what a name refers to terms: that they call it, have items of it, or set it.
#[derive(Clone, Copy)]
pub enum Family {
    Calls,
    Items,
    Sets,
}

/// The first two terms that have a name, and the last one to the left of the term at hand.
#[derive(Clone, Copy)]
pub struct Spots {
    pub first: u32,
    pub second: Option<u32>,
    pub left: Option<u32>,
}

/// From names to where terms of one alternative have them.
pub type Places<'a> = IndexMap<&'a [u8], Spots>;

/// A term that has a name is met as the table is made, and later passed from left to right.
#[derive(Clone, Copy)]
pub enum TermMark {
    Met(u32),
    Passed(u32),
}

fn or_else(first: Option<u32>, other: Option<u32>) -> Option<u32>
    ensures { result ≡ spec.or_else first other }
{
    match first {
        Some(n) => Some(n),
        None => other,
    }
}

fn marked(mark: TermMark, spots: Option<Spots>) -> Option<Spots>
    ensures { result ≡ spec.marked mark spots }
{
    match (mark, spots) {
        (TermMark::Met(u), None) => Some(Spots {
            first: u,
            second: None,
            left: None,
        }),
        (TermMark::Met(u), Some(spots)) => {
            if spots.first == u {
                Some(spots)
            } else {
                Some(Spots {
                    first: spots.first,
                    second: or_else(spots.second, Some(u)),
                    left: spots.left,
                })
            }
        }
        (TermMark::Passed(_), None) => None,
        (TermMark::Passed(u), Some(spots)) => Some(Spots {
            first: spots.first,
            second: spots.second,
            left: Some(u),
        }),
    }
}

/// The nearest term to the left, else the first to the right, of the term at hand.
pub fn nearest(spots: Option<Spots>, term: u32) -> Option<u32>
    ensures { result ≡ spec.nearest_spot spots term }
{
    match spots {
        None => None,
        Some(spots) => {
            if spots.first == term {
                or_else(spots.left, spots.second)
            } else {
                or_else(spots.left, Some(spots.first))
            }
        }
    }
}

pub fn spots_at(places: &Places<'_>, name: &[u8]) -> Option<Spots>
    ensures { result ≡ look places.now name.now }
{
    places.get(name).copied()
}

fn mark_name<'a>(places: &mut Places<'a>, name: &'a [u8], mark: TermMark) -> Result<(), AllocError>
    ensures { OnOk result ((x : List ℕ) → look places.new x ≡ (if bytes_eq name.now x then spec.marked mark (look places.old x) else look places.old x)) }
{
    if let Some(spots) = marked(mark, spots_at(places, name)) {
        places.insert(name, spots)?;
    }
    Ok(())
}

fn mark_what<'a>(places: &mut Places<'a>, what: &'a What, mark: TermMark) -> Result<(), AllocError>
    ensures { OnOk result (IsMarked mark (what_calls what.now) places.old places.new) }
{
    match what {
        What::Text(_) => Ok(()),
        What::Call(name) => mark_name(places, name.as_slice(), mark),
    }
}

fn mark_cases<'a>(
    places: &mut Places<'a>,
    cases: &'a [Case],
    mark: TermMark,
) -> Result<(), AllocError>
    ensures { OnOk result (IsMarked mark (spec.cases_call cases.now) places.old places.new) }
{
    for case in cases {
        mark_what(places, &case.slot.what, mark)?;
    }
    Ok(())
}

fn mark_calls<'a>(places: &mut Places<'a>, term: &'a Term, mark: TermMark) -> Result<(), AllocError>
    ensures { OnOk result (IsMarked mark (calls_in term.now) places.old places.new) }
{
    match term {
        Term::Slot(slot) => mark_what(places, &slot.what, mark),
        Term::Pick { cases, other, .. } => {
            mark_cases(places, cases.as_slice(), mark)?;
            mark_what(places, &other.what, mark)
        }
        Term::Set { .. } => Ok(()),
        Term::Test { .. } => Ok(()),
        Term::Repeat { .. } => Ok(()),
        Term::Many { .. } => Ok(()),
    }
}

fn mark_items<'a>(places: &mut Places<'a>, term: &'a Term, mark: TermMark) -> Result<(), AllocError>
    ensures { OnOk result (IsMarked mark (items_in term.now) places.old places.new) }
{
    match term {
        Term::Repeat { item, .. } => mark_name(places, item.name.as_slice(), mark),
        Term::Many { item, .. } => mark_name(places, item.name.as_slice(), mark),
        Term::Slot(_) => Ok(()),
        Term::Set { .. } => Ok(()),
        Term::Test { .. } => Ok(()),
        Term::Pick { .. } => Ok(()),
    }
}

fn mark_sets<'a>(places: &mut Places<'a>, term: &'a Term, mark: TermMark) -> Result<(), AllocError>
    ensures { OnOk result (IsMarked mark (sets_in term.now) places.old places.new) }
{
    match term {
        Term::Set { name, .. } => mark_name(places, name.name.as_slice(), mark),
        Term::Slot(_) => Ok(()),
        Term::Test { .. } => Ok(()),
        Term::Repeat { .. } => Ok(()),
        Term::Many { .. } => Ok(()),
        Term::Pick { .. } => Ok(()),
    }
}

/// Marks a term at each name that it has in that family.
pub fn mark_term<'a>(
    places: &mut Places<'a>,
    family: Family,
    term: &'a Term,
    mark: TermMark,
) -> Result<(), AllocError>
    ensures { OnOk result (IsMarked mark (names_in family term.now) places.old places.new) }
{
    match family {
        Family::Calls => mark_calls(places, term, mark),
        Family::Items => mark_items(places, term, mark),
        Family::Sets => mark_sets(places, term, mark),
    }
}

/// The table of an alternative's terms, none of which is passed yet.
pub fn places<'a>(
    alloc: Global,
    family: Family,
    terms: &'a [Term],
) -> Result<Places<'a>, AllocError>
    requires { spec.IsShort terms.now }
    ensures { IfOk result (λ places. (x : List ℕ) → look places x ≡ spec.spots_of (has family x) terms.now 0) }
{
    let mut places = IndexMap::new(alloc);
    for (u, term) in terms.iter().enumerate() {
        mark_term(&mut places, family, term, TermMark::Met(u as u32))?;
    }
    Ok(places)
}
