//! The tables of a text, of an alternative and of a term.
ghost use Rattle.std.specs.Prelude.{◌≡◌, ◌+◌, ◌<◌, None, IfOk, OnOk, length};
ghost use Rattle.ipg_names_scope.specs.Marks.{IsShort};
ghost use Rattle.ipg_names_scope.specs.Scope as spec;
ghost use Rattle.ipg_names_scope.specs.Site.{spot_scope, site_scope, AreMarks, IsOuter};

use crate::attrs::Attrs;
use crate::heads::Numbers;
use crate::marks::{Family, Places, TermMark, mark_term, places};
use crate::roster::ListedRule;
use ipg_ast::{Ident, Term};
use ipg_num::List;
use std::alloc::{AllocError, Global};

/// The tables of a whole text.
#[derive(Clone, Copy)]
pub struct NameTables<'t, 'a> {
    pub roster: &'t [ListedRule<'a>],
    pub numbers: &'t Numbers<'a>,
    pub fields: &'t [List<Places<'a>>],
    pub attrs: &'t Attrs<'a>,
}

/// The tables of an alternative.
#[derive(Drop)]
pub struct AltTables<'a> {
    pub calls: Places<'a>,
    pub items: Places<'a>,
    pub sets: Places<'a>,
}

/// A term of an alternative, and the tables that say what names mean there.
#[derive(Clone, Copy)]
pub struct TermSite<'t, 'a> {
    pub tables: NameTables<'t, 'a>,
    pub home: (u32, u32),
    pub marks: &'t AltTables<'a>,
    pub outer: &'t Places<'a>,
    pub term: u32,
}

/// The item interval of an array: its loop variable, and its symbol.
#[derive(Clone, Copy)]
pub struct Inside<'s> {
    pub var: &'s [u8],
    pub item: &'s [u8],
}

/// A place in a term: in the item interval of an array, or not.
#[derive(Clone, Copy)]
pub struct TermSpot<'s, 't, 'a> {
    pub site: &'s TermSite<'t, 'a>,
    pub inside: Option<Inside<'s>>,
}

/// The tables of an alternative, none of whose terms is passed yet.
pub fn alt_tables<'a>(alloc: Global, terms: &'a [Term]) -> Result<AltTables<'a>, AllocError>
    requires { IsShort terms.now }
    ensures { IfOk result (λ tables. AreMarks terms.now 0 tables) }
{
    Ok(AltTables {
        calls: places(alloc, Family::Calls, terms)?,
        items: places(alloc, Family::Items, terms)?,
        sets: places(alloc, Family::Sets, terms)?,
    })
}

/// Passes a term: it is to the left of the ones to come.
pub fn pass<'a>(tables: &mut AltTables<'a>, terms: &'a [Term], term: u32) -> Result<(), AllocError>
    requires marks { AreMarks terms.now term tables.old }
    requires within { term < length terms.now }
    ensures { OnOk result (AreMarks terms.now (term + 1) tables.new) }
{
    let passed = &terms[term as usize];
    mark_term(
        &mut tables.calls,
        Family::Calls,
        passed,
        TermMark::Passed(term),
    )?;
    mark_term(
        &mut tables.items,
        Family::Items,
        passed,
        TermMark::Passed(term),
    )?;
    mark_term(
        &mut tables.sets,
        Family::Sets,
        passed,
        TermMark::Passed(term),
    )
}

/// The table of the attributes that the terms set.
pub fn outer_of<'a>(alloc: Global, terms: &'a [Term]) -> Result<Places<'a>, AllocError>
    requires { IsShort terms.now }
    ensures { IfOk result (λ outer. IsOuter terms.now outer) }
{
    places(alloc, Family::Sets, terms)
}

/// The alternative that local rules belong to: the one at hand, or its holder.
pub fn home_of(at: (u32, u32), holder: Option<(u32, u32)>) -> (u32, u32)
    ensures { result ≡ spec.home_of at holder }
{
    match holder {
        None => at,
        Some(holder) => holder,
    }
}

/// A term outside of item intervals.
pub fn term_spot<'s, 't, 'a>(site: &'s TermSite<'t, 'a>) -> TermSpot<'s, 't, 'a>
    ensures scope { spot_scope result ≡ site_scope site.now }
    ensures outside { result.inside ≡ None }
{
    TermSpot { site, inside: None }
}

/// The item interval of an array.
pub fn item_spot<'s, 't, 'a>(
    spot: &TermSpot<'s, 't, 'a>,
    var: &'s Ident,
    item: &'s Ident,
) -> TermSpot<'s, 't, 'a>
    requires { spot.now.inside ≡ None }
    ensures { spot_scope result ≡ spec.inside (spot_scope spot.now) var.now.name item.now.name }
{
    TermSpot {
        site: spot.site,
        inside: Some(Inside {
            var: var.name.as_slice(),
            item: item.name.as_slice(),
        }),
    }
}
