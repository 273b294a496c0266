//! What names mean at a term.
ghost use Rattle.std.specs.Prelude.{◌≡◌, ◌||◌, option_map, is_some, bytes_eq, slice_get};
ghost use Rattle.ipg_core.specs.Grammar.{same_place};
ghost use Rattle.ipg_names_scope.specs.Scope as spec;
ghost use Rattle.ipg_names_scope.specs.Site as site_view;
ghost use Rattle.ipg_names_scope.specs.Site.{spot_scope, callee_sym};
ghost use Rattle.ipg_names_scope.specs.Marks.{look};

use crate::heads::number_at;
use crate::marks::{Places, nearest, spots_at};
use crate::primitives::primitive_has;
use crate::roster::ListedRule;
use crate::tables::{TermSite, TermSpot};
use ipg_core::grammar::Primitive;
use ipg_num::item_at;

/// What a name stands for.
#[derive(Clone, Copy)]
pub enum Callee {
    Prim(Primitive),
    Rule(u32),
}

fn is_same(a: (u32, u32), b: (u32, u32)) -> bool
    ensures { result ≡ same_place a b }
{
    a.0 == b.0 && a.1 == b.1
}

fn is_visible(home: (u32, u32), holder: Option<(u32, u32)>) -> bool
    ensures { result ≡ spec.is_visible home holder }
{
    match holder {
        None => true,
        Some(holder) => is_same(holder, home),
    }
}

fn is_entry_visible(home: (u32, u32), roster: &[ListedRule<'_>], rule: u32) -> bool
    ensures { result ≡ site_view.rule_visible home roster.now rule }
{
    match item_at(roster, rule as usize) {
        None => false,
        Some(entry) => is_visible(home, entry.holder),
    }
}

fn rule_callee(site: &TermSite<'_, '_>, name: &[u8]) -> Option<Callee>
    ensures { option_map callee_sym result ≡ site_view.rule_callee site.now name.now }
{
    match number_at(site.tables.numbers, name) {
        None => None,
        Some(rule) => {
            if is_entry_visible(site.home, site.tables.roster, rule) {
                Some(Callee::Rule(rule))
            } else {
                None
            }
        }
    }
}

/// What may be parsed under that name.
#[tactic(auto, unfolding(crate::specs::Site::spot_scope))]
pub fn callee_at(spot: &TermSpot<'_, '_, '_>, name: &[u8]) -> Option<Callee>
    ensures { option_map callee_sym result ≡ (spot_scope spot.now).sym name.now }
{
    match Primitive::of_word(name) {
        Some(primitive) => Some(Callee::Prim(primitive)),
        None => rule_callee(spot.site, name),
    }
}

fn is_set(places: &Places<'_>, name: &[u8]) -> bool
    ensures { result ≡ is_some (look places.now name.now) }
{
    spots_at(places, name).is_some()
}

fn some_set(tables: &[Places<'_>], field: &[u8]) -> bool
    ensures { result ≡ site_view.some_table tables.now field.now }
{
    tables.iter().any(|places| is_set(places, field))
}

fn all_set(tables: &[Places<'_>], field: &[u8]) -> bool
    ensures { result ≡ site_view.all_tables tables.now field.now }
{
    tables.iter().all(|places| is_set(places, field))
}

fn some_alt_sets(site: &TermSite<'_, '_>, rule: u32, field: &[u8]) -> bool
    ensures { result ≡ site_view.some_table (site_view.row_at (slice_get site.now.tables.fields.now rule)) field.now }
{
    match item_at(site.tables.fields, rule as usize) {
        None => false,
        Some(row) => some_set(row.as_slice(), field),
    }
}

fn all_alts_set(site: &TermSite<'_, '_>, rule: u32, field: &[u8]) -> bool
    ensures { result ≡ site_view.all_tables (site_view.row_at (slice_get site.now.tables.fields.now rule)) field.now }
{
    match item_at(site.tables.fields, rule as usize) {
        None => true,
        Some(row) => all_set(row.as_slice(), field),
    }
}

/// Whether some alternative sets the attribute.
#[tactic(auto, unfolding(crate::specs::Site::spot_scope))]
pub fn some_has(spot: &TermSpot<'_, '_, '_>, callee: Callee, field: &[u8]) -> bool
    ensures { result ≡ (spot_scope spot.now).some (callee_sym callee) field.now }
{
    match callee {
        Callee::Prim(primitive) => primitive_has(primitive, field),
        Callee::Rule(rule) => some_alt_sets(spot.site, rule, field),
    }
}

/// Whether all alternatives set the attribute.
#[tactic(auto, unfolding(crate::specs::Site::spot_scope))]
pub fn all_have(spot: &TermSpot<'_, '_, '_>, callee: Callee, field: &[u8]) -> bool
    ensures { result ≡ (spot_scope spot.now).all (callee_sym callee) field.now }
{
    match callee {
        Callee::Prim(primitive) => primitive_has(primitive, field),
        Callee::Rule(rule) => all_alts_set(spot.site, rule, field),
    }
}

/// Whether the alternative sets the attribute.
#[tactic(auto, unfolding(crate::specs::Site::spot_scope))]
pub fn is_own(spot: &TermSpot<'_, '_, '_>, name: &[u8]) -> bool
    ensures { result ≡ (spot_scope spot.now).own name.now }
{
    is_set(&spot.site.marks.sets, name)
}

/// Whether an earlier term sets the attribute.
#[tactic(auto, unfolding(crate::specs::Site::spot_scope))]
pub fn is_before(spot: &TermSpot<'_, '_, '_>, name: &[u8]) -> bool
    ensures { result ≡ (spot_scope spot.now).before name.now }
{
    match spots_at(&spot.site.marks.sets, name) {
        None => false,
        Some(spots) => spots.left.is_some(),
    }
}

/// Whether the holder sets the attribute.
#[tactic(auto, unfolding(crate::specs::Site::spot_scope))]
pub fn is_outer(spot: &TermSpot<'_, '_, '_>, name: &[u8]) -> bool
    ensures { result ≡ (spot_scope spot.now).outer name.now }
{
    is_set(spot.site.outer, name)
}

/// Whether it is the loop variable.
#[tactic(auto, unfolding(crate::specs::Site::spot_scope))]
pub fn is_var(spot: &TermSpot<'_, '_, '_>, name: &[u8]) -> bool
    ensures { result ≡ spec.is_var (spot_scope spot.now).var name.now }
{
    match spot.inside {
        None => false,
        Some(inside) => name == inside.var,
    }
}

/// The term that a field of that name is read of.
#[tactic(auto, unfolding(crate::specs::Site::spot_scope))]
pub fn call_at(spot: &TermSpot<'_, '_, '_>, name: &[u8]) -> Option<u32>
    ensures { result ≡ (spot_scope spot.now).call name.now }
{
    nearest(spots_at(&spot.site.marks.calls, name), spot.site.term)
}

/// The term that a field of an item of that name is read of.
#[tactic(auto, unfolding(crate::specs::Site::spot_scope))]
pub fn items_at(spot: &TermSpot<'_, '_, '_>, name: &[u8]) -> Option<u32>
    ensures { result ≡ (spot_scope spot.now).items name.now }
{
    let found = nearest(spots_at(&spot.site.marks.items, name), spot.site.term);
    match spot.inside {
        None => found,
        Some(inside) => {
            if name == inside.item {
                Some(spot.site.term)
            } else {
                found
            }
        }
    }
}

/// The number of an attribute.
#[tactic(auto, unfolding(crate::specs::Site::spot_scope))]
pub fn attr(spot: &TermSpot<'_, '_, '_>, name: &[u8]) -> u32
    ensures { result ≡ spec.attr_number (spot_scope spot.now) name.now }
{
    let site = spot.site;
    site.tables.attrs.number(name)
}
