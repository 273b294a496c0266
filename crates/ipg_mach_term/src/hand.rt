//! What is found at the term at hand.

ghost use Rattle.std.specs.Prelude.{◌≡◌, ◌≤◌, ℕ, ℤ, [], List, length, Result, Some, None, slice_get};
ghost use Rattle.ipg_core.specs.declared.grammar.CoreTerm.{CoreTerm};
ghost use Rattle.ipg_core.specs.declared.grammar.Sym.{Sym};
ghost use Rattle.ipg_core.specs.Environment.{Values};
ghost use Rattle.ipg_core.specs.Tree as tree;
ghost use Rattle.ipg_core.specs.Run.{Run, OutOfRange};
ghost use Rattle.ipg_core.specs.Meaning as spec;
ghost use Rattle.ipg_core.specs.Meaning.{Frame, Place, State, environment};
ghost use Rattle.ipg_mach_moves.specs.Moves as moves;
ghost use Rattle.ipg_mach_moves.specs.Moves.{silent};
ghost use Rattle.ipg_mach_nodes.specs.Stored.{Source, Stored};
ghost use Rattle.ipg_table.specs.Rows.{HoldsTerm};
ghost use Rattle.ipg_mach_slot.specs.Found.{IsFound, Shares};
ghost use Rattle.ipg_mach_term.specs.Advance.{IsEntry, IsAtHand, environment_at};
ghost use Rattle.ipg_mach_term.specs.declared.entry.TermEntry.TheVariants as entries;
ghost use Rattle.ipg_mach_term.specs.Parts.{FoundEndsBy, made_of};

use crate::advance::{Advance, AtHand};
use crate::enter::{array, many, set, test};
use crate::entry::TermEntry;
use crate::parsed::taken;
use ipg_mach_nodes::Store;
use ipg_mach_slot::{Found, PartSite, pick, slot, turn};
use ipg_table::results::Results;
use ipg_table::row::{Action, Instr};
use ipg_table::tables::Tables;
use std::alloc::Allocator;

/// What a term makes of what was found for it.
#[inline(always)]
fn made<A: Allocator + Clone + Drop>(
    tables: &Tables,
    store: &Store<A>,
    action: Action,
    entry: TermEntry,
    found: Found,
) -> AtHand
    ensures { (src : Source) (at n u : ℕ) (f : Frame) (state : State) (items : List tree.Kid) (e : moves.Entry) (term : CoreTerm) (run : Run tree.Kid)
        → src.syms ≡ tables.now.syms → length f.bytes ≡ n → HoldsTerm tables.now action term → IsEntry n entry items e
        → IsFound src store.now at f state.own found run → FoundEndsBy entry found run
        → moves.taken state u e term (Result.Err OutOfRange) ≡ Result.Err OutOfRange
        → IsAtHand src store.now at n u state items f entry result (made_of state u e term run) }
{
    match found {
        Found::Kid(kid) => AtHand::Makes(taken(tables, store, action, entry, Some(kid))),
        Found::Call { rule, from, to } => AtHand::Calls { rule, from, to },
        Found::NoTree => AtHand::Makes(taken(tables, store, action, entry, None)),
        Found::Range => AtHand::Makes(Advance::Range),
    }
}

/// What is found at a term that is entered now.
#[inline(always)]
fn outside<R: Results, A: Allocator + Clone + Drop>(
    site: &PartSite<'_>,
    store: &Store<A>,
    results: &R,
    action: Action,
    area: &mut [i64],
) -> AtHand
    requires { site.now.tables.now.depth ≤ length area.now }
    ensures found { (src : Source) (at u : ℕ) (f : Frame) (state : State) (term : CoreTerm) → R.stands results.now (environment f state None)
        → HoldsTerm site.now.tables.now action term → Shares src at f site.now.tables.now site.now.bytes.now
        → IsAtHand src store.now at site.now.size u state [] f entries.Outside result (moves.advance silent f state u moves.Outside (Some term)) }
    ensures area { length area.new ≡ length area.old }
{
    let tables = site.tables;
    match action {
        Action::Slot(row) => {
            let found = slot(site, results, row, area);
            made(tables, store, action, TermEntry::Outside, found)
        }
        Action::Pick { cases, other } => {
            let found = pick(site, results, tables.cases(cases), other, area);
            made(tables, store, action, TermEntry::Outside, found)
        }
        Action::Set { attr, value } => AtHand::Makes(set(site, results, attr, value, area)),
        Action::Test(cond) => AtHand::Makes(test(site, results, cond, area)),
        Action::Repeat { first, last, item } => {
            AtHand::Makes(array(site, results, first, last, item.sym, area))
        }
        Action::Many(row) => AtHand::Makes(many(site, results, row, area)),
    }
}

/// What is found at the next item of an array.
#[inline(always)]
fn item<R: Results, A: Allocator + Clone + Drop>(
    site: &PartSite<'_>,
    store: &Store<A>,
    results: &R,
    action: Action,
    entry: TermEntry,
    area: &mut [i64],
) -> AtHand
    requires { site.now.tables.now.depth ≤ length area.now }
    ensures found { (src : Source) (at u left : ℕ) (z : ℤ) (f : Frame) (state : State) (items : List tree.Kid) (e : moves.Entry) (term : CoreTerm)
        → entry ≡ entries.Items left z → R.stands results.now (environment_at f state u e term) → HoldsTerm site.now.tables.now action term
        → IsEntry site.now.size entry items e → Shares src at f site.now.tables.now site.now.bytes.now
        → IsAtHand src store.now at site.now.size u state items f entry result (moves.advance silent f state u e (Some term)) }
    ensures area { length area.new ≡ length area.old }
{
    match action {
        Action::Repeat { item, .. } => {
            let found = slot(site, results, item, area);
            made(site.tables, store, action, entry, found)
        }
        _ => AtHand::Makes(Advance::NoTree),
    }
}

/// An item of a repetition, on what is left of an interval of the part.
#[inline(always)]
fn turn_within(site: &PartSite<'_>, sym: u32, at: u32, to: u32) -> Found
    ensures { (src : Source) (st : Stored) (begin : ℕ) (f : Frame) (place : Place) (own : Values) (one : Sym) → at ≤ to → to ≤ site.now.size
        → slice_get site.now.tables.now.syms sym ≡ Some one → Shares src begin f site.now.tables.now site.now.bytes.now
        → IsFound src st begin f own result (spec.item_on silent f place own at to one) }
{
    if at > to {
        return Found::NoTree;
    }
    if to > site.size {
        return Found::NoTree;
    }
    turn(site, sym, at, to)
}

/// What is found at the next item of a repetition.
#[inline(always)]
fn next_turn<A: Allocator + Clone + Drop>(
    site: &PartSite<'_>,
    store: &Store<A>,
    action: Action,
    at: u32,
    to: u32,
) -> AtHand
    ensures { (src : Source) (begin u : ℕ) (f : Frame) (state : State) (items : List tree.Kid) (e : moves.Entry) (term : CoreTerm)
        → HoldsTerm site.now.tables.now action term → IsEntry site.now.size (entries.Turns at to) items e
        → Shares src begin f site.now.tables.now site.now.bytes.now
        → IsAtHand src store.now begin site.now.size u state items f (entries.Turns at to) result (moves.advance silent f state u e (Some term)) }
{
    match action {
        Action::Many(row) => {
            let found = turn_within(site, row.sym, at, to);
            made(
                site.tables,
                store,
                action,
                TermEntry::Turns { at, to },
                found,
            )
        }
        _ => AtHand::Makes(Advance::NoTree),
    }
}

/// What is found at the term at hand: a value, a test, an array or a repetition that is entered, or what is parsed next.
pub fn at_hand<R: Results, A: Allocator + Clone + Drop>(
    site: &PartSite<'_>,
    store: &Store<A>,
    results: &R,
    instr: Instr,
    entry: TermEntry,
    area: &mut [i64],
) -> AtHand
    requires { site.now.tables.now.depth ≤ length area.now }
    ensures found { (src : Source) (at u : ℕ) (f : Frame) (state : State) (items : List tree.Kid) (e : moves.Entry) (term : CoreTerm)
        → R.stands results.now (environment_at f state u e term) → HoldsTerm site.now.tables.now instr.action term → instr.term ≡ u
        → IsEntry site.now.size entry items e → Shares src at f site.now.tables.now site.now.bytes.now
        → IsAtHand src store.now at site.now.size u state items f entry result (moves.advance silent f state u e (Some term)) }
    ensures area { length area.new ≡ length area.old }
{
    match entry {
        TermEntry::Outside => outside(site, store, results, instr.action, area),
        TermEntry::Items { .. } => item(site, store, results, instr.action, entry, area),
        TermEntry::Turns { at, to } => next_turn(site, store, instr.action, at, to),
    }
}
