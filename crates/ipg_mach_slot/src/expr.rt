//! Slots, by the rows of their expressions.

ghost use Rattle.std.specs.Prelude.{◌≡◌, ◌≤◌, ℕ, ℤ, List, length, Option, None, Some, IfSome, slice_get};
ghost use Rattle.ipg_core.specs.declared.grammar.CoreExpr.{CoreExpr};
ghost use Rattle.ipg_core.specs.declared.grammar.CoreSlot.{CoreSlot};
ghost use Rattle.ipg_core.specs.declared.grammar.Sym.{Sym};
ghost use Rattle.ipg_core.specs.Environment.{Values};
ghost use Rattle.ipg_core.specs.Run.{value_of};
ghost use Rattle.ipg_core.specs.Eval.{is_zero as zero};
ghost use Rattle.ipg_core.specs.Meaning as spec;
ghost use Rattle.ipg_core.specs.Meaning.{Frame, State, Place, environment};
ghost use Rattle.ipg_mach_nodes.specs.Stored.{Stored, Source};
ghost use Rattle.ipg_table.specs.Rows.{Each, HoldsExpr, HoldsSlot, HoldsCase};
ghost use Rattle.ipg_mach_slot.specs.Found as found;
ghost use Rattle.ipg_mach_slot.specs.Found.{IsFound, IsSized, Shares};
ghost use Rattle.ipg_mach_moves.specs.Moves.{silent};

use crate::found::Found;
use crate::symbols::{interval, item_end, symbol};
use ipg_num::Answer;
use ipg_table::results::Results;
use ipg_table::row::{CaseRow, RowSpan, SlotRow};
use ipg_table::tables::Tables;

/// The tables, and a part of `size` bytes of the input.
#[derive(Clone, Copy)]
pub struct PartSite<'m> {
    pub tables: &'m Tables,
    pub bytes: &'m [u8],
    pub size: u32,
    ghost counted: { length bytes.now ≡ size },
}

/// The value of an expression. `area` is the stack of operands; `depth` of the tables says how long it has to be.
#[inline(always)]
#[tactic(auto, unfolding(ipg_core::specs::Meaning::value_in))]
pub fn value<R: Results>(tables: &Tables, results: &R, expr: RowSpan, area: &mut [i64]) -> Answer
    requires { tables.now.depth ≤ length area.now }
    ensures value { (f : Frame) (state : State) (item : Option ℤ) (e : CoreExpr) → R.stands results.now (environment f state item)
        → HoldsExpr tables.now expr e → spec.value_in f state item e ≡ value_of result }
    ensures sized { IsSized result }
    ensures area { length area.new ≡ length area.old }
{
    match tables.value(expr, results, area) {
        Answer::Val(value) => Answer::Val(value),
        Answer::Fail => Answer::Fail,
        Answer::Range => Answer::Range,
    }
}

/// A symbol between two values, where they are the ends of an interval.
#[inline(always)]
fn slot_between(site: &PartSite<'_>, sym: u32, from: i64, to: i64) -> Found
    ensures { (src : Source) (st : Stored) (at : ℕ) (f : Frame) (place : Place) (state : State) (slot : CoreSlot)
        → slice_get site.now.tables.now.syms sym ≡ Some slot.sym → Shares src at f site.now.tables.now site.now.bytes.now
        → IsFound src st at f state.own result (found.slot_between f place state slot from to) }
{
    match interval(site.size, from, to) {
        Some(ends) => symbol(site.tables, site.bytes, sym, ends),
        None => Found::NoTree,
    }
}

/// A slot with its left end evaluated.
#[inline(always)]
fn slot_from<R: Results>(
    site: &PartSite<'_>,
    results: &R,
    row: SlotRow,
    from: i64,
    area: &mut [i64],
) -> Found
    requires { site.now.tables.now.depth ≤ length area.now }
    ensures found { (src : Source) (st : Stored) (at : ℕ) (f : Frame) (place : Place) (state : State) (item : Option ℤ) (slot : CoreSlot)
        → R.stands results.now (environment f state item) → HoldsSlot site.now.tables.now row slot
        → Shares src at f site.now.tables.now site.now.bytes.now → IsFound src st at f state.own result (found.slot_from f place state item slot from) }
    ensures area { length area.new ≡ length area.old }
{
    match value(site.tables, results, row.to, area) {
        Answer::Val(to) => slot_between(site, row.sym, from, to),
        Answer::Fail => Found::NoTree,
        Answer::Range => Found::Range,
    }
}

/// A slot: its left end, its right end, a valid interval, its symbol.
#[inline(always)]
pub fn slot<R: Results>(site: &PartSite<'_>, results: &R, row: SlotRow, area: &mut [i64]) -> Found
    requires { site.now.tables.now.depth ≤ length area.now }
    ensures found { (src : Source) (st : Stored) (at : ℕ) (f : Frame) (place : Place) (state : State) (item : Option ℤ) (slot : CoreSlot)
        → R.stands results.now (environment f state item) → HoldsSlot site.now.tables.now row slot
        → Shares src at f site.now.tables.now site.now.bytes.now → IsFound src st at f state.own result (spec.slot_on silent f place state item slot) }
    ensures area { length area.new ≡ length area.old }
{
    match value(site.tables, results, row.from, area) {
        Answer::Val(from) => slot_from(site, results, row, from, area),
        Answer::Fail => Found::NoTree,
        Answer::Range => Found::Range,
    }
}

/// Whether a condition doesn't hold.
pub fn is_zero(value: i64) -> bool
    ensures { result ≡ zero value }
{
    value == 0
}

/// The branch of a switch that is taken. It stays apart, so that room for its answer is only made where it is asked for.
#[inline(never)]
fn branch<R: Results>(
    site: &PartSite<'_>,
    results: &R,
    cases: &[CaseRow],
    other: SlotRow,
    area: &mut [i64],
) -> Found
    requires { site.now.tables.now.depth ≤ length area.now }
    ensures found { (src : Source) (st : Stored) (at : ℕ) (f : Frame) (place : Place) (state : State) (branches : List (CoreExpr × CoreSlot))
        (last : CoreSlot) → R.stands results.now (environment f state None) → Each (HoldsCase site.now.tables.now) cases.now branches
        → HoldsSlot site.now.tables.now other last → Shares src at f site.now.tables.now site.now.bytes.now
        → IsFound src st at f state.own result (spec.pick_on silent f place state branches last) }
    ensures area { length area.new ≡ length area.old }
{
    let mut left = cases;
    while let Some((case, rest)) = left.split_first() {
        match value(site.tables, results, case.cond, area) {
            Answer::Val(x) => {
                if !is_zero(x) {
                    return slot(site, results, case.slot, area);
                }
                left = rest;
            }
            Answer::Fail => return Found::NoTree,
            Answer::Range => return Found::Range,
        }
    }
    slot(site, results, other, area)
}

/// The first branch of a switch whose condition isn't 0, else the last one.
#[inline(always)]
pub fn pick<R: Results>(
    site: &PartSite<'_>,
    results: &R,
    cases: &[CaseRow],
    other: SlotRow,
    area: &mut [i64],
) -> Found
    requires { site.now.tables.now.depth ≤ length area.now }
    ensures found { (src : Source) (st : Stored) (at : ℕ) (f : Frame) (place : Place) (state : State) (branches : List (CoreExpr × CoreSlot))
        (last : CoreSlot) → R.stands results.now (environment f state None) → Each (HoldsCase site.now.tables.now) cases.now branches
        → HoldsSlot site.now.tables.now other last → Shares src at f site.now.tables.now site.now.bytes.now
        → IsFound src st at f state.own result (spec.pick_on silent f place state branches last) }
    ensures area { length area.new ≡ length area.old }
{
    // A copy: the site of a call that takes no switch need not lie in memory.
    let here = *site;
    branch(&here, results, cases, other, area)
}

/// An item of a repetition on what is left of its interval.
#[inline(always)]
pub fn turn(site: &PartSite<'_>, sym: u32, from: u32, to: u32) -> Found
    requires inside { (from ≤ to) × (to ≤ site.now.size) }
    ensures { (src : Source) (st : Stored) (at : ℕ) (f : Frame) (place : Place) (own : Values) (one : Sym)
        → slice_get site.now.tables.now.syms sym ≡ Some one → Shares src at f site.now.tables.now site.now.bytes.now
        → IsFound src st at f own result (spec.item_on silent f place own from to one) }
{
    match end_of(site.tables, sym, from, to) {
        Some(end) => symbol(site.tables, site.bytes, sym, (from, end)),
        None => Found::NoTree,
    }
}

fn end_of(tables: &Tables, sym: u32, from: u32, to: u32) -> Option<u32>
    requires { from ≤ to }
    ensures end { (one : Sym) → slice_get tables.now.syms sym ≡ Some one → result ≡ spec.item_end from to one }
    ensures inside { IfSome result (λ end. (from ≤ end) × (end ≤ to)) }
{
    match tables.symbol_at(sym) {
        Some(one) => item_end(from, to, one),
        None => None,
    }
}
