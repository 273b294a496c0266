//! What a term makes of the values of its expressions, where it makes no call.

ghost use Rattle.std.specs.Prelude.{◌≡◌, ◌≤◌, ℕ, [], length, Some, None, slice_get, ◌-ℤ◌};
ghost use Rattle.ipg_core.specs.declared.grammar.CoreExpr.{CoreExpr};
ghost use Rattle.ipg_core.specs.declared.grammar.CoreSlot.{CoreSlot};
ghost use Rattle.ipg_core.specs.declared.grammar.CoreTerm.TheVariants as core;
ghost use Rattle.ipg_core.specs.declared.grammar.Sym.{Sym};
ghost use Rattle.ipg_core.specs.Meaning as spec;
ghost use Rattle.ipg_core.specs.Meaning.{Frame, State, environment};
ghost use Rattle.ipg_mach_moves.specs.Moves as moves;
ghost use Rattle.ipg_mach_moves.specs.Moves.{silent};
ghost use Rattle.ipg_mach_nodes.specs.Stored.{Source, Stored};
ghost use Rattle.ipg_table.specs.Rows.{HoldsExpr, HoldsSlot};
ghost use Rattle.ipg_mach_term.specs.Advance.{IsMade};
ghost use Rattle.ipg_mach_term.specs.Parts as parts;
ghost use Rattle.ipg_mach_term.specs.Parts.{tested};

use crate::advance::Advance;
use crate::entry::TermEntry;
use ipg_mach_slot::{PartSite, interval, is_zero, value};
use ipg_num::Answer;
use ipg_table::results::Results;
use ipg_table::row::{RowSpan, SlotRow};

/// An attribute has the value of its expression.
pub(crate) fn set<R: Results>(
    site: &PartSite<'_>,
    results: &R,
    attr: u32,
    expr: RowSpan,
    area: &mut [i64],
) -> Advance
    requires { site.now.tables.now.depth ≤ length area.now }
    ensures made { (src : Source) (st : Stored) (at n u : ℕ) (f : Frame) (state : State) (e : CoreExpr)
        → R.stands results.now (environment f state None) → HoldsExpr site.now.tables.now expr e
        → IsMade src st at n u state [] result (moves.advance silent f state u moves.Outside (Some (core.Set attr e))) }
    ensures area { length area.new ≡ length area.old }
{
    match value(site.tables, results, expr, area) {
        Answer::Val(value) => Advance::Value { attr, value },
        Answer::Fail => Advance::NoTree,
        Answer::Range => Advance::Range,
    }
}

/// A test with its condition evaluated.
fn passes(value: i64) -> Advance
    ensures { (src : Source) (st : Stored) (at n u : ℕ) (state : State) → IsMade src st at n u state [] result (tested state value) }
{
    if is_zero(value) {
        Advance::NoTree
    } else {
        Advance::Passed
    }
}

/// A test passes where its condition isn't 0.
pub(crate) fn test<R: Results>(
    site: &PartSite<'_>,
    results: &R,
    cond: RowSpan,
    area: &mut [i64],
) -> Advance
    requires { site.now.tables.now.depth ≤ length area.now }
    ensures made { (src : Source) (st : Stored) (at n u : ℕ) (f : Frame) (state : State) (e : CoreExpr)
        → R.stands results.now (environment f state None) → HoldsExpr site.now.tables.now cond e
        → IsMade src st at n u state [] result (moves.advance silent f state u moves.Outside (Some (core.Test e))) }
    ensures area { length area.new ≡ length area.old }
{
    match value(site.tables, results, cond, area) {
        Answer::Val(value) => passes(value),
        Answer::Fail => Advance::NoTree,
        Answer::Range => Advance::Range,
    }
}

/// How many values there are from `first` up to, and not including, `last`.
fn count(first: i64, last: i64) -> u64
    ensures { result ≡ spec.times (last -ℤ first) }
{
    if first < last {
        (i128::from(last) - i128::from(first)) as u64
    } else {
        0
    }
}

/// An array is entered, or is past where it has no items.
fn array_between(first: i64, last: i64, sym: u32) -> Advance
    ensures { (src : Source) (st : Stored) (at n u : ℕ) (state : State) (name : Sym) → slice_get src.syms sym ≡ Some name
        → IsMade src st at n u state [] result (parts.array_between state u name first last) }
{
    let left = count(first, last);
    if left == 0 {
        Advance::Array { sym }
    } else {
        Advance::Inside(TermEntry::Items { left, item: first })
    }
}

/// An array with its first bound evaluated.
#[inline(always)]
fn array_from<R: Results>(
    site: &PartSite<'_>,
    results: &R,
    first: i64,
    last: RowSpan,
    sym: u32,
    area: &mut [i64],
) -> Advance
    requires { site.now.tables.now.depth ≤ length area.now }
    ensures made { (src : Source) (st : Stored) (at n u : ℕ) (f : Frame) (state : State) (name : Sym) (b : CoreExpr)
        → R.stands results.now (environment f state None) → HoldsExpr site.now.tables.now last b → slice_get src.syms sym ≡ Some name
        → IsMade src st at n u state [] result (parts.array_from f state u name first b) }
    ensures area { length area.new ≡ length area.old }
{
    match value(site.tables, results, last, area) {
        Answer::Val(last) => array_between(first, last, sym),
        Answer::Fail => Advance::NoTree,
        Answer::Range => Advance::Range,
    }
}

/// An array is entered by its bounds.
#[inline(always)]
pub(crate) fn array<R: Results>(
    site: &PartSite<'_>,
    results: &R,
    first: RowSpan,
    last: RowSpan,
    sym: u32,
    area: &mut [i64],
) -> Advance
    requires { site.now.tables.now.depth ≤ length area.now }
    ensures made { (src : Source) (st : Stored) (at n u : ℕ) (f : Frame) (state : State) (a b : CoreExpr) (slot : CoreSlot)
        → R.stands results.now (environment f state None) → HoldsExpr site.now.tables.now first a → HoldsExpr site.now.tables.now last b
        → slice_get src.syms sym ≡ Some slot.sym
        → IsMade src st at n u state [] result (moves.advance silent f state u moves.Outside (Some (core.Repeat a b slot.sym slot.from slot.to))) }
    ensures area { length area.new ≡ length area.old }
{
    match value(site.tables, results, first, area) {
        Answer::Val(first) => {
            // A copy, so that the site itself need not lie in memory.
            let here = *site;
            array_from(&here, results, first, last, sym, area)
        }
        Answer::Fail => Advance::NoTree,
        Answer::Range => Advance::Range,
    }
}

/// A repetition is entered, where its ends are those of an interval.
fn many_between(size: u32, from: i64, to: i64) -> Advance
    ensures { (src : Source) (st : Stored) (at u : ℕ) (f : Frame) (state : State) → length f.bytes ≡ size
        → IsMade src st at size u state [] result (parts.many_between f from to) }
{
    match interval(size, from, to) {
        Some((at, to)) => Advance::Inside(TermEntry::Turns { at, to }),
        None => Advance::NoTree,
    }
}

/// A repetition with its left end evaluated.
#[inline(always)]
fn many_from<R: Results>(
    site: &PartSite<'_>,
    results: &R,
    from: i64,
    to: RowSpan,
    area: &mut [i64],
) -> Advance
    requires { site.now.tables.now.depth ≤ length area.now }
    ensures made { (src : Source) (st : Stored) (at u : ℕ) (f : Frame) (state : State) (e : CoreExpr)
        → R.stands results.now (environment f state None) → HoldsExpr site.now.tables.now to e → length f.bytes ≡ site.now.size
        → IsMade src st at site.now.size u state [] result (parts.many_from f state from e) }
    ensures area { length area.new ≡ length area.old }
{
    match value(site.tables, results, to, area) {
        Answer::Val(to) => many_between(site.size, from, to),
        Answer::Fail => Advance::NoTree,
        Answer::Range => Advance::Range,
    }
}

/// A repetition is entered by its ends.
#[inline(always)]
pub(crate) fn many<R: Results>(
    site: &PartSite<'_>,
    results: &R,
    row: SlotRow,
    area: &mut [i64],
) -> Advance
    requires { site.now.tables.now.depth ≤ length area.now }
    ensures made { (src : Source) (st : Stored) (at u : ℕ) (f : Frame) (state : State) (slot : CoreSlot)
        → R.stands results.now (environment f state None) → HoldsSlot site.now.tables.now row slot → length f.bytes ≡ site.now.size
        → IsMade src st at site.now.size u state [] result
        (moves.advance silent f state u moves.Outside (Some (core.Many slot.sym slot.from slot.to))) }
    ensures area { length area.new ≡ length area.old }
{
    match value(site.tables, results, row.from, area) {
        Answer::Val(from) => {
            // A copy, so that the site itself need not lie in memory.
            let here = *site;
            many_from(&here, results, from, row.to, area)
        }
        Answer::Fail => Advance::NoTree,
        Answer::Range => Advance::Range,
    }
}
