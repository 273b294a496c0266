//! Terms that fail, by the rows of their expressions.

ghost use Rattle.std.specs.Prelude.{◌≡◌, ◌≤◌, ℕ, suc, ℤ, List, length, Option, Some, None, slice_get};
ghost use Rattle.ipg_core.specs.Part as part;
ghost use Rattle.ipg_core.specs.declared.grammar.CoreExpr.{CoreExpr};
ghost use Rattle.ipg_core.specs.declared.grammar.CoreSlot.{CoreSlot};
ghost use Rattle.ipg_core.specs.declared.grammar.CoreTerm.{CoreTerm};
ghost use Rattle.ipg_core.specs.Tree as tree;
ghost use Rattle.ipg_core.specs.Eval.{eval};
ghost use Rattle.ipg_core.specs.Meaning.{Frame, State, environment};
ghost use Rattle.ipg_mach_moves.specs.Moves as moves;
ghost use Rattle.ipg_table.specs.Rows.{Each, HoldsExpr, HoldsSlot, HoldsCase, HoldsTerm};
ghost use Rattle.ipg_mach_term.specs.Advance.{IsEntry, environment_at};
ghost use Rattle.ipg_mach_term.specs.declared.entry.TermEntry.TheVariants as entries;
ghost use Rattle.ipg_mach_failures.specs.declared.failure.Cause.TheVariants as cause;
ghost use Rattle.ipg_mach_failures.specs.Failing as spec;

use crate::symbols::{symbol, turn};
use ipg_mach_failures::{Cause, Miss};
use ipg_mach_slot::{PartSite, interval, is_zero, value};
use ipg_mach_term::TermEntry;
use ipg_num::Answer;
use ipg_table::results::Results;
use ipg_table::row::{Action, CaseRow, RowSpan, SlotRow};

/// An expression has no value.
fn no_value(branch: u64) -> Option<Miss>
    ensures { result ≡ Some (spec.miss branch cause.NoValue None) }
{
    Some(Miss {
        branch,
        cause: Cause::NoValue,
        place: None,
    })
}

/// Two values are no ends of an interval.
fn no_interval(branch: u64, from: i64, to: i64) -> Option<Miss>
    ensures { result ≡ Some (spec.miss branch (cause.NoInterval from to) None) }
{
    Some(Miss {
        branch,
        cause: Cause::NoInterval { from, to },
        place: None,
    })
}

/// A symbol between two values.
fn slot_between(site: &PartSite<'_>, branch: u64, sym: u32, from: i64, to: i64) -> Option<Miss>
    ensures { (slot : CoreSlot) → slice_get site.now.tables.now.syms sym ≡ Some slot.sym
        → result ≡ spec.on_interval branch from to (part.interval (length site.now.bytes.now) from to)
        (λ l r. spec.symbol_fails branch site.now.bytes.now l r slot.sym) }
{
    match interval(site.size, from, to) {
        Some(ends) => symbol(site, branch, sym, ends),
        None => no_interval(branch, from, to),
    }
}

/// A slot with its left end evaluated.
fn slot_from<R: Results>(
    site: &PartSite<'_>,
    results: &R,
    branch: u64,
    row: SlotRow,
    from: i64,
    area: &mut [i64],
) -> Option<Miss>
    requires { site.now.tables.now.depth ≤ length area.now }
    ensures fails { (f : Frame) (state : State) (item : Option ℤ) (slot : CoreSlot) → R.stands results.now (environment f state item)
        → HoldsSlot site.now.tables.now row slot
        → result ≡ spec.on_value branch (eval slot.to (environment f state item)) (λ r.
        spec.on_interval branch from r (part.interval (length site.now.bytes.now) from r)
        (λ l r. spec.symbol_fails branch site.now.bytes.now l r slot.sym)) }
    ensures area { length area.new ≡ length area.old }
{
    match value(site.tables, results, row.to, area) {
        Answer::Val(to) => slot_between(site, branch, row.sym, from, to),
        Answer::Fail => no_value(branch),
        Answer::Range => None,
    }
}

/// A slot that fails: its left end, its right end, its interval, its symbol.
fn slot<R: Results>(
    site: &PartSite<'_>,
    results: &R,
    branch: u64,
    row: SlotRow,
    area: &mut [i64],
) -> Option<Miss>
    requires { site.now.tables.now.depth ≤ length area.now }
    ensures fails { (f : Frame) (state : State) (item : Option ℤ) (slot : CoreSlot) → R.stands results.now (environment f state item)
        → HoldsSlot site.now.tables.now row slot → f.bytes ≡ site.now.bytes.now → result ≡ spec.slot_fails f state branch item slot }
    ensures area { length area.new ≡ length area.old }
{
    match value(site.tables, results, row.from, area) {
        Answer::Val(from) => slot_from(site, results, branch, row, from, area),
        Answer::Fail => no_value(branch),
        Answer::Range => None,
    }
}

/// A switch that fails: a condition, or the slot of the branch that is taken.
fn pick<R: Results>(
    site: &PartSite<'_>,
    results: &R,
    cases: &[CaseRow],
    other: SlotRow,
    area: &mut [i64],
) -> Option<Miss>
    requires { site.now.tables.now.depth ≤ length area.now }
    ensures fails { (f : Frame) (state : State) (branches : List (CoreExpr × CoreSlot)) (last : CoreSlot)
        → R.stands results.now (environment f state None) → Each (HoldsCase site.now.tables.now) cases.now branches
        → HoldsSlot site.now.tables.now other last → f.bytes ≡ site.now.bytes.now → result ≡ spec.pick_fails f state 0 branches last }
    ensures area { length area.new ≡ length area.old }
{
    let mut left = cases;
    let mut branch = 0;
    while let Some((case, rest)) = left.split_first() {
        match value(site.tables, results, case.cond, area) {
            Answer::Val(x) => {
                if !is_zero(x) {
                    return slot(site, results, branch, case.slot, area);
                }
                left = rest;
                branch += 1;
            }
            Answer::Fail => return no_value(branch),
            Answer::Range => return None,
        }
    }
    slot(site, results, branch, other, area)
}

/// An expression that has to have a value.
fn valued<R: Results>(
    site: &PartSite<'_>,
    results: &R,
    expr: RowSpan,
    area: &mut [i64],
) -> Option<Miss>
    requires { site.now.tables.now.depth ≤ length area.now }
    ensures fails { (f : Frame) (state : State) (e : CoreExpr) → R.stands results.now (environment f state None) → HoldsExpr site.now.tables.now expr e
        → result ≡ spec.on_value 0 (eval e (environment f state None)) (λ z. None) }
    ensures area { length area.new ≡ length area.old }
{
    match value(site.tables, results, expr, area) {
        Answer::Val(_) => None,
        Answer::Fail => no_value(0),
        Answer::Range => None,
    }
}

/// A test that is 0.
fn zero(value: i64) -> Option<Miss>
    ensures { result ≡ spec.zero_fails value }
{
    if is_zero(value) {
        Some(Miss {
            branch: 0,
            cause: Cause::IsZero,
            place: None,
        })
    } else {
        None
    }
}

/// A test that has no value, or is 0.
fn test<R: Results>(
    site: &PartSite<'_>,
    results: &R,
    cond: RowSpan,
    area: &mut [i64],
) -> Option<Miss>
    requires { site.now.tables.now.depth ≤ length area.now }
    ensures fails { (f : Frame) (state : State) (e : CoreExpr) → R.stands results.now (environment f state None) → HoldsExpr site.now.tables.now cond e
        → result ≡ spec.test_fails f state e }
    ensures area { length area.new ≡ length area.old }
{
    match value(site.tables, results, cond, area) {
        Answer::Val(value) => zero(value),
        Answer::Fail => no_value(0),
        Answer::Range => None,
    }
}

/// An array that fails as it is entered: one of its bounds has no value.
fn bounds<R: Results>(
    site: &PartSite<'_>,
    results: &R,
    first: RowSpan,
    last: RowSpan,
    area: &mut [i64],
) -> Option<Miss>
    requires { site.now.tables.now.depth ≤ length area.now }
    ensures fails { (f : Frame) (state : State) (a b : CoreExpr) → R.stands results.now (environment f state None)
        → HoldsExpr site.now.tables.now first a → HoldsExpr site.now.tables.now last b → result ≡ spec.bounds_fail f state a b }
    ensures area { length area.new ≡ length area.old }
{
    match value(site.tables, results, first, area) {
        Answer::Val(_) => valued(site, results, last, area),
        Answer::Fail => no_value(0),
        Answer::Range => None,
    }
}

/// Two values that are no ends of an interval of the part.
fn ends_between(site: &PartSite<'_>, from: i64, to: i64) -> Option<Miss>
    ensures { result ≡ spec.on_interval 0 from to (part.interval (length site.now.bytes.now) from to) (λ l r. None) }
{
    match interval(site.size, from, to) {
        Some(_) => None,
        None => no_interval(0, from, to),
    }
}

/// The same with the left end evaluated.
fn ends_from<R: Results>(
    site: &PartSite<'_>,
    results: &R,
    from: i64,
    to: RowSpan,
    area: &mut [i64],
) -> Option<Miss>
    requires { site.now.tables.now.depth ≤ length area.now }
    ensures fails { (f : Frame) (state : State) (e : CoreExpr) → R.stands results.now (environment f state None) → HoldsExpr site.now.tables.now to e
        → result ≡ spec.on_value 0 (eval e (environment f state None)) (λ r.
        spec.on_interval 0 from r (part.interval (length site.now.bytes.now) from r) (λ l r. None)) }
    ensures area { length area.new ≡ length area.old }
{
    match value(site.tables, results, to, area) {
        Answer::Val(to) => ends_between(site, from, to),
        Answer::Fail => no_value(0),
        Answer::Range => None,
    }
}

/// A repetition that fails as it is entered: its left end, its right end, its interval.
fn ends<R: Results>(
    site: &PartSite<'_>,
    results: &R,
    row: SlotRow,
    area: &mut [i64],
) -> Option<Miss>
    requires { site.now.tables.now.depth ≤ length area.now }
    ensures fails { (f : Frame) (state : State) (slot : CoreSlot) → R.stands results.now (environment f state None)
        → HoldsSlot site.now.tables.now row slot → f.bytes ≡ site.now.bytes.now → result ≡ spec.ends_fail f state slot.from slot.to }
    ensures area { length area.new ≡ length area.old }
{
    match value(site.tables, results, row.from, area) {
        Answer::Val(from) => ends_from(site, results, from, row.to, area),
        Answer::Fail => no_value(0),
        Answer::Range => None,
    }
}

/// A term that fails as it is entered.
fn outside<R: Results>(
    site: &PartSite<'_>,
    results: &R,
    action: Action,
    area: &mut [i64],
) -> Option<Miss>
    requires { site.now.tables.now.depth ≤ length area.now }
    ensures fails { (f : Frame) (state : State) (u : ℕ) (term : CoreTerm) → R.stands results.now (environment f state None)
        → HoldsTerm site.now.tables.now action term → f.bytes ≡ site.now.bytes.now → result ≡ spec.term_fails f state u moves.Outside term }
    ensures area { length area.new ≡ length area.old }
{
    match action {
        Action::Slot(row) => slot(site, results, 0, row, area),
        Action::Pick { cases, other } => pick(site, results, site.tables.cases(cases), other, area),
        Action::Set { value, .. } => valued(site, results, value, area),
        Action::Test(cond) => test(site, results, cond, area),
        Action::Repeat { first, last, .. } => bounds(site, results, first, last, area),
        Action::Many(row) => ends(site, results, row, area),
    }
}

/// The next item of an array, where it fails.
fn item<R: Results>(
    site: &PartSite<'_>,
    results: &R,
    action: Action,
    area: &mut [i64],
) -> Option<Miss>
    requires { site.now.tables.now.depth ≤ length area.now }
    ensures fails { (f : Frame) (state : State) (u k : ℕ) (z : ℤ) (items : List tree.Kid) (term : CoreTerm)
        → R.stands results.now (environment_at f state u (moves.Items (suc k) z items) term) → HoldsTerm site.now.tables.now action term
        → f.bytes ≡ site.now.bytes.now → result ≡ spec.term_fails f state u (moves.Items (suc k) z items) term }
    ensures area { length area.new ≡ length area.old }
{
    match action {
        Action::Repeat { item, .. } => slot(site, results, 0, item, area),
        _ => None,
    }
}

/// The next item of a repetition, where it fails.
fn next_turn(site: &PartSite<'_>, action: Action, at: u32, to: u32) -> Option<Miss>
    ensures { (f : Frame) (state : State) (u : ℕ) (items : List tree.Kid) (term : CoreTerm) → HoldsTerm site.now.tables.now action term → at ≤ to
        → to ≤ site.now.size → f.bytes ≡ site.now.bytes.now → result ≡ spec.term_fails f state u (moves.Turns at to items) term }
{
    if at > to {
        return None;
    }
    if to > site.size {
        return None;
    }
    match action {
        Action::Many(row) => turn(site, row.sym, at, to),
        _ => None,
    }
}

/// The term at hand, or its next item, where it fails by itself.
pub(crate) fn term<R: Results>(
    site: &PartSite<'_>,
    results: &R,
    action: Action,
    entry: TermEntry,
    area: &mut [i64],
) -> Option<Miss>
    requires { site.now.tables.now.depth ≤ length area.now }
    ensures fails { (f : Frame) (state : State) (u : ℕ) (items : List tree.Kid) (e : moves.Entry) (term : CoreTerm)
        → R.stands results.now (environment_at f state u e term) → HoldsTerm site.now.tables.now action term → IsEntry site.now.size entry items e
        → f.bytes ≡ site.now.bytes.now → result ≡ spec.term_fails f state u e term }
    ensures area { length area.new ≡ length area.old }
{
    match entry {
        TermEntry::Outside => outside(site, results, action, area),
        TermEntry::Items { .. } => item(site, results, action, area),
        TermEntry::Turns { at, to } => next_turn(site, action, at, to),
    }
}
