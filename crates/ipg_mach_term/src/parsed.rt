//! What the term at hand makes of what was parsed.

ghost use Rattle.std.specs.Prelude.{◌≡◌, ◌<◌, ◌≤◌, ◌^◌, ◌++◌, [], ◌∷◌, ℕ, ℤ, suc, pos, ◌+ℤ◌, List, Result, Some, FitsSigned, slice_get};
ghost use Rattle.std.specs.Int.{w64};
ghost use Rattle.ipg_core.specs.declared.grammar.CoreTerm.{CoreTerm};
ghost use Rattle.ipg_core.specs.declared.grammar.Sym.{Sym};
ghost use Rattle.ipg_core.specs.Tree as tree;
ghost use Rattle.ipg_core.specs.Touch as touch;
ghost use Rattle.ipg_core.specs.Run.{Stop};
ghost use Rattle.ipg_core.specs.Meaning.{State, with_kid};
ghost use Rattle.ipg_mach_moves.specs.Moves as moves;
ghost use Rattle.ipg_mach_nodes.specs.Stored.{Source, Stored};
ghost use Rattle.ipg_table.specs.Rows.{Rows, HoldsTerm};
ghost use Rattle.ipg_mach_term.specs.declared.entry.TermEntry.TheVariants as entries;
ghost use Rattle.ipg_mach_term.specs.Advance.{IsEntry, IsParsed, IsItem, IsAdvance};

use crate::advance::Advance;
use crate::entry::TermEntry;
use ipg_mach_nodes::{Kid, Store};
use ipg_mach_results::{ends_of, touches};
use ipg_mach_slot::Done;
use ipg_table::row::Action;
use ipg_table::tables::Tables;
use std::alloc::Allocator;

/// A slot or a switch is past with its result.
#[inline(always)]
fn past(is_switch: bool, parsed: Option<Kid>) -> Advance
    ensures { (src : Source) (st : Stored) (at n u : ℕ) (state : State) (items : List tree.Kid) (answer : Result tree.Kid Stop)
        → IsParsed src st at n entries.Outside parsed answer
        → IsAdvance src st at n u state items result (moves.lifted (λ k. moves.Past (with_kid state u is_switch k)) answer) }
{
    match parsed {
        Some(kid) => Advance::Result(Done { is_switch, kid }),
        None => Advance::NoTree,
    }
}

/// What a slot or a switch makes of what was parsed.
#[inline(always)]
fn outside(action: Action, parsed: Option<Kid>) -> Advance
    ensures { (src : Source) (st : Stored) (t : Rows) (at n u : ℕ) (state : State) (items : List tree.Kid) (term : CoreTerm)
        (answer : Result tree.Kid Stop) → HoldsTerm t action term → IsParsed src st at n entries.Outside parsed answer
        → IsAdvance src st at n u state items result (moves.taken state u moves.Outside term answer) }
{
    match action {
        Action::Slot(_) => past(false, parsed),
        Action::Pick { .. } => past(true, parsed),
        _ => Advance::NoTree,
    }
}

/// The next value of a loop variable that isn't at its last.
fn next(item: i64) -> i64
    ensures { FitsSigned w64 (item +ℤ pos 1) → result ≡ item +ℤ pos 1 }
{
    match item.checked_add(1) {
        Some(next) => next,
        None => item,
    }
}

/// An array with one item more.
#[inline(always)]
fn one_more(sym: u32, left: u64, item: i64, kid: Kid) -> Advance
    ensures { (src : Source) (st : Stored) (at n u k : ℕ) (state : State) (items : List tree.Kid) (one : tree.Kid) (name : Sym)
        → slice_get src.syms sym ≡ Some name → left ≡ suc k → FitsSigned w64 item → FitsSigned w64 (item +ℤ pos left) → IsItem src st at n kid one
        → IsAdvance src st at n u state items result (Result.Ok (moves.array_on state u name k (item +ℤ pos 1) (items ++ one ∷ []))) }
{
    if left <= 1 {
        return Advance::Last { sym, item: kid };
    }
    Advance::Item {
        item: kid,
        entry: TermEntry::Items {
            left: left - 1,
            item: next(item),
        },
    }
}

/// What an array makes of its next item.
#[inline(always)]
fn array(action: Action, left: u64, item: i64, parsed: Option<Kid>) -> Advance
    ensures { (src : Source) (t : Rows) (st : Stored) (at n u : ℕ) (state : State) (items : List tree.Kid) (e : moves.Entry) (term : CoreTerm)
        (answer : Result tree.Kid Stop) → src.syms ≡ t.syms → HoldsTerm t action term → IsEntry n (entries.Items left item) items e
        → IsParsed src st at n (entries.Items left item) parsed answer
        → IsAdvance src st at n u state items result (moves.taken state u e term answer) }
{
    match action {
        Action::Repeat { item: slot, .. } => match parsed {
            Some(kid) => one_more(slot.sym, left, item, kid),
            None => Advance::NoTree,
        },
        _ => Advance::NoTree,
    }
}

/// A place of a part: each is below 2^32.
fn place(end: u64) -> u32
    ensures { end < 2 ^ 32 → result ≡ end }
{
    match u32::try_from(end) {
        Ok(end) => end,
        Err(_) => u32::MAX,
    }
}

/// A repetition goes on behind an item that touches a byte; one that touches none ends it.
#[inline(always)]
fn one_turn<A: Allocator + Clone + Drop>(
    tables: &Tables,
    store: &Store<A>,
    sym: u32,
    to: u32,
    kid: Kid,
) -> Advance
    ensures { (src : Source) (at n u : ℕ) (state : State) (items : List tree.Kid) (one : tree.Kid) (name : Sym) → src.syms ≡ tables.now.syms
        → slice_get src.syms sym ≡ Some name → to ≤ n → IsItem src store.now at n kid one → (touch.ends_of one).end ≤ to
        → IsAdvance src store.now at n u state items result (moves.repeated state u name to items (Result.Ok one)) }
{
    let ends = ends_of(store, tables, kid);
    if touches(ends) {
        let at = place(ends.end);
        Advance::Item {
            item: kid,
            entry: TermEntry::Turns { at, to },
        }
    } else {
        Advance::Many { sym }
    }
}

/// What a repetition makes of its next item.
#[inline(always)]
fn repetition<A: Allocator + Clone + Drop>(
    tables: &Tables,
    store: &Store<A>,
    action: Action,
    to: u32,
    parsed: Option<Kid>,
) -> Advance
    ensures { (src : Source) (at n u from : ℕ) (state : State) (items : List tree.Kid) (e : moves.Entry) (term : CoreTerm)
        (answer : Result tree.Kid Stop) → src.syms ≡ tables.now.syms → HoldsTerm tables.now action term → IsEntry n (entries.Turns from to) items e
        → IsParsed src store.now at n (entries.Turns from to) parsed answer
        → IsAdvance src store.now at n u state items result (moves.taken state u e term answer) }
{
    match action {
        Action::Many(slot) => match parsed {
            Some(kid) => one_turn(tables, store, slot.sym, to, kid),
            None => Advance::Many { sym: slot.sym },
        },
        _ => Advance::NoTree,
    }
}

/// What a term makes of what was parsed for it, or of that there is none.
#[inline(always)]
pub fn taken<A: Allocator + Clone + Drop>(
    tables: &Tables,
    store: &Store<A>,
    action: Action,
    entry: TermEntry,
    parsed: Option<Kid>,
) -> Advance
    ensures { (src : Source) (at n u : ℕ) (state : State) (items : List tree.Kid) (e : moves.Entry) (term : CoreTerm) (answer : Result tree.Kid Stop)
        → src.syms ≡ tables.now.syms → HoldsTerm tables.now action term → IsEntry n entry items e → IsParsed src store.now at n entry parsed answer
        → IsAdvance src store.now at n u state items result (moves.taken state u e term answer) }
{
    match entry {
        TermEntry::Outside => outside(action, parsed),
        TermEntry::Items { left, item } => array(action, left, item, parsed),
        TermEntry::Turns { to, .. } => repetition(tables, store, action, to, parsed),
    }
}
