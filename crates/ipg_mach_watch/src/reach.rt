//! How far results reach.

ghost use Rattle.std.specs.Prelude.{◌≡◌, ◌<◌, ◌^◌, ℕ, List, Option};
ghost use Rattle.ipg_core.specs.Tree as tree;
ghost use Rattle.ipg_core.specs.Environment as core;
ghost use Rattle.ipg_core.specs.Eval as eval;
ghost use Rattle.ipg_mach_nodes.specs.Stored.{Source};
ghost use Rattle.ipg_mach_results.specs.Standing.{OfKid, OfKids};
ghost use Rattle.ipg_mach_results.specs.Ends.{AreShort};
ghost use Rattle.ipg_mach_slot.specs.Now.{IsResult, AreResults};
ghost use Rattle.ipg_mach_failures.specs.Failing as spec;

use ipg_mach_nodes::{Kid, Store};
use ipg_mach_results::laws::within_are_short;
use ipg_mach_results::{ends_of, greatest_end, items_of, touches};
use ipg_mach_slot::Done;
use ipg_table::tables::Tables;
use std::alloc::Allocator;

/// The greatest end of items that touch a byte; 0 where none does.
pub(crate) fn items_end<A: Allocator + Clone + Drop>(
    store: &Store<A>,
    tables: &Tables,
    items: &[Kid],
) -> u64
    ensures { OfKids tables.now store.now items.now (λ ones. AreShort ones → result ≡ spec.or_zero (eval.greatest_end ones)) }
{
    match greatest_end(store, tables, items) {
        Some(end) => u64::try_from(end).unwrap_or(0),
        None => 0,
    }
}

/// The greatest end of a result that touches, its items among them; 0 where none does.
fn kid_end<A: Allocator + Clone + Drop>(store: &Store<A>, tables: &Tables, kid: Kid) -> u64
    ensures { OfKid tables.now store.now kid (λ one. AreShort (tree.items_of one)
        → result ≡ spec.or_zero (eval.greatest_end (tree.kid one (tree.items_of one)))) }
{
    let own = ends_of(store, tables, kid);
    let items = items_end(store, tables, items_of(store, kid));
    if touches(own) {
        own.end.max(items)
    } else {
        items
    }
}

/// The end of the result of a term; 0 where it hasn't run.
fn row_end<A: Allocator + Clone + Drop>(store: &Store<A>, tables: &Tables, row: Option<Done>) -> u64
    ensures { (src : Source) (at n : ℕ) (done : Option core.Done) → src.syms ≡ tables.now.syms → n < 2 ^ 63 → IsResult src store.now at n row done
        → result ≡ spec.end_in done }
{
    within_are_short();
    match row {
        Some(done) => kid_end(store, tables, done.kid),
        None => 0,
    }
}

/// The greatest end of the results so far.
pub(crate) fn done_end<A: Allocator + Clone + Drop>(
    store: &Store<A>,
    tables: &Tables,
    rows: &[Option<Done>],
) -> u64
    ensures { (src : Source) (at n : ℕ) (done : List (Option core.Done)) → src.syms ≡ tables.now.syms → n < 2 ^ 63
        → AreResults src store.now at n rows.now done → result ≡ spec.reach_of done }
{
    let mut left = rows;
    let mut greatest = 0u64;
    while let Some((row, rest)) = left.split_first() {
        greatest = greatest.max(row_end(store, tables, *row));
        left = rest;
    }
    greatest
}
