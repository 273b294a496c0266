//! The places of an input that no leaf of a tree has.

ghost use Rattle.std.specs.Prelude.{◌≡◌, ◌<◌, ◌≤◌, ℕ, List, length, get_or, true, not, ◌&&◌, IfOk, slice_get, Some};
ghost use Rattle.ipg_core.specs.declared.grammar.Sym.TheVariants.{Text as AnyText};
ghost use Rattle.ipg_core.specs.Grammar.{Grammar};
ghost use Rattle.ipg_core.specs.Tree.{Tree};
ghost use Rattle.ipg_mach_nodes.specs.Stored.{Source, Stored};
ghost use Rattle.ipg_tree_walk.specs.Left.{Shows};
ghost use Rattle.ipg_tree_walk.specs.Visits.{Seen, visits};
ghost use Rattle.ipg_tree_view.specs.Bare as spec;
ghost use Rattle.ipg_tree.specs.Shares.{IsTree};

use ipg_core::grammar::Sym;
use ipg_mach_nodes::Kid;
use ipg_table::tables::Tables;
use ipg_tree_walk::{Parsed, Visit};
use std::alloc::{AllocError, Allocator, Global};

/// How many visits more than its input has bytes a tree may come to; a node that calls share is visited as often as it is met.
const MOST_VISITS: u64 = 1 << 26;

/// A tree of more visits counts as want of memory.
const TOO_MANY_VISITS: AllocError = AllocError;

/// Where the first `count` bytes of an interval end.
pub(crate) fn end_of(from: u64, to: u64, count: u64) -> u64
    ensures { result ≡ spec.end_of from to count }
{
    from + count.min(to.saturating_sub(from))
}

/// How many bytes the text of a terminal has, by the number of its symbol; 0 where that is none.
pub(crate) fn text_size(tables: &Tables, sym: u32) -> u64
    ensures { (bytes : List ℕ) → slice_get tables.now.syms sym ≡ Some (AnyText bytes) → result ≡ length bytes }
{
    match tables.symbol_at(sym) {
        Some(Sym::Text(bytes)) => bytes.as_slice().len() as u64,
        _ => 0,
    }
}

/// Strikes the places from one up to another out.
fn strike(bare: &mut [bool], from: u64, to: u64)
    ensures long { length bare.new ≡ length bare.old }
    ensures struck { (place : ℕ) → place < length bare.old
        → get_or bare.new place true ≡ get_or bare.old place true && not (spec.is_among from to place) }
{
    let end = to.min(bare.len() as u64);
    let mut place = from;
    while place < end {
        bare[place as usize] = false;
        place += 1;
    }
}

/// Strikes the places that a visit has bytes of out.
fn strike_visit(bare: &mut [bool], tables: &Tables, visit: Visit)
    ensures long { length bare.new ≡ length bare.old }
    ensures struck { (src : Source) (st : Stored) (one : Seen) (place : ℕ) → src.syms ≡ tables.now.syms → Shows src st visit one → place < length bare.old
        → get_or bare.new place true ≡ get_or bare.old place true && not (spec.has_byte place one.at one.child) }
{
    match visit.kid {
        Kid::Text { sym, .. } => {
            let end = end_of(visit.from, visit.to, text_size(tables, sym));
            strike(bare, visit.from, end);
        }
        Kid::Number { prim, .. } => {
            let end = end_of(visit.from, visit.to, u64::from(prim.width()));
            strike(bare, visit.from, end);
        }
        Kid::Raw { .. } => strike(bare, visit.from, visit.to),
        Kid::Node { .. } => {}
        Kid::Array { .. } => {}
        Kid::Many { .. } => {}
    }
}

/// Whether no leaf of the tree has the byte, for each place of an input as long as this one.
pub fn bare_places<A: Allocator + Clone + Drop>(
    alloc: Global,
    p: &mut Parsed<'_, A>,
    input: &[u8],
) -> Result<Vec<bool>, AllocError>
    ensures parse { p.new.parse ≡ p.old.parse }
    ensures long { IfOk result (λ bare. length bare.items ≡ length input.now) }
    ensures bare { (src : Source) (g : Grammar) (one : Tree) → IsTree p.old.parse src g one
        → IfOk result (λ bare. bare.items ≡ spec.bare_of (length input.now) (visits one)) }
{
    let mut bare = vec![in alloc; true; input.len()]?;
    let mut left = MOST_VISITS.saturating_add(input.len() as u64);
    p.rewind();
    while let Some(visit) = p.next() {
        left = left.checked_sub(1).ok_or(TOO_MANY_VISITS)?;
        strike_visit(&mut bare, p.tables(), visit);
    }
    Ok(bare)
}
