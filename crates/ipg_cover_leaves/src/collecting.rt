//! Collects the leaves of a parsed tree.
ghost use Rattle.std.specs.Prelude.{◌≡◌, ℕ, ◌+◌, ◌<◌, ◌≤◌, ◌^◌, List, [], ◌∷◌, ◌++◌, length, slice_get, Some, IfOk, OnOk, option_to_list};
ghost use Rattle.ipg_core.specs.declared.grammar.Sym.TheVariants.{Text as AnyText};
ghost use Rattle.ipg_core.specs.Tree.{Tree};
ghost use Rattle.ipg_mach_nodes.specs.Stored.{Source};
ghost use Rattle.ipg_tree_walk.specs.Left.{Shows};
ghost use Rattle.ipg_tree_walk.specs.Visits.{Seen, from_of};
ghost use Rattle.ipg_cover_leaves.specs.Leaves.{leaf_in, leaves_of, IsSource, IsTree};

use crate::leaf::Leaf;
use ipg_core::grammar::{Name, Sym};
use ipg_mach_nodes::Kid;
use ipg_num::List;
use ipg_table::tables::Tables;
use ipg_tree_walk::{Parsed, Visit};
use std::alloc::{AllocError, Allocator, Global};

/// The text of a terminal by the number of its symbol; empty where that is none.
fn text_of(tables: &Tables, sym: u32) -> &[u8]
    ensures { (bytes : List ℕ) → slice_get tables.now.syms sym ≡ Some (AnyText bytes) → result.now ≡ bytes }
{
    match tables.symbol_at(sym) {
        Some(Sym::Text(bytes)) => bytes.as_slice(),
        _ => &[],
    }
}

/// Bytes of one's own.
fn copied(alloc: Global, bytes: &[u8]) -> Result<Name, AllocError>
    ensures { IfOk result (λ copy. copy ≡ bytes.now) }
{
    let mut copy = Vec::new(alloc);
    copy.extend_from_slice(bytes)?;
    Ok(List::from_vec(copy))
}

/// A place of an input of at most 2^30 bytes.
fn place(at: u64) -> u32
    ensures { at < 2 ^ 32 → result ≡ at }
{
    u32::try_from(at).unwrap_or(u32::MAX)
}

/// The leaf that a visit comes to, if it comes to one.
fn leaf_at<A: Allocator + Clone + Drop>(
    alloc: Global,
    p: &Parsed<'_, A>,
    visit: Visit,
) -> Result<Option<Leaf>, AllocError>
    ensures { (src : Source) (one : Seen) → IsSource p.now.parse src → Shows src p.now.parse.store visit one → one.at + from_of one.child ≤ 2 ^ 30
        → IfOk result (λ leaf. option_to_list leaf ≡ leaf_in one.at one.child) }
{
    let from = place(visit.from);
    Ok(match visit.kid {
        Kid::Text { sym, .. } => Some(Leaf::Text {
            from,
            bytes: copied(alloc, text_of(p.tables(), sym))?,
        }),
        Kid::Number {
            prim,
            high,
            low,
            ..
        } => Some(Leaf::Number {
            prim,
            from,
            high: i64::from(high),
            low: i64::from(low),
        }),
        Kid::Raw { .. } => Some(Leaf::Raw {
            from,
            bytes: copied(alloc, p.part(visit.from, visit.to))?,
        }),
        Kid::Node { .. } | Kid::Array { .. } | Kid::Many { .. } => None,
    })
}

/// Puts the leaf that a visit comes to behind the others.
fn push_leaf<A: Allocator + Clone + Drop>(
    alloc: Global,
    p: &Parsed<'_, A>,
    leaves: &mut Vec<Leaf>,
    visit: Visit,
) -> Result<(), AllocError>
    ensures { (src : Source) (one : Seen) → IsSource p.now.parse src → Shows src p.now.parse.store visit one → one.at + from_of one.child ≤ 2 ^ 30
        → OnOk result (leaves.new.items ≡ leaves.old.items ++ leaf_in one.at one.child) }
{
    if let Some(leaf) = leaf_at(alloc, p, visit)? {
        leaves.push(leaf)?;
    }
    Ok(())
}

/// The terminals, numbers and raw bytes of a parsed tree, in the order of a walk; those of a shared node come as often as it
/// is met. Each has its bytes itself.
pub fn leaves<A: Allocator + Clone + Drop>(
    alloc: Global,
    p: &mut Parsed<'_, A>,
) -> Result<Vec<Leaf>, AllocError>
    ensures parse { p.new.parse ≡ p.old.parse }
    ensures leaves { (src : Source) (one : Tree) → IsTree p.old.parse src one → IfOk result (λ leaves. leaves.items ≡ leaves_of one) }
{
    p.rewind();
    let mut leaves = Vec::new(alloc);
    while let Some(visit) = p.next() {
        push_leaf(alloc, p, &mut leaves, visit)?;
    }
    Ok(leaves)
}
