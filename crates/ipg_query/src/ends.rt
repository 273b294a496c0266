//! Which bytes a row touches.
ghost use Rattle.std.specs.Prelude.{◌≡◌, ℕ, ◌-◌, ◌^◌, ◌<◌, List, slice_get, Some};
ghost use Rattle.ipg_core.specs.declared.grammar.Sym.TheVariants.{Text};
ghost use Rattle.ipg_core.specs.Touch as spec;
ghost use Rattle.ipg_core.specs.Tree as tree;
ghost use Rattle.ipg_mach_nodes.specs.Stored.{Source, StandsKid};
ghost use Rattle.ipg_mach_results.specs.Ends.{ends_view};
ghost use Rattle.ipg_mach_results.specs.Standing.{OfTree};

use ipg_core::grammar::{Primitive, Sym};
use ipg_mach_nodes::{Kid, RunId};
use ipg_mach_results::Ends;
use ipg_table::tables::Tables;
use ipg_tree_walk::Parsed;
use std::alloc::Allocator;

/// The text of a terminal, by the number of its symbol; empty where that is none.
fn text(tables: &Tables, sym: u32) -> &[u8]
    ensures { (bytes : List ℕ) → slice_get tables.now.syms sym ≡ Some (Text bytes) → result.now ≡ bytes }
{
    match tables.symbol_at(sym) {
        Some(Sym::Text(bytes)) => bytes.as_slice(),
        _ => &[],
    }
}

/// The first bytes of an interval, so many of them; nothing of it where there are none.
#[tactic(auto, unfolding(ipg_core::specs::Touch::moved, ipg_core::specs::Touch::first_of, ipg_core::specs::Touch::untouched))]
fn first_of(from: u32, to: u32, count: usize) -> Ends
    requires { count < 2 ^ 63 }
    ensures { ends_view result ≡ spec.moved from (spec.first_of (to - from) count) }
{
    if count == 0 {
        Ends {
            start: u64::from(from.max(to)),
            end: u64::from(from),
        }
    } else {
        Ends {
            start: u64::from(from),
            end: u64::from(from) + count as u64,
        }
    }
}

/// The ends of a node whose part begins at `from`.
#[tactic(auto, unfolding(ipg_core::specs::Touch::moved))]
fn node_ends<A: Allocator + Clone + Drop>(p: &Parsed<'_, A>, node: RunId, from: u32) -> Ends
    ensures { OfTree p.now.parse.store node (λ one. ends_view result ≡ spec.moved from (spec.tree_ends one)) }
{
    let ends = p.ends(node);
    Ends {
        start: u64::from(from) + u64::from(ends.start),
        end: u64::from(from) + u64::from(ends.end),
    }
}

/// Where a row begins and ends to touch bytes, as bytes of its parent's part.
pub fn ends_of<A: Allocator + Clone + Drop>(p: &Parsed<'_, A>, kid: Kid) -> Ends
    ensures { (src : Source) (at : ℕ) (one : tree.Kid) → src.syms ≡ p.now.parse.tables.syms → StandsKid src p.now.parse.store at kid one
        → ends_view result ≡ spec.ends_of one }
{
    match kid {
        Kid::Node { id, from, .. } => node_ends(p, id, from),
        Kid::Text { sym, from, to } => first_of(from, to, text(p.tables(), sym).len()),
        Kid::Number { prim, from, to, .. } => first_of(from, to, prim.width() as usize),
        Kid::Raw { from, to } => Ends {
            start: u64::from(from),
            end: u64::from(to),
        },
        Kid::Array { .. } => Ends { start: 0, end: 0 },
        Kid::Many { .. } => Ends { start: 0, end: 0 },
    }
}
