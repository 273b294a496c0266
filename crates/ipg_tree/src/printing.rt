//! The printed tree.

ghost use Rattle.std.specs.Prelude.{◌≡◌, ◌+◌, ◌-◌, ◌^◌, ℕ, List, length, min};
ghost use Rattle.ipg_core.specs.Grammar.{Grammar};
ghost use Rattle.ipg_core.specs.Lines as spec;
ghost use Rattle.ipg_core.specs.Tree.{Tree};
ghost use Rattle.ipg_mach_nodes.specs.Stored.{Source};
ghost use Rattle.ipg_tree_walk.specs.Left.{Shows};
ghost use Rattle.ipg_tree_walk.specs.Parse.{AllLeft};
ghost use Rattle.ipg_tree_walk.specs.Visits.{Seen};
ghost use Rattle.ipg_tree.specs.Line.{line_of};
ghost use Rattle.ipg_tree.specs.Puts.{Puts};
ghost use Rattle.ipg_tree.specs.Shares.{Shares, IsTree};

use crate::leaf::{put_items, put_raw, put_text, put_value};
use crate::line::put_node;
use crate::names::text_of;
use crate::tail::Tail;
use ipg_mach_nodes::Kid;
use ipg_outside::{Sink, SinkFault};
use ipg_tree_walk::{Parsed, Visit};
use std::alloc::Allocator;

/// Writes the line of a visit, which is made in `line` where it is short.
fn put_visit<A: Allocator + Clone + Drop, S: Sink>(
    out: &mut S,
    line: &mut Tail,
    p: &Parsed<'_, A>,
    visit: Visit,
) -> Result<(), SinkFault>
    ensures { (src : Source) (g : Grammar) (one : Seen) → Shares p.now.parse src g → Shows src p.now.parse.store visit one
        → Puts result (line_of g one) (S.output out.old) (S.faults out.old) (S.output out.new) (S.faults out.new) }
{
    match visit.kid {
        Kid::Node { .. } => put_node(out, line, p, visit),
        Kid::Text { sym, .. } => put_text(out, visit, text_of(p.tables(), sym)),
        Kid::Number {
            prim,
            high,
            low,
            ..
        } => put_value(out, line, visit, prim, high, low),
        Kid::Raw { .. } => put_raw(out, visit, p.part(visit.from, visit.to)),
        Kid::Array { sym, items } => put_items(out, p, visit, b"for", sym, items),
        Kid::Many { sym, items } => put_items(out, p, visit, b"many", sym, items),
    }
}

/// Writes the lines of the tree, each as the walk comes to it, without taking memory.
fn put_lines<A: Allocator + Clone + Drop, S: Sink>(
    p: &mut Parsed<'_, A>,
    out: &mut S,
) -> Result<(), SinkFault>
    ensures parse { p.new.parse ≡ p.old.parse }
    ensures lines { (src : Source) (g : Grammar) (one : Tree) → IsTree p.old.parse src g one
        → Puts result (spec.lines g one 0) (S.output out.old) (S.faults out.old) (S.output out.new) (S.faults out.new) }
{
    p.rewind();
    let mut line = Tail::new();
    while let Some(visit) = p.next() {
        put_visit(out, &mut line, p, visit)?;
    }
    Ok(())
}

/// Writes the lines of the tree. It takes no memory, and the walk begins anew behind it.
pub fn print<A: Allocator + Clone + Drop, S: Sink>(
    p: &mut Parsed<'_, A>,
    out: &mut S,
) -> Result<(), SinkFault>
    ensures parse { p.new.parse ≡ p.old.parse }
    ensures left { AllLeft p.new }
    ensures lines { (src : Source) (g : Grammar) (one : Tree) → IsTree p.old.parse src g one
        → Puts result (spec.lines g one 0) (S.output out.old) (S.faults out.old) (S.output out.new) (S.faults out.new) }
{
    let said = put_lines(p, out);
    p.rewind();
    said
}

/// How many lines the tree has, up to 2^64 - 1.
fn count_lines<A: Allocator + Clone + Drop>(p: &mut Parsed<'_, A>) -> u64
    ensures parse { p.new.parse ≡ p.old.parse }
    ensures count { (src : Source) (g : Grammar) (one : Tree) → IsTree p.old.parse src g one → result ≡ min (length (spec.tree_lines g 0 0 one)) (2 ^ 64 - 1) }
{
    p.rewind();
    let mut count: u64 = 0;
    while let Some(_) = p.next() {
        count = count.saturating_add(1);
    }
    count
}

/// How many lines the tree has, up to 2^64 - 1. The walk begins anew behind it.
pub fn lines<A: Allocator + Clone + Drop>(p: &mut Parsed<'_, A>) -> u64
    ensures parse { p.new.parse ≡ p.old.parse }
    ensures left { AllLeft p.new }
    ensures count { (src : Source) (g : Grammar) (one : Tree) → IsTree p.old.parse src g one → result ≡ min (length (spec.tree_lines g 0 0 one)) (2 ^ 64 - 1) }
{
    let count = count_lines(p);
    p.rewind();
    count
}
