//! How large the tree of an input is.

ghost use Rattle.std.specs.Prelude.{◌≡◌, ◌≤◌, ◌-◌, ◌^◌, length, min, IfOk};
ghost use Rattle.ipg_core.specs.Grammar.{Grammar};
ghost use Rattle.ipg_core.specs.Lines.{tree_lines};
ghost use Rattle.ipg_core.specs.Tree.{Tree};
ghost use Rattle.ipg_mach_nodes.specs.Stored.{Source};
ghost use Rattle.ipg_tree.specs.Shares.{IsTree};
ghost use Rattle.ipg_app_tree.specs.Measured.{Measures};

use crate::answering::has_answer;
use ipg_app_text::room::BYTES_PER_MIB;
use ipg_core::accepted::Checked;
use ipg_mach::{Outcome, Parsed, Remember, parse};
use ipg_mach_count_laws::laws::counts_with_memo;
use ipg_table::tables::compile;
use ipg_tree::lines;
use linked_list_allocator::LocalHeap;
use std::alloc::{AllocError, Allocator, Global};

/// How many lines a tree has, and how many bodies of global rules ran for it; each up to 2^64 - 1.
#[derive(Clone, Copy, Debug, PartialEq, Eq)]
pub struct Size {
    pub lines: u64,
    pub bodies: u64,
}

/// What is measured of an input.
#[derive(Clone, Copy, Debug, PartialEq, Eq)]
pub enum Measured {
    Tree(Size),
    NoTree,
    /// A value left 64 bits.
    Range,
}

fn size_of<A: Allocator + Clone + Drop>(parsed: &mut Parsed<'_, A>) -> Size
    ensures lines { (src : Source) (g : Grammar) (one : Tree) → IsTree parsed.old.parse src g one
        → result.lines ≡ min (length (tree_lines g 0 0 one)) (2 ^ 64 - 1) }
    ensures bodies { result.bodies ≡ parsed.old.parse.counts.bodies }
{
    let bodies = parsed.counts().bodies;
    Size {
        lines: lines(parsed),
        bodies,
    }
}

/// Measures what the grammar means on the input, by a parse that remembers calls in a heap of so many MiB.
pub fn measure(
    alloc: Global,
    grammar: &Checked,
    input: &[u8],
    mib: u32,
) -> Result<Measured, AllocError>
    requires { length input.now ≤ 2 ^ 30 }
    ensures { IfOk result (Measures grammar.now input.now) }
{
    counts_with_memo();
    let tables = compile(alloc, grammar)?;
    let heap = LocalHeap::new(alloc, mib as usize * BYTES_PER_MIB)?;
    has_answer(grammar, input);
    match parse(&heap, &tables, input, Remember::Answers)? {
        Outcome::Tree(mut parsed) => Ok(Measured::Tree(size_of(&mut parsed))),
        Outcome::NoTree(_) => Ok(Measured::NoTree),
        Outcome::Range(_) => Ok(Measured::Range),
    }
}
