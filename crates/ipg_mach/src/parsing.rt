//! A parse.

ghost use Rattle.std.specs.Prelude.{◌≡◌, ◌≤◌, ◌^◌, length, Option, Result, IfOk};
ghost use Rattle.ipg_core.specs.Grammar.{Grammar};
ghost use Rattle.ipg_core.specs.Tree.{Tree as AnyTree};
ghost use Rattle.ipg_core.specs.Run.{Stop};
ghost use Rattle.ipg_core.specs.Meaning.{Means};
ghost use Rattle.ipg_mach_moves.specs.Moves.{Known, Tally};
ghost use Rattle.ipg_table.specs.Rows.{StandFor};
ghost use Rattle.ipg_mach.specs.Outcome.{IsOutcome, Evaluates};
ghost use Rattle.ipg_mach.specs.Stage.{source};
ghost use Rattle.ipg_mach.specs.Turning.{known_at};
ghost use Rattle.ipg_mach.specs.Verdict.{IsVerdict};

use crate::kept::Kept;
use crate::machine::Remember;
use crate::verdict::Verdict;
use ipg_table::tables::Tables;
use ipg_tree_walk::{Counts, Parsed};
use std::alloc::{AllocError, Allocator};

/// What a parse comes to.
#[derive(Drop)]
pub enum Outcome<'a, A: Allocator> {
    Tree(Parsed<'a, A>),
    NoTree(Counts),
    /// A value left 64 bits.
    Range(Counts),
}

/// The outcome by its verdict: a tree with what it was parsed by and from, and the memory of a walk over it.
fn outcome_of<'a, A: Allocator + Clone + Drop>(
    alloc: A,
    tables: &'a Tables,
    input: &'a [u8],
    verdict: Verdict<A>,
) -> Result<Outcome<'a, A>, AllocError>
    ensures { IfOk result (λ outcome. (answer : Result AnyTree Stop) (tally : Tally) (later : Option Known)
        → IsVerdict (source tables.now input.now) (length input.now) verdict answer tally later
        → IsOutcome tables.now input.now outcome answer tally) }
{
    match verdict {
        Verdict::Tree { root, counts, kept } => Ok(Outcome::Tree(Parsed::new(
            alloc, tables, input, kept.store, root, counts,
        )?)),
        Verdict::NoTree { counts, .. } => Ok(Outcome::NoTree(counts)),
        Verdict::Range { counts } => Ok(Outcome::Range(counts)),
    }
}

/// Parses an input by the first rule. All memory is the allocator's; where it runs out, nothing is handed out.
pub fn parse<'a, A: Allocator + Clone + Drop>(
    alloc: A,
    tables: &'a Tables,
    input: &'a [u8],
    remember: Remember,
) -> Result<Outcome<'a, A>, AllocError>
    requires { length input.now ≤ 2 ^ 30 }
    ensures { IfOk result (λ outcome. (g : Grammar) (answer : Result AnyTree Stop) → StandFor tables.now g → Means g input.now answer
        → (tally : Tally) × Evaluates g input.now (known_at remember) answer tally × IsOutcome tables.now input.now outcome answer tally) }
{
    let kept = Kept::new(alloc.clone()?, remember)?;
    let verdict = kept.run(alloc.clone()?, tables, input)?;
    outcome_of(alloc, tables, input, verdict)
}
