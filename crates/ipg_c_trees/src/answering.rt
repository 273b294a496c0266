//! What inputs come to.
ghost use Rattle.std.specs.Prelude.{◌≡◌, ◌++◌, ◌≤◌, ◌^◌, [], length, IfOk, List};
ghost use Rattle.ipg_core.specs.Tree.{Tree};
ghost use Rattle.ipg_mach_nodes.specs.Stored.{Source};
ghost use Rattle.ipg_tree_rows.specs.declared.row.TreeRow.{TreeRow as AnyRow};
ghost use Rattle.ipg_tree_rows.specs.Rows.{rows_of};
ghost use Rattle.ipg_tree_rows.specs.Sees.{IsTree};
ghost use Rattle.ipg_app_text.specs.declared.status.Status.TheVariants as status;
ghost use Rattle.ipg_c_trees.specs.Comes.{Comes, IsAnswer};

use crate::format::Format;
use ipg_app_text::status::Status;
use ipg_app_tree::answering::has_answer;
use ipg_mach::{Outcome, Parsed, Remember, parse};
use ipg_tree_rows::{TreeRow, add_rows};
use linked_list_allocator::LocalHeap;
use std::alloc::{AllocError, Allocator, Global};

/// The most bytes that an input may have.
const MAX_INPUT: usize = 1 << 30;

/// The heap of a parse, in bytes.
const ROOM: usize = 512 << 20;

/// What an input came to: the status's exit code (0 a tree, 1 none, 3 a number leaves 64 bits, 7 want of memory, 8 more than 2^30 bytes), and
/// how many rows its tree has.
#[repr(C)]
#[derive(Clone, Copy, Debug, PartialEq, Eq)]
pub struct Answer {
    pub status: u64,
    pub rows: u64,
}

/// What an input comes to: the rows of its tree, if it has one.
#[derive(Drop)]
struct InputRows {
    status: Status,
    rows: Vec<TreeRow>,
}

fn without_rows(alloc: Global, status: Status) -> InputRows
    ensures status { result.status ≡ status }
    ensures rows { result.rows.items ≡ [] }
{
    InputRows {
        status,
        rows: Vec::new(alloc),
    }
}

fn rows_in<A: Allocator + Clone + Drop>(
    alloc: Global,
    parsed: &mut Parsed<'_, A>,
) -> Result<InputRows, AllocError>
    ensures { (src : Source) (one : Tree) → IsTree parsed.old.parse src one
        → IfOk result (λ found. (found.status ≡ status.Done) × (found.rows.items ≡ rows_of one)) }
{
    let mut rows = Vec::new(alloc);
    add_rows(&mut rows, parsed)?;
    Ok(InputRows {
        status: Status::Done,
        rows,
    })
}

impl Format {
    fn found(&self, alloc: Global, input: &[u8]) -> Result<InputRows, AllocError>
        requires { length input.now ≤ 2 ^ 30 }
        ensures { IfOk result (λ found. Comes self.now input.now found.status found.rows.items) }
    {
        let heap = LocalHeap::new(alloc, ROOM)?;
        has_answer(self.grammar(), input);
        match parse(&heap, self.tables(), input, Remember::Answers)? {
            Outcome::Tree(mut parsed) => rows_in(alloc, &mut parsed),
            Outcome::NoTree(_) => Ok(without_rows(alloc, Status::NoParse)),
            Outcome::Range(_) => Ok(without_rows(alloc, Status::Range)),
        }
    }

    fn found_or_fault(&self, alloc: Global, input: &[u8]) -> InputRows
        ensures { Comes self.now input.now result.status result.rows.items }
    {
        if input.len() > MAX_INPUT {
            return without_rows(alloc, Status::TooLarge);
        }
        match self.found(alloc, input) {
            Ok(found) => found,
            Err(_) => without_rows(alloc, Status::Memory),
        }
    }

    /// Answers an input, and puts its rows behind the others.
    pub fn answer(
        &self,
        alloc: Global,
        input: &[u8],
        rows: &mut Vec<TreeRow>,
    ) -> Result<Answer, AllocError>
        ensures { IfOk result (λ answer. (own : List AnyRow) × IsAnswer self.now input.now answer own × (rows.new.items ≡ rows.old.items ++ own)) }
    {
        let found = self.found_or_fault(alloc, input);
        rows.extend_from_slice(&found.rows)?;
        Ok(Answer {
            status: u64::from(found.status.code()),
            rows: found.rows.len() as u64,
        })
    }
}
