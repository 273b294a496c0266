//! The answers of a session through edits, one after another, as lines.
ghost use Rattle.std.specs.Prelude.{◌≡◌, ◌++◌, ℕ, List, [], IfOk, OnOk, Result};
ghost use Rattle.ipg_core.specs.Grammar.{Grammar};
ghost use Rattle.ipg_mach_moves.specs.Moves.{Key};
ghost use Rattle.ipg_edit.specs.Answered.{counts_in};
ghost use Rattle.ipg_edit_script.specs.Scripts.{IsEdit, AreEdits};
ghost use Rattle.ipg_app_tree.specs.Editing.{counted};
ghost use Rattle.ipg_app_tree.specs.Telling as spec;
ghost use Rattle.ipg_app_tree.specs.Telling.{Ready, IsTold, Steps, TellsAll};

use ipg_edit::{Answer, EditFault, Session};
use ipg_edit_script::Edit;
use ipg_mach::Counts;
use itoa::Buffer;
use std::alloc::{AllocError, Allocator, Global};

/// The lines of all answers, and the last answer.
#[derive(Drop)]
pub struct Told {
    pub lines: Vec<u8>,
    pub last: Answer,
}

/// Why edits aren't answered.
#[derive(Clone, Copy, Debug, Drop, PartialEq, Eq)]
pub enum EditsFault {
    /// The edit of this number, from 0, is out of input.
    OutOfInput { at: u64 },
    Memory,
}

impl From<AllocError> for EditsFault {
    ghost use Rattle.std.specs.Prelude.{◌≡◌};
    ghost use Rattle.ipg_app_tree.specs.declared.telling.EditsFault.TheVariants.{Memory};

    ghost from_gives = { λ _ fault. fault ≡ Memory };

    fn from(_: AllocError) -> EditsFault {
        EditsFault::Memory
    }
}

fn words_by(given: Answer) -> &'static [u8]
    ensures { result.now ≡ spec.words_by given }
{
    match given {
        Answer::Tree(_) => b"tree",
        Answer::NoTree(_) => b"no parse",
        Answer::Range(_) => b"range",
    }
}

fn counts_in(given: Answer) -> Counts
    ensures { result ≡ counts_in given }
{
    match given {
        Answer::Tree(counts) => counts,
        Answer::NoTree(counts) => counts,
        Answer::Range(counts) => counts,
    }
}

/// Appends a line: a number, some words, and how many bodies ran.
fn add_line(lines: &mut Vec<u8>, k: u64, words: &[u8], bodies: u64) -> Result<(), AllocError>
    ensures { OnOk result (lines.new.items ≡ lines.old.items ++ counted k words.now bodies) }
{
    let mut number = Buffer::new();
    lines.extend_from_slice(number.format(k).as_bytes())?;
    lines.push(b' ')?;
    lines.extend_from_slice(words)?;
    lines.extend_from_slice(b" bodies=")?;
    lines.extend_from_slice(number.format(bodies).as_bytes())?;
    lines.push(b'\n')?;
    Ok(())
}

/// Appends the line of what the input comes to.
fn tell<A: Allocator + Clone + Drop>(
    session: &mut Session<'_, A>,
    k: u64,
    lines: &mut Vec<u8>,
) -> Result<Answer, AllocError>
    ensures told { IfOk result (λ given. (g : Grammar) (kept : List Key) → Ready g kept session.old
        → IsTold g k kept given session.old session.new lines.old.items lines.new.items) }
    ensures input { session.new.input ≡ session.old.input }
{
    let given = session.answer()?;
    add_line(lines, k, words_by(given), counts_in(given).bodies)?;
    Ok(given)
}

/// Appends the line of what the input comes to, and then edits it.
fn step<A: Allocator + Clone + Drop>(
    session: &mut Session<'_, A>,
    k: u64,
    edit: &Edit,
    lines: &mut Vec<u8>,
) -> Result<(), EditsFault>
    ensures { (g : Grammar) (kept : List Key) → Ready g kept session.old → IsEdit edit.now
        → Steps result g k kept edit.now session.old session.new lines.old.items lines.new.items }
{
    tell(session, k, lines)?;
    match session.edit(edit.from, edit.to, edit.with.as_slice()) {
        Ok(()) => Ok(()),
        Err(EditFault::OutOfInput) => Err(EditsFault::OutOfInput { at: k }),
        Err(EditFault::Memory) => Err(EditsFault::Memory),
    }
}

/// The lines of the answers before the first edit and after each.
pub fn tell_all<A: Allocator + Clone + Drop>(
    alloc: Global,
    session: &mut Session<'_, A>,
    edits: &[Edit],
) -> Result<Told, EditsFault>
    ensures { (g : Grammar) → Ready g [] session.old → AreEdits edits.now → TellsAll result g edits.now session.old session.new }
{
    let mut lines = Vec::new(alloc);
    for (k, edit) in edits.iter().enumerate() {
        step(session, k as u64, edit, &mut lines)?;
    }
    let last = tell(session, edits.len() as u64, &mut lines)?;
    Ok(Told { lines, last })
}
