//! Answers an input that a script edits.
ghost use Rattle.std.specs.Prelude.{◌≡◌, ◌++◌, ◌≤◌, ◌^◌, [], length, IfOk, OnErr, Result};
ghost use Rattle.ipg_core.specs.Good.{Good};
ghost use Rattle.ipg_core.specs.Grammar.{Grammar};
ghost use Rattle.ipg_core.specs.Grown.{IsInput};
ghost use Rattle.ipg_core.specs.Run.{Stop};
ghost use Rattle.ipg_core.specs.Total.{Total};
ghost use Rattle.ipg_core.specs.Tree.{Tree};
ghost use Rattle.ipg_edit_script.specs.Scripts.{AreEdits};
ghost use Rattle.ipg_table.specs.Rows.{StandFor};
ghost use Rattle.ipg_tree.specs.Puts.{Puts};
ghost use Rattle.ipg_app_tree.specs.Editing as spec;
ghost use Rattle.ipg_app_tree.specs.Editing.{Edits, tree_of};
ghost use Rattle.ipg_app_text.specs.Lines.{said_of};
ghost use Rattle.ipg_app_text.specs.Said.{done};
ghost use Rattle.ipg_app_tree.specs.Out.{GoesOut, Replies};
ghost use Rattle.ipg_app_tree.specs.Telling.{IsShown, Ready};

use crate::telling::{EditsFault, Told, tell_all};
use crate::writing::{finish, say};
use ipg_app_text::room::BYTES_PER_MIB;
use ipg_app_text::said::{Settled, line};
use ipg_app_text::status::Status;
use ipg_core::accepted::Checked;
use ipg_edit::{Answer, Session};
use ipg_edit_script::Edit;
use ipg_num::List;
use ipg_outside::{Sink, SinkFault};
use ipg_table::tables::{Tables, compile};
use itoa::Buffer;
use linked_list_allocator::LocalHeap;
use std::alloc::{AllocError, Allocator, Global};

/// The heap of a session.
const MIB: usize = 512;

/// An input that was read, what it is parsed by, and the edits that are made of it.
#[derive(Drop)]
pub struct DueEdits {
    pub grammar: Checked,
    pub input: Vec<u8>,
    pub edits: List<Edit>,
}

/// Parsing by an accepted grammar ends, and an input is one where it isn't too long.
fn ends(grammar: &Checked, input: &[u8])
    requires { length input.now ≤ 2 ^ 30 }
    ensures good { Good grammar.now }
    ensures total { Total grammar.now }
    ensures input { IsInput input.now }
{
    let _rules = grammar.core().rules();
}

/// The line that refuses an edit, E1.
fn out_of_input(alloc: Global, at: u64) -> Result<Settled, AllocError>
    ensures { IfOk result (λ settled. said_of settled ≡ spec.out_of_input at) }
{
    let mut buffer = Buffer::new();
    let mut told = Vec::from_slice(alloc, b"refused E1 OutOfInput ")?;
    told.extend_from_slice(buffer.format(at).as_bytes())?;
    line(alloc, Status::Refused, &told)
}

/// Writes the lines of all answers, and then the tree of the last.
fn put<A: Allocator + Clone + Drop, S: Sink>(
    told: &Told,
    session: &mut Session<'_, A>,
    out: &mut S,
) -> Result<(), SinkFault>
    ensures { (g : Grammar) (answer : Result Tree Stop) → StandFor session.old.tables g → IsShown told.now.last answer session.old
        → Puts result (told.now.lines.items ++ tree_of g answer) (S.output out.old) (S.faults out.old) (S.output out.new) (S.faults out.new) }
{
    out.write(&told.lines)?;
    match told.last {
        Answer::Tree(_) => session.print(out),
        Answer::NoTree(_) => Ok(()),
        Answer::Range(_) => Ok(()),
    }
}

/// Writes all of what is told, and hands it on.
fn put_told<A: Allocator + Clone + Drop, S: Sink>(
    told: &Told,
    session: &mut Session<'_, A>,
    out: &mut S,
) -> Status
    ensures { (g : Grammar) (answer : Result Tree Stop) → StandFor session.old.tables g → IsShown told.now.last answer session.old
        → GoesOut (done (told.now.lines.items ++ tree_of g answer)) (S.output out.old) (S.faults out.old) (S.output out.new) (S.faults out.new) result }
{
    match put(told, session, out) {
        Ok(()) => finish(Status::Done, out),
        Err(_) => Status::WriteFault,
    }
}

/// Writes what a session says before the first edit and after each, or what refuses an edit.
fn say_all<A: Allocator + Clone + Drop, S: Sink>(
    alloc: Global,
    session: &mut Session<'_, A>,
    edits: &[Edit],
    out: &mut S,
) -> Result<Status, AllocError>
    requires each { AreEdits edits.now }
    ensures done { IfOk result (λ status. (g : Grammar) → Ready g [] session.old → Replies (Edits g session.old.input edits.now)
        (S.output out.old) (S.faults out.old) (S.output out.new) (S.faults out.new) status) }
    ensures memory { OnErr result (S.output out.new ≡ S.output out.old) }
{
    match tell_all(alloc, session, edits) {
        Ok(told) => Ok(put_told(&told, session, out)),
        Err(EditsFault::OutOfInput { at }) => Ok(say(&out_of_input(alloc, at)?, out)),
        Err(EditsFault::Memory) => Err(AllocError),
    }
}

/// The same of a session that begins with the input.
fn edit_on<S: Sink>(
    alloc: Global,
    tables: &Tables,
    heap: &LocalHeap,
    due: &DueEdits,
    out: &mut S,
) -> Result<Status, AllocError>
    requires stand { StandFor tables.now due.now.grammar }
    requires small { length due.now.input.items ≤ 2 ^ 30 }
    requires each { AreEdits due.now.edits }
    ensures done { IfOk result (Replies (Edits due.now.grammar due.now.input.items due.now.edits)
        (S.output out.old) (S.faults out.old) (S.output out.new) (S.faults out.new)) }
    ensures memory { OnErr result (S.output out.new ≡ S.output out.old) }
{
    ends(&due.grammar, &due.input);
    let mut session = Session::new(heap, tables, &due.input)?;
    let said = say_all(alloc, &mut session, due.edits.as_slice(), out);
    // (as a call, what is left of a session needn't be looked at here)
    drop(session);
    said
}

fn edit_in<S: Sink>(alloc: Global, due: &DueEdits, out: &mut S) -> Result<Status, AllocError>
    requires small { length due.now.input.items ≤ 2 ^ 30 }
    requires each { AreEdits due.now.edits }
    ensures done { IfOk result (Replies (Edits due.now.grammar due.now.input.items due.now.edits)
        (S.output out.old) (S.faults out.old) (S.output out.new) (S.faults out.new)) }
    ensures memory { OnErr result (S.output out.new ≡ S.output out.old) }
{
    let tables = compile(alloc, &due.grammar)?;
    let heap = LocalHeap::new(alloc, MIB * BYTES_PER_MIB)?;
    edit_on(alloc, &tables, &heap, due, out)
}

/// Answers an input before the first edit and after each, by a session in a heap of its own. Nothing is written before all answers
/// are there.
pub fn edit<S: Sink>(alloc: Global, due: &DueEdits, out: &mut S) -> Status
    requires small { length due.now.input.items ≤ 2 ^ 30 }
    requires each { AreEdits due.now.edits }
    ensures { Replies (Edits due.now.grammar due.now.input.items due.now.edits)
        (S.output out.old) (S.faults out.old) (S.output out.new) (S.faults out.new) result }
{
    match edit_in(alloc, due, out) {
        Ok(status) => status,
        Err(_) => Status::Memory,
    }
}
