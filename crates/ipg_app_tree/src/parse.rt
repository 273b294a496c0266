//! Parses an input, and writes what comes of it.
ghost use Rattle.std.specs.Prelude.{◌≡◌, ◌≤◌, ◌^◌, ◌++◌, ℕ, List, codes, decimal, length, IfOk, Option, Result};
ghost use Rattle.ipg_core.specs.Grammar.{Grammar};
ghost use Rattle.ipg_core.specs.Tree.{Tree};
ghost use Rattle.ipg_core.specs.Meaning.{Means};
ghost use Rattle.ipg_core.specs.Run.{Stop};
ghost use Rattle.ipg_outside.specs.Sink.{Output};
ghost use Rattle.ipg_app_tree.specs.declared.show.Show.{Show};
ghost use Rattle.ipg_app_tree.specs.Answered.{IsGiven};
ghost use Rattle.ipg_app_tree.specs.Parses.{Parses};
ghost use Rattle.ipg_app_text.specs.Lines.{said_of};
ghost use Rattle.ipg_app_tree.specs.Out.{Replies, fault_status};
ghost use Rattle.ipg_app_tree.specs.Shown.{gap_said};

use crate::answering::{AnswerFault, Given, answer};
use crate::due::Due;
use crate::writing::{finish, say, tell};
use ipg_app_text::said::{Settled, line};
use ipg_app_text::status::Status;
use ipg_outside::Sink;
use itoa::Buffer;
use std::alloc::{AllocError, Global};

/// Writes what is shown of the tree of an input, or that it has none.
pub fn parse<S: Sink>(alloc: Global, due: &Due, out: &mut S) -> Status
    requires { length due.now.input.items ≤ 2 ^ 30 }
    ensures { Replies (Parses due.now.show due.now.grammar due.now.input.items)
        (S.output out.old) (S.faults out.old) (S.output out.new) (S.faults out.new) result }
{
    match answer(alloc, &due.grammar, &due.input, due.room, &due.show, out) {
        Ok(given) => end(alloc, given, out),
        Err(fault) => status_of(fault),
    }
}

/// Writes what is left to say of what is given.
fn end<S: Sink>(alloc: Global, given: Given, out: &mut S) -> Status
    ensures { (show : Show) (g : Grammar) (input : List ℕ) (answer : Result Tree Stop) (before : Option Output) (counted : ℕ)
        → Means g input answer → IsGiven show g input answer given before counted (S.output out.old) (S.faults out.old)
        → Replies (Parses show g input) before counted (S.output out.new) (S.faults out.new) result }
{
    match given {
        Given::Tree => finish(Status::Done, out),
        Given::NoTree => tell(Status::NoParse, b"no parse\n", out),
        Given::Range => tell(Status::Range, b"range\n", out),
        Given::Gap { at } => tell_gap(alloc, at, out),
    }
}

/// The line that refuses a tree whose leaves leave a byte out, V4.
fn gap(alloc: Global, at: u32) -> Result<Settled, AllocError>
    ensures { IfOk result (λ settled. said_of settled ≡ gap_said at) }
{
    let mut buffer = Buffer::new();
    let mut told = Vec::from_slice(alloc, b"refused V4 Gap ")?;
    told.extend_from_slice(buffer.format(at).as_bytes())?;
    line(alloc, Status::Refused, &told)
}

fn tell_gap<S: Sink>(alloc: Global, at: u32, out: &mut S) -> Status
    ensures { Replies (λ said. said ≡ gap_said at) (S.output out.old) (S.faults out.old) (S.output out.new) (S.faults out.new) result }
{
    match gap(alloc, at) {
        Ok(settled) => say(&settled, out),
        Err(_) => Status::Memory,
    }
}

fn status_of(fault: AnswerFault) -> Status
    ensures { result ≡ fault_status fault }
{
    match fault {
        AnswerFault::Memory => Status::Memory,
        AnswerFault::Write => Status::WriteFault,
    }
}
