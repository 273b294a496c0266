//! An input is parsed, and what is to be shown of its tree is written.

ghost use Rattle.std.specs.Prelude.{◌≡◌, ◌≤◌, ◌^◌, length, IfOk, IfErr, MatchOption, Result};
ghost use Rattle.ipg_core.specs.Grammar.{Grammar};
ghost use Rattle.ipg_core.specs.Holds.{TreeHolds};
ghost use Rattle.ipg_core.specs.Lines.{lines};
ghost use Rattle.ipg_core.specs.Meaning.{Means};
ghost use Rattle.ipg_core.specs.Run.{Stop};
ghost use Rattle.ipg_core.specs.Tree.{Tree};
ghost use Rattle.ipg_mach_nodes.specs.Stored.{Source};
ghost use Rattle.ipg_query.specs.Hits.{IsTree};
ghost use Rattle.ipg_query.specs.Picked.{picked};
ghost use Rattle.ipg_tree.specs.Json.{json};
ghost use Rattle.ipg_tree_view.specs.Picked.{picked_view};
ghost use Rattle.ipg_tree_view.specs.View.{view};
ghost use Rattle.ipg_app_tree.specs.Answered.{Answers, Fails, IsFirstBare, NoneIsBare, PutsText, PutsTree};
ghost use Rattle.ipg_app_tree.specs.Queried.{picks_text};
ghost use Rattle.ipg_app_tree.specs.declared.show.Show.TheVariants as show;

use crate::laws::bare_is_not_put;
use crate::querying::put_hits;
use crate::show::Show;
use ipg_app_text::room::BYTES_PER_MIB;
use ipg_core::accepted::Checked;
use ipg_core::laws::holds_its_bytes;
use ipg_cover_leaves::laws::{all_put_comes_back, leaves_agree};
use ipg_mach::{Outcome, Parsed, Remember, parse};
use ipg_outside::Sink;
use ipg_query::select;
use ipg_query_path::Query;
use ipg_table::tables::compile;
use ipg_tree::{print, print_json};
use ipg_tree_view::{bare_places, print_picked, print_view};
use linked_list_allocator::LocalHeap;
use std::alloc::{AllocError, Allocator, Global};

/// What a parse may use: what it remembers of calls, and so many MiB.
#[derive(Clone, Copy, Debug, PartialEq, Eq)]
pub struct Room {
    pub remember: Remember,
    pub mib: u32,
}

/// What an input comes to.
#[derive(Clone, Copy, Debug, Drop, PartialEq, Eq)]
pub enum Given {
    /// What is shown of its tree was taken by the sink.
    Tree,
    NoTree,
    /// A value left 64 bits.
    Range,
    /// The leaves of its tree put no byte at this place, the least such one.
    Gap { at: u32 },
}

/// Why the answer is not given whole.
#[derive(Clone, Copy, Debug, Drop, PartialEq, Eq)]
pub enum AnswerFault {
    /// Nothing was written.
    Memory,
    /// The sink failed within what is shown of the tree.
    Write,
}

impl From<AllocError> for AnswerFault {
    ghost use Rattle.std.specs.Prelude.{◌≡◌};
    ghost use Rattle.ipg_app_tree.specs.declared.answering.AnswerFault.TheVariants.{Memory};

    ghost from_gives = { λ _ fault. fault ≡ Memory };

    fn from(_: AllocError) -> AnswerFault {
        AnswerFault::Memory
    }
}

/// An accepted grammar has an answer for each input of at most 2^30 bytes.
pub fn has_answer(grammar: &Checked, input: &[u8])
    requires { length input.now ≤ 2 ^ 30 }
    ensures { (answer : Result Tree Stop) × Means grammar.now input.now answer }
{
    let _rules = grammar.core().rules();
}

/// Writes the lines of a parsed tree.
fn put_lines<A: Allocator + Clone + Drop, S: Sink>(
    parsed: &mut Parsed<'_, A>,
    out: &mut S,
) -> Result<Given, AnswerFault>
    ensures { (src : Source) (g : Grammar) (one : Tree) → IsTree parsed.old.parse src g one
        → PutsText result (lines g one 0) (S.output out.old) (S.faults out.old) (S.output out.new) (S.faults out.new) }
{
    match print(parsed, out) {
        Ok(()) => Ok(Given::Tree),
        Err(_) => Err(AnswerFault::Write),
    }
}

/// Writes the JSON text of a parsed tree.
fn put_json<A: Allocator + Clone + Drop, S: Sink>(
    parsed: &mut Parsed<'_, A>,
    out: &mut S,
) -> Result<Given, AnswerFault>
    ensures { (src : Source) (g : Grammar) (one : Tree) → IsTree parsed.old.parse src g one
        → PutsText result (json g one) (S.output out.old) (S.faults out.old) (S.output out.new) (S.faults out.new) }
{
    match print_json(parsed, out) {
        Ok(()) => Ok(Given::Tree),
        Err(_) => Err(AnswerFault::Write),
    }
}

/// Writes a parsed tree beside its input, once it is known which bytes no leaf has.
fn put_view<A: Allocator + Clone + Drop, S: Sink>(
    alloc: Global,
    input: &[u8],
    parsed: &mut Parsed<'_, A>,
    out: &mut S,
) -> Result<Given, AnswerFault>
    ensures { (src : Source) (g : Grammar) (one : Tree) → IsTree parsed.old.parse src g one → parsed.old.parse.input ≡ input.now
        → PutsText result (view g input.now one) (S.output out.old) (S.faults out.old) (S.output out.new) (S.faults out.new) }
{
    let bare = bare_places(alloc, parsed, input)?;
    match print_view(parsed, &bare, out) {
        Ok(()) => Ok(Given::Tree),
        Err(_) => Err(AnswerFault::Write),
    }
}

/// Writes what a path picks of a parsed tree, once all of it is picked.
fn put_picked<A: Allocator + Clone + Drop, S: Sink>(
    alloc: Global,
    query: &Query,
    parsed: &Parsed<'_, A>,
    out: &mut S,
) -> Result<Given, AnswerFault>
    ensures { (src : Source) (g : Grammar) (one : Tree) → IsTree parsed.now.parse src g one
        → PutsText result (picks_text (picked g parsed.now.parse.input query.now one)) (S.output out.old) (S.faults out.old)
        (S.output out.new) (S.faults out.new) }
{
    let hits = select(alloc, query, parsed)?;
    match put_hits(&hits, out) {
        Ok(()) => Ok(Given::Tree),
        Err(_) => Err(AnswerFault::Write),
    }
}

/// Writes what a path picks of a parsed tree beside its input, once all of it is picked.
fn put_picked_view<A: Allocator + Clone + Drop, S: Sink>(
    alloc: Global,
    query: &Query,
    parsed: &mut Parsed<'_, A>,
    out: &mut S,
) -> Result<Given, AnswerFault>
    ensures { (src : Source) (g : Grammar) (one : Tree) → IsTree parsed.old.parse src g one
        → PutsText result (picked_view g parsed.old.parse.input query.now one) (S.output out.old) (S.faults out.old)
        (S.output out.new) (S.faults out.new) }
{
    let put = print_picked(alloc, query, parsed, out)?;
    match put {
        Ok(()) => Ok(Given::Tree),
        Err(_) => Err(AnswerFault::Write),
    }
}

/// Writes a text at once.
fn put_text<S: Sink>(text: &[u8], out: &mut S) -> Result<Given, AnswerFault>
    ensures { PutsText result text.now (S.output out.old) (S.faults out.old) (S.output out.new) (S.faults out.new) }
{
    match out.write(text) {
        Ok(()) => Ok(Given::Tree),
        Err(_) => Err(AnswerFault::Write),
    }
}

/// The least place that no leaf has.
fn first_bare(bare: &[bool]) -> Option<u32>
    requires { length bare.now ≤ 2 ^ 30 }
    ensures { MatchOption result (NoneIsBare bare.now) (IsFirstBare bare.now) }
{
    for (at, is_bare) in bare.iter().enumerate() {
        if *is_bare {
            return Some(at as u32);
        }
    }
    None
}

/// Writes the bytes that the leaves of a parsed tree put back, where they leave none out: where each place has a leaf, these are the
/// input's own (`ipg_cover_leaves::laws::all_put_comes_back`), so no leaf is copied.
fn put_bytes<A: Allocator + Clone + Drop, S: Sink>(
    alloc: Global,
    input: &[u8],
    parsed: &mut Parsed<'_, A>,
    out: &mut S,
) -> Result<Given, AnswerFault>
    requires { length input.now ≤ 2 ^ 30 }
    ensures { (src : Source) (g : Grammar) (one : Tree) → IsTree parsed.old.parse src g one → parsed.old.parse.input ≡ input.now → TreeHolds input.now one
        → PutsTree show.Bytes g input.now one result (S.output out.old) (S.faults out.old) (S.output out.new) (S.faults out.new) }
{
    leaves_agree();
    all_put_comes_back();
    bare_is_not_put();
    let bare = bare_places(alloc, parsed, input)?;
    match first_bare(&bare) {
        Some(at) => Ok(Given::Gap { at }),
        None => put_text(input, out),
    }
}

/// Writes what is to be shown of the parsed tree of an input.
fn put<A: Allocator + Clone + Drop, S: Sink>(
    alloc: Global,
    show: &Show,
    input: &[u8],
    parsed: &mut Parsed<'_, A>,
    out: &mut S,
) -> Result<Given, AnswerFault>
    requires { length input.now ≤ 2 ^ 30 }
    ensures { (src : Source) (g : Grammar) (one : Tree) → IsTree parsed.old.parse src g one → parsed.old.parse.input ≡ input.now → TreeHolds input.now one
        → PutsTree show.now g input.now one result (S.output out.old) (S.faults out.old) (S.output out.new) (S.faults out.new) }
{
    match show {
        Show::Lines => put_lines(parsed, out),
        Show::Picked(query) => put_picked(alloc, query, parsed, out),
        Show::Bytes => put_bytes(alloc, input, parsed, out),
        Show::Json => put_json(parsed, out),
        Show::View => put_view(alloc, input, parsed, out),
        Show::PickedView(query) => put_picked_view(alloc, query, parsed, out),
    }
}

/// What the grammar means on the input; what is shown of a tree goes into the sink, once the whole of it stands. The parse takes
/// its memory from a heap of the size that is said; its tables lie outside of that, and so does what a path picks.
pub fn answer<S: Sink>(
    alloc: Global,
    grammar: &Checked,
    input: &[u8],
    room: Room,
    show: &Show,
    out: &mut S,
) -> Result<Given, AnswerFault>
    requires { length input.now ≤ 2 ^ 30 }
    ensures given { IfOk result (λ given. Answers show.now grammar.now input.now given
        (S.output out.old) (S.faults out.old) (S.output out.new) (S.faults out.new)) }
    ensures fault { IfErr result (λ fault. Fails show.now grammar.now input.now fault
        (S.output out.old) (S.faults out.old) (S.output out.new) (S.faults out.new)) }
{
    let tables = compile(alloc, grammar)?;
    let heap = LocalHeap::new(alloc, room.mib as usize * BYTES_PER_MIB)?;
    has_answer(grammar, input);
    holds_its_bytes();
    match parse(&heap, &tables, input, room.remember)? {
        Outcome::Tree(mut parsed) => put(alloc, show, input, &mut parsed, out),
        Outcome::NoTree(_) => Ok(Given::NoTree),
        Outcome::Range(_) => Ok(Given::Range),
    }
}
