//! What is noted of a cycle of calls.

ghost use Rattle.std.specs.Prelude.{◌≡◌, ◌<◌, length, IfOk, Some};
ghost use Rattle.std.specs.List.{slice_get};
ghost use Rattle.ipg_core.specs.MustTouch.{Marks, AreLimit};
ghost use Rattle.ipg_facts_edges.specs.Edges.{edges_of};
ghost use Rattle.ipg_app_values.specs.Notes as spec;
ghost use Rattle.ipg_app_values.specs.Notes.{AreNotes, IsEdgeLine, IsLine, IsSiteLine};
ghost use Rattle.ipg_app_values.specs.Turn.{InTurn};

use crate::names::CallSite;
use crate::values::{conditions_of, values};
use ipg_app_explain::rule_name;
use ipg_ast::Grammar;
use ipg_core::accepted::Core;
use ipg_facts::variables;
use ipg_facts_edges::edges;
use ipg_graph::Edge;
use ipg_num::item_at;
use ipg_proof::CallGraph;
use ipg_touch::laws::one_limit;
use ipg_touch::must_touch;
use itoa::Buffer;
use std::alloc::{AllocError, Global};

/// A grammar as it is written, the calls of its core grammar, and the length of the part.
#[derive(Clone, Copy)]
struct Ground<'a> {
    written: &'a Grammar,
    calls: CallGraph<'a>,
    eoi: i64,
}

fn values_line(alloc: Global, rule: &[u8], values: &[u8]) -> Result<Vec<u8>, AllocError>
    ensures { IfOk result (λ text. text.items ≡ spec.values_line rule.now values.now) }
{
    let mut text = Vec::new(alloc);
    if values.is_empty() {
        return Ok(text);
    }
    text.extend_from_slice(b"Then in ")?;
    text.extend_from_slice(rule)?;
    text.push(b':')?;
    text.extend_from_slice(&values[1..])?;
    text.extend_from_slice(b".\n")?;
    Ok(text)
}

/// The line of a call, by its edge and that one's number.
fn site_line(alloc: Global, ground: Ground, number: u32, edge: Edge) -> Result<Vec<u8>, AllocError>
    requires { slice_get ground.calls.edges.now number ≡ Some edge }
    ensures { IfOk result (λ text. IsSiteLine (record { written = ground.entry.written.now; core = ground.entry.calls.grammar.now; edge = edge })
        ground.entry.calls.marks.now ground.entry.eoi text.items) }
{
    let site = CallSite {
        written: ground.written,
        core: ground.calls.grammar,
        edge,
    };
    let conditions = conditions_of(alloc, ground.calls, number, ground.eoi)?;
    let all = variables(alloc, ground.calls.grammar, ground.calls.marks, edge)?;
    let told = values(alloc, site, &conditions, all.as_slice())?;
    values_line(alloc, rule_name(ground.written, edge.caller), &told)
}

fn edge_line(alloc: Global, ground: Ground, number: u32) -> Result<Vec<u8>, AllocError>
    requires { ground.calls.edges.now ≡ edges_of ground.calls.grammar.now }
    ensures { IfOk result (λ text. IsEdgeLine ground.entry.written.now ground.entry.calls.grammar.now ground.entry.calls.marks.now
        ground.entry.eoi (slice_get (edges_of ground.entry.calls.grammar.now) number) text.items) }
{
    match item_at(ground.calls.edges, number as usize) {
        Some(edge) => site_line(alloc, ground, number, *edge),
        None => Ok(Vec::new(alloc)),
    }
}

fn lines(alloc: Global, ground: Ground, cycle: &[u32]) -> Result<Vec<u8>, AllocError>
    requires { ground.calls.edges.now ≡ edges_of ground.calls.grammar.now }
    ensures { IfOk result (λ text. InTurn (IsLine ground.entry.written.now ground.entry.calls.grammar.now ground.entry.calls.marks.now
        ground.entry.eoi) 0 cycle.now text.items) }
{
    let mut text = Vec::new(alloc);
    for number in cycle {
        let line = edge_line(alloc, ground, *number)?;
        text.extend_from_slice(&line)?;
    }
    Ok(text)
}

fn length_line(alloc: Global, eoi: i64) -> Result<Vec<u8>, AllocError>
    ensures { IfOk result (λ text. text.items ≡ spec.length_line eoi) }
{
    let mut buffer = Buffer::new();
    let mut text = Vec::from_slice(alloc, b"They can go round where EOI = ")?;
    text.extend_from_slice(buffer.format(eoi).as_bytes())?;
    text.extend_from_slice(b".\n")?;
    Ok(text)
}

/// What is noted of a cycle of calls, by the numbers of its edges, which may go round on parts of this length: whole lines. The length;
/// and for each call the values, by their names in the text, that always go with it. The only other answer is want of memory.
pub fn notes<'a>(
    alloc: Global,
    g: &'a Grammar,
    core: &'a Core,
    cycle: &[u32],
    eoi: i64,
) -> Result<Vec<u8>, AllocError>
    ensures { IfOk result (λ text. (marks : Marks) → AreLimit core.now marks → AreNotes g.now core.now marks cycle.now eoi text.items) }
{
    one_limit();
    let edges = edges(alloc, core)?;
    let marks = must_touch(alloc, core)?;
    let calls = CallGraph {
        grammar: core,
        marks: marks.as_slice(),
        edges: edges.as_slice(),
    };
    let ground = Ground {
        written: g,
        calls,
        eoi,
    };
    let mut text = length_line(alloc, eoi)?;
    let lines = lines(alloc, ground, cycle)?;
    text.extend_from_slice(&lines)?;
    Ok(text)
}
