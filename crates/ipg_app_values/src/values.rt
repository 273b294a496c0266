//! The values that always go with a call, by their names.

ghost use Rattle.std.specs.Prelude.{◌≡◌, ◌<◌, ◌≤◌, length, IfOk, Some};
ghost use Rattle.std.specs.List.{slice_get};
ghost use Rattle.ipg_facts.specs.Keep.{keep};
ghost use Rattle.ipg_graph.specs.declared.edge.Edge as graph;
ghost use Rattle.ipg_lin.specs.Formula.{width};
ghost use Rattle.ipg_solve_values.specs.Sure.{Tells};
ghost use Rattle.ipg_app_values.specs.Notes as spec;
ghost use Rattle.ipg_app_values.specs.Notes.{IsValue};
ghost use Rattle.ipg_app_values.specs.Seen.{AreOf, AreSound, IsFound, site_of};
ghost use Rattle.ipg_app_values.specs.Turn.{InTurn};

use crate::names::{CallSite, name_of};
use ipg_facts_variables::Variable;
use ipg_lin::{Boxed, Formula};
use ipg_num::List;
use ipg_proof::{CallGraph, keep_of};
use ipg_solve::{Decision, decide};
use ipg_solve_values::{narrowed, sure};
use itoa::Buffer;
use std::alloc::{AllocError, Global};

/// The conditions of a call on a part of one length, and values that solve them, if there are such.
#[derive(Drop)]
pub struct Conditions {
    formula: Formula,
    bounds: Boxed,
    found: Option<List<i64>>,
}

fn found(alloc: Global, f: &Formula, b: &Boxed) -> Result<Option<List<i64>>, AllocError>
    requires { width f.now ≤ length b.now.bounds }
    ensures { IfOk result (IsFound f.now b.now) }
{
    match decide(alloc, f, b)? {
        Decision::Solution(values) => Ok(Some(values)),
        Decision::Refuted(_) => Ok(None),
    }
}

/// The conditions of the edge of a number, where the part has this length.
pub fn conditions_of(
    alloc: Global,
    calls: CallGraph,
    number: u32,
    eoi: i64,
) -> Result<Conditions, AllocError>
    requires { number < length calls.edges.now }
    ensures { IfOk result (λ c. (edge : graph.Edge) → slice_get calls.entry.edges.now number ≡ Some edge
        → AreOf (keep calls.entry.grammar.now calls.entry.marks.now edge) eoi c) }
{
    let part = keep_of(alloc, calls, number)?;
    let bounds = narrowed(alloc, &part.1, 0, eoi, eoi)?;
    let found = found(alloc, &part.0, &bounds)?;
    Ok(Conditions {
        formula: part.0,
        bounds,
        found,
    })
}

/// The value that the variable always has, if it has one.
fn value_at(alloc: Global, c: &Conditions, x: usize) -> Result<Option<i64>, AllocError>
    requires sound { AreSound c.now }
    requires there { x < length c.now.bounds.bounds }
    ensures { IfOk result (Tells c.now.formula c.now.bounds x) }
{
    match &c.found {
        Some(found) => sure(alloc, &c.formula, &c.bounds, x, found.as_slice()),
        None => Ok(None),
    }
}

/// NAME = VALUE behind a comma.
fn valued(alloc: Global, name: &[u8], value: Option<i64>) -> Result<Vec<u8>, AllocError>
    ensures { IfOk result (λ text. text.items ≡ spec.valued name.now value) }
{
    let mut text = Vec::new(alloc);
    if let Some(value) = value {
        let mut buffer = Buffer::new();
        text.extend_from_slice(b", ")?;
        text.extend_from_slice(name)?;
        text.extend_from_slice(b" = ")?;
        text.extend_from_slice(buffer.format(value).as_bytes())?;
    }
    Ok(text)
}

/// What is told of a variable.
fn told(
    alloc: Global,
    site: CallSite,
    c: &Conditions,
    x: usize,
    variable: &Variable,
) -> Result<Vec<u8>, AllocError>
    requires sound { AreSound c.now }
    requires there { x < length c.now.bounds.bounds }
    ensures { IfOk result (λ text. IsValue (site_of site.entry) c.now.formula c.now.bounds x variable.now text.items) }
{
    let name = name_of(alloc, site, variable)?;
    if name.is_empty() {
        return Ok(name);
    }
    let value = value_at(alloc, c, x)?;
    valued(alloc, &name, value)
}

/// What is told of the variables, in the order of their numbers.
pub fn values(
    alloc: Global,
    site: CallSite,
    c: &Conditions,
    variables: &[Variable],
) -> Result<Vec<u8>, AllocError>
    requires sound { AreSound c.now }
    requires there { length variables.now ≡ length c.now.bounds.bounds }
    ensures { IfOk result (λ text. InTurn (IsValue (site_of site.entry) c.now.formula c.now.bounds) 0 variables.now text.items) }
{
    let mut text = Vec::new(alloc);
    for (x, variable) in variables.iter().enumerate() {
        let own = told(alloc, site, c, x, variable)?;
        text.extend_from_slice(&own)?;
    }
    Ok(text)
}
