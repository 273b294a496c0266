//! The line that refuses a grammar by which parsing may not end, G13.
ghost use Rattle.std.specs.Prelude.{◌≡◌, ◌++◌, ◌∷◌, decimal, IfOk, OnOk, option_copied};
ghost use Rattle.std.specs.Fmt.{signed_decimal};
ghost use Rattle.ipg_facts_edges.specs.Edges.{edges_of};
ghost use Rattle.ipg_lin.specs.Formula.{assigned};
ghost use Rattle.ipg_app_grammar.specs.Checks as spec;
ghost use Rattle.ipg_app_grammar.specs.Checks.{next_edge, edge_words, cycle_words};
ghost use Rattle.ipg_app_text.specs.Lines.{said_of};

use ipg_app_text::core_of::rule_name;
use ipg_app_text::said::{Settled, line};
use ipg_app_text::status::Status;
use ipg_core::accepted::Core;
use ipg_facts_edges::{Edge, edges};
use ipg_num::item_at;
use itoa::Buffer;
use std::alloc::{AllocError, Global};

/// What is said of a cycle of calls, by the numbers of its edges, and of the values that it can be walked with.
pub fn may_loop(
    alloc: Global,
    g: &Core,
    cycle: &[u32],
    values: &[i64],
) -> Result<Settled, AllocError>
    ensures { IfOk result (λ settled. said_of settled ≡ spec.may_loop g.now cycle.now (assigned values.now 0)) }
{
    let calls = edges(alloc, g)?;
    let mut told = Vec::from_slice(alloc, b"refused G13 MayLoop EOI=")?;
    add_length(&mut told, values)?;
    add_cycle(&mut told, g, &calls, cycle)?;
    line(alloc, Status::Refused, &told)
}

/// Appends the first of the values.
fn add_length(told: &mut Vec<u8>, values: &[i64]) -> Result<(), AllocError>
    ensures { OnOk result (told.new.items ≡ told.old.items ++ signed_decimal (assigned values.now 0)) }
{
    let mut buffer = Buffer::new();
    told.extend_from_slice(buffer.format(length_of(values)).as_bytes())
}

/// The first of the values, the length of the part.
pub fn length_of(values: &[i64]) -> i64
    ensures { result ≡ assigned values.now 0 }
{
    match item_at(values, 0) {
        Some(value) => *value,
        None => 0,
    }
}

fn add_cycle(told: &mut Vec<u8>, g: &Core, calls: &[Edge], cycle: &[u32]) -> Result<(), AllocError>
    requires { calls.now ≡ edges_of g.now }
    ensures { OnOk result (told.new.items ≡ told.old.items ++ cycle_words g.now cycle.now) }
{
    for number in cycle {
        add_call(told, g, item_at(calls, *number as usize))?;
    }
    Ok(())
}

/// Appends a space and the edge.
fn add_call(told: &mut Vec<u8>, g: &Core, call: Option<&Edge>) -> Result<(), AllocError>
    ensures { OnOk result (told.new.items ≡ told.old.items ++ next_edge g.now (option_copied call.entry)) }
{
    match call {
        Some(call) => {
            told.push(b' ')?;
            add_edge(told, g, *call)
        }
        None => Ok(()),
    }
}

fn add_edge(told: &mut Vec<u8>, g: &Core, edge: Edge) -> Result<(), AllocError>
    ensures { OnOk result (told.new.items ≡ told.old.items ++ edge_words g.now edge) }
{
    told.extend_from_slice(rule_name(g.rules(), edge.caller))?;
    add_number(told, edge.alt)?;
    add_number(told, edge.term)?;
    add_number(told, edge.branch)
}

/// Appends a slash and a number.
fn add_number(told: &mut Vec<u8>, number: u32) -> Result<(), AllocError>
    ensures { OnOk result (told.new.items ≡ told.old.items ++ 47 ∷ decimal number) }
{
    let mut buffer = Buffer::new();
    told.push(b'/')?;
    told.extend_from_slice(buffer.format(number).as_bytes())
}
