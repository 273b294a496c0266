//! Where and why a grammar is refused, for a person.
ghost use Rattle.std.specs.Prelude.{◌≡◌, ◌++◌, Ok, Err, Some, IfOk, OnOk};
ghost use Rattle.std.specs.Option.{option_map, option_copied};
ghost use Rattle.ipg_names.specs.Readable.{IsReadable};
ghost use Rattle.ipg_term.specs.Loops.{IsReason, Loops};
ghost use Rattle.ipg_app_text.specs.Early.{AnswersOrSays};
ghost use Rattle.ipg_app_grammar.specs.Explained.{Explains, explained_said};
ghost use Rattle.ipg_app_grammar.specs.Followed.{Clears};
ghost use Rattle.ipg_app_text.specs.Lines.{said_of};
ghost use Rattle.ipg_app_text.specs.Reasons.{listed};
ghost use Rattle.ipg_app_grammar.specs.Judged.{IsCycle, IsRefused, Judged, cycle_places, edge_places};
ghost use Rattle.ipg_app_explain.specs.Terms.{call_place};
ghost use Rattle.ipg_app_text.specs.Seen.{reason_of};
ghost use Rattle.ipg_app_grammar.specs.Judged.{ClearsCore, ClearsGrammar};

use crate::looping::{length_of, may_loop};
use ipg_app_explain::{Source, TermAt, Why, call_place, explain};
use ipg_app_text::core_of::core_or_reason;
use ipg_app_text::early::Early;
use ipg_app_text::reasons::{Reason, read_reason};
use ipg_app_text::said::{Settled, line};
use ipg_app_text::status::Status;
use ipg_app_values::notes;
use ipg_ast::Grammar;
use ipg_core::accepted::{Checked, Core};
use ipg_facts_edges::{Edge, edges};
use ipg_names_text as texts;
use ipg_num::item_at;
use ipg_read_tokens::ReadFault;
use ipg_term::{TermFault, TermWhy, check};
use std::alloc::{AllocError, Global};

/// What `explain` says of a text that was given under a name.
pub fn explain_text(alloc: Global, name: &str, text: &[u8]) -> Result<Settled, AllocError>
    ensures { IfOk result (λ settled. Explains name.now text.now (said_of settled)) }
{
    match judged(alloc, text)? {
        None => line(alloc, Status::Done, b"accepted"),
        Some(reason) => told(alloc, name, text, &reason),
    }
}

/// A reason for a person.
pub fn told(alloc: Global, name: &str, text: &[u8], reason: &Reason) -> Result<Settled, AllocError>
    ensures { IfOk result (λ settled. said_of settled ≡ explained_said name.now text.now (Some (reason_of reason.now))) }
{
    let name = name.as_bytes();
    let text = explain(
        alloc,
        &reason.said.text,
        Source { name, text },
        reason.why,
        &reason.places,
        &reason.notes,
    )?;
    Ok(Settled {
        status: reason.said.status,
        text,
    })
}

/// Why a text has no core grammar by which parsing ends, if so.
fn judged(alloc: Global, text: &[u8]) -> Result<Option<Reason>, AllocError>
    ensures { IfOk result (λ reason. Judged text.now (option_map reason_of reason)) }
{
    match clear(alloc, text) {
        Ok(_) => Ok(None),
        Err(Early::Said(reason)) => Ok(Some(reason)),
        Err(Early::Memory) => Err(AllocError),
    }
}

/// A grammar as it is written, and the core grammar that it has, by which parsing ends.
#[derive(Drop)]
pub struct Cleared {
    pub grammar: Grammar,
    pub core: Checked,
}

/// The grammar of a text and its core grammar, by which parsing ends; or the reason against it.
pub fn clear(alloc: Global, text: &[u8]) -> Result<Cleared, Early<Reason>>
    ensures { AnswersOrSays result (λ made. Clears text.now (Ok (made.grammar, made.core))) (λ reason. Clears text.now (Err (reason_of reason))) }
{
    match texts::grammar_in(alloc, text) {
        Ok(g) => clear_grammar(alloc, g),
        Err(ReadFault::Memory) => Err(Early::Memory),
        Err(fault) => Err(Early::Said(read_reason(alloc, &fault)?)),
    }
}

fn clear_grammar(alloc: Global, g: Grammar) -> Result<Cleared, Early<Reason>>
    requires { IsReadable g }
    ensures { AnswersOrSays result (λ made. ClearsGrammar g made.grammar made.core) (λ reason. IsRefused g (reason_of reason)) }
{
    let core = core_or_reason(alloc, &g)?;
    clear_core(alloc, g, core)
}

fn clear_core(alloc: Global, g: Grammar, core: Core) -> Result<Cleared, Early<Reason>>
    ensures { AnswersOrSays result (λ made. ClearsCore g core made.grammar made.core) (λ reason. IsCycle g core (reason_of reason)) }
{
    match check(alloc, core) {
        Ok((core, _)) => Ok(Cleared { grammar: g, core }),
        Err(TermFault { grammar, why }) => {
            Err(Early::Said(cycle_reason(alloc, &g, &grammar, &why)?))
        }
    }
}

/// The reason of a cycle of calls that may keep the whole part.
fn cycle_reason(
    alloc: Global,
    g: &Grammar,
    core: &Core,
    why: &TermWhy,
) -> Result<Reason, AllocError>
    requires { IsReason core.now why.now }
    ensures { IfOk result (λ reason. IsCycle g.now core.now (reason_of reason)) }
{
    match why {
        TermWhy::MayLoop { cycle, values } => {
            loop_reason(alloc, g, core, cycle.as_slice(), values.as_slice())
        }
        TermWhy::Memory => Err(AllocError),
    }
}

/// The same of a cycle, by the numbers of its edges, and the values that it can be walked with.
fn loop_reason(
    alloc: Global,
    g: &Grammar,
    core: &Core,
    cycle: &[u32],
    values: &[i64],
) -> Result<Reason, AllocError>
    requires { Loops core.now cycle.now values.now }
    ensures { IfOk result (λ reason. IsCycle g.now core.now (reason_of reason)) }
{
    let said = may_loop(alloc, core, cycle, values)?;
    let places = cycle_places(alloc, g, core, cycle)?;
    let notes = notes(alloc, g, core, cycle, length_of(values))?;
    Ok(Reason {
        said,
        why: Why::MayLoop,
        places,
        notes,
    })
}

/// Where the calls of a cycle are named, by the numbers of its edges.
fn cycle_places(
    alloc: Global,
    g: &Grammar,
    core: &Core,
    cycle: &[u32],
) -> Result<Vec<u32>, AllocError>
    ensures { IfOk result (λ places. places.items ≡ cycle_places g.now core.now cycle.now) }
{
    let calls = edges(alloc, core)?;
    let mut places = Vec::new(alloc);
    for number in cycle {
        add_call(&mut places, g, item_at(&calls, *number as usize))?;
    }
    Ok(places)
}

fn add_call(places: &mut Vec<u32>, g: &Grammar, call: Option<&Edge>) -> Result<(), AllocError>
    ensures { OnOk result (places.new.items ≡ places.old.items ++ edge_places g.now (option_copied call.entry)) }
{
    match call {
        Some(edge) => add_place(places, place_of(g, *edge)),
        None => Ok(()),
    }
}

fn place_of(g: &Grammar, edge: Edge) -> Option<u32>
    ensures { result ≡ call_place g.now edge.caller edge.alt edge.term edge.branch }
{
    let at = TermAt {
        rule: edge.caller,
        alt: edge.alt,
        term: edge.term,
    };
    call_place(g, at, edge.branch)
}

fn add_place(places: &mut Vec<u32>, at: Option<u32>) -> Result<(), AllocError>
    ensures { OnOk result (places.new.items ≡ places.old.items ++ listed at) }
{
    if let Some(at) = at {
        places.push(at)?;
    }
    Ok(())
}
