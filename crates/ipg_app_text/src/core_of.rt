//! The core grammar of a grammar as it is written.
ghost use Rattle.std.specs.Prelude.{◌≡◌, [], Ok, Err, IfOk, slice_get};
ghost use Rattle.ipg_complete.specs.Completion.{completed};
ghost use Rattle.ipg_core.specs.Good.{Good};
ghost use Rattle.ipg_names.specs.Readable.{IsReadable};
ghost use Rattle.ipg_app_text.specs.CoreOf.{CoreOf, resolved, Orders, Touches, OrdersAndTouches, CoreFrom, name_of};
ghost use Rattle.ipg_app_text.specs.Early.{AnswersOrSays};
ghost use Rattle.ipg_app_text.specs.Lines.{said_of};
ghost use Rattle.ipg_app_text.specs.Reasons.{CoreOrReason, IsCompleted, IsLoose, IsStuck, IsUnnamed, IsUnordered, head_at};
ghost use Rattle.ipg_app_text.specs.Reasons.{listed};
ghost use Rattle.ipg_app_text.specs.Refusal as spec;
ghost use Rattle.ipg_app_text.specs.Seen.{reason_of};
ghost use Rattle.ipg_app_explain.specs.Terms as explain;
ghost use Rattle.ipg_app_explain.specs.declared.why.Why.TheVariants as why;

use crate::early::Early;
use crate::grammar::grammar_in;
use crate::reasons::{Reason, name_reason, reason_at};
use crate::refusal::{TermPlace, circular, no_touch};
use crate::room::{MOST_COMPLETED, completed_size};
use crate::said::Settled;
use ipg_app_explain::{TermAt, Why, rule_at, term_place};
use ipg_ast::Grammar;
use ipg_complete::complete;
use ipg_complete::completed::Completed;
use ipg_core::accepted::Core;
use ipg_core::grammar::CoreRule;
use ipg_names::{NameFault, NamedGrammar, resolve};
use ipg_num::item_at;
use ipg_order::{OrderFault, order};
use ipg_touch::{loose, must_touch};
use std::alloc::{AllocError, Global};

/// A grammar that comes to more counts as want of memory.
const TOO_MUCH_TO_COMPLETE: AllocError = AllocError;

/// The core grammar of a grammar, or what is said of the first of its faults: G6 to G12, then G14.
pub fn core_of(alloc: Global, g: &Grammar) -> Result<Core, Early<Settled>>
    requires { IsReadable g.now }
    ensures { AnswersOrSays result (λ core. CoreFrom g.now (Ok core)) (λ settled. CoreFrom g.now (Err (said_of settled))) }
{
    Ok(core_or_reason(alloc, g)?)
}

/// The core grammar of a grammar, or why it has none.
pub fn core_or_reason(alloc: Global, g: &Grammar) -> Result<Core, Early<Reason>>
    requires { IsReadable g.now }
    ensures { AnswersOrSays result (λ core. CoreOrReason g.now (Ok core)) (λ reason. CoreOrReason g.now (Err (reason_of reason))) }
{
    let named = named_in(alloc, g)?;
    let whole = completed_in(alloc, named)?;
    core_in(alloc, g, whole)
}

/// The grammar with its intervals written out, unless that takes too much.
fn completed_in(alloc: Global, named: NamedGrammar) -> Result<Completed, AllocError>
    ensures { IfOk result (λ c. c ≡ completed named) }
{
    if MOST_COMPLETED < completed_size(named.rules()) {
        return Err(TOO_MUCH_TO_COMPLETE);
    }
    complete(alloc, named)
}

/// The core grammar of a text, or what is said of a text that has none.
pub fn core_in_text(alloc: Global, text: &[u8]) -> Result<Core, Early<Settled>>
    ensures { AnswersOrSays result (λ core. CoreOf text.now (Ok core)) (λ settled. CoreOf text.now (Err (said_of settled))) }
{
    let g = grammar_in(alloc, text)?;
    core_of(alloc, &g)
}

fn named_in(alloc: Global, g: &Grammar) -> Result<NamedGrammar, Early<Reason>>
    requires { IsReadable g.now }
    ensures { AnswersOrSays result (λ named. resolved g.now ≡ Ok named) (λ reason. IsUnnamed g.now (reason_of reason)) }
{
    match resolve(alloc, g) {
        Ok(named) => Ok(named),
        Err(NameFault::Memory) => Err(Early::Memory),
        Err(fault) => Err(Early::Said(name_reason(alloc, fault)?)),
    }
}

fn core_in(alloc: Global, g: &Grammar, c: Completed) -> Result<Core, Early<Reason>>
    ensures { IsCompleted g.now c
        → AnswersOrSays result (λ core. OrdersAndTouches c (Ok core)) (λ reason. IsUnordered g.now c (reason_of reason)) }
{
    let core = ordered_in(alloc, g, c)?;
    touching(alloc, g, core)
}

fn ordered_in(alloc: Global, g: &Grammar, c: Completed) -> Result<Core, Early<Reason>>
    ensures { IsCompleted g.now c → AnswersOrSays result (λ core. Orders c (Ok core)) (λ reason. IsStuck g.now c (reason_of reason)) }
{
    match order(alloc, c) {
        Ok(core) => {
            good(&core);
            Ok(core)
        }
        Err(OrderFault::Circular { rule, alt, term }) => {
            let reason = stuck(alloc, g, TermAt { rule, alt, term })?;
            Err(Early::Said(reason))
        }
        Err(OrderFault::Memory) => Err(Early::Memory),
    }
}

/// The reason of a term that has no turn.
fn stuck(alloc: Global, g: &Grammar, at: TermAt) -> Result<Reason, AllocError>
    ensures { IfOk result (λ r. reason_of r ≡ record {
      said = spec.circular (head_at g.now at.rule) at.alt at.term;
      why = why.Circular;
      places = listed (explain.term_place g.now at.rule at.alt at.term);
      notes = [];
    }) }
{
    let TermAt { rule, alt, term } = at;
    let rule = head_at(g, rule);
    let said = circular(alloc, TermPlace { rule, alt, term })?;
    reason_at(alloc, said, Why::Circular, term_place(g, at))
}

/// The name at the head of a rule, by the rule's number; none of one that there isn't.
fn head_at(g: &Grammar, rule: u32) -> &[u8]
    ensures { result.now ≡ head_at g.now rule }
{
    match rule_at(g, rule) {
        Some(rule) => rule.name.name.as_slice(),
        None => b"",
    }
}

/// A core grammar is good, by its type.
fn good(core: &Core)
    ensures { Good core.now }
{
    core.rules();
}

/// The grammar, or the reason of its first loose repetition.
fn touching(alloc: Global, g: &Grammar, core: Core) -> Result<Core, Early<Reason>>
    ensures { AnswersOrSays result (λ same. Touches core (Ok same)) (λ reason. IsLoose g.now core (reason_of reason)) }
{
    let marks = must_touch(alloc, &core)?;
    match loose(&core, &marks) {
        None => Ok(core),
        Some((rule, alt, term)) => {
            let name = rule_name(core.rules(), rule);
            let reason = without_touch(alloc, g, name, TermAt { rule, alt, term })?;
            Err(Early::Said(reason))
        }
    }
}

/// The reason of a loose repetition, in a rule of this name.
fn without_touch(alloc: Global, g: &Grammar, rule: &[u8], at: TermAt) -> Result<Reason, AllocError>
    ensures { IfOk result (λ r. reason_of r ≡ record {
      said = spec.no_touch rule.now at.alt at.term;
      why = why.NoTouch;
      places = listed (explain.term_place g.now at.rule at.alt at.term);
      notes = [];
    }) }
{
    let TermAt { alt, term, .. } = at;
    let said = no_touch(alloc, TermPlace { rule, alt, term })?;
    reason_at(alloc, said, Why::NoTouch, term_place(g, at))
}

/// The name of a rule; none of one that there isn't.
pub fn rule_name(rules: &[CoreRule], rule: u32) -> &[u8]
    ensures { result.now ≡ name_of (slice_get rules.now rule) }
{
    match item_at(rules, rule as usize) {
        Some(rule) => rule.name.as_slice(),
        None => b"",
    }
}
