ghost use Rattle.std.specs.Prelude.{◌≡◌, IfOk, OnOk, ◌++◌, ◌∷◌, ◌<◌, [], length, slice_get, option_map, Option, replicate};
ghost use Rattle.std.specs.Option.{option_copied};
ghost use Rattle.ipg_core.specs.Grammar.{rule_at};
ghost use Rattle.ipg_facts.specs.Reading as reading;
ghost use Rattle.ipg_facts.specs.Keep as spec;
ghost use Rattle.ipg_facts_forms.specs.Numbers as numbers;
ghost use Rattle.ipg_facts.specs.View.{scope_of};

use crate::bounds::Bounds;
use crate::edition::Edition;
use crate::members::{put_own_members, put_terms_members};
use crate::scope::{Scope, length_of};
use ipg_core::accepted::Core;
use ipg_core::grammar::{CoreAlt, CoreRule};
use ipg_facts_forms::{Fact, box_of, copies, formulas_of, put_leq, variables_of};
use ipg_facts_holder::{kept, mentions_holder};
use ipg_facts_variables::{Side, Variable, whole};
use ipg_graph::Edge;
use ipg_lin::{Boxed, Formula};
use ipg_num::item_at;
use std::alloc::{AllocError, Global};

/// A grammar, and which of its rules must touch.
#[derive(Clone, Copy)]
pub struct Ground<'a> {
    pub grammar: &'a Core,
    pub marks: &'a [bool],
}

fn no_arrays(alloc: Global, count: usize) -> Result<Vec<Option<Bounds>>, AllocError>
    ensures { IfOk result (λ arrays. arrays.items ≡ replicate count None) }
{
    let mut arrays = Vec::with_capacity(alloc, count)?;
    for _at in 0..count {
        arrays.push(None)?;
    }
    Ok(arrays)
}

/// An alternative none of whose arrays has run.
#[tactic(auto, unfolding(crate::specs::Keep::opening))]
pub fn opening<'a>(
    alloc: Global,
    ground: Ground<'a>,
    edition: Edition,
    side: Side,
    alt: &'a CoreAlt,
) -> Result<Scope<'a>, AllocError>
    ensures { IfOk result (λ scope. scope_of scope ≡ spec.opening ground.entry.grammar.now ground.entry.marks.now edition side alt.now) }
{
    Ok(Scope {
        edition,
        side,
        names: ground.grammar.names(),
        marks: ground.marks,
        terms: alt.terms.as_slice(),
        arrays: no_arrays(alloc, alt.terms.len())?,
    })
}

pub fn alt_of(rule: &CoreRule, alt: u32) -> Option<&CoreAlt>
    ensures { option_copied result ≡ slice_get rule.now.alts alt }
{
    item_at(rule.alts.as_slice(), alt as usize)
}

fn alt_at(g: &Core, at: (u32, u32)) -> Option<&CoreAlt>
    ensures { option_copied result ≡ spec.alt_at g.now at }
{
    match item_at(g.rules(), at.0 as usize) {
        None => None,
        Some(rule) => alt_of(rule, at.1),
    }
}

/// The terms that run before one.
fn before(alloc: Global, term: u32, order: &[u32]) -> Result<Vec<u32>, AllocError>
    ensures { IfOk result (λ before. before.items ≡ spec.before term order.now) }
{
    let mut before = Vec::new(alloc);
    for next in order {
        if *next == term {
            return Ok(before);
        }
        before.push(*next)?;
    }
    Ok(before)
}

/// The holder's part is at least as long, and these of its terms have run.
#[tactic(auto, unfolding(crate::specs::Keep::held_facts), using(ipg_facts_forms::specs::Pieces::then, ipg_facts_forms::specs::Pieces::then_first))]
fn put_held_facts(
    alloc: Global,
    out: &mut Vec<Fact>,
    ground: Ground,
    holder: &CoreAlt,
    caller: &CoreAlt,
    terms: &[u32],
) -> Result<(), AllocError>
    ensures { OnOk result (out.new.items ≡ out.old.items ++ spec.held_facts ground.entry.grammar.now ground.entry.marks.now holder.now caller.now terms.now) }
{
    let own = opening(alloc, ground, Edition::Later, Side::Caller, caller)?;
    let mut scope = opening(alloc, ground, Edition::Later, Side::Holder, holder)?;
    put_leq(
        alloc,
        out,
        &length_of(alloc, &own)?,
        &length_of(alloc, &scope)?,
    )?;
    put_terms_members(alloc, out, &mut scope, terms)
}

#[tactic(auto, unfolding(crate::specs::Keep::held))]
fn put_held(
    alloc: Global,
    out: &mut Vec<Fact>,
    ground: Ground,
    at: (u32, u32),
    caller: &CoreAlt,
) -> Result<(), AllocError>
    ensures { OnOk result
        (out.new.items ≡ out.old.items ++ spec.held ground.entry.grammar.now ground.entry.marks.now at (spec.alt_at ground.entry.grammar.now at) caller.now) }
{
    match alt_at(ground.grammar, at) {
        None => Ok(()),
        Some(holder) => {
            let terms = kept(alloc, ground.grammar, at, holder, caller.terms.as_slice())?;
            put_held_facts(alloc, out, ground, holder, caller, terms.as_slice())
        }
    }
}

/// What the holder puts, where the alternative mentions it.
#[tactic(auto, unfolding(crate::specs::Keep::holder_facts, crate::specs::Keep::mentions_holder))]
pub fn put_holder_facts(
    alloc: Global,
    out: &mut Vec<Fact>,
    ground: Ground,
    holder: Option<(u32, u32)>,
    caller: &CoreAlt,
) -> Result<(), AllocError>
    ensures { OnOk result (out.new.items ≡ out.old.items ++ spec.holder_facts ground.entry.grammar.now ground.entry.marks.now holder caller.now) }
{
    match holder {
        None => Ok(()),
        Some(at) => {
            if mentions_holder(caller.terms.as_slice()) {
                put_held(alloc, out, ground, at, caller)
            } else {
                Ok(())
            }
        }
    }
}

/// The same, which the earlier conditions leave out.
fn put_later_holder_facts(
    alloc: Global,
    out: &mut Vec<Fact>,
    ground: Ground,
    edition: Edition,
    holder: Option<(u32, u32)>,
    caller: &CoreAlt,
) -> Result<(), AllocError>
    ensures { OnOk result
        (out.new.items ≡ out.old.items
        ++ reading.if_later edition (spec.holder_facts ground.entry.grammar.now ground.entry.marks.now holder caller.now)) }
{
    match edition {
        Edition::Earlier => Ok(()),
        Edition::Later => put_holder_facts(alloc, out, ground, holder, caller),
    }
}

/// The terms before the edge's term have run, and its call is made on the whole part.
#[tactic(auto, unfolding(crate::specs::Keep::caller_facts), using(crate::proofs::Puts::in_turn))]
fn put_caller_facts(
    alloc: Global,
    out: &mut Vec<Fact>,
    ground: Ground,
    edition: Edition,
    edge: Edge,
    caller: &CoreAlt,
) -> Result<(), AllocError>
    ensures { OnOk result (out.new.items ≡ out.old.items ++ spec.caller_facts ground.entry.grammar.now ground.entry.marks.now edition edge caller.now) }
{
    let order = before(alloc, edge.term, caller.order.as_slice())?;
    let mut scope = opening(alloc, ground, edition, Side::Caller, caller)?;
    put_terms_members(alloc, out, &mut scope, order.as_slice())?;
    put_own_members(alloc, out, &scope, edge.term, edge.branch)
}

#[tactic(auto, unfolding(crate::specs::Keep::rule_facts), using(crate::proofs::Puts::in_turn))]
fn put_rule_facts(
    alloc: Global,
    out: &mut Vec<Fact>,
    ground: Ground,
    edition: Edition,
    edge: Edge,
    rule: &CoreRule,
) -> Result<(), AllocError>
    ensures { OnOk result (out.new.items ≡ out.old.items ++ spec.rule_facts ground.entry.grammar.now ground.entry.marks.now edition edge (Some rule.now)
        (slice_get rule.now.alts edge.alt)) }
{
    match alt_of(rule, edge.alt) {
        None => Ok(()),
        Some(caller) => {
            put_later_holder_facts(alloc, out, ground, edition, rule.holder, caller)?;
            put_caller_facts(alloc, out, ground, edition, edge, caller)
        }
    }
}

#[tactic(auto, unfolding(crate::specs::Keep::edge_facts, crate::specs::Keep::rule_facts))]
fn edge_facts(
    alloc: Global,
    ground: Ground,
    edition: Edition,
    edge: Edge,
) -> Result<Vec<Fact>, AllocError>
    ensures { IfOk result (λ facts. facts.items ≡ spec.edge_facts ground.entry.grammar.now ground.entry.marks.now edition edge) }
{
    let mut facts = Vec::new(alloc);
    match item_at(ground.grammar.rules(), edge.caller as usize) {
        None => Ok(facts),
        Some(rule) => {
            put_rule_facts(alloc, &mut facts, ground, edition, edge, rule)?;
            Ok(facts)
        }
    }
}

/// Facts as a formula over numbered variables, and the variables' bounds.
#[tactic(auto, unfolding(ipg_facts_forms::specs::Numbers::variables_of))]
pub fn numbered(alloc: Global, facts: &[Fact]) -> Result<(Formula, Boxed), AllocError>
    ensures { IfOk result (λ made. made ≡ numbers.all_of facts.now) }
{
    let first = whole(Side::Caller);
    let variables = variables_of(alloc, &first, facts)?;
    let members = formulas_of(alloc, &variables, facts)?;
    Ok((Formula::All(members), box_of(alloc, &variables)?))
}

/// The conditions of the edge `edges[e]`, as `edition` has them.
fn conditions(
    alloc: Global,
    g: &Core,
    touch: &[bool],
    edition: Edition,
    edges: &[Edge],
    e: u32,
) -> Result<(Formula, Boxed), AllocError>
    requires { e < length edges.now }
    ensures { IfOk result
        (λ made. option_map (λ edge. numbers.all_of (spec.edge_facts g.now touch.now edition edge)) (slice_get edges.now e) ≡ Some made) }
{
    let edge = edges[e as usize];
    let ground = Ground {
        grammar: g,
        marks: touch,
    };
    let facts = edge_facts(alloc, ground, edition, edge)?;
    numbered(alloc, facts.as_slice())
}

/// The conditions under which the call of the edge `edges[e]` is made on its caller's whole part: a formula over
/// whole numbers, and the bounds of its variables, of which the first is the length of the part. `touch` says
/// which rules must touch a byte, `edges` are those of the grammar. It takes time in proportion to the formula and
/// to the expressions that it copies from; a conditional's facts stand once for each mention of it.
#[tactic(auto, unfolding(crate::specs::Keep::keep))]
pub fn keep(
    alloc: Global,
    g: &Core,
    touch: &[bool],
    edges: &[Edge],
    e: u32,
) -> Result<(Formula, Boxed), AllocError>
    requires { e < length edges.now }
    ensures { IfOk result (λ made. option_map (spec.keep g.now touch.now) (slice_get edges.now e) ≡ Some made) }
{
    conditions(alloc, g, touch, Edition::Later, edges, e)
}

/// The variables of the conditions by their numbers, with the same arguments as `keep`: the first is the length of the part.
#[tactic(auto, unfolding(crate::specs::Keep::variables, ipg_facts_forms::specs::Numbers::variables_of))]
pub fn variables(
    alloc: Global,
    g: &Core,
    touch: &[bool],
    edge: Edge,
) -> Result<Vec<Variable>, AllocError>
    ensures { IfOk result (λ made. made.items ≡ spec.variables g.now touch.now edge) }
{
    let ground = Ground {
        grammar: g,
        marks: touch,
    };
    let facts = edge_facts(alloc, ground, Edition::Later, edge)?;
    let first = whole(Side::Caller);
    copies(alloc, &variables_of(alloc, &first, facts.as_slice())?)
}

/// The conditions as they were when they knew less (`Edition::Earlier`), with the same arguments as `keep`. Whatever
/// solves `keep` gives a solution of these with the same length of the part.
#[tactic(auto, unfolding(crate::specs::Keep::keep_before))]
pub fn keep_before(
    alloc: Global,
    g: &Core,
    touch: &[bool],
    edges: &[Edge],
    e: u32,
) -> Result<(Formula, Boxed), AllocError>
    requires { e < length edges.now }
    ensures { IfOk result (λ made. option_map (spec.keep_before g.now touch.now) (slice_get edges.now e) ≡ Some made) }
{
    conditions(alloc, g, touch, Edition::Earlier, edges, e)
}
