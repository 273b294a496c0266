ghost use Rattle.std.specs.Prelude.{◌≡◌, ◌++◌, ◌+◌, ◌<◌, ◌≤◌, ◌^◌, length, IfOk, OnOk};
ghost use Rattle.std.specs.List.{AllByRecursion};
ghost use Rattle.ipg_core.specs.Mention.{term_syms};
ghost use Rattle.ipg_facts_edges.specs.Edges.{edges_of, alts_edges, terms_edges, syms_edges, cases_edges, call};
ghost use Rattle.ipg_facts_edges.specs.Few.{FewSlots, FewTerms, FewAlts};

use ipg_core::accepted::Core;
use ipg_core::grammar::{CoreAlt, CoreExpr, CoreRule, CoreSlot, CoreTerm, Sym};
use ipg_graph::Edge;
use std::alloc::{AllocError, Global};

/// The place of a term: its rule, its alternative in that, its number in that.
#[derive(Clone, Copy)]
struct At {
    rule: u32,
    alt: u32,
    term: u32,
}

/// One edge for each call, array of a rule, repetition of a rule and switch branch of a rule (the
/// `else` branch last), ordered by caller, alternative, term and branch. An edge's number is its place.
pub fn edges(alloc: Global, g: &Core) -> Result<Vec<Edge>, AllocError>
    ensures { IfOk result (λ edges. edges.items ≡ edges_of g.now) }
{
    let mut edges = Vec::new(alloc);
    for (rule, of) in g.rules().iter().enumerate() {
        add_alts(&mut edges, rule as u32, of.alts.as_slice())?;
    }
    Ok(edges)
}

fn add_alts(edges: &mut Vec<Edge>, rule: u32, alts: &[CoreAlt]) -> Result<(), AllocError>
    requires { FewAlts alts.now }
    ensures { OnOk result (edges.new.items ≡ edges.old.items ++ alts_edges rule alts.now) }
{
    for (alt, of) in alts.iter().enumerate() {
        add_terms(edges, rule, alt as u32, of.terms.as_slice())?;
    }
    Ok(())
}

fn add_terms(
    edges: &mut Vec<Edge>,
    rule: u32,
    alt: u32,
    terms: &[CoreTerm],
) -> Result<(), AllocError>
    requires { FewTerms terms.now }
    ensures { OnOk result (edges.new.items ≡ edges.old.items ++ terms_edges rule alt terms.now) }
{
    for (number, term) in terms.iter().enumerate() {
        let at = At {
            rule,
            alt,
            term: number as u32,
        };
        add_term(edges, at, term)?;
    }
    Ok(())
}

fn add_term(edges: &mut Vec<Edge>, at: At, term: &CoreTerm) -> Result<(), AllocError>
    requires { FewSlots term.now }
    ensures { OnOk result (edges.new.items ≡ edges.old.items ++ syms_edges at.rule at.alt at.term (term_syms term.now)) }
{
    match term {
        CoreTerm::Slot(slot) => add_call(edges, at, 0, &slot.sym),
        CoreTerm::Set { attr: _, value: _ } => Ok(()),
        CoreTerm::Test(_) => Ok(()),
        CoreTerm::Repeat {
            first: _,
            last: _,
            item,
            from: _,
            to: _,
        } => add_call(edges, at, 0, item),
        CoreTerm::Many {
            item,
            from: _,
            to: _,
        } => add_call(edges, at, 0, item),
        CoreTerm::Pick { cases, other } => add_branches(edges, at, cases.as_slice(), &other.sym),
    }
}

fn add_branches(
    edges: &mut Vec<Edge>,
    at: At,
    cases: &[(CoreExpr, CoreSlot)],
    other: &Sym,
) -> Result<(), AllocError>
    requires { length cases.now + 1 < 2 ^ 32 }
    ensures { OnOk result
        (edges.new.items ≡ edges.old.items ++ (cases_edges at.rule at.alt at.term 0 cases.now ++ call at.rule at.alt at.term (length cases.now) other.now)) }
{
    for (branch, case) in cases.iter().enumerate() {
        add_call(edges, at, branch as u32, &case.1.sym)?;
    }
    add_call(edges, at, cases.len() as u32, other)
}

/// The edge of a branch's symbol, where that is a rule.
fn add_call(edges: &mut Vec<Edge>, at: At, branch: u32, sym: &Sym) -> Result<(), AllocError>
    ensures { OnOk result (edges.new.items ≡ edges.old.items ++ call at.rule at.alt at.term branch sym.now) }
{
    match sym {
        Sym::Rule(callee) => {
            edges.push(Edge {
                caller: at.rule,
                alt: at.alt,
                term: at.term,
                branch,
                callee: *callee,
            })?;
            Ok(())
        }
        Sym::Text(_) => Ok(()),
        Sym::Prim(_) => Ok(()),
    }
}
