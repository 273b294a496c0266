//! Copies of forms and facts, which stand once for each mention.

ghost use Rattle.std.specs.Prelude.{◌≡◌, IfOk, OnOk, ◌++◌};

use crate::fact::{Draft, Fact, Part};
use ipg_num::List;
use std::alloc::{AllocError, Global};

fn copy_draft(alloc: Global, draft: &Draft) -> Result<Draft, AllocError>
    ensures { IfOk result (λ copy. copy ≡ draft.now) }
{
    let mut terms = Vec::with_capacity(alloc, draft.terms.len())?;
    for term in draft.terms.as_slice() {
        terms.push((term.0.copy()?, term.1))?;
    }
    Ok(Draft {
        terms: List::from_vec(terms),
        constant: draft.constant,
    })
}

#[cycle(copying)]
fn copy_fact(alloc: Global, fact: &Fact) -> Result<Fact, AllocError>
    ensures { IfOk result (λ copy. copy ≡ fact.now) }
{
    match fact {
        Fact::Atom(draft) => Ok(Fact::Atom(copy_draft(alloc, draft)?)),
        Fact::All(members) => Ok(Fact::All(copy_members(alloc, members.as_slice())?)),
        Fact::Any(members) => Ok(Fact::Any(copy_members(alloc, members.as_slice())?)),
    }
}

#[cycle(copying)]
pub fn copy_members(alloc: Global, members: &[Fact]) -> Result<List<Fact>, AllocError>
    ensures { IfOk result (λ copy. copy ≡ members.now) }
{
    let mut copy = Vec::with_capacity(alloc, members.len())?;
    for member in members {
        copy.push(copy_fact(alloc, member)?)?;
    }
    Ok(List::from_vec(copy))
}

/// Puts copies of facts behind others.
pub fn put_copies(alloc: Global, out: &mut Vec<Fact>, facts: &[Fact]) -> Result<(), AllocError>
    ensures { OnOk result (out.new.items ≡ out.old.items ++ facts.now) }
{
    for fact in facts {
        out.push(copy_fact(alloc, fact)?)?;
    }
    Ok(())
}

pub fn copy_part(part: &Part) -> Result<Part, AllocError>
    ensures { IfOk result (λ copy. copy ≡ part.now) }
{
    Ok(Part {
        variable: part.variable.copy()?,
        facts: part.facts.copy()?,
        factor: part.factor,
    })
}

pub fn copy_parts(alloc: Global, parts: &[Part]) -> Result<Vec<Part>, AllocError>
    ensures { IfOk result (λ copy. copy.items ≡ parts.now) }
{
    let mut copy = Vec::with_capacity(alloc, parts.len())?;
    for part in parts {
        copy.push(copy_part(part)?)?;
    }
    Ok(copy)
}
