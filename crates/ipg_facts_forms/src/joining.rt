ghost use Rattle.std.specs.Prelude.{◌≡◌, IfOk, OnOk, ◌++◌, ◌+◌, ◌-◌, map, drop, flat_map, length};
ghost use Rattle.ipg_facts_forms.specs.Joint as spec;

use crate::numbers::atom;
use ipg_lin::{Boxed, Formula, Linear};
use ipg_num::{List, item_at};
use std::alloc::{AllocError, Global};

/// No memory holds so many variables.
const TOO_MANY_VARIABLES: AllocError = AllocError;

/// A variable's number, the others but 0 being `by` further on.
fn moved(by: u64, variable: u64) -> Result<u64, AllocError>
    ensures { IfOk result (λ moved. moved ≡ spec.moved by variable) }
{
    if variable == 0 {
        return Ok(0);
    }
    variable.checked_add(by).ok_or(TOO_MANY_VARIABLES)
}

fn moved_terms(alloc: Global, by: u64, terms: &[(u64, i64)]) -> Result<Vec<(u64, i64)>, AllocError>
    ensures { IfOk result (λ moved. moved.items ≡ map (spec.moved_term by) terms.now) }
{
    let mut moved_terms = Vec::with_capacity(alloc, terms.len())?;
    for term in terms {
        moved_terms.push((moved(by, term.0)?, term.1))?;
    }
    Ok(moved_terms)
}

fn moved_atom(alloc: Global, by: u64, form: &Linear) -> Result<Formula, AllocError>
    ensures { IfOk result (λ atom. atom ≡ Formula.Atom (record { terms = map (spec.moved_term by) form.now.terms; constant = form.now.constant })) }
{
    let terms = moved_terms(alloc, by, form.terms())?;
    atom(alloc, terms.as_slice(), form.constant())
}

#[cycle(joining)]
#[tactic(auto, unfolding(crate::specs::Joint::apart))]
fn apart(alloc: Global, by: u64, formula: &Formula) -> Result<Formula, AllocError>
    ensures { IfOk result (λ apart. apart ≡ spec.apart by formula.now) }
{
    match formula {
        Formula::Atom(form) => moved_atom(alloc, by, form),
        Formula::All(members) => Ok(Formula::All(all_apart(alloc, by, members.as_slice())?)),
        Formula::Any(members) => Ok(Formula::Any(all_apart(alloc, by, members.as_slice())?)),
    }
}

#[cycle(joining)]
fn all_apart(alloc: Global, by: u64, members: &[Formula]) -> Result<List<Formula>, AllocError>
    ensures { IfOk result (λ apart. apart ≡ map (spec.apart by) members.now) }
{
    let mut formulas = Vec::with_capacity(alloc, members.len())?;
    for member in members {
        formulas.push(apart(alloc, by, member)?)?;
    }
    Ok(List::from_vec(formulas))
}

/// How many variables a part has of its own, behind those before it.
fn behind(before: u64, part: &(Formula, Boxed)) -> Result<u64, AllocError>
    ensures { IfOk result (λ sum. sum ≡ before + spec.own_variables part.now) }
{
    let bounds = part.1.bounds.as_slice().len() as u64;
    let own = if bounds == 0 { 0 } else { bounds - 1 };
    before.checked_add(own).ok_or(TOO_MANY_VARIABLES)
}

fn parts_apart(alloc: Global, parts: &[(Formula, Boxed)]) -> Result<List<Formula>, AllocError>
    ensures { IfOk result (λ formulas. formulas ≡ spec.parts_apart 0 parts.now) }
{
    let mut formulas = Vec::with_capacity(alloc, parts.len())?;
    let mut before = 0;
    for part in parts {
        formulas.push(apart(alloc, before, &part.0)?)?;
        before = behind(before, part)?;
    }
    Ok(List::from_vec(formulas))
}

fn put_bounds(out: &mut Vec<(i64, i64)>, bounds: &[(i64, i64)]) -> Result<(), AllocError>
    ensures { OnOk result (out.new.items ≡ out.old.items ++ bounds.now) }
{
    out.extend_from_slice(bounds)?;
    Ok(())
}

/// The bounds of variable 0, which are those of the first part.
fn put_shared(out: &mut Vec<(i64, i64)>, parts: &[(Formula, Boxed)]) -> Result<(), AllocError>
    ensures { OnOk result (out.new.items ≡ out.old.items ++ spec.shared_bounds parts.now) }
{
    if let Some(part) = item_at(parts, 0) {
        let bounds = part.1.bounds.as_slice();
        if !bounds.is_empty() {
            out.push(bounds[0])?;
        }
    }
    Ok(())
}

fn put_own(out: &mut Vec<(i64, i64)>, part: &(Formula, Boxed)) -> Result<(), AllocError>
    ensures { OnOk result (out.new.items ≡ out.old.items ++ drop 1 part.now.1.bounds) }
{
    let bounds = part.1.bounds.as_slice();
    if !bounds.is_empty() {
        put_bounds(out, &bounds[1..])?;
    }
    Ok(())
}

fn put_all_own(out: &mut Vec<(i64, i64)>, parts: &[(Formula, Boxed)]) -> Result<(), AllocError>
    ensures { OnOk result (out.new.items ≡ out.old.items ++ flat_map (λ part. drop 1 part.1.bounds) parts.now) }
{
    for part in parts {
        put_own(out, part)?;
    }
    Ok(())
}

/// All parts at one value of variable 0; their other variables are apart, numbered part after part.
#[tactic(auto, unfolding(crate::specs::Joint::joint))]
pub fn joint(alloc: Global, parts: &[(Formula, Boxed)]) -> Result<(Formula, Boxed), AllocError>
    ensures { IfOk result (λ joint. joint ≡ spec.joint parts.now) }
{
    let formulas = parts_apart(alloc, parts)?;
    let mut bounds = Vec::new(alloc);
    put_shared(&mut bounds, parts)?;
    put_all_own(&mut bounds, parts)?;
    Ok((
        Formula::All(formulas),
        Boxed {
            bounds: List::from_vec(bounds),
        },
    ))
}
