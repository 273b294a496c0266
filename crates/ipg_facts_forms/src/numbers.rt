//! From facts over variables to a formula over numbers.

ghost use Rattle.std.specs.Prelude.{◌≡◌, IfOk, OnOk, ◌++◌, ◌∷◌, [], map, flat_map, length};
ghost use Rattle.ipg_facts_forms.specs.Numbers as spec;
ghost use Rattle.ipg_facts_forms.specs.Table.{variables_shown};

use crate::fact::{Draft, Fact};
use indexmap::IndexSet;
use ipg_facts_variables::{Side, Variable, same_variable, whole};
use ipg_lin::{Boxed, Formula, Linear};
use ipg_num::List;
use std::alloc::{AllocError, Global};

/// A form that leaves the limits counts as want of memory: none is made.
const PAST_LIMITS: AllocError = AllocError;

/// The variables by their numbers.
pub type Numbering<'a> = IndexSet<&'a Variable>;

fn add_variable<'a>(variables: &mut Numbering<'a>, variable: &'a Variable) -> Result<(), AllocError>
    ensures { OnOk result (variables_shown variables.new ≡ spec.with_variable (variables_shown variables.old) variable.now) }
{
    variables.insert(variable)?;
    Ok(())
}

fn add_terms<'a>(
    variables: &mut Numbering<'a>,
    terms: &'a [(Variable, i64)],
) -> Result<(), AllocError>
    ensures { OnOk result (variables_shown variables.new ≡ spec.with_variables (variables_shown variables.old) (map (λ term. term.0) terms.now)) }
{
    for term in terms {
        add_variable(variables, &term.0)?;
    }
    Ok(())
}

#[cycle(mentioning)]
#[tactic(auto, unfolding(crate::specs::Numbers::variables_in), using(crate::proofs::Tables::variables_joined))]
fn add_fact<'a>(variables: &mut Numbering<'a>, fact: &'a Fact) -> Result<(), AllocError>
    ensures { OnOk result (variables_shown variables.new ≡ spec.with_variables (variables_shown variables.old) (spec.variables_in fact.now)) }
{
    match fact {
        Fact::Atom(draft) => add_terms(variables, draft.terms.as_slice()),
        Fact::All(members) => add_facts(variables, members.as_slice()),
        Fact::Any(members) => add_facts(variables, members.as_slice()),
    }
}

#[cycle(mentioning)]
fn add_facts<'a>(variables: &mut Numbering<'a>, facts: &'a [Fact]) -> Result<(), AllocError>
    ensures { OnOk result (variables_shown variables.new ≡ spec.with_variables (variables_shown variables.old) (flat_map spec.variables_in facts.now)) }
{
    for fact in facts {
        add_fact(variables, fact)?;
    }
    Ok(())
}

/// Numbers the variables by their first mention, behind `first`.
pub fn variables_of<'a>(
    alloc: Global,
    first: &'a Variable,
    facts: &'a [Fact],
) -> Result<Numbering<'a>, AllocError>
    ensures { IfOk result (λ variables. variables_shown variables ≡ spec.with_variables (first.now ∷ []) (flat_map spec.variables_in facts.now)) }
{
    let mut variables = IndexSet::new(alloc);
    add_variable(&mut variables, first)?;
    add_facts(&mut variables, facts)?;
    Ok(variables)
}

/// A variable's number.
fn place(variables: &Numbering<'_>, variable: &Variable) -> u64
    ensures { result ≡ spec.place (variables_shown variables.now) variable.now }
{
    match variables.get_index_of(&variable) {
        Some(place) => place as u64,
        None => variables.len() as u64,
    }
}

fn numbered_term(variables: &Numbering<'_>, term: &(Variable, i64)) -> (u64, i64)
    ensures { result ≡ (spec.place (variables_shown variables.now) term.now.0, term.now.1) }
{
    (place(variables, &term.0), term.1)
}

/// Puts a term among terms whose variables rise.
fn insert(terms: &mut Vec<(u64, i64)>, term: (u64, i64)) -> Result<(), AllocError>
    ensures { OnOk result (terms.new.items ≡ spec.insert term terms.old.items) }
{
    for at in 0..terms.len() {
        if term.0 <= terms[at].0 {
            terms.insert(at, term)?;
            return Ok(());
        }
    }
    terms.push(term)?;
    Ok(())
}

/// The terms of an atom, by rising numbers.
fn numbered(
    alloc: Global,
    variables: &Numbering<'_>,
    terms: &[(Variable, i64)],
) -> Result<Vec<(u64, i64)>, AllocError>
    ensures { IfOk result (λ numbered. numbered.items ≡ spec.numbered (variables_shown variables.now) terms.now) }
{
    let mut numbered = Vec::with_capacity(alloc, terms.len())?;
    for at in (0..terms.len()).rev() {
        insert(&mut numbered, numbered_term(variables, &terms[at]))?;
    }
    Ok(numbered)
}

/// An atom.
pub fn atom(alloc: Global, terms: &[(u64, i64)], constant: i64) -> Result<Formula, AllocError>
    ensures { IfOk result (λ atom. atom ≡ Formula.Atom (record { terms = terms.now; constant = constant })) }
{
    match Linear::new(alloc, terms, constant) {
        Ok(form) => Ok(Formula::Atom(form)),
        Err(_) => Err(PAST_LIMITS),
    }
}

fn numbered_atom(
    alloc: Global,
    variables: &Numbering<'_>,
    draft: &Draft,
) -> Result<Formula, AllocError>
    ensures { IfOk result
        (λ atom. atom ≡ Formula.Atom (record { terms = spec.numbered (variables_shown variables.now) draft.now.terms; constant = draft.now.constant })) }
{
    let terms = numbered(alloc, variables, draft.terms.as_slice())?;
    atom(alloc, terms.as_slice(), draft.constant)
}

#[cycle(numbering)]
#[tactic(auto, unfolding(crate::specs::Numbers::formula_of))]
fn formula_of(alloc: Global, variables: &Numbering<'_>, fact: &Fact) -> Result<Formula, AllocError>
    ensures { IfOk result (λ formula. formula ≡ spec.formula_of (variables_shown variables.now) fact.now) }
{
    match fact {
        Fact::Atom(draft) => numbered_atom(alloc, variables, draft),
        Fact::All(members) => Ok(Formula::All(formulas_of(alloc, variables, members.as_slice())?)),
        Fact::Any(members) => Ok(Formula::Any(formulas_of(alloc, variables, members.as_slice())?)),
    }
}

#[cycle(numbering)]
pub fn formulas_of(
    alloc: Global,
    variables: &Numbering<'_>,
    facts: &[Fact],
) -> Result<List<Formula>, AllocError>
    ensures { IfOk result (λ formulas. formulas ≡ map (spec.formula_of (variables_shown variables.now)) facts.now) }
{
    let mut formulas = Vec::with_capacity(alloc, facts.len())?;
    for fact in facts {
        formulas.push(formula_of(alloc, variables, fact)?)?;
    }
    Ok(List::from_vec(formulas))
}

fn bounds_of(variable: &Variable) -> (i64, i64)
    ensures { result ≡ spec.bounds_of variable.now }
{
    if same_variable(variable, &whole(Side::Caller))
        || same_variable(variable, &whole(Side::Holder))
    {
        (0, 1 << 30)
    } else {
        (i64::MIN, i64::MAX)
    }
}

/// A length of a part is from 0 to 2^30, all else is any number.
pub fn box_of(alloc: Global, variables: &Numbering<'_>) -> Result<Boxed, AllocError>
    ensures { IfOk result (λ box. box ≡ spec.box_of (variables_shown variables.now)) }
{
    let mut bounds = Vec::with_capacity(alloc, variables.len())?;
    for variable in variables.as_slice() {
        bounds.push(bounds_of(*variable))?;
    }
    Ok(Boxed {
        bounds: List::from_vec(bounds),
    })
}

/// Copies of the variables, in order.
pub fn copies(alloc: Global, variables: &Numbering<'_>) -> Result<Vec<Variable>, AllocError>
    ensures { IfOk result (λ copies. copies.items ≡ variables_shown variables.now) }
{
    let mut copies = Vec::with_capacity(alloc, variables.len())?;
    for variable in variables.as_slice() {
        copies.push(variable.copy()?)?;
    }
    Ok(copies)
}
