//! The facts that forms make: atoms behind the facts of the variables that they mention.

ghost use Rattle.std.specs.Prelude.{◌≡◌, IfOk, OnOk, ◌++◌, ◌∷◌, [], map, negsuc, pos, flat_map};
ghost use Rattle.std.specs.List.{filter};
ghost use Rattle.ipg_facts_forms.specs.Form as spec;

use crate::copying::put_copies;
use crate::fact::{Draft, Fact, Form, Part};
use crate::form::{counts, in_limits, minus, shifted};
use ipg_facts_variables::Variable;
use ipg_num::List;
use std::alloc::{AllocError, Global};

/// The variables that are mentioned, with their factors, which fit 64 bits in a form within its limits.
fn terms_of(alloc: Global, parts: &[Part]) -> Result<List<(Variable, i64)>, AllocError>
    ensures { IfOk result (λ terms. terms ≡ map (λ p. (p.variable, p.factor)) (filter spec.counts parts.now)) }
{
    let mut terms = Vec::new(alloc);
    for part in parts {
        if counts(part) {
            terms.push((part.variable.copy()?, narrow(part.factor)?))?;
        }
    }
    Ok(List::from_vec(terms))
}

/// No form within its limits has such a factor.
const PAST_64_BITS: AllocError = AllocError;

fn narrow(value: i128) -> Result<i64, AllocError>
    ensures { IfOk result (λ narrow. narrow ≡ value) }
{
    match i64::try_from(value) {
        Ok(value) => Ok(value),
        Err(_) => Err(PAST_64_BITS),
    }
}

#[tactic(auto, unfolding(crate::specs::Form::facts_of, crate::specs::Form::mentioned))]
fn put_facts(alloc: Global, out: &mut Vec<Fact>, form: &Form) -> Result<(), AllocError>
    ensures { OnOk result (out.new.items ≡ out.old.items ++ spec.facts_of form.now) }
{
    for part in form.parts.as_slice() {
        if counts(part) {
            put_copies(alloc, out, part.facts.as_slice())?;
        }
    }
    Ok(())
}

/// The atom alone: the form is at most 0.
#[tactic(auto, unfolding(crate::specs::Form::bare, crate::specs::Form::mentioned))]
fn put_bare(alloc: Global, out: &mut Vec<Fact>, form: &Form) -> Result<(), AllocError>
    ensures { OnOk result (out.new.items ≡ out.old.items ++ spec.bare form.now) }
{
    if in_limits(form) {
        out.push(Fact::Atom(Draft {
            terms: terms_of(alloc, form.parts.as_slice())?,
            constant: narrow(form.constant)?,
        }))?;
    }
    Ok(())
}

#[tactic(auto, using(crate::specs::Pieces::then, crate::specs::Pieces::then_last), unfolding(crate::specs::Form::at_most_zero))]
fn put_at_most_zero(alloc: Global, out: &mut Vec<Fact>, form: &Form) -> Result<(), AllocError>
    ensures { OnOk result (out.new.items ≡ out.old.items ++ spec.at_most_zero form.now) }
{
    if !in_limits(form) {
        return Ok(());
    }
    put_facts(alloc, out, form)?;
    put_bare(alloc, out, form)
}

/// `a <= b`.
#[tactic(auto, unfolding(crate::specs::Form::leq))]
pub fn put_leq(alloc: Global, out: &mut Vec<Fact>, a: &Form, b: &Form) -> Result<(), AllocError>
    ensures { OnOk result (out.new.items ≡ out.old.items ++ spec.leq a.now b.now) }
{
    put_at_most_zero(alloc, out, &minus(alloc, a, b)?)
}

/// `a < b`.
#[tactic(auto, unfolding(crate::specs::Form::less))]
pub fn put_less(alloc: Global, out: &mut Vec<Fact>, a: &Form, b: &Form) -> Result<(), AllocError>
    ensures { OnOk result (out.new.items ≡ out.old.items ++ spec.less a.now b.now) }
{
    put_at_most_zero(alloc, out, &shifted(alloc, &minus(alloc, a, b)?, 1)?)
}

/// Two forms of the same variables are at most 0.
#[tactic(auto, using(crate::specs::Pieces::then, crate::specs::Pieces::then_last), unfolding(crate::specs::Form::both_at_most_zero))]
fn put_both(
    alloc: Global,
    out: &mut Vec<Fact>,
    first: &Form,
    second: &Form,
) -> Result<(), AllocError>
    ensures { OnOk result (out.new.items ≡ out.old.items ++ spec.both_at_most_zero first.now second.now) }
{
    if !in_limits(first) {
        return put_at_most_zero(alloc, out, second);
    }
    put_at_most_zero(alloc, out, first)?;
    put_bare(alloc, out, second)
}

/// `a = b`: `a <= b` and then `b <= a`, the facts of the variables once before them.
#[tactic(auto, unfolding(crate::specs::Form::equal))]
pub fn put_equal(alloc: Global, out: &mut Vec<Fact>, a: &Form, b: &Form) -> Result<(), AllocError>
    ensures { OnOk result (out.new.items ≡ out.old.items ++ spec.equal a.now b.now) }
{
    put_both(alloc, out, &minus(alloc, a, b)?, &minus(alloc, b, a)?)
}

/// One or the other.
#[tactic(auto, unfolding(crate::specs::Form::choice))]
pub fn put_choice(
    alloc: Global,
    out: &mut Vec<Fact>,
    a: Vec<Fact>,
    b: Vec<Fact>,
) -> Result<(), AllocError>
    ensures { OnOk result (out.new.items ≡ out.old.items ++ spec.choice a.items b.items) }
{
    let mut members = List::new(alloc);
    members.push(Fact::All(List::from_vec(a)))?;
    members.push(Fact::All(List::from_vec(b)))?;
    out.push(Fact::Any(members))?;
    Ok(())
}

/// `a != b`.
#[tactic(auto, unfolding(crate::specs::Form::differ))]
pub fn put_differ(alloc: Global, out: &mut Vec<Fact>, a: &Form, b: &Form) -> Result<(), AllocError>
    ensures { OnOk result (out.new.items ≡ out.old.items ++ spec.differ a.now b.now) }
{
    let mut below = Vec::new(alloc);
    put_less(alloc, &mut below, a, b)?;
    let mut above = Vec::new(alloc);
    put_less(alloc, &mut above, b, a)?;
    put_choice(alloc, out, below, above)
}
