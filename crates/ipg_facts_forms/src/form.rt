//! Linear forms. A number beyond 128 bits answers want of memory: no sum of forms within their limits comes to one.

ghost use Rattle.std.specs.Prelude.{◌≡◌, IfOk, OnOk, ◌++◌, ◌∷◌, ◌+ℤ◌, ◌*ℤ◌, [], pos, negsuc, length, map, Bool};
ghost use Rattle.std.specs.List.{filter, list_all};
ghost use Rattle.ipg_facts_forms.specs.Form as spec;

use crate::copying::{copy_part, copy_parts};
use crate::fact::{Draft, Fact, Form, Part};
use ipg_facts_variables::{Shared, Variable, same_variable};
use ipg_num::List;
use std::alloc::{AllocError, Global};

/// No sum of forms within their limits comes to such a number.
const PAST_128_BITS: AllocError = AllocError;

fn sum(a: i128, b: i128) -> Result<i128, AllocError>
    ensures { IfOk result (λ sum. sum ≡ a +ℤ b) }
{
    a.checked_add(b).ok_or(PAST_128_BITS)
}

fn product(a: i128, b: i128) -> Result<i128, AllocError>
    ensures { IfOk result (λ product. product ≡ a *ℤ b) }
{
    a.checked_mul(b).ok_or(PAST_128_BITS)
}

/// A variable that carries facts.
pub fn mention(alloc: Global, variable: Variable, facts: Vec<Fact>) -> Result<Form, AllocError>
    ensures { IfOk result (λ form. form ≡ spec.mention variable facts.items) }
{
    let mut parts = List::new(alloc);
    parts.push(Part {
        variable,
        facts: Shared::from_vec(alloc, facts)?,
        factor: 1,
    })?;
    Ok(Form { parts, constant: 0 })
}

pub fn number(alloc: Global, value: i128) -> Form
    ensures { result ≡ spec.number value }
{
    Form {
        parts: List::new(alloc),
        constant: value,
    }
}

fn add_factor(part: &mut Part, more: &Part) -> Result<(), AllocError>
    ensures { OnOk result (part.new ≡ record part.old { factor = part.old.factor +ℤ more.now.factor }) }
{
    part.factor = sum(part.factor, more.factor)?;
    Ok(())
}

fn add_part(parts: &mut Vec<Part>, part: &Part) -> Result<(), AllocError>
    ensures { OnOk result (parts.new.items ≡ spec.add_part parts.old.items part.now) }
{
    for at in 0..parts.len() {
        if same_variable(&parts[at].variable, &part.variable) {
            return add_factor(&mut parts[at], part);
        }
    }
    parts.push(copy_part(part)?)?;
    Ok(())
}

#[tactic(auto, unfolding(crate::specs::Form::plus))]
pub fn plus(alloc: Global, a: &Form, b: &Form) -> Result<Form, AllocError>
    ensures { IfOk result (λ form. form ≡ spec.plus a.now b.now) }
{
    Ok(Form {
        parts: joined(alloc, a.parts.as_slice(), b.parts.as_slice())?,
        constant: sum(a.constant, b.constant)?,
    })
}

fn joined(alloc: Global, a: &[Part], b: &[Part]) -> Result<List<Part>, AllocError>
    ensures { IfOk result (λ parts. parts ≡ spec.add_parts a.now b.now) }
{
    let mut parts = copy_parts(alloc, a)?;
    for part in b {
        add_part(&mut parts, part)?;
    }
    Ok(List::from_vec(parts))
}

#[tactic(auto, unfolding(crate::specs::Form::scaled))]
pub fn scaled(alloc: Global, by: i128, a: &Form) -> Result<Form, AllocError>
    ensures { IfOk result (λ form. form ≡ spec.scaled by a.now) }
{
    Ok(Form {
        parts: scaled_parts(alloc, by, a.parts.as_slice())?,
        constant: product(a.constant, by)?,
    })
}

fn scaled_parts(alloc: Global, by: i128, parts: &[Part]) -> Result<List<Part>, AllocError>
    ensures { IfOk result (λ scaled. scaled ≡ map (spec.scaled_part by) parts.now) }
{
    let mut scaled = Vec::with_capacity(alloc, parts.len())?;
    for part in parts {
        scaled.push(scaled_part(by, part)?)?;
    }
    Ok(List::from_vec(scaled))
}

fn scaled_part(by: i128, part: &Part) -> Result<Part, AllocError>
    ensures { IfOk result (λ scaled. scaled ≡ spec.scaled_part by part.now) }
{
    Ok(Part {
        variable: part.variable.copy()?,
        facts: part.facts.copy()?,
        factor: product(part.factor, by)?,
    })
}

#[tactic(auto, unfolding(crate::specs::Form::minus))]
pub fn minus(alloc: Global, a: &Form, b: &Form) -> Result<Form, AllocError>
    ensures { IfOk result (λ form. form ≡ spec.minus a.now b.now) }
{
    plus(alloc, a, &scaled(alloc, -1, b)?)
}

#[tactic(auto, unfolding(crate::specs::Form::shifted))]
pub fn shifted(alloc: Global, a: &Form, by: i128) -> Result<Form, AllocError>
    ensures { IfOk result (λ form. form ≡ spec.shifted a.now by) }
{
    Ok(Form {
        parts: List::from_vec(copy_parts(alloc, a.parts.as_slice())?),
        constant: sum(a.constant, by)?,
    })
}

/// Whether the part mentions its variable.
pub fn counts(part: &Part) -> bool
    ensures { result ≡ spec.counts part.now }
{
    part.factor != 0
}

fn count(parts: &[Part]) -> usize
    ensures { result ≡ length (filter spec.counts parts.now) }
{
    let mut found = 0;
    for part in parts {
        if counts(part) {
            found += 1;
        }
    }
    found
}

#[tactic(auto, unfolding(crate::specs::Form::is_constant, crate::specs::Form::mentioned))]
pub fn is_constant(form: &Form) -> bool
    ensures { result ≡ spec.is_constant form.now }
{
    count(form.parts.as_slice()) == 0
}

fn is_light(part: &Part) -> bool
    ensures { result ≡ spec.is_light part.now }
{
    part.factor.unsigned_abs() <= 1 << 40
}

fn are_light(parts: &[Part]) -> bool
    ensures { result ≡ list_all spec.is_light (filter spec.counts parts.now) }
{
    for part in parts {
        if counts(part) && !is_light(part) {
            return false;
        }
    }
    true
}

fn is_number(value: i128) -> bool
    ensures { result ≡ spec.is_number value }
{
    -(1 << 63) <= value && value < 1 << 63
}

/// Whether the form is within the limits of `Linear`.
#[tactic(auto, unfolding(crate::specs::Form::in_limits, crate::specs::Form::mentioned))]
pub fn in_limits(form: &Form) -> bool
    ensures { result ≡ spec.in_limits form.now }
{
    let parts = form.parts.as_slice();
    count(parts) <= 64 && are_light(parts) && is_number(form.constant)
}
