//! What an expression is to the conditions: a linear form, and the facts that it is true and that it is false.

ghost use Rattle.std.specs.Prelude.{◌≡◌, IfOk, OnOk, ◌++◌, [], pos, negsuc, Option, slice_get, option_map, Result, Ok, Err, true, false};
ghost use Rattle.std.specs.Option.{option_copied};
ghost use Rattle.ipg_facts_forms.specs.Form as forms;
ghost use Rattle.ipg_facts_variables.specs.Variable as variables;
ghost use Rattle.ipg_facts.specs.Reading as spec;
ghost use Rattle.ipg_facts.specs.View.{scope_of};

use crate::bounds::Bounds;
use crate::edition::Edition;
use crate::scope::{Scope, greatest_of, item_sym, least_width, length_of, nought};
use ipg_core::grammar::{CoreExpr, CoreField, Sym};
use ipg_facts_forms::{
    Fact, Form, in_limits, is_constant, mention, minus, number, plus, put_choice, put_differ,
    put_equal, put_leq, put_less, scaled, shifted,
};
use ipg_facts_variables::{Side, Variable, attribute, field, loop_variable, name_of, value};
use ipg_num::{Op2, item_at};
use std::alloc::{AllocError, Global};

fn bare_variable(alloc: Global, variable: Variable) -> Result<Form, AllocError>
    ensures { IfOk result (λ form. form ≡ forms.mention variable []) }
{
    mention(alloc, variable, Vec::new(alloc))
}

/// The variable of an expression's value.
#[tactic(auto, using(crate::specs::Said::said_is))]
fn value_variable(alloc: Global, scope: &Scope, e: &CoreExpr) -> Result<Variable, AllocError>
    ensures { IfOk result (λ variable. variable ≡ variables.value scope.now.side (spec.read (scope_of scope.now) e.now).said) }
{
    value(alloc, scope.side, e)
}

/// A variable without facts, known by the expression.
fn opaque(alloc: Global, scope: &Scope, e: &CoreExpr) -> Result<Form, AllocError>
    ensures { IfOk result (λ form. form ≡ spec.opaque (scope_of scope.now) (spec.read (scope_of scope.now) e.now).said) }
{
    bare_variable(alloc, value_variable(alloc, scope, e)?)
}

#[tactic(auto, unfolding(crate::specs::Reading::ranges), using(crate::proofs::Puts::in_turn))]
pub fn put_ranges(
    alloc: Global,
    out: &mut Vec<Fact>,
    form: &Form,
    most: Option<u64>,
) -> Result<(), AllocError>
    ensures { OnOk result (out.new.items ≡ out.old.items ++ spec.ranges form.now most) }
{
    match most {
        None => Ok(()),
        Some(most) => {
            put_leq(alloc, out, &nought(alloc), form)?;
            put_leq(alloc, out, form, &number(alloc, i128::from(most)))
        }
    }
}

/// What is known of a field of an item.
#[tactic(auto, unfolding(crate::specs::Reading::item_facts), using(crate::proofs::Puts::in_turn))]
fn put_item_facts(
    alloc: Global,
    out: &mut Vec<Fact>,
    scope: &Scope,
    item: Option<&Sym>,
    field: CoreField,
    form: &Form,
) -> Result<(), AllocError>
    ensures { OnOk result (out.new.items ≡ out.old.items ++ spec.item_facts (scope_of scope.now) (option_copied item.entry) field form.now) }
{
    match field {
        CoreField::Attr(attr) => {
            put_ranges(
                alloc,
                out,
                form,
                greatest_of(item, name_of(scope.names, attr)),
            )
        }
        CoreField::Start => {
            let wide = i128::from(least_width(scope.marks, item));
            put_leq(alloc, out, &nought(alloc), form)?;
            put_leq(
                alloc,
                out,
                &shifted(alloc, form, wide)?,
                &length_of(alloc, scope)?,
            )
        }
        CoreField::End => {
            let wide = i128::from(least_width(scope.marks, item));
            put_leq(alloc, out, &number(alloc, wide), form)?;
            put_leq(alloc, out, form, &length_of(alloc, scope)?)
        }
    }
}

/// The same, which the earlier conditions leave out.
fn put_later_facts(
    alloc: Global,
    out: &mut Vec<Fact>,
    scope: &Scope,
    item: Option<&Sym>,
    field: CoreField,
    form: &Form,
) -> Result<(), AllocError>
    ensures { OnOk result
        (out.new.items ≡ out.old.items
        ++ spec.if_later scope.now.edition (spec.item_facts (scope_of scope.now) (option_copied item.entry) field form.now)) }
{
    match scope.edition {
        Edition::Earlier => Ok(()),
        Edition::Later => put_item_facts(alloc, out, scope, item, field, form),
    }
}

#[tactic(auto, unfolding(crate::specs::Reading::inside), using(crate::proofs::Puts::in_turn))]
fn put_inside(
    alloc: Global,
    out: &mut Vec<Fact>,
    scope: &Scope,
    form: &Form,
) -> Result<(), AllocError>
    ensures { OnOk result (out.new.items ≡ out.old.items ++ spec.inside (scope_of scope.now) form.now) }
{
    put_leq(alloc, out, &number(alloc, 1), form)?;
    put_leq(alloc, out, form, &length_of(alloc, scope)?)
}

fn bounds_at(arrays: &[Option<Bounds>], term: u32) -> Option<&Bounds>
    ensures { option_copied result ≡ spec.if_there (slice_get arrays.now term) }
{
    match item_at(arrays, term as usize) {
        None => None,
        Some(None) => None,
        Some(Some(bounds)) => Some(bounds),
    }
}

/// The bounds of an array that has run and each of whose items touches.
fn touching<'a>(scope: &'a Scope, term: u32) -> Option<&'a Bounds>
    ensures { option_copied result ≡ spec.touching (scope_of scope.now) term }
{
    if 0 < least_width(scope.marks, item_sym(scope.terms, term)) {
        bounds_at(scope.arrays.as_slice(), term)
    } else {
        None
    }
}

/// What is known of the place behind the items of an array or a repetition.
#[tactic(auto, unfolding(crate::specs::Reading::after_facts), using(crate::proofs::Puts::in_turn))]
fn put_after_facts(
    alloc: Global,
    out: &mut Vec<Fact>,
    scope: &Scope,
    bounds: Option<&Bounds>,
    form: &Form,
    left: &Form,
) -> Result<(), AllocError>
    ensures { OnOk result (out.new.items ≡ out.old.items ++ spec.after_facts (scope_of scope.now) (option_copied bounds.entry) form.now left.now) }
{
    let mut some = Vec::new(alloc);
    let mut none = Vec::new(alloc);
    if let Some(bounds) = bounds {
        put_less(alloc, &mut some, &bounds.first, &bounds.last)?;
        put_leq(alloc, &mut none, &bounds.last, &bounds.first)?;
    }
    put_inside(alloc, &mut some, scope, form)?;
    put_equal(alloc, &mut none, form, left)?;
    put_choice(alloc, out, some, none)
}

/// A form that leaves the limits is opaque.
#[tactic(auto, unfolding(crate::specs::Reading::limited))]
fn limited(alloc: Global, scope: &Scope, e: &CoreExpr, form: Form) -> Result<Form, AllocError>
    ensures { IfOk result (λ limited. limited ≡ spec.limited (scope_of scope.now) (spec.read (scope_of scope.now) e.now).said (Some form)) }
{
    if in_limits(&form) {
        Ok(form)
    } else {
        opaque(alloc, scope, e)
    }
}

/// A number that is a form, times another form: its variables, which have cancelled, keep their places.
fn number_times(alloc: Global, number: &Form, form: &Form) -> Result<Form, AllocError>
    ensures { IfOk result (λ product. product ≡ forms.plus (forms.scaled (pos 0) number.now) (forms.scaled number.now.constant form.now)) }
{
    plus(
        alloc,
        &scaled(alloc, 0, number)?,
        &scaled(alloc, number.constant, form)?,
    )
}

/// A form times a number that is one.
fn times_number(alloc: Global, form: &Form, number: &Form) -> Result<Form, AllocError>
    ensures { IfOk result (λ product. product ≡ forms.plus (forms.scaled number.now.constant form.now) (forms.scaled (pos 0) number.now)) }
{
    plus(
        alloc,
        &scaled(alloc, number.constant, form)?,
        &scaled(alloc, 0, number)?,
    )
}

/// A product is linear where one side is a number.
#[tactic(auto, unfolding(crate::specs::Reading::product))]
fn product(alloc: Global, a: &Form, b: &Form) -> Result<Option<Form>, AllocError>
    ensures { IfOk result (λ product. product ≡ spec.product a.now b.now) }
{
    if is_constant(a) {
        Ok(Some(number_times(alloc, a, b)?))
    } else if is_constant(b) {
        Ok(Some(times_number(alloc, a, b)?))
    } else {
        Ok(None)
    }
}

#[tactic(auto, unfolding(crate::specs::Reading::computed))]
fn computed(alloc: Global, op: Op2, a: &Form, b: &Form) -> Result<Option<Form>, AllocError>
    ensures { IfOk result (λ computed. computed ≡ spec.computed op a.now b.now) }
{
    match op {
        Op2::Add => Ok(Some(plus(alloc, a, b)?)),
        Op2::Sub => Ok(Some(minus(alloc, a, b)?)),
        Op2::Mul => product(alloc, a, b),
        _ => Ok(None),
    }
}

/// The form of an operator's value.
#[tactic(auto, unfolding(crate::specs::Reading::limited))]
fn two_form(
    alloc: Global,
    scope: &Scope,
    e: &CoreExpr,
    op: Op2,
    a: &Form,
    b: &Form,
) -> Result<Form, AllocError>
    ensures { IfOk result (λ form. form ≡ spec.limited (scope_of scope.now) (spec.read (scope_of scope.now) e.now).said (spec.computed op a.now b.now)) }
{
    match computed(alloc, op, a, b)? {
        None => opaque(alloc, scope, e),
        Some(form) => limited(alloc, scope, e, form),
    }
}

fn item_form(
    alloc: Global,
    scope: &Scope,
    e: &CoreExpr,
    term: u32,
    field: CoreField,
) -> Result<Form, AllocError>
    ensures { IfOk result
        (λ form. form ≡ forms.mention (variables.value scope.now.side (spec.read (scope_of scope.now) e.now).said)
        (spec.if_later scope.now.edition (spec.item_facts (scope_of scope.now) (spec.item_at (scope_of scope.now) term) field
        (spec.opaque (scope_of scope.now) (spec.read (scope_of scope.now) e.now).said)))) }
{
    let mut facts = Vec::new(alloc);
    let variable = value_variable(alloc, scope, e)?;
    let known = bare_variable(alloc, variable.copy()?)?;
    put_later_facts(
        alloc,
        &mut facts,
        scope,
        item_sym(scope.terms, term),
        field,
        &known,
    )?;
    mention(alloc, variable, facts)
}

fn after_form(
    alloc: Global,
    scope: &Scope,
    e: &CoreExpr,
    term: u32,
    left: &Form,
) -> Result<Form, AllocError>
    ensures { IfOk result
        (λ form. form ≡ forms.mention (variables.value scope.now.side (spec.read (scope_of scope.now) e.now).said)
        (spec.after_facts (scope_of scope.now) (spec.touching (scope_of scope.now) term)
        (spec.opaque (scope_of scope.now) (spec.read (scope_of scope.now) e.now).said) left.now)) }
{
    let mut facts = Vec::new(alloc);
    let variable = value_variable(alloc, scope, e)?;
    let known = bare_variable(alloc, variable.copy()?)?;
    put_after_facts(
        alloc,
        &mut facts,
        scope,
        touching(scope, term),
        &known,
        left,
    )?;
    mention(alloc, variable, facts)
}

#[tactic(auto, unfolding(crate::specs::Reading::asserted))]
fn put_asserted(
    alloc: Global,
    out: &mut Vec<Fact>,
    op: Op2,
    a: &Form,
    b: &Form,
    form: &Form,
) -> Result<(), AllocError>
    ensures { OnOk result (out.new.items ≡ out.old.items ++ spec.asserted op a.now b.now form.now) }
{
    match op {
        Op2::Eq => put_equal(alloc, out, a, b),
        Op2::Ne => put_differ(alloc, out, a, b),
        Op2::Lt => put_less(alloc, out, a, b),
        Op2::Le => put_leq(alloc, out, a, b),
        Op2::Gt => put_less(alloc, out, b, a),
        Op2::Ge => put_leq(alloc, out, b, a),
        _ => put_differ(alloc, out, form, &nought(alloc)),
    }
}

#[tactic(auto, unfolding(crate::specs::Reading::denied))]
fn put_denied(
    alloc: Global,
    out: &mut Vec<Fact>,
    op: Op2,
    a: &Form,
    b: &Form,
    form: &Form,
) -> Result<(), AllocError>
    ensures { OnOk result (out.new.items ≡ out.old.items ++ spec.denied op a.now b.now form.now) }
{
    match op {
        Op2::Eq => put_differ(alloc, out, a, b),
        Op2::Ne => put_equal(alloc, out, a, b),
        Op2::Lt => put_leq(alloc, out, b, a),
        Op2::Le => put_less(alloc, out, b, a),
        Op2::Gt => put_leq(alloc, out, a, b),
        Op2::Ge => put_less(alloc, out, a, b),
        _ => put_equal(alloc, out, form, &nought(alloc)),
    }
}

/// The facts that an expression is true, and those that it is false.
#[derive(Drop)]
struct Truth {
    holds: Vec<Fact>,
    fails: Vec<Fact>,
}

/// A variable that has one value where the condition is true, and the other where it is false.
fn cond_form(
    alloc: Global,
    scope: &Scope,
    e: &CoreExpr,
    condition: Truth,
    a: &Form,
    b: &Form,
) -> Result<Form, AllocError>
    ensures { IfOk result
        (λ form. form ≡ forms.mention (variables.value scope.now.side (spec.read (scope_of scope.now) e.now).said)
        (forms.choice (condition.holds.items ++ forms.equal (spec.opaque (scope_of scope.now) (spec.read (scope_of scope.now) e.now).said) a.now)
        (condition.fails.items ++ forms.equal (spec.opaque (scope_of scope.now) (spec.read (scope_of scope.now) e.now).said) b.now))) }
{
    let variable = value_variable(alloc, scope, e)?;
    let known = bare_variable(alloc, variable.copy()?)?;
    let Truth {
        mut holds,
        mut fails,
    } = condition;
    put_equal(alloc, &mut holds, &known, a)?;
    put_equal(alloc, &mut fails, &known, b)?;
    let mut facts = Vec::new(alloc);
    put_choice(alloc, &mut facts, holds, fails)?;
    mention(alloc, variable, facts)
}

/// The linear form of an expression.
#[cycle(reading)]
#[tactic(auto, unfolding(crate::specs::Reading::read, crate::specs::Reading::reading, crate::specs::Reading::plain))]
pub fn form_of(alloc: Global, scope: &Scope, e: &CoreExpr) -> Result<Form, AllocError>
    ensures { IfOk result (λ form. form ≡ (spec.read (scope_of scope.now) e.now).form) }
{
    match e {
        CoreExpr::Num(value) => Ok(number(alloc, i128::from(*value))),
        CoreExpr::Eoi => length_of(alloc, scope),
        CoreExpr::Own(attr) => bare_variable(alloc, attribute(scope.side, *attr)),
        CoreExpr::Outer(attr) => bare_variable(alloc, attribute(Side::Holder, *attr)),
        CoreExpr::Loop => bare_variable(alloc, loop_variable(scope.side)),
        CoreExpr::Seen {
            term,
            sym: _,
            field: of,
        } => bare_variable(alloc, field(alloc, scope.names, scope.side, *term, *of)?),
        CoreExpr::Item {
            term,
            index: _,
            field: of,
        } => item_form(alloc, scope, e, *term, *of),
        CoreExpr::After { term, left } => {
            let left = form_of(alloc, scope, left.get())?;
            after_form(alloc, scope, e, *term, &left)
        }
        CoreExpr::Neg(a) => {
            let a = form_of(alloc, scope, a.get())?;
            limited(alloc, scope, e, scaled(alloc, -1, &a)?)
        }
        CoreExpr::Not(_) => opaque(alloc, scope, e),
        CoreExpr::Two(op, a, b) => {
            let a = form_of(alloc, scope, a.get())?;
            let b = form_of(alloc, scope, b.get())?;
            two_form(alloc, scope, e, *op, &a, &b)
        }
        CoreExpr::Both(_, _) => opaque(alloc, scope, e),
        CoreExpr::Either(_, _) => opaque(alloc, scope, e),
        CoreExpr::Cond(c, a, b) => {
            let condition = truth_of(alloc, scope, c.get())?;
            let a = form_of(alloc, scope, a.get())?;
            let b = form_of(alloc, scope, b.get())?;
            cond_form(alloc, scope, e, condition, &a, &b)
        }
    }
}

/// Puts the facts that the expression isn't 0.
#[cycle(reading)]
#[tactic(auto, using(crate::proofs::Puts::in_turn), unfolding(crate::specs::Reading::read, crate::specs::Reading::reading, crate::specs::Reading::plain))]
pub fn put_holds(
    alloc: Global,
    out: &mut Vec<Fact>,
    scope: &Scope,
    e: &CoreExpr,
) -> Result<(), AllocError>
    ensures { OnOk result (out.new.items ≡ out.old.items ++ (spec.read (scope_of scope.now) e.now).holds) }
{
    match e {
        CoreExpr::Not(a) => put_fails(alloc, out, scope, a.get()),
        CoreExpr::Two(op, a, b) => {
            let a = form_of(alloc, scope, a.get())?;
            let b = form_of(alloc, scope, b.get())?;
            let form = two_form(alloc, scope, e, *op, &a, &b)?;
            put_asserted(alloc, out, *op, &a, &b, &form)
        }
        CoreExpr::Both(a, b) => {
            put_holds(alloc, out, scope, a.get())?;
            put_holds(alloc, out, scope, b.get())
        }
        CoreExpr::Either(a, b) => {
            let Truth { holds, mut fails } = truth_of(alloc, scope, a.get())?;
            put_holds(alloc, &mut fails, scope, b.get())?;
            put_choice(alloc, out, holds, fails)
        }
        CoreExpr::Cond(c, a, b) => {
            let Truth {
                mut holds,
                mut fails,
            } = truth_of(alloc, scope, c.get())?;
            put_holds(alloc, &mut holds, scope, a.get())?;
            put_holds(alloc, &mut fails, scope, b.get())?;
            put_choice(alloc, out, holds, fails)
        }
        _ => put_differ(alloc, out, &form_of(alloc, scope, e)?, &nought(alloc)),
    }
}

/// Puts the facts that the expression is 0.
#[cycle(reading)]
#[tactic(auto, using(crate::proofs::Puts::in_turn), unfolding(crate::specs::Reading::read, crate::specs::Reading::reading, crate::specs::Reading::plain))]
pub fn put_fails(
    alloc: Global,
    out: &mut Vec<Fact>,
    scope: &Scope,
    e: &CoreExpr,
) -> Result<(), AllocError>
    ensures { OnOk result (out.new.items ≡ out.old.items ++ (spec.read (scope_of scope.now) e.now).fails) }
{
    match e {
        CoreExpr::Not(a) => put_holds(alloc, out, scope, a.get()),
        CoreExpr::Two(op, a, b) => {
            let a = form_of(alloc, scope, a.get())?;
            let b = form_of(alloc, scope, b.get())?;
            let form = two_form(alloc, scope, e, *op, &a, &b)?;
            put_denied(alloc, out, *op, &a, &b, &form)
        }
        CoreExpr::Both(a, b) => {
            let Truth { mut holds, fails } = truth_of(alloc, scope, a.get())?;
            put_fails(alloc, &mut holds, scope, b.get())?;
            put_choice(alloc, out, fails, holds)
        }
        CoreExpr::Either(a, b) => {
            put_fails(alloc, out, scope, a.get())?;
            put_fails(alloc, out, scope, b.get())
        }
        CoreExpr::Cond(c, a, b) => {
            let Truth {
                mut holds,
                mut fails,
            } = truth_of(alloc, scope, c.get())?;
            put_fails(alloc, &mut holds, scope, a.get())?;
            put_fails(alloc, &mut fails, scope, b.get())?;
            put_choice(alloc, out, holds, fails)
        }
        _ => put_equal(alloc, out, &form_of(alloc, scope, e)?, &nought(alloc)),
    }
}

/// Both: the facts that the expression isn't 0, and those that it is.
#[cycle(reading)]
fn truth_of(alloc: Global, scope: &Scope, e: &CoreExpr) -> Result<Truth, AllocError>
    ensures { IfOk result (λ truth. (truth.holds.items ≡ (spec.read (scope_of scope.now) e.now).holds)
        × (truth.fails.items ≡ (spec.read (scope_of scope.now) e.now).fails)) }
{
    let mut holds = Vec::new(alloc);
    put_holds(alloc, &mut holds, scope, e)?;
    let mut fails = Vec::new(alloc);
    put_fails(alloc, &mut fails, scope, e)?;
    Ok(Truth { holds, fails })
}
