//! The names of attributes, in the order of first place.
#![tactic(auto, using(crate::proofs::Once::once_append))]

ghost use Rattle.std.specs.Prelude.{◌≡◌, [], ◌∷◌, IfOk, OnOk, flat_map};
ghost use Rattle.ipg_names_scope.specs.Names as spec;
ghost use Rattle.ipg_names_scope.specs.Lookup.{shown};

use indexmap::IndexSet;
use ipg_ast::{Alt, Case, Expr, Field, Place, Rule, Term};
use std::alloc::{AllocError, Global};

pub type Names<'a> = IndexSet<&'a [u8]>;

/// Each name that is set or that stands behind a dot.
pub fn attr_names<'a>(alloc: Global, rules: &'a [Rule]) -> Result<Names<'a>, AllocError>
    ensures { IfOk result (λ names. shown names ≡ spec.once [] (flat_map spec.rule_names rules.now)) }
{
    let mut names = IndexSet::new(alloc);
    for rule in rules {
        add_rule(&mut names, rule)?;
    }
    Ok(names)
}

fn add_rule<'a>(names: &mut Names<'a>, rule: &'a Rule) -> Result<(), AllocError>
    ensures { OnOk result (shown names.new ≡ spec.once (shown names.old) (spec.rule_names rule.now)) }
{
    for alt in rule.alts.as_slice() {
        add_alt(names, alt)?;
    }
    Ok(())
}

fn add_alt<'a>(names: &mut Names<'a>, alt: &'a Alt) -> Result<(), AllocError>
    ensures { OnOk result (shown names.new ≡ spec.once (shown names.old) (spec.alt_names alt.now)) }
{
    add_terms(names, alt.terms.as_slice())?;
    add_locals(names, alt.locals.as_slice())
}

fn add_locals<'a>(names: &mut Names<'a>, locals: &'a [Rule]) -> Result<(), AllocError>
    ensures { OnOk result (shown names.new ≡ spec.once (shown names.old) (flat_map spec.local_names locals.now)) }
{
    for rule in locals {
        add_local(names, rule)?;
    }
    Ok(())
}

fn add_local<'a>(names: &mut Names<'a>, rule: &'a Rule) -> Result<(), AllocError>
    ensures { OnOk result (shown names.new ≡ spec.once (shown names.old) (spec.local_names rule.now)) }
{
    for alt in rule.alts.as_slice() {
        add_terms(names, alt.terms.as_slice())?;
    }
    Ok(())
}

fn add_terms<'a>(names: &mut Names<'a>, terms: &'a [Term]) -> Result<(), AllocError>
    ensures { OnOk result (shown names.new ≡ spec.once (shown names.old) (spec.terms_names terms.now)) }
{
    for term in terms {
        add_term(names, term)?;
    }
    Ok(())
}

fn add_term<'a>(names: &mut Names<'a>, term: &'a Term) -> Result<(), AllocError>
    ensures { OnOk result (shown names.new ≡ spec.once (shown names.old) (spec.term_names term.now)) }
{
    match term {
        Term::Slot(slot) => add_place(names, &slot.place),
        Term::Set { name, value } => {
            add_name(names, name.name.as_slice())?;
            add_expr(names, value)
        }
        Term::Test { cond, .. } => add_expr(names, cond),
        Term::Repeat {
            first,
            last,
            from,
            to,
            ..
        } => {
            add_expr(names, first)?;
            add_expr(names, last)?;
            add_expr(names, from)?;
            add_expr(names, to)
        }
        Term::Many { place, .. } => add_place(names, place),
        Term::Pick { cases, other, .. } => {
            add_cases(names, cases.as_slice())?;
            add_place(names, &other.place)
        }
    }
}

fn add_cases<'a>(names: &mut Names<'a>, cases: &'a [Case]) -> Result<(), AllocError>
    ensures { OnOk result (shown names.new ≡ spec.once (shown names.old) (flat_map spec.case_names cases.now)) }
{
    for case in cases {
        add_expr(names, &case.cond)?;
        add_place(names, &case.slot.place)?;
    }
    Ok(())
}

fn add_place<'a>(names: &mut Names<'a>, place: &'a Place) -> Result<(), AllocError>
    ensures { OnOk result (shown names.new ≡ spec.once (shown names.old) (spec.place_names place.now)) }
{
    match place {
        Place::Open => Ok(()),
        Place::Length(length) => add_expr(names, length),
        Place::Ends(left, right) => {
            add_expr(names, left)?;
            add_expr(names, right)
        }
    }
}

fn add_expr<'a>(names: &mut Names<'a>, e: &'a Expr) -> Result<(), AllocError>
    ensures { OnOk result (shown names.new ≡ spec.once (shown names.old) (spec.expr_names e.now)) }
{
    match e {
        Expr::Num(_) => Ok(()),
        Expr::Eoi => Ok(()),
        Expr::Id(_) => Ok(()),
        Expr::Part(_, field) => add_field(names, field),
        Expr::Item(_, index, field) => {
            add_expr(names, index.get())?;
            add_field(names, field)
        }
        Expr::Group(inner) => add_expr(names, inner.get()),
        Expr::Neg(inner) => add_expr(names, inner.get()),
        Expr::Not(inner) => add_expr(names, inner.get()),
        Expr::Two(_, a, b) => {
            add_expr(names, a.get())?;
            add_expr(names, b.get())
        }
        Expr::Both(a, b) => {
            add_expr(names, a.get())?;
            add_expr(names, b.get())
        }
        Expr::Either(a, b) => {
            add_expr(names, a.get())?;
            add_expr(names, b.get())
        }
        Expr::Cond(cond, a, b) => {
            add_expr(names, cond.get())?;
            add_expr(names, a.get())?;
            add_expr(names, b.get())
        }
    }
}

fn add_field<'a>(names: &mut Names<'a>, field: &'a Field) -> Result<(), AllocError>
    ensures { OnOk result (shown names.new ≡ spec.once (shown names.old) (spec.field_names field.now)) }
{
    match field {
        Field::Id(name) => add_name(names, name.name.as_slice()),
        Field::Start => Ok(()),
        Field::End => Ok(()),
    }
}

fn add_name<'a>(names: &mut Names<'a>, name: &'a [u8]) -> Result<(), AllocError>
    ensures { OnOk result (shown names.new ≡ spec.once (shown names.old) (name.now ∷ [])) }
{
    names.insert(name)?;
    Ok(())
}
