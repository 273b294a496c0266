//! A term with its names resolved.
ghost use Rattle.std.specs.Prelude.{◌≡◌, None, map, option_map, IfOk};
ghost use Rattle.ipg_core.specs.declared.grammar.CoreExpr.TheVariants as core;
ghost use Rattle.ipg_names.specs.Resolved as spec;
ghost use Rattle.ipg_names_scope.specs.Site.{spot_scope, callee_sym};
ghost use Rattle.ipg_names.specs.Judged.{repeat_named};

use crate::named::{NamedPlace, NamedSlot, NamedTerm};
use ipg_ast::{Case, Expr, Field, Place, Slot, Term, What};
use ipg_core::grammar::{CoreExpr, CoreField, Name, Sym};
use ipg_names_scope::{
    Callee, TermSpot, attr, call_at, callee_at, is_outer, is_own, is_var, item_spot, items_at,
};
use ipg_num::{Held, List, Op2};
use std::alloc::{AllocError, Global};

pub fn copy(alloc: Global, bytes: &[u8]) -> Result<Name, AllocError>
    ensures { IfOk result (λ name. name ≡ bytes.now) }
{
    Ok(List::from_vec(Vec::from_slice(alloc, bytes)?))
}

fn sym_of(alloc: Global, callee: Option<Callee>) -> Sym
    ensures { result ≡ spec.sym_or_empty (option_map callee_sym callee) }
{
    match callee {
        Some(Callee::Prim(primitive)) => Sym::Prim(primitive),
        Some(Callee::Rule(rule)) => Sym::Rule(rule),
        None => Sym::Text(List::new(alloc)),
    }
}

fn symbol(alloc: Global, spot: &TermSpot<'_, '_, '_>, name: &[u8]) -> Sym
    ensures { result ≡ spec.symbol (spot_scope spot.now) name.now }
{
    sym_of(alloc, callee_at(spot, name))
}

fn what_symbol(alloc: Global, spot: &TermSpot<'_, '_, '_>, what: &What) -> Result<Sym, AllocError>
    ensures { IfOk result (λ sym. sym ≡ spec.what_symbol (spot_scope spot.now) what.now) }
{
    match what {
        What::Text(bytes) => Ok(Sym::Text(copy(alloc, bytes.as_slice())?)),
        What::Call(name) => Ok(symbol(alloc, spot, name.as_slice())),
    }
}

fn core_field(spot: &TermSpot<'_, '_, '_>, field: &Field) -> CoreField
    ensures { result ≡ spec.field_in (spot_scope spot.now) field.now }
{
    match field {
        Field::Id(name) => CoreField::Attr(attr(spot, name.name.as_slice())),
        Field::Start => CoreField::Start,
        Field::End => CoreField::End,
    }
}

fn core_name(spot: &TermSpot<'_, '_, '_>, name: &[u8]) -> CoreExpr
    ensures { result ≡ spec.name_in (spot_scope spot.now) name.now }
{
    if is_own(spot, name) {
        CoreExpr::Own(attr(spot, name))
    } else if is_var(spot, name) {
        CoreExpr::Loop
    } else if is_outer(spot, name) {
        CoreExpr::Outer(attr(spot, name))
    } else {
        CoreExpr::Eoi
    }
}

fn seen(referred: Option<u32>, sym: Sym, field: CoreField) -> CoreExpr
    ensures { result ≡ spec.seen_at referred sym field }
{
    match referred {
        None => CoreExpr::Eoi,
        Some(term) => CoreExpr::Seen { term, sym, field },
    }
}

fn item(
    alloc: Global,
    referred: Option<u32>,
    index: CoreExpr,
    field: CoreField,
) -> Result<CoreExpr, AllocError>
    ensures { IfOk result (λ made. made ≡ spec.item_at referred index field) }
{
    match referred {
        None => Ok(CoreExpr::Eoi),
        Some(term) => Ok(CoreExpr::Item {
            term,
            index: Held::new(alloc, index)?,
            field,
        }),
    }
}

fn negative(alloc: Global, of: CoreExpr) -> Result<CoreExpr, AllocError>
    ensures { IfOk result (λ made. made ≡ core.Neg of) }
{
    Ok(CoreExpr::Neg(Held::new(alloc, of)?))
}

fn opposite(alloc: Global, of: CoreExpr) -> Result<CoreExpr, AllocError>
    ensures { IfOk result (λ made. made ≡ core.Not of) }
{
    Ok(CoreExpr::Not(Held::new(alloc, of)?))
}

fn two(alloc: Global, op: Op2, a: CoreExpr, b: CoreExpr) -> Result<CoreExpr, AllocError>
    ensures { IfOk result (λ made. made ≡ core.Two op a b) }
{
    Ok(CoreExpr::Two(op, Held::new(alloc, a)?, Held::new(alloc, b)?))
}

fn both(alloc: Global, a: CoreExpr, b: CoreExpr) -> Result<CoreExpr, AllocError>
    ensures { IfOk result (λ made. made ≡ core.Both a b) }
{
    Ok(CoreExpr::Both(Held::new(alloc, a)?, Held::new(alloc, b)?))
}

fn either(alloc: Global, a: CoreExpr, b: CoreExpr) -> Result<CoreExpr, AllocError>
    ensures { IfOk result (λ made. made ≡ core.Either a b) }
{
    Ok(CoreExpr::Either(Held::new(alloc, a)?, Held::new(alloc, b)?))
}

fn conditional(
    alloc: Global,
    cond: CoreExpr,
    a: CoreExpr,
    b: CoreExpr,
) -> Result<CoreExpr, AllocError>
    ensures { IfOk result (λ made. made ≡ core.Cond cond a b) }
{
    Ok(CoreExpr::Cond(
        Held::new(alloc, cond)?,
        Held::new(alloc, a)?,
        Held::new(alloc, b)?,
    ))
}

fn expr(alloc: Global, spot: &TermSpot<'_, '_, '_>, e: &Expr) -> Result<CoreExpr, AllocError>
    ensures { IfOk result (λ made. made ≡ spec.expr_in (spot_scope spot.now) e.now) }
{
    match e {
        Expr::Num(n) => Ok(CoreExpr::Num(*n)),
        Expr::Eoi => Ok(CoreExpr::Eoi),
        Expr::Id(name) => Ok(core_name(spot, name.name.as_slice())),
        Expr::Part(of, field) => {
            let name = of.name.as_slice();
            let sym = symbol(alloc, spot, name);
            Ok(seen(call_at(spot, name), sym, core_field(spot, field)))
        }
        Expr::Item(of, index, field) => {
            let referred = items_at(spot, of.name.as_slice());
            let field = core_field(spot, field);
            item(alloc, referred, expr(alloc, spot, index.get())?, field)
        }
        Expr::Group(inner) => expr(alloc, spot, inner.get()),
        Expr::Neg(inner) => negative(alloc, expr(alloc, spot, inner.get())?),
        Expr::Not(inner) => opposite(alloc, expr(alloc, spot, inner.get())?),
        Expr::Two(op, a, b) => {
            let a = expr(alloc, spot, a.get())?;
            two(alloc, *op, a, expr(alloc, spot, b.get())?)
        }
        Expr::Both(a, b) => {
            let a = expr(alloc, spot, a.get())?;
            both(alloc, a, expr(alloc, spot, b.get())?)
        }
        Expr::Either(a, b) => {
            let a = expr(alloc, spot, a.get())?;
            either(alloc, a, expr(alloc, spot, b.get())?)
        }
        Expr::Cond(cond, a, b) => {
            let cond = expr(alloc, spot, cond.get())?;
            let a = expr(alloc, spot, a.get())?;
            conditional(alloc, cond, a, expr(alloc, spot, b.get())?)
        }
    }
}

fn named_place(
    alloc: Global,
    spot: &TermSpot<'_, '_, '_>,
    place: &Place,
) -> Result<NamedPlace, AllocError>
    ensures { IfOk result (λ made. made ≡ spec.place_in (spot_scope spot.now) place.now) }
{
    match place {
        Place::Open => Ok(NamedPlace::Open),
        Place::Length(length) => Ok(NamedPlace::Length(expr(alloc, spot, length)?)),
        Place::Ends(left, right) => {
            let left = expr(alloc, spot, left)?;
            Ok(NamedPlace::Ends(left, expr(alloc, spot, right)?))
        }
    }
}

fn named_slot(
    alloc: Global,
    spot: &TermSpot<'_, '_, '_>,
    slot: &Slot,
) -> Result<NamedSlot, AllocError>
    ensures { IfOk result (λ made. made ≡ spec.slot_in (spot_scope spot.now) slot.now) }
{
    let sym = what_symbol(alloc, spot, &slot.what)?;
    Ok(NamedSlot {
        sym,
        place: named_place(alloc, spot, &slot.place)?,
    })
}

fn named_case(
    alloc: Global,
    spot: &TermSpot<'_, '_, '_>,
    case: &Case,
) -> Result<(CoreExpr, NamedSlot), AllocError>
    ensures { IfOk result (λ made. made ≡ spec.case_in (spot_scope spot.now) case.now) }
{
    let cond = expr(alloc, spot, &case.cond)?;
    Ok((cond, named_slot(alloc, spot, &case.slot)?))
}

fn named_cases(
    alloc: Global,
    spot: &TermSpot<'_, '_, '_>,
    cases: &[Case],
) -> Result<List<(CoreExpr, NamedSlot)>, AllocError>
    ensures { IfOk result (λ made. made ≡ map (spec.case_in (spot_scope spot.now)) cases.now) }
{
    let mut made = Vec::with_capacity(alloc, cases.len())?;
    for case in cases {
        made.push(named_case(alloc, spot, case)?)?;
    }
    Ok(List::from_vec(made))
}

fn named_repeat(
    alloc: Global,
    spot: &TermSpot<'_, '_, '_>,
    bounds: (&Expr, &Expr),
    sym: Sym,
    own: &TermSpot<'_, '_, '_>,
    ends: (&Expr, &Expr),
) -> Result<NamedTerm, AllocError>
    ensures { IfOk result (λ made. made ≡ repeat_named spot.now bounds.entry sym own.now ends.entry) }
{
    let first = expr(alloc, spot, bounds.0)?;
    let last = expr(alloc, spot, bounds.1)?;
    let from = expr(alloc, own, ends.0)?;
    Ok(NamedTerm::Repeat {
        first,
        last,
        item: sym,
        from,
        to: expr(alloc, own, ends.1)?,
    })
}

/// A term with its names resolved.
pub fn named_term(
    alloc: Global,
    spot: &TermSpot<'_, '_, '_>,
    term: &Term,
) -> Result<NamedTerm, AllocError>
    requires { spot.now.inside ≡ None }
    ensures { IfOk result (λ made. made ≡ spec.term_in (spot_scope spot.now) term.now) }
{
    match term {
        Term::Slot(slot) => Ok(NamedTerm::Slot(named_slot(alloc, spot, slot)?)),
        Term::Set { name, value } => {
            let attr = attr(spot, name.name.as_slice());
            let value = expr(alloc, spot, value)?;
            Ok(NamedTerm::Set { attr, value })
        }
        Term::Test { cond, .. } => Ok(NamedTerm::Test(expr(alloc, spot, cond)?)),
        Term::Repeat {
            var,
            first,
            last,
            item,
            from,
            to,
        } => {
            let sym = symbol(alloc, spot, item.name.as_slice());
            let own = item_spot(spot, var, item);
            named_repeat(alloc, spot, (first, last), sym, &own, (from, to))
        }
        Term::Many { item, place, .. } => {
            let place = named_place(alloc, spot, place)?;
            let item = symbol(alloc, spot, item.name.as_slice());
            Ok(NamedTerm::Many { item, place })
        }
        Term::Pick { cases, other, .. } => {
            let cases = named_cases(alloc, spot, cases.as_slice())?;
            let other = named_slot(alloc, spot, other)?;
            Ok(NamedTerm::Pick { cases, other })
        }
    }
}
