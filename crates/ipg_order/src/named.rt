//! What the expressions of a term name.

ghost use Rattle.std.specs.Prelude.{◌≡◌, ◌++◌, ◌∷◌, [], flat_map, OnOk, IfOk};
ghost use Rattle.ipg_core.specs.Mention.{mentions, slot_mentions, case_mentions, term_mentions};
ghost use Rattle.ipg_order.specs.Named.{named};

use ipg_core::grammar::{CoreExpr, CoreSlot, CoreTerm};
use std::alloc::{AllocError, Global};

/// A term by its number, an attribute of the alternative, or one of its holder.
#[derive(Clone, Copy, Debug, PartialEq, Eq)]
pub(crate) enum Named {
    Term(u32),
    Own(u32),
    Outer(u32),
}

/// Everything that the expressions of a term name, its intervals included. It goes as deep as they nest.
pub(crate) fn named_in(alloc: Global, term: &CoreTerm) -> Result<Vec<Named>, AllocError>
    ensures { IfOk result (λ out. out.items ≡ flat_map named (term_mentions term.now)) }
{
    let mut out = Vec::new(alloc);
    add_term(&mut out, term)?;
    Ok(out)
}

fn add_term(out: &mut Vec<Named>, term: &CoreTerm) -> Result<(), AllocError>
    ensures { OnOk result (out.new.items ≡ out.old.items ++ flat_map named (term_mentions term.now)) }
{
    match term {
        CoreTerm::Slot(slot) => add_slot(out, slot),
        CoreTerm::Set { attr: _, value } => add_expr(out, value),
        CoreTerm::Test(cond) => add_expr(out, cond),
        CoreTerm::Repeat {
            first,
            last,
            item: _,
            from,
            to,
        } => {
            add_expr(out, first)?;
            add_expr(out, last)?;
            add_expr(out, from)?;
            add_expr(out, to)
        }
        CoreTerm::Many { item: _, from, to } => {
            add_expr(out, from)?;
            add_expr(out, to)
        }
        CoreTerm::Pick { cases, other } => {
            add_cases(out, cases.as_slice())?;
            add_slot(out, other)
        }
    }
}

fn add_cases(out: &mut Vec<Named>, cases: &[(CoreExpr, CoreSlot)]) -> Result<(), AllocError>
    ensures { OnOk result (out.new.items ≡ out.old.items ++ flat_map named (flat_map case_mentions cases.now)) }
{
    for case in cases {
        add_expr(out, &case.0)?;
        add_slot(out, &case.1)?;
    }
    Ok(())
}

fn add_slot(out: &mut Vec<Named>, slot: &CoreSlot) -> Result<(), AllocError>
    ensures { OnOk result (out.new.items ≡ out.old.items ++ flat_map named (slot_mentions slot.now)) }
{
    add_expr(out, &slot.from)?;
    add_expr(out, &slot.to)
}

fn add_expr(out: &mut Vec<Named>, e: &CoreExpr) -> Result<(), AllocError>
    ensures { OnOk result (out.new.items ≡ out.old.items ++ flat_map named (mentions e.now)) }
{
    match e {
        CoreExpr::Num(_) => Ok(()),
        CoreExpr::Eoi => Ok(()),
        CoreExpr::Loop => Ok(()),
        CoreExpr::Own(attr) => add(out, Named::Own(*attr)),
        CoreExpr::Outer(attr) => add(out, Named::Outer(*attr)),
        CoreExpr::Seen { term, .. } => add(out, Named::Term(*term)),
        CoreExpr::Item { term, index, .. } => {
            add(out, Named::Term(*term))?;
            add_expr(out, index.get())
        }
        CoreExpr::After { term, left } => {
            add(out, Named::Term(*term))?;
            add_expr(out, left.get())
        }
        CoreExpr::Neg(a) => add_expr(out, a.get()),
        CoreExpr::Not(a) => add_expr(out, a.get()),
        CoreExpr::Two(_, a, b) => {
            add_expr(out, a.get())?;
            add_expr(out, b.get())
        }
        CoreExpr::Both(a, b) => {
            add_expr(out, a.get())?;
            add_expr(out, b.get())
        }
        CoreExpr::Either(a, b) => {
            add_expr(out, a.get())?;
            add_expr(out, b.get())
        }
        CoreExpr::Cond(c, a, b) => {
            add_expr(out, c.get())?;
            add_expr(out, a.get())?;
            add_expr(out, b.get())
        }
    }
}

fn add(out: &mut Vec<Named>, what: Named) -> Result<(), AllocError>
    ensures { OnOk result (out.new.items ≡ out.old.items ++ what ∷ []) }
{
    out.push(what)?;
    Ok(())
}
