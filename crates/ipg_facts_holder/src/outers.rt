//! Which attributes of the holder an alternative mentions.

ghost use Rattle.std.specs.Prelude.{◌≡◌, ◌++◌, IfOk, OnOk, flat_map};
ghost use Rattle.ipg_core.specs.Mention as core;
ghost use Rattle.ipg_facts_holder.specs.Outers as spec;

use ipg_core::grammar::{CoreExpr, CoreSlot, CoreTerm};
use std::alloc::{AllocError, Global};

fn put_outer(out: &mut Vec<u32>, attr: u32) -> Result<(), AllocError>
    ensures { OnOk result (out.new.items ≡ out.old.items ++ spec.outer_of (core.OuterOf attr)) }
{
    out.push(attr)?;
    Ok(())
}

/// Puts the attributes of the holder that an expression mentions.
#[tactic(auto, using(crate::proofs::Wanted::then, crate::proofs::Wanted::item, crate::proofs::Wanted::seen))]
fn put_outers(out: &mut Vec<u32>, e: &CoreExpr) -> Result<(), AllocError>
    ensures { OnOk result (out.new.items ≡ out.old.items ++ spec.outers_in (core.mentions e.now)) }
{
    match e {
        CoreExpr::Num(_) => Ok(()),
        CoreExpr::Eoi => Ok(()),
        CoreExpr::Own(_) => Ok(()),
        CoreExpr::Outer(attr) => put_outer(out, *attr),
        CoreExpr::Loop => Ok(()),
        CoreExpr::Seen {
            term: _,
            sym: _,
            field: _,
        } => Ok(()),
        CoreExpr::Item {
            term: _,
            index,
            field: _,
        } => put_outers(out, index.get()),
        CoreExpr::After { term: _, left } => put_outers(out, left.get()),
        CoreExpr::Neg(a) => put_outers(out, a.get()),
        CoreExpr::Not(a) => put_outers(out, a.get()),
        CoreExpr::Two(_, a, b) => {
            put_outers(out, a.get())?;
            put_outers(out, b.get())
        }
        CoreExpr::Both(a, b) => {
            put_outers(out, a.get())?;
            put_outers(out, b.get())
        }
        CoreExpr::Either(a, b) => {
            put_outers(out, a.get())?;
            put_outers(out, b.get())
        }
        CoreExpr::Cond(c, a, b) => {
            put_outers(out, c.get())?;
            put_outers(out, a.get())?;
            put_outers(out, b.get())
        }
    }
}

#[tactic(auto, using(crate::proofs::Wanted::then))]
fn put_slot(out: &mut Vec<u32>, slot: &CoreSlot) -> Result<(), AllocError>
    ensures { OnOk result (out.new.items ≡ out.old.items ++ spec.outers_in (core.slot_mentions slot.now)) }
{
    put_outers(out, &slot.from)?;
    put_outers(out, &slot.to)
}

#[tactic(auto, using(crate::proofs::Wanted::then))]
fn put_case(out: &mut Vec<u32>, case: &(CoreExpr, CoreSlot)) -> Result<(), AllocError>
    ensures { OnOk result (out.new.items ≡ out.old.items ++ spec.outers_in (core.case_mentions case.now)) }
{
    put_outers(out, &case.0)?;
    put_slot(out, &case.1)
}

#[tactic(auto, using(crate::proofs::Wanted::then))]
fn put_cases(out: &mut Vec<u32>, cases: &[(CoreExpr, CoreSlot)]) -> Result<(), AllocError>
    ensures { OnOk result (out.new.items ≡ out.old.items ++ spec.outers_in (flat_map core.case_mentions cases.now)) }
{
    for case in cases {
        put_case(out, case)?;
    }
    Ok(())
}

#[tactic(auto, using(crate::proofs::Wanted::then))]
fn put_term(out: &mut Vec<u32>, term: &CoreTerm) -> Result<(), AllocError>
    ensures { OnOk result (out.new.items ≡ out.old.items ++ spec.term_outers term.now) }
{
    match term {
        CoreTerm::Slot(slot) => put_slot(out, slot),
        CoreTerm::Set { attr: _, value } => put_outers(out, value),
        CoreTerm::Test(e) => put_outers(out, e),
        CoreTerm::Repeat {
            first,
            last,
            item: _,
            from,
            to,
        } => {
            put_outers(out, first)?;
            put_outers(out, last)?;
            put_outers(out, from)?;
            put_outers(out, to)
        }
        CoreTerm::Many { item: _, from, to } => {
            put_outers(out, from)?;
            put_outers(out, to)
        }
        CoreTerm::Pick { cases, other } => {
            put_cases(out, cases.as_slice())?;
            put_slot(out, other)
        }
    }
}

/// The attributes of the holder that these terms mention, in order, as often as they do.
pub fn outers(alloc: Global, terms: &[CoreTerm]) -> Result<Vec<u32>, AllocError>
    ensures { IfOk result (λ outers. outers.items ≡ spec.outers terms.now) }
{
    let mut outers = Vec::new(alloc);
    for term in terms {
        put_term(&mut outers, term)?;
    }
    Ok(outers)
}
