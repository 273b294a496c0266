//! The rules that a term calls.

ghost use Rattle.std.specs.Prelude.{◌≡◌, ◌++◌, flat_map, OnOk, IfOk};
ghost use Rattle.ipg_order.specs.Callees as spec;

use ipg_core::grammar::{CoreExpr, CoreSlot, CoreTerm, Sym};
use std::alloc::{AllocError, Global};

/// The rules that a term calls, in the order of its symbols.
pub(crate) fn callees_in(alloc: Global, term: &CoreTerm) -> Result<Vec<u32>, AllocError>
    ensures { IfOk result (λ out. out.items ≡ spec.callees term.now) }
{
    let mut out = Vec::new(alloc);
    add_term(&mut out, term)?;
    Ok(out)
}

fn add_term(out: &mut Vec<u32>, term: &CoreTerm) -> Result<(), AllocError>
    ensures { OnOk result (out.new.items ≡ out.old.items ++ spec.callees term.now) }
{
    match term {
        CoreTerm::Slot(slot) => add_sym(out, &slot.sym),
        CoreTerm::Set { .. } => Ok(()),
        CoreTerm::Test(_) => Ok(()),
        CoreTerm::Repeat { item, .. } => add_sym(out, item),
        CoreTerm::Many { item, .. } => add_sym(out, item),
        CoreTerm::Pick { cases, other } => {
            add_cases(out, cases.as_slice())?;
            add_sym(out, &other.sym)
        }
    }
}

fn add_cases(out: &mut Vec<u32>, cases: &[(CoreExpr, CoreSlot)]) -> Result<(), AllocError>
    ensures { OnOk result (out.new.items ≡ out.old.items ++ flat_map spec.sym_callees (flat_map spec.case_syms cases.now)) }
{
    for case in cases {
        add_sym(out, &case.1.sym)?;
    }
    Ok(())
}

fn add_sym(out: &mut Vec<u32>, sym: &Sym) -> Result<(), AllocError>
    ensures { OnOk result (out.new.items ≡ out.old.items ++ spec.sym_callees sym.now) }
{
    let Sym::Rule(callee) = sym else {
        return Ok(());
    };
    out.push(*callee)?;
    Ok(())
}
