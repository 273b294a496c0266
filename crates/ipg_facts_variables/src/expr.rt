//! Copies of expressions.

ghost use Rattle.std.specs.Prelude.{◌≡◌, IfOk};

use ipg_core::grammar::{CoreExpr, Name, Sym};
use ipg_num::{Held, List};
use std::alloc::{AllocError, Global};

fn copied_name(alloc: Global, name: &Name) -> Result<Name, AllocError>
    ensures { IfOk result (λ copy. copy ≡ name.now) }
{
    Ok(List::from_vec(Vec::from_slice(alloc, name.as_slice())?))
}

fn copied_sym(alloc: Global, sym: &Sym) -> Result<Sym, AllocError>
    ensures { IfOk result (λ copy. copy ≡ sym.now) }
{
    match sym {
        Sym::Text(bytes) => Ok(Sym::Text(copied_name(alloc, bytes)?)),
        Sym::Prim(prim) => Ok(Sym::Prim(*prim)),
        Sym::Rule(rule) => Ok(Sym::Rule(*rule)),
    }
}

#[cycle(copied)]
fn held(alloc: Global, e: &CoreExpr) -> Result<Held<CoreExpr>, AllocError>
    ensures { IfOk result (λ copy. copy ≡ e.now) }
{
    Held::new(alloc, copied(alloc, e)?)
}

/// A copy of an expression, in memory of its own.
#[cycle(copied)]
pub fn copied(alloc: Global, e: &CoreExpr) -> Result<CoreExpr, AllocError>
    ensures { IfOk result (λ copy. copy ≡ e.now) }
{
    match e {
        CoreExpr::Num(value) => Ok(CoreExpr::Num(*value)),
        CoreExpr::Eoi => Ok(CoreExpr::Eoi),
        CoreExpr::Own(attr) => Ok(CoreExpr::Own(*attr)),
        CoreExpr::Outer(attr) => Ok(CoreExpr::Outer(*attr)),
        CoreExpr::Loop => Ok(CoreExpr::Loop),
        CoreExpr::Seen { term, sym, field } => Ok(CoreExpr::Seen {
            term: *term,
            sym: copied_sym(alloc, sym)?,
            field: *field,
        }),
        CoreExpr::Item { term, index, field } => Ok(CoreExpr::Item {
            term: *term,
            index: held(alloc, index.get())?,
            field: *field,
        }),
        CoreExpr::After { term, left } => Ok(CoreExpr::After {
            term: *term,
            left: held(alloc, left.get())?,
        }),
        CoreExpr::Neg(a) => Ok(CoreExpr::Neg(held(alloc, a.get())?)),
        CoreExpr::Not(a) => Ok(CoreExpr::Not(held(alloc, a.get())?)),
        CoreExpr::Two(op, a, b) => {
            let a = held(alloc, a.get())?;
            Ok(CoreExpr::Two(*op, a, held(alloc, b.get())?))
        }
        CoreExpr::Both(a, b) => {
            let a = held(alloc, a.get())?;
            Ok(CoreExpr::Both(a, held(alloc, b.get())?))
        }
        CoreExpr::Either(a, b) => {
            let a = held(alloc, a.get())?;
            Ok(CoreExpr::Either(a, held(alloc, b.get())?))
        }
        CoreExpr::Cond(c, a, b) => {
            let c = held(alloc, c.get())?;
            let a = held(alloc, a.get())?;
            Ok(CoreExpr::Cond(c, a, held(alloc, b.get())?))
        }
    }
}
