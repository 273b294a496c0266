//! That a place isn't among what a slot takes.

ghost use Rattle.std.specs.Prelude.{◌≡◌, IfOk, OnOk, ◌++◌};
ghost use Rattle.ipg_facts.specs.Gap as spec;
ghost use Rattle.ipg_facts.specs.View.{scope_of};

use crate::scope::{Scope, length_of, nought};
use crate::touching::Taken;
use ipg_core::grammar::{Primitive, Sym};
use ipg_facts_forms::{Fact, Form, mention, put_choice, put_leq, put_less, shifted};
use ipg_facts_variables::{Side, whole};
use std::alloc::{AllocError, Global};

/// The place.
fn point(alloc: Global) -> Result<Form, AllocError>
    ensures { IfOk result (λ form. form ≡ spec.point) }
{
    mention(alloc, whole(Side::Point), Vec::new(alloc))
}

/// The place is one of the part.
#[tactic(auto, unfolding(crate::specs::Gap::is_place), using(crate::proofs::Puts::in_turn))]
pub fn put_is_place(alloc: Global, out: &mut Vec<Fact>, scope: &Scope) -> Result<(), AllocError>
    ensures { OnOk result (out.new.items ≡ out.old.items ++ spec.is_place (scope_of scope.now)) }
{
    let point = point(alloc)?;
    put_leq(alloc, out, &nought(alloc), &point)?;
    put_less(alloc, out, &point, &length_of(alloc, scope)?)
}

/// The place isn't within `[l, r]`.
#[tactic(auto, unfolding(crate::specs::Gap::misses_all))]
fn put_misses_all(alloc: Global, out: &mut Vec<Fact>, l: &Form, r: &Form) -> Result<(), AllocError>
    ensures { OnOk result (out.new.items ≡ out.old.items ++ spec.misses_all l.now r.now) }
{
    let point = point(alloc)?;
    let mut before = Vec::new(alloc);
    put_less(alloc, &mut before, &point, l)?;
    let mut behind = Vec::new(alloc);
    put_leq(alloc, &mut behind, r, &point)?;
    put_choice(alloc, out, before, behind)
}

/// The place isn't one of the first bytes from `l`.
#[tactic(auto, unfolding(crate::specs::Gap::misses_first, crate::specs::Gap::misses_all))]
fn put_misses_first(
    alloc: Global,
    out: &mut Vec<Fact>,
    l: &Form,
    wide: u64,
) -> Result<(), AllocError>
    ensures { OnOk result (out.new.items ≡ out.old.items ++ spec.misses_first l.now wide) }
{
    if wide == 0 {
        Ok(())
    } else {
        put_misses_all(alloc, out, l, &shifted(alloc, l, i128::from(wide))?)
    }
}

#[tactic(auto, unfolding(crate::specs::Gap::primitive_misses))]
fn put_primitive_misses(
    alloc: Global,
    out: &mut Vec<Fact>,
    taken: &Taken,
    prim: Primitive,
) -> Result<(), AllocError>
    ensures { OnOk result (out.new.items ≡ out.old.items ++ spec.primitive_misses prim taken.now.l.now taken.now.r.now) }
{
    match prim {
        Primitive::Bytes => put_misses_all(alloc, out, taken.l, taken.r),
        _ => put_misses_first(alloc, out, taken.l, u64::from(prim.width())),
    }
}

/// The place is outside of what the symbol takes.
#[tactic(auto, unfolding(crate::specs::Gap::misses))]
pub fn put_misses(
    alloc: Global,
    out: &mut Vec<Fact>,
    taken: &Taken,
    sym: &Sym,
) -> Result<(), AllocError>
    ensures { OnOk result (out.new.items ≡ out.old.items ++ spec.misses sym.now taken.now.l.now taken.now.r.now) }
{
    match sym {
        Sym::Text(bytes) => put_misses_first(alloc, out, taken.l, bytes.len() as u64),
        Sym::Prim(prim) => put_primitive_misses(alloc, out, taken, *prim),
        Sym::Rule(_) => put_misses_all(alloc, out, taken.l, taken.r),
    }
}
