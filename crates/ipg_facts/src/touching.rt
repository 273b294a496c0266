//! What a result touches of its interval.

ghost use Rattle.std.specs.Prelude.{◌≡◌, IfOk, OnOk, ◌++◌, pos, codes};
ghost use Rattle.ipg_facts_variables.specs.Variable as variables;
ghost use Rattle.ipg_facts_forms.specs.Form as forms;
ghost use Rattle.ipg_core.specs.MustTouch.{is_marked};
ghost use Rattle.ipg_facts.specs.Members as spec;
ghost use Rattle.ipg_facts.specs.View.{scope_of};

use crate::reading::put_ranges;
use crate::scope::{Scope, greatest, length_of, nought};
use ipg_core::grammar::{Primitive, Sym};
use ipg_facts_forms::{Fact, Form, mention, put_choice, put_equal, put_leq, put_less, shifted};
use ipg_facts_holder::is_marked;
use ipg_facts_variables::{end, named, start};
use std::alloc::{AllocError, Global};

/// The interval `[l, r]` is valid.
#[tactic(auto, unfolding(crate::specs::Members::is_valid), using(crate::proofs::Puts::in_turn))]
pub fn put_is_valid(
    alloc: Global,
    out: &mut Vec<Fact>,
    scope: &Scope,
    l: &Form,
    r: &Form,
) -> Result<(), AllocError>
    ensures { OnOk result (out.new.items ≡ out.old.items ++ spec.is_valid (scope_of scope.now) l.now r.now) }
{
    put_leq(alloc, out, &nought(alloc), l)?;
    put_leq(alloc, out, l, r)?;
    put_leq(alloc, out, r, &length_of(alloc, scope)?)
}

fn start_of(alloc: Global, scope: &Scope, term: u32) -> Result<Form, AllocError>
    ensures { IfOk result (λ form. form ≡ spec.start_of (scope_of scope.now) term) }
{
    mention(alloc, start(scope.side, term), Vec::new(alloc))
}

fn end_of(alloc: Global, scope: &Scope, term: u32) -> Result<Form, AllocError>
    ensures { IfOk result (λ form. form ≡ spec.end_of (scope_of scope.now) term) }
{
    mention(alloc, end(scope.side, term), Vec::new(alloc))
}

#[tactic(auto, unfolding(crate::specs::Members::touches_none), using(crate::proofs::Puts::in_turn))]
fn put_touches_none(
    alloc: Global,
    out: &mut Vec<Fact>,
    scope: &Scope,
    term: u32,
    l: &Form,
    r: &Form,
) -> Result<(), AllocError>
    ensures { OnOk result (out.new.items ≡ out.old.items ++ spec.touches_none (scope_of scope.now) term l.now r.now) }
{
    put_equal(alloc, out, &start_of(alloc, scope, term)?, r)?;
    put_equal(alloc, out, &end_of(alloc, scope, term)?, l)
}

#[tactic(auto, unfolding(crate::specs::Members::touches_some), using(crate::proofs::Puts::in_turn))]
fn put_touches_some(
    alloc: Global,
    out: &mut Vec<Fact>,
    scope: &Scope,
    term: u32,
    l: &Form,
    r: &Form,
) -> Result<(), AllocError>
    ensures { OnOk result (out.new.items ≡ out.old.items ++ spec.touches_some (scope_of scope.now) term l.now r.now) }
{
    let start = start_of(alloc, scope, term)?;
    let end = end_of(alloc, scope, term)?;
    put_leq(alloc, out, l, &start)?;
    put_less(alloc, out, &start, &end)?;
    put_leq(alloc, out, &end, r)
}

/// The result and its interval.
#[derive(Drop)]
pub struct Taken<'a> {
    pub term: u32,
    pub l: &'a Form,
    pub r: &'a Form,
}

#[tactic(auto, unfolding(crate::specs::Members::touches_first), using(crate::proofs::Puts::in_turn))]
fn put_touches_first(
    alloc: Global,
    out: &mut Vec<Fact>,
    scope: &Scope,
    taken: &Taken,
    wide: u64,
) -> Result<(), AllocError>
    ensures { OnOk result (out.new.items ≡ out.old.items ++ spec.touches_first (scope_of scope.now) taken.now.term taken.now.l.now taken.now.r.now wide) }
{
    let end = end_of(alloc, scope, taken.term)?;
    put_equal(alloc, out, &start_of(alloc, scope, taken.term)?, taken.l)?;
    put_equal(
        alloc,
        out,
        &end,
        &shifted(alloc, taken.l, i128::from(wide))?,
    )?;
    put_leq(alloc, out, &end, taken.r)
}

#[tactic(auto, unfolding(crate::specs::Members::touches_all), using(crate::proofs::Puts::in_turn))]
fn put_touches_all(
    alloc: Global,
    out: &mut Vec<Fact>,
    scope: &Scope,
    taken: &Taken,
) -> Result<(), AllocError>
    ensures { OnOk result (out.new.items ≡ out.old.items ++ spec.touches_all (scope_of scope.now) taken.now.term taken.now.l.now taken.now.r.now) }
{
    put_equal(alloc, out, &start_of(alloc, scope, taken.term)?, taken.l)?;
    put_equal(alloc, out, &end_of(alloc, scope, taken.term)?, taken.r)
}

#[tactic(auto, unfolding(crate::specs::Members::attr_ranges))]
fn put_attr_ranges(
    alloc: Global,
    out: &mut Vec<Fact>,
    scope: &Scope,
    term: u32,
    prim: Primitive,
    name: &[u8],
) -> Result<(), AllocError>
    ensures { OnOk result (out.new.items ≡ out.old.items ++ spec.attr_ranges (scope_of scope.now) term prim name.now) }
{
    let variable = named(alloc, scope.side, term, name)?;
    let form = mention(alloc, variable, Vec::new(alloc))?;
    put_ranges(alloc, out, &form, greatest(prim, name))
}

/// The attributes of a number are from 0 to their greatest values.
#[tactic(auto, unfolding(crate::specs::Members::number_ranges), using(crate::proofs::Puts::in_turn))]
fn put_number_ranges(
    alloc: Global,
    out: &mut Vec<Fact>,
    scope: &Scope,
    term: u32,
    prim: Primitive,
) -> Result<(), AllocError>
    ensures { OnOk result (out.new.items ≡ out.old.items ++ spec.number_ranges (scope_of scope.now) term prim) }
{
    put_attr_ranges(alloc, out, scope, term, prim, b"hi".as_slice())?;
    put_attr_ranges(alloc, out, scope, term, prim, b"lo".as_slice())?;
    put_attr_ranges(alloc, out, scope, term, prim, b"val".as_slice())
}

#[tactic(auto, unfolding(crate::specs::Members::text_touches))]
fn put_text_touches(
    alloc: Global,
    out: &mut Vec<Fact>,
    scope: &Scope,
    taken: &Taken,
    wide: u64,
) -> Result<(), AllocError>
    ensures { OnOk result (out.new.items ≡ out.old.items ++ spec.text_touches (scope_of scope.now) taken.now.term taken.now.l.now taken.now.r.now wide) }
{
    if wide == 0 {
        put_touches_none(alloc, out, scope, taken.term, taken.l, taken.r)
    } else {
        put_touches_first(alloc, out, scope, taken, wide)
    }
}

#[tactic(auto, unfolding(crate::specs::Members::number_touches), using(crate::proofs::Puts::in_turn))]
fn put_number_touches(
    alloc: Global,
    out: &mut Vec<Fact>,
    scope: &Scope,
    taken: &Taken,
    prim: Primitive,
) -> Result<(), AllocError>
    ensures { OnOk result (out.new.items ≡ out.old.items ++ spec.number_touches (scope_of scope.now) taken.now.term taken.now.l.now taken.now.r.now prim) }
{
    put_touches_first(alloc, out, scope, taken, u64::from(prim.width()))?;
    put_number_ranges(alloc, out, scope, taken.term, prim)
}

#[tactic(auto, unfolding(crate::specs::Members::primitive_touches))]
fn put_primitive_touches(
    alloc: Global,
    out: &mut Vec<Fact>,
    scope: &Scope,
    taken: &Taken,
    prim: Primitive,
) -> Result<(), AllocError>
    ensures { OnOk result (out.new.items ≡ out.old.items ++ spec.primitive_touches (scope_of scope.now) taken.now.term taken.now.l.now taken.now.r.now prim) }
{
    match prim {
        Primitive::Bytes => put_touches_all(alloc, out, scope, taken),
        _ => put_number_touches(alloc, out, scope, taken, prim),
    }
}

/// A rule that must touch does; another touches some byte or none.
#[tactic(auto, unfolding(crate::specs::Members::rule_touches))]
fn put_rule_touches(
    alloc: Global,
    out: &mut Vec<Fact>,
    scope: &Scope,
    taken: &Taken,
    callee: u32,
) -> Result<(), AllocError>
    ensures { OnOk result (out.new.items ≡ out.old.items ++ spec.rule_touches (scope_of scope.now) taken.now.term taken.now.l.now taken.now.r.now
        (is_marked (scope_of scope.now).marks callee)) }
{
    if is_marked(scope.marks, callee) {
        return put_touches_some(alloc, out, scope, taken.term, taken.l, taken.r);
    }
    let mut some = Vec::new(alloc);
    put_touches_some(alloc, &mut some, scope, taken.term, taken.l, taken.r)?;
    let mut none = Vec::new(alloc);
    put_touches_none(alloc, &mut none, scope, taken.term, taken.l, taken.r)?;
    put_choice(alloc, out, some, none)
}

#[tactic(auto, unfolding(crate::specs::Members::touches))]
fn put_touches(
    alloc: Global,
    out: &mut Vec<Fact>,
    scope: &Scope,
    taken: &Taken,
    sym: &Sym,
) -> Result<(), AllocError>
    ensures { OnOk result (out.new.items ≡ out.old.items ++ spec.touches (scope_of scope.now) taken.now.term sym.now taken.now.l.now taken.now.r.now) }
{
    match sym {
        Sym::Text(bytes) => put_text_touches(alloc, out, scope, taken, bytes.len() as u64),
        Sym::Prim(prim) => put_primitive_touches(alloc, out, scope, taken, *prim),
        Sym::Rule(callee) => put_rule_touches(alloc, out, scope, taken, *callee),
    }
}

/// The interval is valid, and what the symbol's result on it touches.
#[tactic(auto, unfolding(crate::specs::Members::on_interval), using(crate::proofs::Puts::in_turn))]
pub fn put_on_interval(
    alloc: Global,
    out: &mut Vec<Fact>,
    scope: &Scope,
    taken: &Taken,
    sym: &Sym,
) -> Result<(), AllocError>
    ensures { OnOk result (out.new.items ≡ out.old.items ++ spec.on_interval (scope_of scope.now) taken.now.term sym.now taken.now.l.now taken.now.r.now) }
{
    put_is_valid(alloc, out, scope, taken.l, taken.r)?;
    put_touches(alloc, out, scope, taken, sym)
}
