//! What a term that has run puts, and what an edge's own term does.

ghost use Rattle.std.specs.Prelude.{◌≡◌, IfOk, OnOk, ◌++◌, ◌∷◌, slice_get, slice_set, [], length, ◌<◌};
ghost use Rattle.std.specs.Option.{option_copied};
ghost use Rattle.ipg_facts_forms.specs.Form as forms;
ghost use Rattle.ipg_facts_variables.specs.Variable as variables;
ghost use Rattle.ipg_facts.specs.Reading as reading;
ghost use Rattle.ipg_facts.specs.Members as spec;
ghost use Rattle.ipg_facts.specs.Gap as gaps;
ghost use Rattle.ipg_facts.specs.Aim as aims;
ghost use Rattle.ipg_facts.specs.View.{scope_of};

use crate::aim::Aim;
use crate::bounds::Bounds;
use crate::edition::Edition;
use crate::missing::put_misses;
use crate::reading::{form_of, put_fails, put_holds};
use crate::scope::{Scope, length_of, nought};
use crate::touching::{Taken, put_is_valid, put_on_interval};
use ipg_core::grammar::{CoreExpr, CoreSlot, CoreTerm};
use ipg_facts_forms::{Fact, Form, copy_members, mention, put_equal, put_leq, put_less};
use ipg_facts_variables::{attribute, loop_variable};
use ipg_num::{List, item_at};
use std::alloc::{AllocError, Global};

/// A term that has run, and what its members are put for.
#[derive(Clone, Copy)]
struct Ran {
    term: u32,
    aim: Aim,
}

/// What a slot puts, and for a gap also that it misses the place.
#[tactic(auto, unfolding(crate::specs::Aim::slot_for), using(crate::proofs::Puts::in_turn))]
fn put_slot(
    alloc: Global,
    out: &mut Vec<Fact>,
    scope: &Scope,
    ran: Ran,
    slot: &CoreSlot,
) -> Result<(), AllocError>
    ensures { OnOk result (out.new.items ≡ out.old.items ++ aims.slot_for ran.aim (scope_of scope.now) ran.term slot.now) }
{
    let l = form_of(alloc, scope, &slot.from)?;
    let r = form_of(alloc, scope, &slot.to)?;
    let taken = Taken {
        term: ran.term,
        l: &l,
        r: &r,
    };
    put_on_interval(alloc, out, scope, &taken, &slot.sym)?;
    match ran.aim {
        Aim::Keep => Ok(()),
        Aim::Gap => put_misses(alloc, out, &taken, &slot.sym),
    }
}

/// The member of a branch: the conditions before it false, its own true, and what it puts as a slot.
#[tactic(auto, using(crate::proofs::Puts::in_turn))]
fn put_case(
    alloc: Global,
    out: &mut Vec<Fact>,
    scope: &Scope,
    ran: Ran,
    earlier: &[Fact],
    case: &(CoreExpr, CoreSlot),
) -> Result<(), AllocError>
    ensures { OnOk result
        (out.new.items ≡ out.old.items
        ++ Fact.All (earlier.now
        ++ ((reading.read (scope_of scope.now) case.now.0).holds ++ aims.slot_for ran.aim (scope_of scope.now) ran.term case.now.1)) ∷ []) }
{
    let mut members = copy_members(alloc, earlier)?.into_vec();
    put_holds(alloc, &mut members, scope, &case.0)?;
    put_slot(alloc, &mut members, scope, ran, &case.1)?;
    out.push(Fact::All(List::from_vec(members)))?;
    Ok(())
}

#[tactic(auto, using(crate::proofs::Puts::in_turn))]
fn put_else(
    alloc: Global,
    out: &mut Vec<Fact>,
    scope: &Scope,
    ran: Ran,
    earlier: Vec<Fact>,
    other: &CoreSlot,
) -> Result<(), AllocError>
    ensures { OnOk result
        (out.new.items ≡ out.old.items ++ Fact.All (earlier.items ++ aims.slot_for ran.aim (scope_of scope.now) ran.term other.now) ∷ []) }
{
    let mut members = earlier;
    put_slot(alloc, &mut members, scope, ran, other)?;
    out.push(Fact::All(List::from_vec(members)))?;
    Ok(())
}

/// One member for each branch of a switch.
fn branches(
    alloc: Global,
    scope: &Scope,
    ran: Ran,
    cases: &[(CoreExpr, CoreSlot)],
    other: &CoreSlot,
) -> Result<Vec<Fact>, AllocError>
    ensures { IfOk result (λ members. members.items ≡ aims.branches_for ran.aim (scope_of scope.now) ran.term [] cases.now other.now) }
{
    let mut members = Vec::new(alloc);
    let mut earlier = Vec::new(alloc);
    for case in cases {
        put_case(alloc, &mut members, scope, ran, earlier.as_slice(), case)?;
        put_fails(alloc, &mut earlier, scope, &case.0)?;
    }
    put_else(alloc, &mut members, scope, ran, earlier, other)?;
    Ok(members)
}

fn put_switch(
    alloc: Global,
    out: &mut Vec<Fact>,
    scope: &Scope,
    ran: Ran,
    cases: &[(CoreExpr, CoreSlot)],
    other: &CoreSlot,
) -> Result<(), AllocError>
    ensures { OnOk result
        (out.new.items ≡ out.old.items ++ Fact.Any (aims.branches_for ran.aim (scope_of scope.now) ran.term [] cases.now other.now) ∷ []) }
{
    let members = branches(alloc, scope, ran, cases, other)?;
    out.push(Fact::Any(List::from_vec(members)))?;
    Ok(())
}

fn put_set(
    alloc: Global,
    out: &mut Vec<Fact>,
    scope: &Scope,
    attr: u32,
    value: &CoreExpr,
) -> Result<(), AllocError>
    ensures { OnOk result
        (out.new.items ≡ out.old.items
        ++ forms.equal (forms.mention (variables.attribute scope.now.side attr) []) (reading.form (scope_of scope.now) value.now)) }
{
    let set = mention(alloc, attribute(scope.side, attr), Vec::new(alloc))?;
    put_equal(alloc, out, &set, &form_of(alloc, scope, value)?)
}

/// The members of a term that has run.
#[tactic(auto, unfolding(crate::specs::Members::members, crate::specs::Aim::members_for))]
fn put_term(
    alloc: Global,
    out: &mut Vec<Fact>,
    scope: &Scope,
    ran: Ran,
    term: &CoreTerm,
) -> Result<(), AllocError>
    ensures { OnOk result (out.new.items ≡ out.old.items ++ aims.members_for ran.aim (scope_of scope.now) ran.term (Some term.now)) }
{
    match term {
        CoreTerm::Slot(slot) => put_slot(alloc, out, scope, ran, slot),
        CoreTerm::Set { attr, value } => put_set(alloc, out, scope, *attr, value),
        CoreTerm::Test(e) => put_holds(alloc, out, scope, e),
        CoreTerm::Repeat {
            first: _,
            last: _,
            item: _,
            from: _,
            to: _,
        } => Ok(()),
        CoreTerm::Many { item: _, from, to } => {
            let l = form_of(alloc, scope, from)?;
            let r = form_of(alloc, scope, to)?;
            put_is_valid(alloc, out, scope, &l, &r)
        }
        CoreTerm::Pick { cases, other } => {
            put_switch(alloc, out, scope, ran, cases.as_slice(), other)
        }
    }
}

#[tactic(auto, unfolding(crate::specs::Members::members, crate::specs::Aim::members_for))]
fn put_members(
    alloc: Global,
    out: &mut Vec<Fact>,
    scope: &Scope,
    ran: Ran,
) -> Result<(), AllocError>
    ensures { OnOk result (out.new.items ≡ out.old.items ++ aims.members_for ran.aim (scope_of scope.now) ran.term (slice_get scope.now.terms.now ran.term)) }
{
    match item_at(scope.terms, ran.term as usize) {
        None => Ok(()),
        Some(term) => put_term(alloc, out, scope, ran, term),
    }
}

/// The bounds of an array that has run are known from then on.
fn set_bounds(arrays: &mut Vec<Option<Bounds>>, term: u32, bounds: Bounds)
    ensures { arrays.new.items ≡ slice_set arrays.old.items term (Some bounds) }
{
    if (term as usize) < arrays.len() {
        arrays[term as usize] = Some(bounds);
    }
}

fn pass_array(
    alloc: Global,
    scope: &mut Scope,
    term: u32,
    first: &CoreExpr,
    last: &CoreExpr,
) -> Result<(), AllocError>
    ensures { OnOk result
        (scope_of scope.new ≡ record (scope_of scope.old) {
          arrays = slice_set scope.old.arrays.items term
              (Some (record { first = reading.form (scope_of scope.old) first.now; last = reading.form (scope_of scope.old) last.now }));
        }) }
{
    let bounds = Bounds {
        first: form_of(alloc, scope, first)?,
        last: form_of(alloc, scope, last)?,
    };
    set_bounds(&mut scope.arrays, term, bounds);
    Ok(())
}

/// The same, of which the earlier conditions know nothing.
fn pass_known_array(
    alloc: Global,
    scope: &mut Scope,
    term: u32,
    first: &CoreExpr,
    last: &CoreExpr,
) -> Result<(), AllocError>
    ensures { OnOk result
        (scope_of scope.new ≡ record (scope_of scope.old) {
          arrays = spec.with_bounds scope.old.edition (scope_of scope.old) term first.now last.now;
        }) }
{
    match scope.edition {
        Edition::Earlier => Ok(()),
        Edition::Later => pass_array(alloc, scope, term, first, last),
    }
}

#[tactic(auto, unfolding(crate::specs::Members::passed, crate::specs::Members::arrays_with))]
fn pass(alloc: Global, scope: &mut Scope, term: u32) -> Result<(), AllocError>
    ensures { OnOk result (scope_of scope.new ≡ spec.passed (scope_of scope.old) term) }
{
    let terms = scope.terms;
    match item_at(terms, term as usize) {
        Some(
            CoreTerm::Repeat {
                first,
                last,
                item: _,
                from: _,
                to: _,
            },
        ) => pass_known_array(alloc, scope, term, first, last),
        Some(CoreTerm::Slot(_)) => Ok(()),
        Some(CoreTerm::Set { attr: _, value: _ }) => Ok(()),
        Some(CoreTerm::Test(_)) => Ok(()),
        Some(
            CoreTerm::Many {
                item: _,
                from: _,
                to: _,
            },
        ) => Ok(()),
        Some(CoreTerm::Pick { cases: _, other: _ }) => Ok(()),
        None => Ok(()),
    }
}

fn put_terms(
    alloc: Global,
    out: &mut Vec<Fact>,
    scope: &mut Scope,
    aim: Aim,
    order: &[u32],
) -> Result<(), AllocError>
    ensures { OnOk result ((out.new.items ≡ out.old.items ++ aims.terms_for aim (scope_of scope.old) order.now)
        × (scope_of scope.new ≡ spec.passed_all (scope_of scope.old) order.now)) }
{
    for term in order {
        put_members(alloc, out, scope, Ran { term: *term, aim })?;
        pass(alloc, scope, *term)?;
    }
    Ok(())
}

/// The members of terms that run one after another.
pub fn put_terms_members(
    alloc: Global,
    out: &mut Vec<Fact>,
    scope: &mut Scope,
    order: &[u32],
) -> Result<(), AllocError>
    ensures { OnOk result ((out.new.items ≡ out.old.items ++ spec.terms_members (scope_of scope.old) order.now)
        × (scope_of scope.new ≡ spec.passed_all (scope_of scope.old) order.now)) }
{
    put_terms(alloc, out, scope, Aim::Keep, order)
}

/// The same, and of each slot that it misses the place.
pub fn put_gap_terms(
    alloc: Global,
    out: &mut Vec<Fact>,
    scope: &mut Scope,
    order: &[u32],
) -> Result<(), AllocError>
    ensures { OnOk result (out.new.items ≡ out.old.items ++ gaps.gap_terms (scope_of scope.old) order.now) }
{
    put_terms(alloc, out, scope, Aim::Gap, order)
}

/// The call is made on the whole part.
#[tactic(auto, unfolding(crate::specs::Members::is_whole), using(crate::proofs::Puts::in_turn))]
fn put_is_whole(
    alloc: Global,
    out: &mut Vec<Fact>,
    scope: &Scope,
    from: &CoreExpr,
    to: &CoreExpr,
) -> Result<(), AllocError>
    ensures { OnOk result (out.new.items ≡ out.old.items ++ spec.is_whole (scope_of scope.now) from.now to.now) }
{
    put_equal(alloc, out, &form_of(alloc, scope, from)?, &nought(alloc))?;
    put_equal(
        alloc,
        out,
        &form_of(alloc, scope, to)?,
        &length_of(alloc, scope)?,
    )
}

/// The loop variable is within the bounds.
#[tactic(auto, unfolding(crate::specs::Members::runs), using(crate::proofs::Puts::in_turn))]
fn put_runs(
    alloc: Global,
    out: &mut Vec<Fact>,
    scope: &Scope,
    first: &CoreExpr,
    last: &CoreExpr,
) -> Result<(), AllocError>
    ensures { OnOk result (out.new.items ≡ out.old.items ++ spec.runs (scope_of scope.now) first.now last.now) }
{
    let turn = mention(alloc, loop_variable(scope.side), Vec::new(alloc))?;
    put_leq(alloc, out, &form_of(alloc, scope, first)?, &turn)?;
    put_less(alloc, out, &turn, &form_of(alloc, scope, last)?)
}

#[tactic(auto, using(crate::proofs::Puts::in_turn))]
fn put_taken_case(
    alloc: Global,
    out: &mut Vec<Fact>,
    scope: &Scope,
    case: &(CoreExpr, CoreSlot),
) -> Result<(), AllocError>
    ensures { OnOk result
        (out.new.items ≡ out.old.items
        ++ ((reading.read (scope_of scope.now) case.now.0).holds ++ spec.is_whole (scope_of scope.now) case.now.1.from case.now.1.to)) }
{
    put_holds(alloc, out, scope, &case.0)?;
    put_is_whole(alloc, out, scope, &case.1.from, &case.1.to)
}

/// The branch of a switch is taken, and on the whole part.
fn put_takes(
    alloc: Global,
    out: &mut Vec<Fact>,
    scope: &Scope,
    cases: &[(CoreExpr, CoreSlot)],
    other: &CoreSlot,
    branch: u32,
) -> Result<(), AllocError>
    ensures { OnOk result (out.new.items ≡ out.old.items ++ spec.takes (scope_of scope.now) cases.now other.now branch) }
{
    for (at, case) in cases.iter().enumerate() {
        if at == branch as usize {
            return put_taken_case(alloc, out, scope, case);
        }
        put_fails(alloc, out, scope, &case.0)?;
    }
    put_is_whole(alloc, out, scope, &other.from, &other.to)
}

#[tactic(auto, unfolding(crate::specs::Members::own_members), using(crate::proofs::Puts::in_turn))]
fn put_own_term(
    alloc: Global,
    out: &mut Vec<Fact>,
    scope: &Scope,
    branch: u32,
    term: &CoreTerm,
) -> Result<(), AllocError>
    ensures { OnOk result (out.new.items ≡ out.old.items ++ spec.own_members (scope_of scope.now) branch (Some term.now)) }
{
    match term {
        CoreTerm::Slot(slot) => put_is_whole(alloc, out, scope, &slot.from, &slot.to),
        CoreTerm::Set { attr: _, value: _ } => Ok(()),
        CoreTerm::Test(_) => Ok(()),
        CoreTerm::Repeat {
            first,
            last,
            item: _,
            from,
            to,
        } => {
            put_runs(alloc, out, scope, first, last)?;
            put_is_whole(alloc, out, scope, from, to)
        }
        CoreTerm::Many { item: _, from, to } => put_is_whole(alloc, out, scope, from, to),
        CoreTerm::Pick { cases, other } => {
            put_takes(alloc, out, scope, cases.as_slice(), other, branch)
        }
    }
}

/// The members of the edge's own term.
#[tactic(auto, unfolding(crate::specs::Members::own_members))]
pub fn put_own_members(
    alloc: Global,
    out: &mut Vec<Fact>,
    scope: &Scope,
    term: u32,
    branch: u32,
) -> Result<(), AllocError>
    ensures { OnOk result (out.new.items ≡ out.old.items ++ spec.own_at (scope_of scope.now) term branch) }
{
    match item_at(scope.terms, term as usize) {
        None => Ok(()),
        Some(term) => put_own_term(alloc, out, scope, branch, term),
    }
}
