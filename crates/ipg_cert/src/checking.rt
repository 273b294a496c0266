ghost use Rattle.std.specs.Prelude.{◌≡◌, ℕ, ◌+◌, ◌≤◌, ◌<◌, ◌++◌, [], ◌∷◌, List, Bool, true, length, reverse, slice_get, IfOk, OnOk, IsTrue};
ghost use Rattle.std.specs.Option.{option_map};
ghost use Rattle.ipg_lin.specs.Formula.{Solvable};
ghost use Rattle.ipg_cert.specs.Checks.{refutes, checks, combines};
ghost use Rattle.ipg_cert.specs.Seen.{all_seen, AreZero};
ghost use Rattle.ipg_cert.specs.Goals.{open_goals, AreOpen, Steps, choice_in, OpensEach, Nexts};
ghost use Rattle.ipg_cert.specs.declared.refutation.Step.TheVariants.{Split as Splits, Either as Eithers};

use crate::fact_ref::{Bound, FactRef};
use crate::gathering::{add_bounds, enter};
use crate::goal::{Added, Goal};
use crate::refutation::{Refutation, Step};
use crate::weigh::combine;
use ipg_lin::{Boxed, Formula};
use ipg_num::item_at;
use std::alloc::{AllocError, Global};

/// Opens the two cases of a Split: the variable is at most `at`, or it is above.
fn split<'a>(
    vars: u64,
    var: u64,
    at: i64,
    known: &[FactRef<'a>],
    goals: &mut Vec<Goal<'a>>,
) -> Result<bool, AllocError>
    ensures steps { IfOk result (λ on. Steps vars (Splits var at) known.now goals.old.items goals.new.items on) }
    ensures stack { IfOk result (λ on. AreOpen (length known.now) goals.old.items → AreOpen (length known.now) goals.new.items) }
{
    if vars <= var {
        return Ok(false);
    }
    let kept = known.len();
    let above = Added::Case(Bound::at_least(var, i128::from(at) + 1));
    let below = Added::Case(Bound::at_most(var, i128::from(at)));
    push_goal(goals, kept, above)?;
    push_goal(goals, kept, below)?;
    Ok(true)
}

fn push_goal<'a>(goals: &mut Vec<Goal<'a>>, kept: usize, added: Added<'a>) -> Result<(), AllocError>
    ensures { OnOk result (goals.new.items ≡ goals.old.items ++ record { kept = kept; added = added.entry } ∷ []) }
{
    goals.push(Goal { kept, added })?;
    Ok(())
}

/// Opens a case for each member of the Any that the step names.
fn either<'a>(
    fact: u64,
    parts: u64,
    known: &[FactRef<'a>],
    goals: &mut Vec<Goal<'a>>,
) -> Result<bool, AllocError>
    ensures steps { (vars : ℕ) → IfOk result (λ on. Steps vars (Eithers fact parts) known.now goals.old.items goals.new.items on) }
    ensures stack { IfOk result (λ on. AreOpen (length known.now) goals.old.items → AreOpen (length known.now) goals.new.items) }
{
    let Some(members) = members_of(known, fact) else {
        return Ok(false);
    };
    if members.len() as u64 != parts {
        return Ok(false);
    }
    open_members(members, known.len(), goals)?;
    Ok(true)
}

/// The members of the Any that is fact number `fact`.
fn members_of<'a>(known: &[FactRef<'a>], fact: u64) -> Option<&'a [Formula]>
    ensures { option_map (λ ms. ms.now) result ≡ choice_in (slice_get (all_seen known.now) fact) }
{
    match item_at(known, fact as usize) {
        Some(FactRef::Choice(members)) => Some(*members),
        _ => None,
    }
}

/// Opens a case for each member, the first on top.
fn open_members<'a>(
    members: &'a [Formula],
    kept: usize,
    goals: &mut Vec<Goal<'a>>,
) -> Result<(), AllocError>
    ensures { OnOk result (OpensEach kept members.now goals.old.items goals.new.items) }
{
    let mut left = members.len();
    while left > 0 {
        left -= 1;
        push_goal(goals, kept, Added::Member(&members[left]))?;
    }
    Ok(())
}

/// Takes the next goal off, and brings its facts to hand.
fn next<'a>(known: &mut Vec<FactRef<'a>>, goals: &mut Vec<Goal<'a>>) -> Result<bool, AllocError>
    requires { AreOpen (length known.old.items) goals.old.items }
    ensures { IfOk result (λ on. Nexts known.old.items known.new.items goals.old.items goals.new.items on) }
{
    let Some(goal) = goals.pop() else {
        return Ok(false);
    };
    enter(known, goal)?;
    Ok(true)
}

/// Takes a step on the goal whose facts are at hand.
fn take_step<'a>(
    vars: u64,
    step: &Step,
    known: &[FactRef<'a>],
    goals: &mut Vec<Goal<'a>>,
    totals: &mut Vec<i128>,
) -> Result<bool, AllocError>
    requires { AreZero totals.old.items }
    ensures steps { IfOk result (λ on. Steps vars step.now known.now goals.old.items goals.new.items on) }
    ensures stack { IfOk result (λ on. AreOpen (length known.now) goals.old.items → AreOpen (length known.now) goals.new.items) }
    ensures zero { IfOk result (λ on. IsTrue on → AreZero totals.new.items) }
{
    match step {
        Step::Combine(entries) => combine(entries.as_slice(), known, totals),
        Step::Split { var, at } => split(vars, *var, *at, known, goals),
        Step::Either { fact, parts } => either(*fact, *parts, known, goals),
    }
}

/// Takes the steps in turn, each on the next goal.
fn run<'a>(
    vars: u64,
    steps: &[Step],
    known: &mut Vec<FactRef<'a>>,
    goals: &mut Vec<Goal<'a>>,
    totals: &mut Vec<i128>,
) -> Result<bool, AllocError>
    requires stack { AreOpen (length known.old.items) goals.old.items }
    requires zero { AreZero totals.old.items }
    ensures { IfOk result (λ on. on ≡ refutes vars steps.now (open_goals known.old.items goals.old.items)) }
{
    for step in steps {
        if !next(known, goals)? {
            return Ok(false);
        }
        if !take_step(vars, step, known.as_slice(), goals, totals)? {
            return Ok(false);
        }
    }
    Ok(goals.is_empty())
}

/// Whether the steps are one tree that refutes the facts at the root.
fn is_checked(alloc: Global, f: &Formula, b: &Boxed, r: &Refutation) -> Result<bool, AllocError>
    ensures { IfOk result (λ on. on ≡ checks f.now b.now r.now) }
{
    let mut known = Vec::new(alloc);
    add_bounds(&mut known, b.bounds.as_slice())?;
    let mut goals = Vec::new(alloc);
    push_goal(&mut goals, known.len(), Added::Member(f))?;
    let mut totals = Vec::new(alloc);
    let vars = b.bounds.len() as u64;
    run(
        vars,
        r.steps.as_slice(),
        &mut known,
        &mut goals,
        &mut totals,
    )
}

/// Whether the refutation checks: then no assignment in the box makes the formula hold. It recurses as
/// deep as members stand in one another, as dropping the formula does.
pub fn check(alloc: Global, f: &Formula, b: &Boxed, r: &Refutation) -> Result<bool, AllocError>
    ensures exact { IfOk result (λ on. on ≡ checks f.now b.now r.now) }
    ensures sound { IfOk result (λ on. IsTrue on → Solvable f.now b.now → ⊥) }
{
    let on = is_checked(alloc, f, b, r)?;
    Ok(on)
}
