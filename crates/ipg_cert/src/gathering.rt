ghost use Rattle.std.specs.Prelude.{◌≡◌, ℕ, ◌+◌, ◌≤◌, length, ◌++◌, [], ◌∷◌, OnOk, IfOk};
ghost use Rattle.std.specs.List.{flat_map};
ghost use Rattle.ipg_cert.specs.Facts.{facts_of, bound_facts, at_least, at_most};
ghost use Rattle.ipg_cert.specs.Checks.{root_facts};
ghost use Rattle.ipg_cert.specs.Seen.{Appends, all_seen};
ghost use Rattle.ipg_cert.specs.Goals.{Enters};

use crate::fact_ref::{Bound, FactRef};
use crate::goal::{Added, Goal};
use ipg_lin::{Boxed, Formula};
use std::alloc::{AllocError, Global};

/// Puts the facts that a formula is behind the others.
#[cycle(members)]
pub fn add_formula<'a>(known: &mut Vec<FactRef<'a>>, f: &'a Formula) -> Result<(), AllocError>
    ensures { OnOk result (Appends known.old.items known.new.items (facts_of f.now)) }
{
    match f {
        Formula::Atom(form) => push_fact(known, FactRef::Atom(form)),
        Formula::All(members) => add_members(known, members.as_slice()),
        Formula::Any(members) => push_fact(known, FactRef::Choice(members.as_slice())),
    }
}

#[cycle(members)]
fn add_members<'a>(known: &mut Vec<FactRef<'a>>, members: &'a [Formula]) -> Result<(), AllocError>
    ensures { OnOk result (Appends known.old.items known.new.items (flat_map facts_of members.now)) }
{
    for member in members {
        add_formula(known, member)?;
    }
    Ok(())
}

fn push_fact<'a>(known: &mut Vec<FactRef<'a>>, fact: FactRef<'a>) -> Result<(), AllocError>
    ensures { OnOk result (known.new.items ≡ known.old.items ++ fact.entry ∷ []) }
{
    known.push(fact)?;
    Ok(())
}

/// Goes back to the facts that a goal keeps, and adds its own.
pub fn enter<'a>(known: &mut Vec<FactRef<'a>>, goal: Goal<'a>) -> Result<(), AllocError>
    requires { goal.kept ≤ length known.old.items }
    ensures { OnOk result (Enters known.old.items known.new.items goal.entry) }
{
    known.truncate(goal.kept);
    match goal.added {
        Added::Case(bound) => push_fact(known, FactRef::Limit(bound)),
        Added::Member(member) => add_formula(known, member),
    }
}

/// Puts the bounds of each variable behind the facts.
pub fn add_bounds<'a>(known: &mut Vec<FactRef<'a>>, bounds: &[(i64, i64)]) -> Result<(), AllocError>
    ensures { OnOk result (Appends known.old.items known.new.items (bound_facts 0 bounds.now)) }
{
    for (var, bound) in bounds.iter().enumerate() {
        push_bounds(known, var as u64, bound)?;
    }
    Ok(())
}

fn push_bounds<'a>(
    known: &mut Vec<FactRef<'a>>,
    var: u64,
    bound: &(i64, i64),
) -> Result<(), AllocError>
    ensures { OnOk result (Appends known.old.items known.new.items (at_least var bound.now.0 ∷ at_most var bound.now.1 ∷ [])) }
{
    known.push(FactRef::Limit(Bound::at_least(var, i128::from(bound.0))))?;
    known.push(FactRef::Limit(Bound::at_most(var, i128::from(bound.1))))?;
    Ok(())
}

/// The facts at the root: the bounds of each variable, its lower and then its upper one, and behind them the
/// facts that the formula is.
pub fn root_facts<'a>(
    alloc: Global,
    f: &'a Formula,
    b: &Boxed,
) -> Result<Vec<FactRef<'a>>, AllocError>
    ensures { IfOk result (λ known. all_seen known.items ≡ root_facts f.now b.now) }
{
    let mut known = Vec::new(alloc);
    add_bounds(&mut known, b.bounds.as_slice())?;
    add_formula(&mut known, f)?;
    Ok(known)
}
