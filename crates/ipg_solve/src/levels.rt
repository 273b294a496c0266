ghost use Rattle.std.specs.Prelude.{◌≡◌, ◌+◌, ◌^◌, ◌<◌, ◌≤◌, ◌∷◌, [], ◌-ℤ◌, ◌≤ℤ◌, length, map, max, take, IfOk};
ghost use Rattle.ipg_lin.specs.Formula.{width};
ghost use Rattle.ipg_solve_potentials.specs.Falls.{level_at};
ghost use Rattle.ipg_solve.specs.Decides.{Decides};
ghost use Rattle.ipg_solve.specs.Differences.{IsDifference, IsShort};
ghost use Rattle.ipg_solve.specs.Edges.{AreBetween, AreHeights, entries_of};
ghost use Rattle.ipg_solve.specs.Widened.{Levels, moved, with_lows};
ghost use Rattle.ipg_solve.specs.Domains.{AreFull};
ghost use Rattle.ipg_solve.specs.Cuts.{start_domains};
ghost use Rattle.ipg_cert.specs.declared.refutation.Step.TheVariants.{Combine};

use crate::counting::counted;
use crate::decision::Decision;
use crate::edges::edges_of;
use crate::width::width_of;
use ipg_cert::laws::{cancelled_is_absurd, sum_takes};
use ipg_cert::{Refutation, Step};
use ipg_lin::{Boxed, Formula};
use ipg_num::List;
use ipg_solve_potentials::{Potentials, settle};
use std::alloc::{AllocError, Global};

/// The difference, which lies within the bounds.
fn difference(x: i128, y: i128, low: i64, high: i64) -> i64
    requires low { low ≤ℤ (x -ℤ y) }
    requires high { (x -ℤ y) ≤ℤ high }
    ensures { result ≡ x -ℤ y }
{
    (x - y) as i64
}

/// The variable's level above the ground, which lies within the bounds.
fn height(levels: &[i128], x: usize, low: i64, high: i64) -> i64
    requires within { x + 1 < length levels.now }
    requires low { low ≤ℤ (level_at levels.now (x + 1) -ℤ level_at levels.now 0) }
    requires high { (level_at levels.now (x + 1) -ℤ level_at levels.now 0) ≤ℤ high }
    ensures { result ≡ level_at levels.now (x + 1) -ℤ level_at levels.now 0 }
{
    difference(levels[x + 1], levels[0], low, high)
}

/// For each variable its level above the ground.
fn heights(alloc: Global, levels: &[i128], bounds: &[(i64, i64)]) -> Result<List<i64>, AllocError>
    requires each { length levels.now ≡ length bounds.now + 1 }
    requires between { AreBetween levels.now bounds.now }
    ensures { IfOk result (λ values. AreHeights (length bounds.now) levels.now values) }
{
    let mut values = List::new(alloc);
    for (x, bound) in bounds.iter().enumerate() {
        values.push(height(levels, x, bound.0, bound.1))?;
    }
    Ok(values)
}

/// What the levels of a graph say of a formula of differences.
#[derive(Drop)]
pub enum Leveled {
    /// Values that solve it.
    Values(List<i64>),
    /// Facts that refute it, each taken once.
    Facts(List<u64>),
}

/// The levels of a graph, whose edges are the facts at the root, or a circle of facts.
fn level(alloc: Global, f: &Formula, b: &Boxed) -> Result<Leveled, AllocError>
    requires valued { width f.now ≤ length b.now.bounds }
    requires few { length b.now.bounds < 2 ^ 21 }
    requires difference { IsDifference f.now }
    ensures { IfOk result (λ leveled. Levels f.now b.now leveled) }
{
    sum_takes();
    cancelled_is_absurd();
    let edges = edges_of(alloc, f, b)?;
    let vars = b.bounds.len();
    match settle(alloc, vars + 1, &edges)? {
        Potentials::Levels(levels) => {
            let values = heights(alloc, levels.as_slice(), b.bounds.as_slice())?;
            Ok(Leveled::Values(values))
        }
        Potentials::Circle(circle) => Ok(Leveled::Facts(circle)),
    }
}

/// The bounds of the first `vars` variables.
fn front_of(alloc: Global, bounds: &[(i64, i64)], vars: usize) -> Result<Boxed, AllocError>
    requires { vars ≤ length bounds.now }
    ensures { IfOk result (λ b. b.bounds ≡ take vars bounds.now) }
{
    let bounds = List::from_vec(Vec::from_slice(alloc, &bounds[..vars])?);
    Ok(Boxed { bounds })
}

/// The values, and the least ones of the variables behind them.
fn with_lows(values: List<i64>, bounds: &[(i64, i64)]) -> Result<List<i64>, AllocError>
    requires { length values ≤ length bounds.now }
    ensures { IfOk result (λ all. all ≡ with_lows bounds.now values) }
{
    let mut all = values;
    let from = all.len();
    for bound in &bounds[from..] {
        all.push(bound.0)?;
    }
    Ok(all)
}

/// The number of a fact where `more` facts come in behind the first `kept`.
fn moved(fact: u64, kept: u64, more: u64) -> Result<u64, AllocError>
    ensures { IfOk result (λ n. n ≡ moved kept more fact) }
{
    if fact < kept {
        Ok(fact)
    } else {
        counted(fact, more)
    }
}

/// The Combine of each of these facts once, where `more` facts come in behind the first `kept`.
fn sum_of(alloc: Global, facts: &[u64], kept: u64, more: u64) -> Result<Refutation, AllocError>
    ensures { IfOk result (λ r. r ≡ record { steps = Combine (entries_of (map (moved kept more) facts.now)) ∷ [] }) }
{
    let mut entries = List::new(alloc);
    for fact in facts {
        entries.push((1, moved(*fact, kept, more)?))?;
    }
    let mut steps = List::new(alloc);
    steps.push(Step::Combine(entries))?;
    Ok(Refutation { steps })
}

/// Decides a formula of differences by the levels of a graph over its own variables; the others are free
/// within their bounds.
pub fn decide_differences(alloc: Global, f: &Formula, b: &Boxed) -> Result<Decision, AllocError>
    requires valued { width f.now ≤ length b.now.bounds }
    requires few { width f.now < 2 ^ 21 }
    requires difference { IsDifference f.now }
    requires full { AreFull (start_domains 0 b.now.bounds) }
    ensures decided { IfOk result (λ decision. Decides f.now b.now decision) }
    ensures short { IfOk result (λ decision. IsShort (max 1 (width f.now)) decision) }
{
    let vars = width_of(f) as usize;
    let front = front_of(alloc, b.bounds.as_slice(), vars)?;
    match level(alloc, f, &front)? {
        Leveled::Values(values) => {
            let values = with_lows(values, b.bounds.as_slice())?;
            Ok(Decision::Solution(values))
        }
        Leveled::Facts(facts) => {
            let kept = counted(vars as u64, vars as u64)?;
            let others = (b.bounds.len() - vars) as u64;
            let more = counted(others, others)?;
            Ok(Decision::Refuted(sum_of(alloc, facts.as_slice(), kept, more)?))
        }
    }
}
