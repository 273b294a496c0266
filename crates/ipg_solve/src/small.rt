//! Random small systems, decided and tried at every point.

ghost use Rattle.std.specs.Prelude.{◌≡◌, ◌+◌, ◌*◌, ◌<◌, ◌≤◌, pos, negsuc, ◌≤ℤ◌, IfOk};

use super::*;
use crate::candidate::solves;
use crate::decision::crossed;
use crate::difference::wants_short;
use crate::levels::decide_differences;
use ipg_cert::{Refutation, Step, check};
use ipg_lin::{Boxed, Formula, Linear, holds, is_over};
use ipg_num::List;
use ipg_solve_search::{SearchEnd, seek};
use std::alloc::Global;
use std::test::Fail;

/// The next number of the generator, below n.
fn draw(state: &mut u64, n: u64) -> u64
    requires { 0 < n }
    ensures { result < n }
{
    *state = state
        .wrapping_mul(6364136223846793005)
        .wrapping_add(1442695040888963407);
    (*state >> 33) % n
}

fn coefficient(state: &mut u64) -> i64 {
    match draw(state, 6) {
        0 => -3,
        1 => -2,
        2 => -1,
        3 => 1,
        4 => 2,
        _ => 3,
    }
}

/// From -most to most.
fn around_zero(state: &mut u64, most: u64) -> i64
    requires { most < 100 }
    ensures least { negsuc 99 ≤ℤ result }
    ensures most { result ≤ℤ pos 99 }
{
    draw(state, 2 * most + 1) as i64 - most as i64
}

fn form(alloc: Global, state: &mut u64) -> Result<Linear, Fail> {
    let constant = around_zero(state, 12);
    let a = coefficient(state);
    let b = coefficient(state);
    match draw(state, 8) {
        0 => Ok(Linear::new(alloc, &[(0, a)], constant)?),
        1 => Ok(Linear::new(alloc, &[(1, a)], constant)?),
        2 => Ok(Linear::new(alloc, &[(0, a), (1, b)], constant)?),
        3 => Ok(Linear::new(alloc, &[(1, a), (2, b)], constant)?),
        4 => Ok(Linear::new(alloc, &[(0, a), (3, b)], constant)?),
        5 => Ok(Linear::new(alloc, &[(2, a), (3, b)], constant)?),
        6 => Ok(Linear::new(alloc, &[(0, a), (2, b), (3, a)], constant)?),
        _ => Ok(Linear::new(alloc, &[(0, b), (1, a), (2, a), (3, b)], constant)?),
    }
}

/// An atom, or at a level above 0 an All or an Any of up to three formulas of the level below.
fn formula(alloc: Global, state: &mut u64, level: u64) -> Result<Formula, Fail> {
    if level == 0 {
        return Ok(Formula::Atom(form(alloc, state)?));
    }
    let mut members = List::new(alloc);
    let count = draw(state, 4);
    for _member in 0..count {
        members.push(formula(alloc, state, level - 1)?)?;
    }
    if draw(state, 2) == 0 {
        Ok(Formula::All(members))
    } else {
        Ok(Formula::Any(members))
    }
}

/// Four variables, each of up to eight values.
fn bounds(state: &mut u64) -> [(i64, i64); 4] {
    [domain(state), domain(state), domain(state), domain(state)]
}

fn domain(state: &mut u64) -> (i64, i64) {
    let low = around_zero(state, 6);
    (low, low + draw(state, 8) as i64)
}

/// Whether the formula holds at some point of the box, by trying each.
fn is_solvable(f: &Formula, bounds: &[(i64, i64); 4]) -> bool {
    for a in bounds[0].0..=bounds[0].1 {
        for b in bounds[1].0..=bounds[1].1 {
            for c in bounds[2].0..=bounds[2].1 {
                for d in bounds[3].0..=bounds[3].1 {
                    if is_over(f, 4) && holds(f, &[a, b, c, d]) {
                        return true;
                    }
                }
            }
        }
    }
    false
}

/// Whether the decision is right, and stands.
fn is_right(alloc: Global, f: &Formula, bounds: &[(i64, i64); 4]) -> Result<bool, Fail> {
    let b = Boxed {
        bounds: List::from_vec(Vec::from_slice(alloc, bounds)?),
    };
    if !is_over(f, 4) {
        return Ok(false);
    }
    match decide(alloc, f, &b)? {
        Decision::Solution(_) => Ok(is_solvable(f, bounds)),
        Decision::Refuted(r) => Ok(!is_solvable(f, bounds) && check(alloc, f, &b, &r)?),
    }
}

#[test]
fn small_systems_are_decided_as_trying_every_point_does(rt: HostRuntime) -> Result<(), Fail> {
    let alloc = rt.alloc();
    let mut state = 7;
    for _ in 0..2000 {
        let f = formula(alloc, &mut state, 3)?;
        let bounds = bounds(&mut state);
        assert!(rt; is_right(alloc, &f, &bounds)?);
    }
    Ok(())
}

/// Whether the search finds an answer, and it stands.
fn is_found(alloc: Global, f: &Formula, bounds: &[(i64, i64); 4]) -> Result<bool, Fail> {
    let b = Boxed {
        bounds: List::from_vec(Vec::from_slice(alloc, bounds)?),
    };
    if !is_over(f, b.bounds.len()) {
        return Ok(false);
    }
    match seek(alloc, f, &b)? {
        Some(SearchEnd::Values(values)) => Ok(solves(f, &b, values.as_slice())),
        Some(SearchEnd::Refuted(r)) => Ok(check(alloc, f, &b, &r)?),
        None => Ok(false),
    }
}

#[test]
fn what_the_search_finds_stands(rt: HostRuntime) -> Result<(), Fail> {
    let alloc = rt.alloc();
    let mut state = 11;
    for _ in 0..2000 {
        let f = formula(alloc, &mut state, 3)?;
        let bounds = bounds(&mut state);
        assert!(rt; is_found(alloc, &f, &bounds)?);
    }
    Ok(())
}

/// A difference of two of four variables, or a bound of one.
fn difference_form(alloc: Global, state: &mut u64) -> Result<Linear, Fail> {
    let constant = around_zero(state, 9);
    let a = if draw(state, 2) == 0 { 1 } else { -1 };
    match draw(state, 8) {
        0 => Ok(Linear::new(alloc, &[(0, a), (1, -a)], constant)?),
        1 => Ok(Linear::new(alloc, &[(0, a), (2, -a)], constant)?),
        2 => Ok(Linear::new(alloc, &[(0, a), (3, -a)], constant)?),
        3 => Ok(Linear::new(alloc, &[(1, a), (2, -a)], constant)?),
        4 => Ok(Linear::new(alloc, &[(1, a), (3, -a)], constant)?),
        5 => Ok(Linear::new(alloc, &[(2, a), (3, -a)], constant)?),
        6 => Ok(Linear::new(alloc, &[(1, a)], constant)?),
        _ => Ok(Linear::new(alloc, &[(3, a)], constant)?),
    }
}

fn difference(alloc: Global, state: &mut u64) -> Result<Formula, Fail> {
    Ok(Formula::Atom(difference_form(alloc, state)?))
}

fn differences(alloc: Global, state: &mut u64) -> Result<Formula, Fail> {
    let mut members = List::new(alloc);
    let count = draw(state, 9);
    for _member in 0..count {
        members.push(difference(alloc, state)?)?;
    }
    Ok(Formula::All(members))
}

/// Whether the refutation is one Combine of at most as many facts as variables plus one.
fn is_short(r: &Refutation, vars: usize) -> bool {
    match r.steps.as_slice() {
        [Step::Combine(entries)] => entries.len() <= vars.saturating_add(1),
        _ => false,
    }
}

#[test]
fn differences_are_refuted_by_one_short_combine(rt: HostRuntime) -> Result<(), Fail> {
    let alloc = rt.alloc();
    let mut state = 3;
    for _ in 0..1000 {
        let f = differences(alloc, &mut state)?;
        let bounds = bounds(&mut state);
        let b = Boxed {
            bounds: List::from_vec(Vec::from_slice(alloc, &bounds)?),
        };
        assert!(rt; is_over(&f, 4));
        match decide(alloc, &f, &b)? {
            Decision::Solution(_) => assert!(rt; is_solvable(&f, &bounds)),
            Decision::Refuted(r) => assert!(rt; is_short(&r, 4) && check(alloc, &f, &b, &r)?),
        }
    }
    Ok(())
}

/// Whether the levels alone decide the formula of differences, rightly and shortly.
fn is_right_by_levels(alloc: Global, f: &Formula, bounds: &[(i64, i64); 4]) -> Result<bool, Fail> {
    let b = Boxed {
        bounds: List::from_vec(Vec::from_slice(alloc, bounds)?),
    };
    if !is_over(f, 4) || !wants_short(f) {
        return Ok(false);
    }
    match crossed(b.bounds.as_slice()) {
        Some(_) => Ok(false),
        None => match decide_differences(alloc, f, &b)? {
            Decision::Solution(_) => Ok(is_solvable(f, bounds)),
            Decision::Refuted(r) => Ok(is_short(&r, 4) && check(alloc, f, &b, &r)?),
        },
    }
}

#[test]
fn levels_decide_differences(rt: HostRuntime) -> Result<(), Fail> {
    let alloc = rt.alloc();
    let mut state = 5;
    for _ in 0..1000 {
        let f = differences(alloc, &mut state)?;
        let bounds = bounds(&mut state);
        assert!(rt; is_right_by_levels(alloc, &f, &bounds)?);
    }
    Ok(())
}
