ghost use Rattle.std.specs.Prelude.{◌≡◌, ◌+◌, ◌<◌, ◌≤◌, max, length, IfOk};

use super::*;
use crate::difference::are_differences;
use ipg_cert::{Refutation, Step, check, refutation_text};
use ipg_lin::{Boxed, Formula, Linear, is_over};
use ipg_num::List;
use std::alloc::Global;
use std::test::Fail;

const LEAST: i64 = i64::MIN;

const MOST: i64 = i64::MAX;

fn box_of(alloc: Global, bounds: &[(i64, i64)]) -> Result<Boxed, Fail>
    ensures { IfOk result (λ b. b.bounds ≡ bounds.now) }
{
    let bounds = List::from_vec(Vec::from_slice(alloc, bounds)?);
    Ok(Boxed { bounds })
}

/// `coefficient * x + constant <= 0`.
fn one(alloc: Global, coefficient: i64, constant: i64) -> Result<Formula, Fail> {
    Ok(Formula::Atom(Linear::new(alloc, &[(0, coefficient)], constant)?))
}

/// `a * x + b * y + constant <= 0`.
fn two(alloc: Global, a: i64, b: i64, constant: i64) -> Result<Formula, Fail> {
    Ok(Formula::Atom(Linear::new(alloc, &[(0, a), (1, b)], constant)?))
}

fn both(alloc: Global, f: Formula, g: Formula) -> Result<Formula, Fail> {
    let mut members = List::new(alloc);
    members.push(f)?;
    members.push(g)?;
    Ok(Formula::All(members))
}

fn either(alloc: Global, f: Formula, g: Formula) -> Result<Formula, Fail> {
    let mut members = List::new(alloc);
    members.push(f)?;
    members.push(g)?;
    Ok(Formula::Any(members))
}

fn solution(decision: Decision) -> Result<List<i64>, Fail> {
    match decision {
        Decision::Solution(values) => Ok(values),
        Decision::Refuted(_) => Err("refuted")?,
    }
}

fn refutation(decision: Decision) -> Result<Refutation, Fail> {
    match decision {
        Decision::Solution(_) => Err("solved")?,
        Decision::Refuted(r) => Ok(r),
    }
}

fn decided(alloc: Global, f: &Formula, b: &Boxed) -> Result<Decision, Fail> {
    if is_over(f, b.bounds.len()) {
        Ok(decide(alloc, f, b)?)
    } else {
        Err("a variable without bounds")?
    }
}

/// The words of the refutation of this formula, which checks.
fn words(alloc: Global, f: &Formula, b: &Boxed) -> Result<Vec<u8>, Fail> {
    let r = refutation(decided(alloc, f, b)?)?;
    if !check(alloc, f, b, &r)? {
        return Err("unchecked")?;
    }
    Ok(refutation_text(alloc, &r)?)
}

#[test]
fn two_bounds_meet_at_four(rt: HostRuntime) -> Result<(), Fail> {
    let alloc = rt.alloc();
    let f = both(alloc, one(alloc, 2, -8)?, one(alloc, -2, 8)?)?;
    let b = box_of(alloc, &[(0, 10), (0, 0)])?;
    let values = solution(decided(alloc, &f, &b)?)?;
    assert!(rt; values.as_slice() == [4, 0].as_slice());
    Ok(())
}

#[test]
fn three_and_a_half_is_refuted(rt: HostRuntime) -> Result<(), Fail> {
    let alloc = rt.alloc();
    let f = both(alloc, one(alloc, 2, -7)?, one(alloc, -2, 7)?)?;
    let b = box_of(alloc, &[(LEAST, MOST), (0, 0)])?;
    let _words = words(alloc, &f, &b)?;
    Ok(())
}

fn empty_all(alloc: Global) -> Formula {
    Formula::All(List::new(alloc))
}

fn empty_any(alloc: Global) -> Formula {
    Formula::Any(List::new(alloc))
}

#[test]
fn bounds_that_cross_are_refuted(rt: HostRuntime) -> Result<(), Fail> {
    let alloc = rt.alloc();
    let f = empty_all(alloc);
    let b = box_of(alloc, &[(1, 0)])?;
    assert!(rt; words(alloc, &f, &b)?.as_slice() == b"c 2 1 0 1 1".as_slice());
    Ok(())
}

#[test]
fn nothing_is_solved_by_nothing(rt: HostRuntime) -> Result<(), Fail> {
    let alloc = rt.alloc();
    let f = empty_all(alloc);
    let b = box_of(alloc, &[])?;
    assert_eq!(rt; solution(decided(alloc, &f, &b)?)?.len(), 0);
    Ok(())
}

#[test]
fn an_empty_any_is_refuted(rt: HostRuntime) -> Result<(), Fail> {
    let alloc = rt.alloc();
    let f = both(alloc, one(alloc, 1, 0)?, empty_any(alloc))?;
    let b = box_of(alloc, &[(0, 0), (0, 0)])?;
    assert!(rt; words(alloc, &f, &b)?.as_slice() == b"e 5 0".as_slice());
    Ok(())
}

#[test]
fn an_any_of_alls_takes_the_member_that_holds(rt: HostRuntime) -> Result<(), Fail> {
    let alloc = rt.alloc();
    let low = both(alloc, one(alloc, 1, 3)?, two(alloc, -1, 1, 0)?)?;
    let high = both(alloc, one(alloc, -1, 3)?, two(alloc, 1, 1, -3)?)?;
    let f = either(alloc, low, high)?;
    let b = box_of(alloc, &[(-2, 5), (0, 1)])?;
    let values = solution(decided(alloc, &f, &b)?)?;
    assert!(rt; values.as_slice() == [3, 0].as_slice());
    Ok(())
}

#[test]
fn ends_of_64_bits_are_reached(rt: HostRuntime) -> Result<(), Fail> {
    let alloc = rt.alloc();
    let f = both(alloc, one(alloc, 1, MOST)?, two(alloc, -1, -1, 0)?)?;
    let b = box_of(alloc, &[(LEAST, MOST), (LEAST, MOST)])?;
    let values = solution(decided(alloc, &f, &b)?)?;
    assert!(rt; values.as_slice() == [-MOST, MOST].as_slice());
    Ok(())
}

fn three(alloc: Global, sign: i64, constant: i64) -> Result<Formula, Fail> {
    let terms = [(0, sign), (1, sign), (2, sign)];
    Ok(Formula::Atom(Linear::new(alloc, &terms, constant)?))
}

fn difference(alloc: Global, x: u64, y: u64, constant: i64) -> Result<Formula, Fail> {
    Ok(Formula::Atom(Linear::new(alloc, &[(x, 1), (y, -1)], constant)?))
}

#[test]
fn opposite_sums_are_refuted_without_a_cut(rt: HostRuntime) -> Result<(), Fail> {
    let alloc = rt.alloc();
    let f = both(alloc, three(alloc, 1, 0)?, three(alloc, -1, 1)?)?;
    let b = box_of(alloc, &[(LEAST, MOST), (LEAST, MOST), (LEAST, MOST)])?;
    assert!(rt; words(alloc, &f, &b)?.as_slice() == b"c 2 1 6 1 7".as_slice());
    Ok(())
}

/// How many facts the one Combine of a refutation has.
fn facts_of_one(r: &Refutation) -> Result<usize, Fail> {
    match r.steps.as_slice() {
        [Step::Combine(entries)] => Ok(entries.len()),
        _ => Err("more than one step")?,
    }
}

#[test]
fn a_round_of_differences_is_one_combine(rt: HostRuntime) -> Result<(), Fail> {
    let alloc = rt.alloc();
    let back = Formula::Atom(Linear::new(alloc, &[(0, -1), (2, 1)], 0)?);
    let steps = both(
        alloc,
        difference(alloc, 0, 1, 1)?,
        difference(alloc, 1, 2, 1)?,
    )?;
    let f = both(alloc, steps, back)?;
    let b = box_of(alloc, &[(LEAST, MOST), (LEAST, MOST), (LEAST, MOST)])?;
    let r = refutation(decided(alloc, &f, &b)?)?;
    assert!(rt; check(alloc, &f, &b, &r)?);
    assert!(rt; facts_of_one(&r)? <= 4);
    Ok(())
}

fn constant(alloc: Global, constant: i64) -> Result<Formula, Fail> {
    Ok(Formula::Atom(Linear::new(alloc, &[], constant)?))
}

#[test]
fn a_formula_of_differences_takes_one_variable_from_another(rt: HostRuntime) -> Result<(), Fail> {
    let alloc = rt.alloc();
    assert!(rt; are_differences(&constant(alloc, 3)?));
    assert!(rt; are_differences(&one(alloc, 1, -3)?));
    assert!(rt; are_differences(&one(alloc, -1, MOST)?));
    assert!(rt; are_differences(&two(alloc, 1, -1, 2)?));
    assert!(rt; are_differences(&two(alloc, -1, 1, 0)?));
    assert!(rt; !are_differences(&one(alloc, 2, 0)?));
    assert!(rt; !are_differences(&two(alloc, 1, 1, 0)?));
    assert!(rt; !are_differences(&two(alloc, -1, -1, 0)?));
    assert!(rt; !are_differences(&two(alloc, 2, -2, 0)?));
    assert!(rt; !are_differences(&three(alloc, 1, 0)?));
    Ok(())
}

#[test]
fn formulas_of_differences_are_alls(rt: HostRuntime) -> Result<(), Fail> {
    let alloc = rt.alloc();
    assert!(rt; are_differences(&empty_all(alloc)));
    assert!(rt; !are_differences(&empty_any(alloc)));
    let inner = both(alloc, one(alloc, 1, 0)?, empty_all(alloc))?;
    assert!(rt; are_differences(&both(alloc, inner, two(alloc, 1, -1, 0)?)?));
    assert!(rt; !are_differences(&both(alloc, one(alloc, 1, 0)?, one(alloc, 3, 0)?)?));
    assert!(rt; !are_differences(&either(alloc, one(alloc, 1, 0)?, one(alloc, 1, 1)?)?));
    Ok(())
}

#[test]
fn a_bare_atom_is_decided(rt: HostRuntime) -> Result<(), Fail> {
    let alloc = rt.alloc();
    let b = box_of(alloc, &[(0, 10)])?;
    let values = solution(decided(alloc, &one(alloc, -1, 10)?, &b)?)?;
    assert!(rt; values.as_slice() == [10].as_slice());
    assert!(rt; words(alloc, &one(alloc, -1, 11)?, &b)?.as_slice() == b"c 2 1 2 1 1".as_slice());
    assert!(rt; words(alloc, &constant(alloc, 1)?, &b)?.as_slice() == b"c 1 1 2".as_slice());
    Ok(())
}

#[test]
fn the_largest_coefficients_are_decided(rt: HostRuntime) -> Result<(), Fail> {
    let alloc = rt.alloc();
    let large = 1 << 40;
    let b = box_of(alloc, &[(LEAST, MOST), (LEAST, MOST)])?;
    let apart = both(alloc, two(alloc, large, -large, 1)?, two(alloc, -1, 1, 0)?)?;
    assert!(rt; words(alloc, &apart, &b)?.as_slice() == b"c 2 1 4 1099511627776 5".as_slice());
    let met = both(
        alloc,
        one(alloc, large, -(1 << 60))?,
        one(alloc, -large, 1 << 60)?,
    )?;
    let values = solution(decided(alloc, &met, &b)?)?;
    assert!(rt; values.as_slice() == [1 << 20, LEAST].as_slice());
    Ok(())
}
