//! That the least value is found, and that a formula without a solution has none.

use ipg_lin::{Boxed, Formula, Linear, is_over};
use ipg_num::List;
use ipg_solve::Decision;
use ipg_solve_values::decide_least;
use std::alloc::Global;
use std::test::Fail;

const LONGEST: i64 = 1 << 30;

/// The least first value of a solution, if there is one, where each row is `a * x + b * y + constant <= 0`, x a length and y
/// any number.
fn least(alloc: Global, rows: &[(i64, i64, i64)]) -> Result<Option<i64>, Fail> {
    let mut members = List::new(alloc);
    for row in rows {
        members.push(atom(alloc, row)?)?;
    }
    let bounds = Vec::from_slice(alloc, &[(0, LONGEST), (i64::MIN, i64::MAX)])?;
    let b = Boxed {
        bounds: List::from_vec(bounds),
    };
    first(alloc, &Formula::All(members), &b)
}

fn atom(alloc: Global, row: &(i64, i64, i64)) -> Result<Formula, Fail> {
    if row.1 == 0 {
        return Ok(Formula::Atom(Linear::new(alloc, &[(0, row.0)], row.2)?));
    }
    Ok(Formula::Atom(Linear::new(alloc, &[(0, row.0), (1, row.1)], row.2)?))
}

fn first(alloc: Global, f: &Formula, b: &Boxed) -> Result<Option<i64>, Fail> {
    if b.bounds.len() == 0 || !is_over(f, b.bounds.len()) {
        return Err("a variable without bounds")?;
    }
    match decide_least(alloc, f, b, 0)? {
        Decision::Solution(values) => Ok(values.as_slice().first().copied()),
        Decision::Refuted(_) => Ok(None),
    }
}

#[test]
fn the_least_first_value_is_found(rt: HostRuntime) -> Result<(), Fail> {
    let rows: [(&[(i64, i64, i64)], Option<i64>); 6] = [
        (&[], Some(0)),
        (&[(-2, 0, 41)], Some(21)),
        (&[(-1, 0, LONGEST)], Some(LONGEST)),
        (&[(-1, 0, LONGEST + 1)], None),
        (&[(7, -5, 3), (-7, 5, -3), (-1, 0, 100)], Some(101)),
        (&[(1, 0, -9), (-1, 1, 0), (-1, 0, 9)], Some(9)),
    ];
    for (conditions, want) in rows {
        assert_eq!(rt; least(rt.alloc(), conditions)?, want, "of {conditions:?}");
    }
    Ok(())
}
