use ipg_lin::sum::LARGEST;
use std::alloc::{AllocError, Global};

/// A sum of facts.
#[derive(Drop)]
pub struct FactSum {
    /// Of each variable that is left, what it is taken times.
    pub terms: Vec<(u64, i64)>,
    pub constant: i128,
    /// Of each fact, how often it is taken.
    pub weights: Vec<(u64, i64)>,
}

impl FactSum {
    /// One fact.
    pub fn of_fact(
        alloc: Global,
        terms: &[(u64, i64)],
        constant: i128,
        fact: usize,
    ) -> Result<FactSum, AllocError> {
        Ok(FactSum {
            terms: Vec::from_slice(alloc, terms)?,
            constant,
            weights: Vec::from_slice(alloc, &[(fact as u64, 1)])?,
        })
    }

    pub fn coefficient(&self, var: u64) -> i64 {
        match self.terms.binary_search_by_key(&var, |term| term.0) {
            Ok(place) => match self.terms.get(place) {
                Some(term) => term.1,
                None => 0,
            },
            Err(_) => 0,
        }
    }

    /// Whether it reads `k <= 0` for a k above 0.
    pub fn is_absurd(&self) -> bool {
        self.terms.is_empty() && 0 < self.constant
    }

    /// Whether it says the opposite: with both, the sum is an equation.
    pub fn is_opposite(&self, other: &FactSum) -> bool {
        self.constant.wrapping_add(other.constant) == 0 && are_opposite(&self.terms, &other.terms)
    }

    /// The entries of a Combine.
    pub fn entries(&self, alloc: Global) -> Result<Vec<(u64, u64)>, AllocError> {
        self.weights
            .iter()
            .map(|weight| (weight.1.unsigned_abs(), weight.0))
            .collect(alloc)
    }

    /// Divides what it takes by what divides all of it.
    fn reduce(&mut self) {
        let mut common = 0u64;
        for weight in self.weights.iter() {
            common = gcd(common, weight.1.unsigned_abs());
        }
        let Ok(by) = i64::try_from(common) else {
            return;
        };
        if by < 2 {
            return;
        }
        for weight in self.weights.iter_mut() {
            weight.1 = weight.1.wrapping_div(by);
        }
        for term in self.terms.iter_mut() {
            term.1 = term.1.wrapping_div(by);
        }
        self.constant = self.constant.wrapping_div(i128::from(by));
    }
}

/// Whether the terms cancel one another.
pub fn are_opposite(terms: &[(u64, i64)], others: &[(u64, i64)]) -> bool {
    terms.len() == others.len()
        && terms.iter().zip(others).all(|(term, other)| term.0 == other.0
            && term.1.wrapping_add(other.1) == 0)
}

/// The greatest number that divides both.
pub fn gcd(a: u64, b: u64) -> u64 {
    let mut a = a;
    let mut b = b;
    for _ in 0..128 {
        if b == 0 {
            return a;
        }
        let rest = a % b;
        a = b;
        b = rest;
    }
    1
}

/// Multiples of two lists of numbers by key, added up, without those that cancel; none where a number
/// doesn't fit.
fn added(
    alloc: Global,
    a: &[(u64, i64)],
    times_a: i64,
    b: &[(u64, i64)],
    times_b: i64,
) -> Result<Option<Vec<(u64, i64)>>, AllocError> {
    let mut sum = Vec::with_capacity(alloc, a.len().saturating_add(b.len()))?;
    let mut right = b.iter().peekable();
    for left in a {
        for _ in b {
            match right.next_if(|other| other.0 < left.0) {
                Some(other) => match other.1.checked_mul(times_b) {
                    Some(number) => sum.push((other.0, number))?,
                    None => return Ok(None),
                },
                None => break,
            }
        }
        let other = match right.next_if(|other| other.0 == left.0) {
            Some(other) => other.1,
            None => 0,
        };
        match sum_of(left.1, times_a, other, times_b) {
            Some(0) => {}
            Some(number) => sum.push((left.0, number))?,
            None => return Ok(None),
        }
    }
    for other in right {
        match other.1.checked_mul(times_b) {
            Some(number) => sum.push((other.0, number))?,
            None => return Ok(None),
        }
    }
    Ok(Some(sum))
}

fn sum_of(a: i64, times_a: i64, b: i64, times_b: i64) -> Option<i64> {
    a.checked_mul(times_a)?.checked_add(b.checked_mul(times_b)?)
}

/// The sum of multiples of two sums in which the variable cancels, where its numbers fit.
pub fn cancelled(
    alloc: Global,
    above: &FactSum,
    below: &FactSum,
    var: u64,
) -> Result<Option<FactSum>, AllocError> {
    let a = above.coefficient(var).unsigned_abs();
    let b = below.coefficient(var).unsigned_abs();
    let common = gcd(a, b).max(1);
    let (Ok(times_above), Ok(times_below)) = (i64::try_from(b / common), i64::try_from(a / common))
    else {
        return Ok(None);
    };
    let Some(terms) = added(alloc, &above.terms, times_above, &below.terms, times_below)? else {
        return Ok(None);
    };
    let Some(weights) = added(
        alloc,
        &above.weights,
        times_above,
        &below.weights,
        times_below,
    )?
    else {
        return Ok(None);
    };
    let constant = i128::from(times_above)
        .wrapping_mul(above.constant)
        .wrapping_add(i128::from(times_below).wrapping_mul(below.constant));
    let mut sum = FactSum {
        terms,
        constant,
        weights,
    };
    sum.reduce();
    if sum
        .weights
        .iter()
        .all(|weight| weight.1.unsigned_abs() <= LARGEST)
    {
        Ok(Some(sum))
    } else {
        Ok(None)
    }
}
