use anyhow::{Result, bail};
use ipg_lin::{Boxed, Formula, Linear};
use ipg_num::List;
use std::alloc::Global;

/// A variable, and what it is taken times.
pub type Term = (u64, i64);

/// A formula and a box.
#[derive(Drop)]
pub struct System {
    pub formula: Formula,
    pub bounds: Boxed,
}

/// The terms and the constant come to at most 0.
pub fn at_most_zero(alloc: Global, terms: &[Term], constant: i64) -> Result<Formula> {
    let mut rising = Vec::from_slice(alloc, terms)?;
    rising.sort_unstable_by_key(|term| term.0);
    match Linear::new(alloc, &rising, constant) {
        Ok(form) => Ok(Formula::Atom(form)),
        Err(_) => bail!("no such form"),
    }
}

/// The first of two variables is less than the second.
pub fn less(alloc: Global, x: u64, y: u64) -> Result<Formula> {
    at_most_zero(alloc, &[(x, 1), (y, -1)], 1)
}

/// The terms and the constant come to 0.
pub fn zero(alloc: Global, terms: &[Term], constant: i64) -> Result<Formula> {
    let negated: Vec<Term> = terms
        .iter()
        .map(|term| (term.0, term.1.wrapping_neg()))
        .collect(alloc)?;
    both(
        alloc,
        at_most_zero(alloc, terms, constant)?,
        at_most_zero(alloc, &negated, constant.wrapping_neg())?,
    )
}

pub fn both(alloc: Global, f: Formula, g: Formula) -> Result<Formula> {
    let mut members = List::new(alloc);
    members.push(f)?;
    members.push(g)?;
    Ok(Formula::All(members))
}

pub fn either(alloc: Global, f: Formula, g: Formula) -> Result<Formula> {
    let mut members = List::new(alloc);
    members.push(f)?;
    members.push(g)?;
    Ok(Formula::Any(members))
}

/// A system in the making: the members and the variables so far.
#[derive(Drop)]
pub struct Maker {
    alloc: Global,
    members: List<Formula>,
    bounds: List<(i64, i64)>,
}

impl Maker {
    pub fn new(alloc: Global) -> Maker {
        Maker {
            alloc,
            members: List::new(alloc),
            bounds: List::new(alloc),
        }
    }

    /// A new variable within these bounds.
    pub fn var(&mut self, low: i64, high: i64) -> Result<u64> {
        let var = self.bounds.len() as u64;
        self.bounds.push((low, high))?;
        Ok(var)
    }

    /// A new variable of 64 bits.
    pub fn wide(&mut self) -> Result<u64> {
        self.var(i64::MIN, i64::MAX)
    }

    pub fn put(&mut self, member: Formula) -> Result<()> {
        self.members.push(member)?;
        Ok(())
    }

    pub fn at_most_zero(&mut self, terms: &[Term], constant: i64) -> Result<()> {
        self.put(at_most_zero(self.alloc, terms, constant)?)
    }

    pub fn zero(&mut self, terms: &[Term], constant: i64) -> Result<()> {
        self.put(zero(self.alloc, terms, constant)?)
    }

    pub fn system(self) -> System {
        System {
            formula: Formula::All(self.members),
            bounds: Boxed {
                bounds: self.bounds,
            },
        }
    }
}
