//! Values that may solve the formula.
ghost use Rattle.std.specs.Prelude.{◌≤◌, length};
ghost use Rattle.ipg_lin.specs.Formula.{width};

use crate::case_bounds::CaseBounds;
use crate::domain_end::DomainEnd;
use crate::spread::Spread;
use crate::trail::{BoundReason, BoundedTerms};
use ipg_lin::{Boxed, Formula, holds};
use ipg_num::List;
use std::alloc::AllocError;

/// How many atoms are gone over for each that there is, after each value.
const PASSES: usize = 8;

impl<'a> CaseBounds<'a> {
    fn lows(&self) -> Result<List<i64>, AllocError> {
        let mut values = List::new(self.alloc);
        for var in 0..self.vars {
            values.push(self.trail.at(DomainEnd::low(var)).unwrap_or(0))?;
        }
        Ok(values)
    }

    /// The lower ends as values, if they make the formula hold.
    pub fn try_lows(&mut self, f: &Formula, b: &Boxed) -> Result<Option<List<i64>>, AllocError>
        requires { width f.now ≤ length b.now.bounds }
    {
        let values = self.lows()?;
        if values.len() == b.bounds.len() && holds(f, values.as_slice()) {
            Ok(Some(values))
        } else {
            Ok(None)
        }
    }

    /// The values nearest to zero for one variable after the other, if they make the formula hold.
    pub fn try_dive(&mut self, f: &Formula, b: &Boxed) -> Result<Option<List<i64>>, AllocError>
        requires { width f.now ≤ length b.now.bounds }
    {
        let changes = self.trail.len();
        let found = match self.dive()? {
            Spread::Settled => self.try_lows(f, b)?,
            Spread::RuledOut(_) => None,
        };
        self.trail.undo(changes);
        Ok(found)
    }

    /// Guesses a value for each variable, and leaves out what each rules out.
    fn dive(&mut self) -> Result<Spread<'a>, AllocError> {
        let most = self.atoms.len().saturating_mul(PASSES);
        for var in 0..self.vars {
            self.guess(var)?;
            let spread = self.spread(BoundedTerms::Every, most)?;
            self.atoms.settle();
            if let Spread::RuledOut(_) = spread {
                return Ok(spread);
            }
        }
        Ok(Spread::Settled)
    }

    /// Guesses the value nearest to zero.
    fn guess(&mut self, var: usize) -> Result<(), AllocError> {
        let (Some(low), Some(high)) = (
            self.trail.at(DomainEnd::low(var)),
            self.trail.at(DomainEnd::high(var)),
        ) else {
            return Ok(());
        };
        let value = 0i64.max(low).min(high);
        let changes = self.trail.len();
        let _low = self
            .trail
            .tighten(DomainEnd::low(var), value, BoundReason::Guess)?;
        let _high = self
            .trail
            .tighten(DomainEnd::high(var), value, BoundReason::Guess)?;
        self.wake_since(changes)
    }
}
