use crate::case_bounds::CaseBounds;
use crate::domain_end::{DomainEnd, EndSide};
use crate::fact_sum::{FactSum, cancelled};
use crate::trail::BoundTrail;
use std::alloc::{AllocError, Global};

/// How many sums more there may be than at the start.
const MORE_SUMS: usize = 300;

/// How many pairs of sums may be added up for one variable.
const MOST_PAIRS: usize = 1 << 13;

/// How many sums are looked at in all.
const MOST_WORK: usize = 1 << 22;

/// Sums of facts, of which no two take the same variables the same times.
#[derive(Drop)]
struct FactSums {
    all: Vec<FactSum>,
}

/// How many sums take a variable more than 0 times, and how many less.
#[derive(Clone, Copy)]
struct Takers {
    above: usize,
    below: usize,
}

impl Takers {
    fn add(&mut self, coefficient: i64) {
        if coefficient < 0 {
            self.below = self.below.saturating_add(1);
        } else {
            self.above = self.above.saturating_add(1);
        }
    }

    fn pairs(self) -> Option<usize> {
        if self.above == 0 && self.below == 0 {
            None
        } else {
            Some(self.above.saturating_mul(self.below))
        }
    }
}

/// A variable whose elimination takes so many pairs of sums.
#[derive(Clone, Copy)]
struct Elimination {
    var: u64,
    pairs: usize,
}

impl FactSums {
    /// The atoms, and the limits of the variables that they take.
    fn of_bounds(bounds: &CaseBounds) -> Result<FactSums, AllocError> {
        let alloc = bounds.alloc;
        let mut sums = FactSums {
            all: Vec::new(alloc),
        };
        let mut is_taken = vec![in alloc; false; bounds.vars]?;
        for atom in bounds.atoms.all() {
            let form = atom.form;
            let constant = i128::from(form.constant());
            sums.put(FactSum::of_fact(alloc, form.terms(), constant, atom.fact)?)?;
            for term in form.terms() {
                if let Some(slot) = is_taken.get_mut(term.0 as usize) {
                    *slot = true;
                }
            }
        }
        for (var, is_taken) in is_taken.iter().enumerate() {
            if *is_taken {
                sums.put_limit(alloc, &bounds.trail, DomainEnd::low(var))?;
                sums.put_limit(alloc, &bounds.trail, DomainEnd::high(var))?;
            }
        }
        Ok(sums)
    }

    /// Puts the limit of an end, unless it is an end of 64 bits.
    fn put_limit(
        &mut self,
        alloc: Global,
        trail: &BoundTrail,
        end: DomainEnd,
    ) -> Result<(), AllocError> {
        let Some(change) = trail.latest(end) else {
            return Ok(());
        };
        let limit = change.limit;
        if limit.at == i64::MIN || limit.at == i64::MAX {
            return Ok(());
        }
        let at = i128::from(limit.at);
        let (sign, constant) = match end.side {
            EndSide::Low => (-1, at),
            EndSide::High => (1, at.wrapping_neg()),
        };
        let terms = [(end.var as u64, sign)];
        self.put(FactSum::of_fact(alloc, &terms, constant, limit.fact)?)
    }

    fn put(&mut self, sum: FactSum) -> Result<(), AllocError> {
        let found = self
            .all
            .iter_mut()
            .find(|other| other.terms.as_slice() == sum.terms.as_slice());
        match found {
            Some(other) => {
                if other.constant < sum.constant {
                    *other = sum;
                }
                Ok(())
            }
            None => Ok(self.all.push(sum)?),
        }
    }

    /// The variable whose elimination takes the fewest pairs of sums.
    fn cheapest(&self, alloc: Global, vars: usize) -> Result<Option<Elimination>, AllocError> {
        let none = Takers { above: 0, below: 0 };
        let mut takers = vec![in alloc; none; vars]?;
        for sum in self.all.iter() {
            for term in sum.terms.iter() {
                if let Some(slot) = takers.get_mut(term.0 as usize) {
                    slot.add(term.1);
                }
            }
        }
        let mut best: Option<Elimination> = None;
        for (var, takers) in takers.iter().enumerate() {
            if let Some(pairs) = takers.pairs() {
                let is_better = match best {
                    Some(found) => pairs < found.pairs,
                    None => true,
                };
                if is_better {
                    best = Some(Elimination {
                        var: var as u64,
                        pairs,
                    });
                }
            }
        }
        Ok(best)
    }

    /// Puts sums in which the variable cancels in the place of the sums that take it. Sums of more than
    /// `most` facts say nothing more.
    fn eliminate(self, alloc: Global, var: u64, most: usize) -> Result<FactSums, AllocError> {
        let mut left = FactSums {
            all: Vec::new(alloc),
        };
        let mut above = Vec::new(alloc);
        let mut below = Vec::new(alloc);
        for sum in self.all {
            let coefficient = sum.coefficient(var);
            if coefficient == 0 {
                left.all.push(sum)?;
            } else if 0 < coefficient {
                above.push(sum)?;
            } else {
                below.push(sum)?;
            }
        }
        match equation(&above, &below) {
            Some((up, down)) => {
                let (Some(up), Some(down)) = (above.get(up), below.get(down)) else {
                    return Ok(left);
                };
                left.put_sums(alloc, &above, std::slice::from_ref(down), var, None)?;
                left.put_sums(alloc, std::slice::from_ref(up), &below, var, None)?;
            }
            None => left.put_sums(alloc, &above, &below, var, Some(most))?,
        }
        Ok(left)
    }

    fn put_sums(
        &mut self,
        alloc: Global,
        above: &[FactSum],
        below: &[FactSum],
        var: u64,
        most: Option<usize>,
    ) -> Result<(), AllocError> {
        for up in above {
            for down in below {
                if let Some(sum) = cancelled(alloc, up, down, var)? {
                    if most.is_none_or(|most| sum.weights.len() <= most) {
                        self.put(sum)?;
                    }
                }
            }
        }
        Ok(())
    }
}

/// Two sums that say the opposite of each other.
fn equation(above: &[FactSum], below: &[FactSum]) -> Option<(usize, usize)> {
    for (up, sum) in above.iter().enumerate() {
        for (down, other) in below.iter().enumerate() {
            if sum.is_opposite(other) {
                return Some((up, down));
            }
        }
    }
    None
}

impl<'a> CaseBounds<'a> {
    /// A sum of the facts without a variable and with a constant above 0: Fourier and Motzkin's elimination of
    /// one variable after the other, as long as the sums stay few.
    pub fn eliminate(&self) -> Result<Option<Vec<(u64, u64)>>, AllocError> {
        if self.atoms.sums().is_empty() {
            return Ok(None);
        }
        let mut sums = FactSums::of_bounds(self)?;
        let most = sums.all.len().saturating_add(MORE_SUMS);
        let mut work = 0usize;
        for gone in 0..=self.vars {
            if let Some(sum) = sums.all.iter().find(|sum| sum.is_absurd()) {
                return Ok(Some(sum.entries(self.alloc)?));
            }
            let Some(next) = sums.cheapest(self.alloc, self.vars)? else {
                return Ok(None);
            };
            work = work.saturating_add(sums.all.len());
            if MOST_PAIRS < next.pairs || most < sums.all.len() || MOST_WORK < work {
                return Ok(None);
            }
            sums = sums.eliminate(self.alloc, next.var, gone.saturating_add(2))?;
        }
        Ok(None)
    }
}
