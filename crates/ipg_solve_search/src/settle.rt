//! Bounds are tightened until a case is closed or nothing more follows.
use crate::seeker::{CaseState, Seeker};
use ipg_cert::combines;
use ipg_solve_bounds::{Atom, BoundedTerms, Explained, Parting, Spread};
use std::alloc::AllocError;

/// How many atoms are gone over, for each that there is, before a round of atoms is first looked for.
const FIRST_ROUNDS: usize = 4;

/// How many atoms are gone over at most, for each that there is, beside two for each variable.
const MORE_PASSES: usize = 64;

impl<'a> Seeker<'a> {
    /// Tightens until no atom waits, and closes the case if an atom is ruled out or a round of atoms
    /// tightens without end.
    pub fn settle(&mut self) -> Result<CaseState, AllocError> {
        let atoms = self.bounds.atoms.len();
        let passes = self
            .bounds
            .vars
            .saturating_mul(2)
            .saturating_add(MORE_PASSES);
        let mut left = atoms.saturating_mul(passes);
        let mut wait = atoms.saturating_mul(FIRST_ROUNDS).saturating_add(1);
        for _ in 0..usize::BITS {
            let most = wait.min(left);
            if let Spread::RuledOut(atom) = self.bounds.spread(BoundedTerms::Once, most)? {
                return self.close_by(atom);
            }
            left = left.saturating_sub(most);
            if left == 0 || !self.bounds.atoms.has_waiting() {
                break;
            }
            if let CaseState::Closed = self.close_by_round()? {
                self.bounds.atoms.settle();
                return Ok(CaseState::Closed);
            }
            wait = wait.saturating_mul(2);
        }
        self.bounds.atoms.settle();
        Ok(CaseState::Open)
    }

    /// Closes the case by an atom that the bounds rule out.
    fn close_by(&mut self, atom: Atom<'a>) -> Result<CaseState, AllocError> {
        if let Some(entries) = self.bounds.explain_meeting(atom)? {
            if combines(self.alloc, &entries, self.facts.known())? {
                return self.close(entries);
            }
        }
        match self.bounds.explain(atom)? {
            Explained::Sum(entries) => self.close(entries),
            Explained::TooHeavy(parting) => self.close_by_limits(parting),
        }
    }

    /// Closes the case by an atom that the limits alone rule out, or says where to cut.
    fn close_by_limits(&mut self, parting: Option<Parting>) -> Result<CaseState, AllocError> {
        match self.bounds.explain_by_limits()? {
            Some(entries) => self.close(entries),
            None => Ok(CaseState::TooHeavy(parting)),
        }
    }

    fn close_by_round(&mut self) -> Result<CaseState, AllocError> {
        match self.bounds.explain_round()? {
            Some(Explained::Sum(entries)) => {
                if combines(self.alloc, &entries, self.facts.known())? {
                    self.close(entries)
                } else {
                    Ok(CaseState::Open)
                }
            }
            _ => Ok(CaseState::Open),
        }
    }
}
