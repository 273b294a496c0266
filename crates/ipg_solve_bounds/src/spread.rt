//! Bounds are tightened along the atoms: Bellman and Ford's shortest walks, with parents.
use crate::atoms::Atom;
use crate::case_bounds::CaseBounds;
use crate::trail::{BoundedTerms, Effect};
use std::alloc::AllocError;

/// What tightening by all atoms that wait comes to.
#[derive(Clone, Copy)]
pub enum Spread<'a> {
    Settled,
    RuledOut(Atom<'a>),
}

impl<'a> CaseBounds<'a> {
    /// Tightens by an atom, and has those wait that take a variable which it bounds.
    fn tighten_by(&mut self, atom: Atom<'a>, which: BoundedTerms) -> Result<Effect, AllocError> {
        let changes = self.trail.len();
        let effect = self.trail.narrow(atom, which)?;
        self.wake_since(changes)?;
        Ok(effect)
    }

    /// Has the atoms wait that take a variable bounded since there were so many changes.
    pub fn wake_since(&mut self, changes: usize) -> Result<(), AllocError> {
        for place in changes..self.trail.len() {
            if let Some(change) = self.trail.change(place) {
                self.atoms.wake(change.end.var)?;
            }
        }
        Ok(())
    }

    /// Tightens by the atoms that wait, but no more than so many.
    pub fn spread(&mut self, which: BoundedTerms, most: usize) -> Result<Spread<'a>, AllocError> {
        for _ in 0..most {
            let Some(atom) = self.atoms.next_waiting() else {
                return Ok(Spread::Settled);
            };
            if let Effect::RuledOut = self.tighten_by(atom, which)? {
                self.atoms.settle();
                return Ok(Spread::RuledOut(atom));
            }
        }
        Ok(Spread::Settled)
    }
}
