use crate::waiting_atoms::WaitingAtoms;
use ipg_lin::Linear;
use ipg_num::item_at;
use std::alloc::{AllocError, Global};

/// An atom among the facts.
#[derive(Clone, Copy)]
pub struct Atom<'a> {
    pub fact: usize,
    pub form: &'a Linear,
}

/// The atoms of the case at hand.
#[derive(Drop)]
pub struct Atoms<'a> {
    atoms: Vec<Atom<'a>>,
    /// The places of the atoms that say more than a difference or a bound.
    sums: Vec<usize>,
    /// Of each variable, the places of the atoms that take it.
    takers: Vec<Vec<usize>>,
    /// The places of the atoms by which to tighten.
    waiting: WaitingAtoms,
}

impl<'a> Atoms<'a> {
    /// No atom, over so many variables.
    pub fn new(alloc: Global, vars: usize) -> Result<Atoms<'a>, AllocError> {
        let mut takers = Vec::new(alloc);
        for _ in 0..vars {
            takers.push(Vec::new(alloc))?;
        }
        Ok(Atoms {
            atoms: Vec::new(alloc),
            sums: Vec::new(alloc),
            takers,
            waiting: WaitingAtoms::new(alloc),
        })
    }

    /// The atoms, by their places.
    pub fn all(&self) -> &[Atom<'a>] {
        self.atoms.as_slice()
    }

    /// How many atoms there are.
    pub fn len(&self) -> usize {
        self.atoms.len()
    }

    /// The places of those that say more than a difference or a bound.
    pub fn sums(&self) -> &[usize] {
        self.sums.as_slice()
    }

    /// The atom at a place.
    pub fn at(&self, place: usize) -> Option<Atom<'a>> {
        match item_at(&self.atoms, place) {
            Some(atom) => Some(*atom),
            None => None,
        }
    }

    /// Puts an atom behind the others, and has it wait.
    pub fn put(&mut self, atom: Atom<'a>) -> Result<(), AllocError> {
        let place = self.atoms.len();
        for term in atom.form.terms() {
            if let Some(takers) = self.takers.get_mut(term.0 as usize) {
                takers.push(place)?;
            }
        }
        if is_sum(atom.form) {
            self.sums.push(place)?;
        }
        self.atoms.push(atom)?;
        self.waiting.put(place)
    }

    /// Takes back the atoms that are none of the first `kept` facts.
    pub fn truncate(&mut self, kept: usize) {
        for _ in 0..self.atoms.len() {
            match self.atoms.pop_if(|atom| kept <= atom.fact) {
                Some(atom) => self.drop_takers(atom.form),
                None => break,
            }
        }
        let atoms = self.atoms.len();
        for _ in 0..self.sums.len() {
            let _last = self.sums.pop_if(|place| atoms <= *place);
        }
    }

    fn drop_takers(&mut self, form: &Linear) {
        for term in form.terms() {
            if let Some(takers) = self.takers.get_mut(term.0 as usize) {
                let _last = takers.pop();
            }
        }
    }

    /// Has the atoms that take the variable wait.
    pub fn wake(&mut self, var: usize) -> Result<(), AllocError> {
        if let Some(takers) = self.takers.get(var) {
            for place in takers.iter() {
                self.waiting.put(*place)?;
            }
        }
        Ok(())
    }

    /// The next atom that waits.
    pub fn next_waiting(&mut self) -> Option<Atom<'a>> {
        let place = self.waiting.take()?;
        self.at(place)
    }

    /// Whether an atom waits.
    pub fn has_waiting(&self) -> bool {
        !self.waiting.is_empty()
    }

    /// Has no atom wait.
    pub fn settle(&mut self) {
        self.waiting.clear();
    }
}

/// Whether the form is more than a difference of two variables or one variable.
fn is_sum(form: &Linear) -> bool {
    let terms = form.terms();
    2 < terms.len() || terms.iter().any(|term| 1 < term.1.unsigned_abs())
}
