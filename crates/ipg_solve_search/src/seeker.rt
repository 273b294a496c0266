use crate::case_facts::{CaseFacts, LastLook};
use crate::patience::LongCase;
use crate::steps::{StepPlace, Steps};
use ipg_cert::{FactRef, Step, root_facts};
use ipg_lin::{Boxed, Formula};
use ipg_num::List;
use ipg_solve_bounds::{Atom, CaseBounds, Parting};
use std::alloc::{AllocError, Global};

/// The cases that a step opens.
#[derive(Clone, Copy)]
pub enum Cases<'a> {
    /// Each member of an Any, which has this place among the Anys.
    Members(&'a [Formula], usize),
    /// Below a cut, and above it.
    Parts(Parting),
}

/// A step that opened cases, of which one is at hand.
#[derive(Clone, Copy)]
pub struct Branching<'a> {
    pub cases: Cases<'a>,
    /// How many cases were taken.
    pub taken: usize,
    /// What there was before: so many facts, bounds and looks.
    pub facts: usize,
    pub bounds: usize,
    pub looks: usize,
    /// How many cuts come right before.
    pub cuts: usize,
    /// Where its step stands, and where the steps of the case at hand begin.
    pub step: StepPlace,
    pub case: StepPlace,
    /// How many facts the case at hand added, and how often its steps name one of them.
    pub own: usize,
    pub named: usize,
}

/// A look at an Any, before which it was as told.
#[derive(Clone, Copy)]
pub struct Looked {
    pub choice: usize,
    pub before: Option<LastLook>,
}

/// A search for a solution or a refutation.
#[derive(Drop)]
pub struct Seeker<'a> {
    pub alloc: Global,
    pub facts: CaseFacts<'a>,
    pub bounds: CaseBounds<'a>,
    pub looks: Vec<Looked>,
    pub branchings: Vec<Branching<'a>>,
    pub steps: Steps,
    /// A case that may be too long to refute.
    pub long: Option<LongCase>,
}

/// What became of the case at hand.
#[derive(Clone, Copy)]
pub enum CaseState {
    Open,
    /// A step refutes it.
    Closed,
    /// It is ruled out, but a weight would pass its limit.
    TooHeavy(Option<Parting>),
}

impl<'a> Seeker<'a> {
    pub fn new(alloc: Global, f: &'a Formula, b: &Boxed) -> Result<Seeker<'a>, AllocError> {
        let mut seeker = Seeker {
            alloc,
            facts: CaseFacts::new(alloc, root_facts(alloc, f, b)?),
            bounds: CaseBounds::new(alloc, b)?,
            looks: Vec::new(alloc),
            branchings: Vec::new(alloc),
            steps: Steps::new(alloc),
            long: None,
        };
        seeker.enlist(0)?;
        Ok(seeker)
    }

    /// Enlists the facts that are new, and puts the atoms among them by the bounds.
    pub fn enlist(&mut self, depth: usize) -> Result<(), AllocError> {
        for _ in 0..self.facts.len() {
            let Some((fact, what)) = self.facts.enlist(depth)? else {
                return Ok(());
            };
            if let FactRef::Atom(form) = what {
                self.bounds.atoms.put(Atom { fact, form })?;
            }
        }
        Ok(())
    }

    /// Closes the case at hand by a Combine.
    pub fn close(&mut self, entries: Vec<(u64, u64)>) -> Result<CaseState, AllocError> {
        for entry in entries.iter() {
            self.name(entry.1 as usize);
        }
        self.steps.push(&Step::Combine(List::from_vec(entries)))?;
        Ok(CaseState::Closed)
    }

    /// Counts that a step names the fact.
    pub fn name(&mut self, fact: usize) {
        if let Some(branching) = self.owner(fact) {
            branching.named = branching.named.saturating_add(1);
        }
    }

    /// Counts that a step no longer names the fact.
    pub fn unname(&mut self, fact: usize) {
        if let Some(branching) = self.owner(fact) {
            branching.named = branching.named.saturating_sub(1);
        }
    }

    /// The branching whose case added the fact.
    fn owner(&mut self, fact: usize) -> Option<&mut Branching<'a>> {
        let depth = self.facts.depth(fact)?;
        self.branchings.get_mut(depth.checked_sub(1)?)
    }
}
