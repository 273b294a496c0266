//! Cases are opened, and where one is refuted the search goes on to the next, or jumps back over cases that
//! played no part.
use crate::gone::Gone;
use crate::parting::{above, below};
use crate::seeker::{Branching, Cases, Seeker};
use crate::steps::StepPlace;
use ipg_cert::{FactRef, Step};
use ipg_lin::Formula;
use ipg_num::item_at;
use ipg_solve_bounds::{DomainEnd, Limit, Parting};
use std::alloc::AllocError;

/// Whether a case is at hand.
#[derive(Clone, Copy)]
pub enum CaseAtHand {
    Case,
    /// All are refuted.
    Done,
}

/// What a case adds to the facts.
#[derive(Clone, Copy)]
enum CaseFact<'a> {
    Member(&'a Formula),
    Below(Parting),
    Above(Parting),
}

impl<'a> Branching<'a> {
    /// The next case, if one is left.
    fn next(&self) -> Option<CaseFact<'a>> {
        match self.cases {
            Cases::Members(members, _) => match item_at(members, self.taken) {
                Some(member) => Some(CaseFact::Member(member)),
                None => None,
            },
            Cases::Parts(parting) => match self.taken {
                0 => Some(CaseFact::Below(parting)),
                1 => Some(CaseFact::Above(parting)),
                _ => None,
            },
        }
    }
}

impl<'a> Seeker<'a> {
    /// Opens the cases of an Any, the first of them at hand.
    pub fn open_members(&mut self, choice: usize) -> Result<CaseAtHand, AllocError> {
        let Some(what) = self.facts.choices.get_mut(choice) else {
            return Ok(CaseAtHand::Done);
        };
        what.is_open = true;
        let (fact, members) = (what.fact, what.members);
        let step = self.steps.here();
        self.name(fact);
        self.steps.push(&Step::Either {
            fact: fact as u64,
            parts: members.len() as u64,
        })?;
        self.open(Cases::Members(members, choice), step, 0)
    }

    /// Cuts the box, the part below at hand.
    pub fn open_parts(&mut self, parting: Parting) -> Result<CaseAtHand, AllocError> {
        let cuts = self.cuts().saturating_add(1);
        let step = self.steps.here();
        self.steps.push(&Step::Split {
            var: parting.var as u64,
            at: parting.at,
        })?;
        self.open(Cases::Parts(parting), step, cuts)
    }

    /// How many cuts come right before the case at hand.
    pub fn cuts(&self) -> usize {
        match self.branchings.last() {
            Some(branching) => branching.cuts,
            None => 0,
        }
    }

    fn open(
        &mut self,
        cases: Cases<'a>,
        step: StepPlace,
        cuts: usize,
    ) -> Result<CaseAtHand, AllocError> {
        let case = self.steps.here();
        self.branchings.push(Branching {
            cases,
            taken: 0,
            facts: self.facts.len(),
            bounds: self.bounds.trail.len(),
            looks: self.looks.len(),
            cuts,
            step,
            case,
            own: 0,
            named: 0,
        })?;
        self.go_on()
    }

    /// Goes on to the next case after one was refuted.
    pub fn go_on(&mut self) -> Result<CaseAtHand, AllocError> {
        for _ in 0..self.branchings.len() {
            let Some(branching) = self.branchings.last() else {
                return Ok(CaseAtHand::Done);
            };
            let branching = *branching;
            let is_named = branching.taken == 0 || 0 < branching.named;
            match branching.next() {
                Some(added) if is_named => {
                    self.enter(branching, added)?;
                    return Ok(CaseAtHand::Case);
                }
                _ => self.close_branching(branching, is_named)?,
            }
        }
        Ok(CaseAtHand::Done)
    }

    /// Leaves a branching whose cases are refuted. Where the steps of its last case name none of the case's
    /// own facts, they refute what was there before, and nothing else of the branching is kept.
    fn close_branching(
        &mut self,
        branching: Branching<'a>,
        is_named: bool,
    ) -> Result<(), AllocError> {
        let _last = self.branchings.pop();
        if let Cases::Members(_, choice) = branching.cases {
            if let Some(what) = self.facts.choices.get_mut(choice) {
                what.is_open = false;
            }
        }
        if is_named {
            return Ok(());
        }
        for fact in self.steps.named(branching.step, branching.case)? {
            if (fact as usize) < branching.facts {
                self.unname(fact as usize);
            }
        }
        self.steps.cut_out(
            branching.step,
            branching.case,
            Gone {
                kept: branching.facts,
                count: branching.own,
            },
        )
    }

    /// Brings a case to hand.
    fn enter(&mut self, branching: Branching<'a>, added: CaseFact<'a>) -> Result<(), AllocError> {
        self.forget(branching.looks);
        self.facts.truncate(branching.facts);
        self.bounds.atoms.truncate(branching.facts);
        self.bounds.trail.undo(branching.bounds);
        let depth = self.branchings.len();
        match added {
            CaseFact::Member(member) => self.facts.add(member)?,
            CaseFact::Below(parting) => {
                let fact = self.facts.add_limit(FactRef::Limit(below(parting)))?;
                self.bound(DomainEnd::high(parting.var), parting.at, fact)?;
            }
            CaseFact::Above(parting) => {
                let fact = self.facts.add_limit(FactRef::Limit(above(parting)))?;
                self.bound(
                    DomainEnd::low(parting.var),
                    parting.at.saturating_add(1),
                    fact,
                )?;
            }
        }
        self.enlist(depth)?;
        let own = self.facts.len().saturating_sub(branching.facts);
        let case = self.steps.here();
        if let Some(slot) = self.branchings.last_mut() {
            slot.taken = branching.taken.saturating_add(1);
            slot.case = case;
            slot.own = own;
            slot.named = 0;
        }
        Ok(())
    }

    fn bound(&mut self, end: DomainEnd, at: i64, fact: usize) -> Result<(), AllocError> {
        self.bounds.trail.take_limit(end, Limit { fact, at })?;
        self.bounds.atoms.wake(end.var)
    }
}
