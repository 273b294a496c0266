//! Farkas sums: facts that rule an atom out, from the latest bound back.
use crate::atoms::Atom;
use crate::case_bounds::CaseBounds;
use crate::domain_end::{DomainEnd, EndSide};
use crate::parting::Parting;
use crate::trail::{BoundChange, BoundReason, BoundTrail};
use ipg_lin::Linear;
use ipg_lin::sum::LARGEST;
use ipg_num::item_at;
use std::alloc::{AllocError, Global};

/// Why an atom is ruled out.
#[derive(Drop)]
pub enum Explained {
    /// The entries of a Combine.
    Sum(Vec<(u64, u64)>),
    /// A weight would pass its limit. Where the box is cut here, the sums on both sides are shorter.
    TooHeavy(Option<Parting>),
}

/// How often the bound at a place is still wanted in a sum.
#[derive(Clone, Copy)]
struct Want {
    place: usize,
    weight: u64,
}

/// A sum of facts in the making.
#[derive(Drop)]
struct FarkasSum {
    entries: Vec<(u64, u64)>,
    /// What is wanted, the latest bound last.
    wanted: Vec<Want>,
    is_heavy: bool,
}

impl FarkasSum {
    fn new(alloc: Global) -> FarkasSum {
        FarkasSum {
            entries: Vec::new(alloc),
            wanted: Vec::new(alloc),
            is_heavy: false,
        }
    }

    fn want(&mut self, place: usize, weight: u64) -> Result<(), AllocError> {
        let slot = self.wanted.partition_point(|want| want.place < place);
        let weight = match self.wanted.get_mut(slot) {
            Some(want) if want.place == place => {
                want.weight = want.weight.saturating_add(weight);
                want.weight
            }
            _ => {
                self.wanted.insert(slot, Want { place, weight })?;
                weight
            }
        };
        if LARGEST < weight {
            self.is_heavy = true;
        }
        Ok(())
    }

    fn put(&mut self, weight: u64, fact: usize) -> Result<(), AllocError> {
        self.entries.push((weight, fact as u64))?;
        Ok(())
    }

    /// Adds an atom, and wants the ends of its variables but two, as they were before the bound at `before`.
    fn add_atom(
        &mut self,
        trail: &BoundTrail,
        atom: Atom,
        weight: u64,
        before: usize,
        but: [Option<usize>; 2],
    ) -> Result<(), AllocError> {
        self.put(weight, atom.fact)?;
        for term in atom.form.terms() {
            let end = DomainEnd::least(*term);
            if is_var(but[0], end.var) || is_var(but[1], end.var) {
                continue;
            }
            match trail.place_before(end, before) {
                Some(place) => self.want(place, weight.saturating_mul(term.1.unsigned_abs()))?,
                None => self.is_heavy = true,
            }
        }
        Ok(())
    }

    /// Adds the fact of each bound that is wanted, the latest first.
    fn finish(mut self, trail: &BoundTrail) -> Result<Explained, AllocError> {
        let mut last = None;
        for _ in 0..trail.len() {
            if self.is_heavy {
                return Ok(Explained::TooHeavy(parting_at(trail, last)));
            }
            let Some(want) = self.wanted.pop() else {
                return Ok(Explained::Sum(self.entries));
            };
            if let Some(change) = trail.change(want.place) {
                last = Some(change);
                self.add_change(trail, want, change)?;
            }
        }
        Ok(Explained::TooHeavy(None))
    }

    fn add_change(
        &mut self,
        trail: &BoundTrail,
        want: Want,
        change: BoundChange,
    ) -> Result<(), AllocError> {
        match change.reason {
            BoundReason::Limit(fact) => self.put(want.weight, fact),
            BoundReason::Atom(atom) => {
                let but = [Some(change.end.var), None];
                self.add_atom(trail, atom, want.weight, want.place, but)
            }
            BoundReason::Guess => {
                self.is_heavy = true;
                Ok(())
            }
        }
    }
}

fn is_var(but: Option<usize>, var: usize) -> bool {
    match but {
        Some(other) => other == var,
        None => false,
    }
}

/// The cut at a bound, where its limits leave both sides a value.
fn parting_at(trail: &BoundTrail, change: Option<BoundChange>) -> Option<Parting> {
    let change = change?;
    let var = change.end.var;
    let low = trail.latest(DomainEnd::low(var))?.limit.at;
    let high = trail.latest(DomainEnd::high(var))?.limit.at;
    let at = match change.end.side {
        EndSide::Low => change.at.checked_sub(1)?,
        EndSide::High => change.at,
    };
    if low <= at && at < high {
        Some(Parting { var, at })
    } else {
        None
    }
}

/// The least value of a form within the limits alone.
fn least_within_limits(trail: &BoundTrail, form: &Linear) -> Option<i128> {
    let mut least = i128::from(form.constant());
    for term in form.terms() {
        let at = trail.latest(DomainEnd::least(*term))?.limit.at;
        least = least.wrapping_add(i128::from(term.1).wrapping_mul(i128::from(at)));
    }
    Some(least)
}

/// The Combine of an atom that the limits alone rule out, if they do.
fn sum_of_limits(
    alloc: Global,
    trail: &BoundTrail,
    atom: Atom,
) -> Result<Option<Vec<(u64, u64)>>, AllocError> {
    match least_within_limits(trail, atom.form) {
        Some(least) if 0 < least => {}
        _ => return Ok(None),
    }
    let mut entries = Vec::new(alloc);
    entries.push((1, atom.fact as u64))?;
    for term in atom.form.terms() {
        if let Some(change) = trail.latest(DomainEnd::least(*term)) {
            entries.push((term.1.unsigned_abs(), change.limit.fact as u64))?;
        }
    }
    Ok(Some(entries))
}

/// Where the bound stands that the bound at `place` rests on: the latest among the ends of its atom's other
/// variables.
fn parent(trail: &BoundTrail, place: usize) -> Option<usize> {
    let change = trail.change(place)?;
    let BoundReason::Atom(atom) = change.reason else {
        return None;
    };
    let mut latest = None;
    for term in atom.form.terms() {
        let end = DomainEnd::least(*term);
        if end.var != change.end.var {
            latest = latest.max(trail.place_before(end, place));
        }
    }
    latest
}

/// Where a walk was last at each end of a variable.
#[derive(Clone, Copy)]
struct LastVisit {
    low: Option<usize>,
    high: Option<usize>,
}

impl LastVisit {
    fn replace(&mut self, side: EndSide, place: usize) -> Option<usize> {
        match side {
            EndSide::Low => self.low.replace(place),
            EndSide::High => self.high.replace(place),
        }
    }
}

const NOT_YET: LastVisit = LastVisit {
    low: None,
    high: None,
};

/// The places of a round of atoms: each bound rests on the next, and the last on one that the first tightens.
fn round_of(
    alloc: Global,
    trail: &BoundTrail,
    from: usize,
    vars: usize,
) -> Result<Option<Vec<usize>>, AllocError> {
    let mut path: Vec<usize> = Vec::new(alloc);
    let mut visits = vec![in alloc; NOT_YET; vars]?;
    let mut next = Some(from);
    for step in 0..trail.len() {
        let Some(place) = next else {
            return Ok(None);
        };
        let Some(change) = trail.change(place) else {
            return Ok(None);
        };
        let Some(visit) = visits.get_mut(change.end.var) else {
            return Ok(None);
        };
        if let Some(seen) = visit.replace(change.end.side, step) {
            return Ok(Some(path.iter().skip(seen).copied().collect(alloc)?));
        }
        path.push(place)?;
        next = parent(trail, place);
    }
    Ok(None)
}

/// The sum of the atoms of a round, and of the bounds of their other variables.
fn sum_of_round(
    alloc: Global,
    trail: &BoundTrail,
    round: &[usize],
) -> Result<Option<Explained>, AllocError> {
    let mut sum = FarkasSum::new(alloc);
    let behind = round.iter().skip(1).chain(round.iter().take(1));
    for (place, next) in round.iter().zip(behind) {
        let (Some(change), Some(next)) = (trail.change(*place), trail.change(*next)) else {
            return Ok(None);
        };
        let BoundReason::Atom(atom) = change.reason else {
            return Ok(None);
        };
        let but = [Some(change.end.var), Some(next.end.var)];
        sum.add_atom(trail, atom, 1, *place, but)?;
    }
    Ok(Some(sum.finish(trail)?))
}

/// The places of the bounds that a bound rests on, one after the other, its own first.
fn chain_of(alloc: Global, trail: &BoundTrail, from: usize) -> Result<Vec<usize>, AllocError> {
    let mut chain = Vec::new(alloc);
    let mut next = Some(from);
    for _ in 0..trail.len() {
        let Some(place) = next else {
            return Ok(chain);
        };
        chain.push(place)?;
        next = parent(trail, place);
    }
    Ok(chain)
}

/// How much of two chains comes before they first meet in a variable.
#[derive(Clone, Copy)]
struct Meeting {
    low: usize,
    high: usize,
}

fn meet(
    alloc: Global,
    trail: &BoundTrail,
    low: &[usize],
    high: &[usize],
    vars: usize,
) -> Result<Option<Meeting>, AllocError> {
    let mut places: Vec<Option<usize>> = vec![in alloc; None; vars]?;
    for (place, at) in low.iter().enumerate() {
        if let Some(change) = trail.change(*at) {
            if let Some(slot) = places.get_mut(change.end.var) {
                if slot.is_none() {
                    *slot = Some(place);
                }
            }
        }
    }
    for (place, at) in high.iter().enumerate() {
        if let Some(change) = trail.change(*at) {
            if let Some(Some(low)) = item_at(&places, change.end.var) {
                return Ok(Some(Meeting {
                    low: *low,
                    high: place,
                }));
            }
        }
    }
    Ok(None)
}

/// Puts the facts of the first bounds of a chain behind the entries, each once.
fn put_facts(
    entries: &mut Vec<(u64, u64)>,
    trail: &BoundTrail,
    chain: &[usize],
    count: usize,
) -> Result<(), AllocError> {
    for place in chain.iter().take(count) {
        if let Some(change) = trail.change(*place) {
            match change.reason {
                BoundReason::Limit(fact) => entries.push((1, fact as u64))?,
                BoundReason::Atom(atom) => entries.push((1, atom.fact as u64))?,
                BoundReason::Guess => {}
            }
        }
    }
    Ok(())
}

/// The places of the two bounds that a ruled out difference rests on: of the variable taken once, and of the
/// other.
fn ends_of(trail: &BoundTrail, form: &Linear) -> Option<(usize, usize)> {
    let (plus, minus) = match form.terms() {
        [(x, 1), (y, -1)] => (*x, *y),
        [(y, -1), (x, 1)] => (*x, *y),
        _ => return None,
    };
    let low = trail.last_place(DomainEnd::low(plus as usize))?;
    let high = trail.last_place(DomainEnd::high(minus as usize))?;
    Some((low, high))
}

impl<'a> CaseBounds<'a> {
    /// The Combine of an atom that the bounds rule out.
    pub fn explain(&self, atom: Atom<'a>) -> Result<Explained, AllocError> {
        let mut sum = FarkasSum::new(self.alloc);
        sum.add_atom(&self.trail, atom, 1, self.trail.len(), [None, None])?;
        sum.finish(&self.trail)
    }

    /// The Combine of the first atom that the limits alone rule out, if they rule one out.
    pub fn explain_by_limits(&self) -> Result<Option<Vec<(u64, u64)>>, AllocError> {
        for atom in self.atoms.all() {
            let found = sum_of_limits(self.alloc, &self.trail, *atom)?;
            if found.is_some() {
                return Ok(found);
            }
        }
        Ok(None)
    }

    /// The sum of a round of atoms that tightens a bound by itself, if the latest bound rests on one.
    pub fn explain_round(&self) -> Result<Option<Explained>, AllocError> {
        let Some(last) = self.trail.len().checked_sub(1) else {
            return Ok(None);
        };
        match round_of(self.alloc, &self.trail, last, self.vars)? {
            Some(round) => sum_of_round(self.alloc, &self.trail, &round),
            None => Ok(None),
        }
    }

    /// The entries of a round of differences that a ruled out one closes before a bound is reached.
    pub fn explain_meeting(&self, atom: Atom<'a>) -> Result<Option<Vec<(u64, u64)>>, AllocError> {
        let Some((low, high)) = ends_of(&self.trail, atom.form) else {
            return Ok(None);
        };
        let low = chain_of(self.alloc, &self.trail, low)?;
        let high = chain_of(self.alloc, &self.trail, high)?;
        let Some(meeting) = meet(self.alloc, &self.trail, &low, &high, self.vars)? else {
            return Ok(None);
        };
        let mut entries = Vec::new(self.alloc);
        entries.push((1, atom.fact as u64))?;
        put_facts(&mut entries, &self.trail, &low, meeting.low)?;
        put_facts(&mut entries, &self.trail, &high, meeting.high)?;
        Ok(Some(entries))
    }
}
