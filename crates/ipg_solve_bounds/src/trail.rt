use crate::atoms::Atom;
use crate::domain_end::{DomainEnd, EndSide};
use ipg_lin::Linear;
use ipg_num::item_at;
use std::alloc::{AllocError, Global};

/// Why a bound holds.
#[derive(Clone, Copy)]
pub enum BoundReason<'a> {
    /// The limit that is this fact.
    Limit(usize),
    /// The atom, and the bounds of its other variables before.
    Atom(Atom<'a>),
    /// A guess, from which nothing follows.
    Guess,
}

/// A bound of a variable, and where the bound stands that it replaced.
#[derive(Clone, Copy)]
pub struct BoundChange<'a> {
    pub end: DomainEnd,
    pub at: i64,
    pub reason: BoundReason<'a>,
    /// The latest limit of this end among the facts.
    pub limit: Limit,
    before: Option<usize>,
}

/// A limit among the facts.
#[derive(Clone, Copy)]
pub struct Limit {
    pub fact: usize,
    pub at: i64,
}

/// The places of the latest bounds of a variable.
#[derive(Clone, Copy)]
struct LatestPlaces {
    low: usize,
    high: usize,
}

/// The bounds of the variables, as they were tightened one after the other, each by its place.
#[derive(Drop)]
pub struct BoundTrail<'a> {
    changes: Vec<BoundChange<'a>>,
    latest: Vec<LatestPlaces>,
}

/// Which variables of an atom are bounded by it.
#[derive(Clone, Copy)]
pub enum BoundedTerms {
    /// Those that it takes once: a sum of facts can follow that.
    Once,
    /// All of them, by rounding.
    Every,
}

/// What a fact does to the bounds.
#[derive(Clone, Copy)]
pub enum Effect {
    Same,
    Tighter,
    /// The bounds rule the fact out.
    RuledOut,
}

impl<'a> BoundTrail<'a> {
    /// The bounds of a box, whose facts come first: of each variable its lower and then its upper one.
    pub fn new(alloc: Global, bounds: &[(i64, i64)]) -> Result<BoundTrail<'a>, AllocError> {
        let mut trail = BoundTrail {
            changes: Vec::new(alloc),
            latest: Vec::new(alloc),
        };
        for (var, bound) in bounds.iter().enumerate() {
            let low = trail.start(DomainEnd::low(var), bound.0)?;
            let high = trail.start(DomainEnd::high(var), bound.1)?;
            trail.latest.push(LatestPlaces { low, high })?;
        }
        Ok(trail)
    }

    /// The first bound of an end, whose fact has the number of its place.
    fn start(&mut self, end: DomainEnd, at: i64) -> Result<usize, AllocError> {
        let place = self.changes.len();
        self.changes.push(BoundChange {
            end,
            at,
            reason: BoundReason::Limit(place),
            limit: Limit { fact: place, at },
            before: None,
        })?;
        Ok(place)
    }

    /// How many bounds there are, those that were replaced among them.
    pub fn len(&self) -> usize {
        self.changes.len()
    }

    /// The bound at a place.
    pub fn change(&self, place: usize) -> Option<BoundChange<'a>> {
        match item_at(&self.changes, place) {
            Some(change) => Some(*change),
            None => None,
        }
    }

    /// Where the latest bound of an end stands.
    pub fn last_place(&self, end: DomainEnd) -> Option<usize> {
        let places = item_at(&self.latest, end.var)?;
        Some(match end.side {
            EndSide::Low => places.low,
            EndSide::High => places.high,
        })
    }

    /// The latest bound of an end.
    pub fn latest(&self, end: DomainEnd) -> Option<BoundChange<'a>> {
        self.change(self.last_place(end)?)
    }

    /// Where the end lies.
    pub fn at(&self, end: DomainEnd) -> Option<i64> {
        Some(self.latest(end)?.at)
    }

    /// Where the end's bound stood before the one at `place` was made.
    pub fn place_before(&self, end: DomainEnd, place: usize) -> Option<usize> {
        let mut at = self.last_place(end)?;
        for _ in 0..self.changes.len() {
            if at < place {
                return Some(at);
            }
            at = self.change(at)?.before?;
        }
        None
    }

    fn set_latest(&mut self, end: DomainEnd, place: usize) {
        if let Some(places) = self.latest.get_mut(end.var) {
            match end.side {
                EndSide::Low => places.low = place,
                EndSide::High => places.high = place,
            }
        }
    }

    /// Tightens a bound, if this one is tighter.
    pub fn tighten(
        &mut self,
        end: DomainEnd,
        at: i64,
        reason: BoundReason<'a>,
    ) -> Result<bool, AllocError> {
        let Some(old) = self.latest(end) else {
            return Ok(false);
        };
        let is_tighter = match end.side {
            EndSide::Low => old.at < at,
            EndSide::High => at < old.at,
        };
        if is_tighter {
            self.push(end, at, reason, old.limit)?;
        }
        Ok(is_tighter)
    }

    /// Takes a limit for an end; where the end was bounded more tightly, it still is.
    pub fn take_limit(&mut self, end: DomainEnd, limit: Limit) -> Result<(), AllocError> {
        let Some(old) = self.latest(end) else {
            return Ok(());
        };
        let is_looser = match end.side {
            EndSide::Low => limit.at < old.at,
            EndSide::High => old.at < limit.at,
        };
        if is_looser {
            self.push(end, old.at, old.reason, limit)
        } else {
            self.push(end, limit.at, BoundReason::Limit(limit.fact), limit)
        }
    }

    fn push(
        &mut self,
        end: DomainEnd,
        at: i64,
        reason: BoundReason<'a>,
        limit: Limit,
    ) -> Result<(), AllocError> {
        let before = self.last_place(end);
        let place = self.changes.len();
        self.changes.push(BoundChange {
            end,
            at,
            reason,
            limit,
            before,
        })?;
        self.set_latest(end, place);
        Ok(())
    }

    /// Takes back all bounds but the first `len`.
    pub fn undo(&mut self, len: usize) {
        for _ in len..self.changes.len() {
            if let Some(change) = self.changes.pop() {
                if let Some(before) = change.before {
                    self.set_latest(change.end, before);
                }
            }
        }
    }

    /// The least value of a form within the bounds.
    pub fn least(&self, form: &Linear) -> Option<i128> {
        let mut least = i128::from(form.constant());
        for term in form.terms() {
            let at = self.at(DomainEnd::least(*term))?;
            least = least.wrapping_add(i128::from(term.1).wrapping_mul(i128::from(at)));
        }
        Some(least)
    }

    /// Tightens the bounds of the variables of an atom.
    pub fn narrow(&mut self, atom: Atom<'a>, which: BoundedTerms) -> Result<Effect, AllocError> {
        let Some(least) = self.least(atom.form) else {
            return Ok(Effect::Same);
        };
        if 0 < least {
            return Ok(Effect::RuledOut);
        }
        let mut effect = Effect::Same;
        for term in atom.form.terms() {
            if is_bounded(*term, which) && self.narrow_term(atom, *term, least)? {
                effect = Effect::Tighter;
            }
        }
        Ok(effect)
    }

    fn narrow_term(
        &mut self,
        atom: Atom<'a>,
        term: (u64, i64),
        least: i128,
    ) -> Result<bool, AllocError> {
        match self.rounded(term, least) {
            Some(at) => self.tighten(DomainEnd::greatest(term), at, BoundReason::Atom(atom)),
            None => Ok(false),
        }
    }

    /// Where the variable of a term has its other end, if the form's least value is at most 0: the quotient,
    /// rounded.
    pub fn rounded(&self, term: (u64, i64), least: i128) -> Option<i64> {
        let end = self.at(DomainEnd::least(term))?;
        let most = i128::from(term.1)
            .wrapping_mul(i128::from(end))
            .wrapping_sub(least);
        let size = i128::from(term.1.unsigned_abs());
        if size < 1 {
            return None;
        }
        let quotient = most.div_euclid(size);
        let at = if term.1 < 0 {
            quotient.wrapping_neg()
        } else {
            quotient
        };
        i64::try_from(at).ok()
    }
}

fn is_bounded(term: (u64, i64), which: BoundedTerms) -> bool {
    match which {
        BoundedTerms::Once => term.1.unsigned_abs() <= 1,
        BoundedTerms::Every => true,
    }
}
