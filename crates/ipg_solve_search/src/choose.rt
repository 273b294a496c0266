//! Which Any is opened next.
use crate::case_facts::{Choice, LastLook};
use crate::seeker::{Looked, Seeker};
use ipg_cert::{FactRef, add_formula};
use ipg_lin::Formula;
use ipg_num::item_at;
use ipg_solve_bounds::{Atom, BoundTrail, BoundedTerms, DomainEnd, Effect};
use std::alloc::AllocError;

/// How often a member's own atoms are gone over to see whether it fails at once.
const GLANCES: usize = 4;

/// Up to how many members are counted.
const MOST_COUNTED: usize = 16;

/// An Any, by its place among the Anys, and how many members of it don't fail at once.
#[derive(Clone, Copy)]
pub struct Pick {
    pub choice: usize,
    pub left: usize,
}

impl<'a> Seeker<'a> {
    /// The Any with the fewest members that don't fail at once, the last of equals.
    pub fn pick(&mut self) -> Result<Option<Pick>, AllocError> {
        let mut best: Option<Pick> = None;
        for choice in (0..self.facts.choices.len()).rev() {
            let Some(left) = self.left_of(choice)? else {
                continue;
            };
            let is_better = match best {
                Some(found) => left < found.left,
                None => true,
            };
            if is_better {
                best = Some(Pick { choice, left });
            }
            if left <= 1 {
                return Ok(best);
            }
        }
        Ok(best)
    }

    /// How many members of an Any that isn't open are left.
    fn left_of(&mut self, choice: usize) -> Result<Option<usize>, AllocError> {
        let Some(what) = item_at(&self.facts.choices, choice) else {
            return Ok(None);
        };
        let what = *what;
        if what.is_open {
            return Ok(None);
        }
        if let Some(look) = what.look {
            if !is_any_touched(what.members, &self.bounds.trail, look.bounds) {
                return Ok(Some(look.left));
            }
        }
        let left = self.count_left(what)?;
        self.looks.push(Looked {
            choice,
            before: what.look,
        })?;
        let bounds = self.bounds.trail.len();
        self.look(choice, Some(LastLook { left, bounds }));
        Ok(Some(left))
    }

    fn look(&mut self, choice: usize, look: Option<LastLook>) {
        if let Some(slot) = self.facts.choices.get_mut(choice) {
            slot.look = look;
        }
    }

    /// Forgets all looks but the first `kept`.
    pub fn forget(&mut self, kept: usize) {
        for _ in kept..self.looks.len() {
            if let Some(last) = self.looks.pop() {
                self.look(last.choice, last.before);
            }
        }
    }

    fn count_left(&mut self, choice: Choice<'a>) -> Result<usize, AllocError> {
        let mut left = 0usize;
        for member in choice.members {
            if !self.fails_at_once(member)? {
                left = left.saturating_add(1);
                if MOST_COUNTED <= left {
                    return Ok(left);
                }
            }
        }
        Ok(left)
    }

    /// Whether a member is refuted at once by the bounds and its own facts alone.
    fn fails_at_once(&mut self, member: &'a Formula) -> Result<bool, AllocError> {
        let mut own = Vec::new(self.alloc);
        add_formula(&mut own, member)?;
        let bounds = self.bounds.trail.len();
        let fails = self.fail_at_once(&own)?;
        self.bounds.trail.undo(bounds);
        Ok(fails)
    }

    fn fail_at_once(&mut self, facts: &[FactRef<'a>]) -> Result<bool, AllocError> {
        for _ in 0..GLANCES {
            let mut is_tighter = false;
            for fact in facts {
                if let FactRef::Atom(form) = *fact {
                    let atom = Atom { fact: 0, form };
                    match self.bounds.trail.narrow(atom, BoundedTerms::Once)? {
                        Effect::Same => {}
                        Effect::Tighter => is_tighter = true,
                        Effect::RuledOut => return Ok(true),
                    }
                }
            }
            if !is_tighter {
                return Ok(false);
            }
        }
        Ok(false)
    }
}

/// Whether a variable of the formula was bounded since there were so many bounds.
#[cycle(touched)]
fn is_touched(f: &Formula, trail: &BoundTrail, since: usize) -> bool {
    match f {
        Formula::Atom(form) => form.terms().iter().any(|term| {
            let var = term.0 as usize;
            is_newer(trail.last_place(DomainEnd::low(var)), since)
                || is_newer(trail.last_place(DomainEnd::high(var)), since)
        }),
        Formula::All(members) => is_any_touched(members.as_slice(), trail, since),
        Formula::Any(members) => is_any_touched(members.as_slice(), trail, since),
    }
}

#[cycle(touched)]
fn is_any_touched(members: &[Formula], trail: &BoundTrail, since: usize) -> bool {
    for member in members {
        if is_touched(member, trail, since) {
            return true;
        }
    }
    false
}

fn is_newer(place: Option<usize>, since: usize) -> bool {
    match place {
        Some(place) => since <= place,
        None => false,
    }
}
