ghost use Rattle.std.specs.Prelude.{◌≤◌, length};
ghost use Rattle.ipg_lin.specs.Formula.{width};

use crate::back::CaseAtHand;
use crate::choose::Pick;
use crate::seeker::{CaseState, Seeker};
use ipg_cert::Refutation;
use ipg_lin::{Boxed, Formula};
use ipg_num::List;
use ipg_solve_bounds::Parting;
use std::alloc::{AllocError, Global};

/// How many cuts by rounding come before an Any is opened of which two members or more are left.
const CUTS_FIRST: usize = 4;

/// A search that is told to come out too long counts as want of memory.
const TOO_LONG: AllocError = AllocError;

/// What a search found.
#[derive(Drop)]
pub enum SearchEnd {
    /// A value for each variable, under which the formula may hold.
    Values(List<i64>),
    /// Steps that may refute the formula.
    Refuted(Refutation),
}

/// What a turn of the search comes to.
#[derive(Drop)]
enum SearchTurn {
    More,
    Values(List<i64>),
    /// All cases are refuted.
    Refuted,
    /// There is nothing to cut.
    Stuck,
    /// A refutation takes more steps than may be kept.
    TooLong,
}

impl From<CaseAtHand> for SearchTurn {
    fn from(next: CaseAtHand) -> SearchTurn {
        match next {
            CaseAtHand::Case => SearchTurn::More,
            CaseAtHand::Done => SearchTurn::Refuted,
        }
    }
}

impl<'a> Seeker<'a> {
    fn turn(&mut self, f: &Formula, b: &Boxed, turn: u64) -> Result<SearchTurn, AllocError>
        requires { width f.now ≤ length b.now.bounds }
    {
        match self.settle()? {
            CaseState::Closed => return Ok(self.go_on()?.into()),
            CaseState::TooHeavy(parting) => {
                let parting = parting.or(self.bounds.limit_cut());
                return self.cut(parting);
            }
            CaseState::Open => {}
        }
        if let Some(values) = self.bounds.try_lows(f, b)? {
            return Ok(SearchTurn::Values(values));
        }
        if turn == 0 {
            if let CaseState::Closed = self.combine()? {
                return Ok(self.go_on()?.into());
            }
        }
        let pick = self.pick()?;
        if pick.is_none() || turn == 0 || turn.is_power_of_two() {
            if let Some(values) = self.bounds.try_dive(f, b)? {
                return Ok(SearchTurn::Values(values));
            }
        }
        match pick {
            Some(pick) => self.open_pick(pick),
            None => self.close_or_cut(turn),
        }
    }

    /// Opens an Any, or makes a few cuts before.
    fn open_pick(&mut self, pick: Pick) -> Result<SearchTurn, AllocError> {
        if 1 < pick.left && self.cuts() < CUTS_FIRST {
            if let Some(parting) = self.bounds.rounding_cut() {
                return Ok(self.open_parts(parting)?.into());
            }
        }
        Ok(self.open_members(pick.choice)?.into())
    }

    fn close_or_cut(&mut self, turn: u64) -> Result<SearchTurn, AllocError> {
        if let CaseState::Closed = self.combine()? {
            return Ok(self.go_on()?.into());
        }
        if self.is_too_long(turn) {
            return Ok(SearchTurn::TooLong);
        }
        let parting = self.bounds.rounding_cut().or(self.bounds.middle_cut());
        self.cut(parting)
    }

    fn cut(&mut self, parting: Option<Parting>) -> Result<SearchTurn, AllocError> {
        match parting {
            Some(parting) => Ok(self.open_parts(parting)?.into()),
            None => Ok(SearchTurn::Stuck),
        }
    }

    /// Closes the case at hand by a sum of its facts, if one is found.
    fn combine(&mut self) -> Result<CaseState, AllocError> {
        match self.bounds.eliminate()? {
            Some(entries) => self.close(entries),
            None => Ok(CaseState::Open),
        }
    }
}

/// Searches for values under which the formula holds, or for a refutation.
pub fn seek(alloc: Global, f: &Formula, b: &Boxed) -> Result<Option<SearchEnd>, AllocError>
    requires { width f.now ≤ length b.now.bounds }
{
    let mut seeker = Seeker::new(alloc, f, b)?;
    for turn in 0..u64::MAX {
        match seeker.turn(f, b, turn)? {
            SearchTurn::More => {}
            SearchTurn::Values(values) => return Ok(Some(SearchEnd::Values(values))),
            SearchTurn::Refuted => {
                let r = seeker.steps.into_refutation()?;
                return Ok(Some(SearchEnd::Refuted(r)));
            }
            SearchTurn::Stuck => return Ok(None),
            SearchTurn::TooLong => return Err(TOO_LONG),
        }
    }
    Ok(None)
}
