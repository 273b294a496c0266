//! How long a case is gone on with whose refutation is too long.
use crate::seeker::Seeker;
use ipg_num::item_at;

/// How many turns such a case is given, since other facts may refute it.
const PATIENCE: u64 = 1 << 12;

/// A case at hand since some turn, whose refutation is too long by one of its equations.
#[derive(Clone, Copy)]
pub struct LongCase {
    since: u64,
    /// How many branchings there were, and how many cases of the last one were taken.
    depth: usize,
    taken: Option<usize>,
}

impl<'a> Seeker<'a> {
    /// Whether a case is open for long one of whose equations has too many places where numbers meet it, but no
    /// whole ones.
    pub fn is_too_long(&mut self, turn: u64) -> bool {
        match self.long {
            Some(long) if self.is_open(long) => long.since.saturating_add(PATIENCE) <= turn,
            _ => {
                self.long = self.long_case(turn);
                false
            }
        }
    }

    fn is_open(&self, long: LongCase) -> bool {
        long.depth <= self.branchings.len() && long.taken == self.taken_at(long.depth)
    }

    /// How many cases were taken of the branching that is the last of so many.
    fn taken_at(&self, depth: usize) -> Option<usize> {
        match item_at(&self.branchings, depth.checked_sub(1)?) {
            Some(branching) => Some(branching.taken),
            None => None,
        }
    }

    /// The case at hand, if one of its equations is too much for it.
    fn long_case(&self, since: u64) -> Option<LongCase> {
        let depth = self.branchings.len();
        if self.bounds.parts_too_many() {
            Some(LongCase {
                since,
                depth,
                taken: self.taken_at(depth),
            })
        } else {
            None
        }
    }
}
