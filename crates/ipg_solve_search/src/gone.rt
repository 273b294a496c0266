ghost use Rattle.std.specs.Prelude.{◌≡◌, IfOk};
ghost use Rattle.std.specs.Option.{option_map};
ghost use Rattle.ipg_solve_search.specs.Gone.{renumbered, entries_without, step_without};

use ipg_cert::Step;
use ipg_num::List;
use std::alloc::{AllocError, Global};

/// Facts that are taken out from between others.
#[derive(Clone, Copy)]
pub struct Gone {
    /// How many facts stay before them.
    pub kept: usize,
    /// How many are taken out.
    pub count: usize,
}

impl Gone {
    /// The number of a fact where these are gone; none for one of them.
    fn renumbered(self, fact: u64) -> Option<u64>
        ensures { result ≡ renumbered self.kept self.count fact }
    {
        let kept = self.kept as u64;
        let count = self.count as u64;
        if fact < kept {
            Some(fact)
        } else if fact - kept < count {
            None
        } else {
            Some(fact - count)
        }
    }

    /// The entries where these facts are gone, if they name none of them.
    fn entries_without(
        self,
        alloc: Global,
        entries: &[(u64, u64)],
    ) -> Result<Option<List<(u64, u64)>>, AllocError>
        ensures { IfOk result (λ found. found ≡ entries_without self.kept self.count entries.now) }
    {
        let mut renumbered = List::new(alloc);
        for entry in entries {
            match self.renumbered(entry.1) {
                Some(fact) => renumbered.push((entry.0, fact))?,
                None => return Ok(None),
            }
        }
        Ok(Some(renumbered))
    }

    /// The step where these facts are gone, if it names none of them.
    pub fn step_without(self, alloc: Global, step: &Step) -> Result<Option<Step>, AllocError>
        ensures { IfOk result (λ found. found ≡ step_without self.kept self.count step.now) }
    {
        match step {
            Step::Combine(entries) => {
                match self.entries_without(alloc, entries.as_slice())? {
                    Some(entries) => Ok(Some(Step::Combine(entries))),
                    None => Ok(None),
                }
            }
            Step::Split { var, at } => Ok(Some(Step::Split { var: *var, at: *at })),
            Step::Either { fact, parts } => match self.renumbered(*fact) {
                Some(fact) => Ok(Some(Step::Either {
                    fact,
                    parts: *parts,
                })),
                None => Ok(None),
            },
        }
    }
}
