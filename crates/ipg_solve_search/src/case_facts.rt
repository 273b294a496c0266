use ipg_cert::{FactRef, add_formula};
use ipg_lin::Formula;
use ipg_num::item_at;
use std::alloc::{AllocError, Global};

/// How many members of an Any were left when it was last looked at, and how many bounds there were.
#[derive(Clone, Copy)]
pub struct LastLook {
    pub left: usize,
    pub bounds: usize,
}

/// An Any among the facts.
#[derive(Clone, Copy)]
pub struct Choice<'a> {
    pub fact: usize,
    pub members: &'a [Formula],
    /// Whether its cases were opened on the way here.
    pub is_open: bool,
    pub look: Option<LastLook>,
}

/// The facts of the case at hand.
#[derive(Drop)]
pub struct CaseFacts<'a> {
    known: Vec<FactRef<'a>>,
    /// Of each fact, how many branchings there were when it came.
    depths: Vec<usize>,
    pub choices: Vec<Choice<'a>>,
}

impl<'a> CaseFacts<'a> {
    /// The facts at the root, of which none is enlisted yet.
    pub fn new(alloc: Global, root: Vec<FactRef<'a>>) -> CaseFacts<'a> {
        CaseFacts {
            known: root,
            depths: Vec::new(alloc),
            choices: Vec::new(alloc),
        }
    }

    pub fn known(&self) -> &[FactRef<'a>] {
        self.known.as_slice()
    }

    pub fn len(&self) -> usize {
        self.known.len()
    }

    /// How many branchings there were when the fact came.
    pub fn depth(&self, fact: usize) -> Option<usize> {
        match item_at(&self.depths, fact) {
            Some(depth) => Some(*depth),
            None => None,
        }
    }

    /// Puts the facts that a formula is behind the others.
    pub fn add(&mut self, f: &'a Formula) -> Result<(), AllocError> {
        add_formula(&mut self.known, f)
    }

    /// Puts a limit behind the facts, and gives its number.
    pub fn add_limit(&mut self, limit: FactRef<'a>) -> Result<usize, AllocError> {
        let fact = self.known.len();
        self.known.push(limit)?;
        Ok(fact)
    }

    /// Enlists the first fact that isn't enlisted yet, and gives its number with it.
    pub fn enlist(&mut self, depth: usize) -> Result<Option<(usize, FactRef<'a>)>, AllocError> {
        let fact = self.depths.len();
        let Some(what) = item_at(&self.known, fact) else {
            return Ok(None);
        };
        let what = *what;
        self.depths.push(depth)?;
        if let FactRef::Choice(members) = what {
            self.choices.push(Choice {
                fact,
                members,
                is_open: false,
                look: None,
            })?;
        }
        Ok(Some((fact, what)))
    }

    /// Takes back all facts but the first `kept`.
    pub fn truncate(&mut self, kept: usize) {
        self.known.truncate(kept);
        self.depths.truncate(kept);
        for _ in 0..self.choices.len() {
            let _last = self.choices.pop_if(|choice| kept <= choice.fact);
        }
    }
}
