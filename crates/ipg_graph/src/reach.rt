ghost use Rattle.std.specs.Prelude.{◌≡◌, ℕ, ◌+◌, ◌<◌, ◌≤◌, All, length, IfOk, vec_len, vec_capacity, slice_index_or};
ghost use Rattle.std.specs.Prelude.{slice_set, true, false, not, ◌&&◌, ◌++◌, ◌∷◌, []};
ghost use Rattle.ipg_graph.specs.Marks.{marked, IsUnseen};
ghost use Rattle.ipg_graph.specs.Walk.{is_free};
ghost use Rattle.ipg_graph.specs.Reach.{IsSized, IsClosed, IsScanned, Spreads};

use crate::links::Links;
use std::alloc::{AllocError, Global};

/// Which rules a way back to the start may lead from.
#[derive(Drop)]
pub struct Reach {
    marks: Vec<bool>,
    stack: Vec<u32>,
}

impl Reach {
    pub fn new(alloc: Global, rules: u32) -> Result<Self, AllocError>
        ensures { IfOk result (IsSized rules) }
    {
        Ok(Reach {
            marks: vec![in alloc; false; rules as usize]?,
            stack: Vec::with_capacity(alloc, rules as usize + 1)?,
        })
    }

    /// Whether a way back may lead from the rule.
    pub fn holds(&self, rule: u32) -> bool
        requires { rule < length self.now.marks.items }
        ensures { result ≡ slice_index_or self.now.marks.items rule false }
    {
        self.marks[rule as usize]
    }

    /// Marks the rules above the start, and not seen, that lead back to it over such rules.
    pub fn fill(&mut self, links: &Links, start: u32, seen: &[bool])
        requires sized { IsSized links.now.rules self.old }
        requires flags { length seen.now ≡ links.now.rules }
        requires start { start < links.now.rules }
        ensures sized { IsSized links.now.rules self.new }
        ensures closed { IsClosed links.now start seen.now self.new.marks.items }
    {
        self.marks.fill(false);
        self.stack.clear();
        let _ = self.stack.push(start);
        while let Some(rule) = self.stack.pop() {
            self.mark_callers(links, start, seen, rule);
        }
    }

    fn mark_callers(&mut self, links: &Links, start: u32, seen: &[bool], rule: u32)
        requires sized { IsSized links.now.rules self.old }
        requires flags { length seen.now ≡ links.now.rules }
        requires inside { All (λ v. v < links.now.rules) self.old.stack.items }
        requires bound { length self.old.stack.items ≤ marked self.old.marks.items }
        requires rule { rule < links.now.rules }
        ensures sized { IsSized links.now.rules self.new }
        ensures spreads { Spreads links.now self.old.marks.items self.new.marks.items self.old.stack.items self.new.stack.items }
        ensures scanned { IsScanned links.now start seen.now self.new.marks.items rule (length links.now.callers) }
    {
        let edges = links.len();
        let mut edge = links.first_in(rule);
        while edge < edges {
            let caller = links.caller(edge);
            if self.is_new(start, seen, caller) {
                self.mark(caller);
            }
            edge = links.next_in(edge);
        }
    }

    fn is_new(&self, start: u32, seen: &[bool], rule: u32) -> bool
        requires flag { rule < length seen.now }
        requires mark { rule < length self.now.marks.items }
        ensures { result ≡ (is_free start seen.now rule && not (slice_index_or self.now.marks.items rule false)) }
    {
        rule > start && !seen[rule as usize] && !self.marks[rule as usize]
    }

    fn mark(&mut self, rule: u32)
        requires free { IsUnseen self.old.marks.items rule }
        requires inside { rule < length self.old.marks.items }
        requires room { vec_len self.old.stack < vec_capacity self.old.stack }
        ensures marks { self.new.marks.items ≡ slice_set self.old.marks.items rule true }
        ensures stack { self.new.stack.items ≡ self.old.stack.items ++ rule ∷ [] }
        ensures room { vec_capacity self.old.stack ≤ vec_capacity self.new.stack }
    {
        self.marks[rule as usize] = true;
        let _ = self.stack.push(rule);
    }
}
