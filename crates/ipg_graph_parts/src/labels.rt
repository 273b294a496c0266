ghost use Rattle.std.specs.Prelude.{◌≡◌, ℕ, ◌++◌, ◌∷◌, [], ◌<◌, ◌≤◌, None, Some, true, false, length, replicate, slice_index_or, slice_set, IfOk, OnOk};
ghost use Rattle.ipg_graph_parts.specs.Labels.{field_of, work, IsOpen, IsLabelled, IsSearch, Keeps, IsFilled, IsSpreading};

use crate::chain::Chain;
use std::alloc::{AllocError, Global};

/// A search along edges from a root, over the rules that have the label `open` among `fence`.
#[derive(Clone, Copy)]
pub struct Search<'a, 'b> {
    pub from: &'a Chain,
    pub to: &'a Chain,
    pub fence: &'b [Option<u32>],
    pub open: Option<u32>,
    pub root: u32,
}

/// Labels of rules, and the rules that a search has still to go on from.
#[derive(Drop)]
pub struct Labels {
    of: Vec<Option<u32>>,
    waiting: Vec<u32>,
}

impl Labels {
    /// No rule has a label yet.
    pub fn new(alloc: Global, rules: u32) -> Result<Self, AllocError>
        ensures { IfOk result (λ labels. labels.of.items ≡ replicate rules None) }
    {
        Ok(Labels {
            of: vec![in alloc; None; rules as usize]?,
            waiting: Vec::new(alloc),
        })
    }

    /// The labels, by rule.
    pub fn as_slice(&self) -> &[Option<u32>]
        ensures { result.now ≡ self.now.of.items }
    {
        self.of.as_slice()
    }

    /// The labels, by rule.
    pub fn into_vec(self) -> Vec<Option<u32>>
        ensures { result.items ≡ self.of.items }
    {
        let Labels { of, waiting: _ } = self;
        of
    }

    /// Gives the root's label to the rules to which ways lead from it over open rules.
    pub fn fill(&mut self, search: Search) -> Result<(), AllocError>
        requires search { IsSearch search }
        requires sized { length self.old.of.items ≡ search.from.now.limit }
        requires fresh { (v : ℕ) → ¬ IsLabelled self.old.of.items search.root v }
        ensures filled { OnOk result (IsFilled (field_of search.entry) self.new.of.items) }
        ensures kept { OnOk result (Keeps search.entry.root self.old.of.items self.new.of.items) }
    {
        self.waiting.clear();
        self.put(search.root, search.root)?;
        while let Some(rule) = self.waiting.pop() {
            self.go_on(search, rule)?;
        }
        Ok(())
    }

    /// Gives the root's label to the open rules to which edges lead from the rule.
    fn go_on(&mut self, search: Search, rule: u32) -> Result<(), AllocError>
        requires search { IsSearch search }
        requires rule { IsSpreading (field_of search) self.old.of.items self.old.waiting.items rule (Some 0) }
        ensures done { OnOk result (IsSpreading (field_of search.entry) self.new.of.items self.new.waiting.items rule None) }
        ensures kept { OnOk result (Keeps search.entry.root self.old.of.items self.new.of.items) }
        ensures less { let left = work search.entry.root
            in OnOk result (left self.new.of.items self.new.waiting.items ≤ left self.old.of.items self.old.waiting.items) }
    {
        let mut next = search.from.first(rule);
        while let Some(edge) = next {
            let to = search.to.key(edge);
            if self.is_new(search, to) {
                self.put(to, search.root)?;
            }
            next = search.from.next(edge);
        }
        Ok(())
    }

    /// Whether the rule is open, and hasn't the root's label yet.
    fn is_new(&self, search: Search, rule: u32) -> bool
        requires fence { rule < length search.fence.now }
        requires label { rule < length self.now.of.items }
        ensures new { result ≡ true → IsOpen (field_of search.entry) rule × ¬ IsLabelled self.now.of.items search.entry.root rule }
        ensures old { result ≡ false → IsOpen (field_of search.entry) rule → IsLabelled self.now.of.items search.entry.root rule }
    {
        search.fence[rule as usize] == search.open && self.of[rule as usize] != Some(search.root)
    }

    fn put(&mut self, rule: u32, label: u32) -> Result<(), AllocError>
        requires { rule < length self.old.of.items }
        ensures label { OnOk result (self.new.of.items ≡ slice_set self.old.of.items rule (Some label)) }
        ensures waits { OnOk result (self.new.waiting.items ≡ self.old.waiting.items ++ rule ∷ []) }
    {
        self.of[rule as usize] = Some(label);
        self.waiting.push(rule)?;
        Ok(())
    }
}
