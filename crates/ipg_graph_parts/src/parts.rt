ghost use Rattle.std.specs.Prelude.{◌≡◌, ℕ, ◌<◌, All, IfOk, OnOk};
ghost use Rattle.ipg_graph_parts.specs.Parts.{AreParts, IsIn, IsParted, Stays};

use crate::finished::finished;
use crate::labels::{Labels, Search};
use crate::links::Links;
use std::alloc::{AllocError, Global};

/// The name of each rule's part, and of each rule the last root that it was found to lead to.
#[derive(Drop)]
struct Parts {
    names: Labels,
    found: Labels,
}

impl Parts {
    fn new(alloc: Global, links: &Links) -> Result<Self, AllocError>
        ensures { IfOk result (λ parts. AreParts links.now parts.names.of.items parts.found.of.items) }
    {
        Ok(Parts {
            names: Labels::new(alloc, links.rules())?,
            found: Labels::new(alloc, links.rules())?,
        })
    }

    /// Sees to it that the rule is in a part.
    fn include(&mut self, links: &Links, rule: u32) -> Result<(), AllocError>
        requires rule { rule < links.now.rules }
        requires parts { AreParts links.now self.old.names.of.items self.old.found.of.items }
        ensures parts { OnOk result (AreParts links.now self.new.names.of.items self.new.found.of.items) }
        ensures stays { OnOk result (Stays self.old.names.of.items self.new.names.of.items) }
        ensures rule { OnOk result (IsIn self.new.names.of.items rule) }
    {
        if self.names.as_slice()[rule as usize].is_some() {
            return Ok(());
        }
        self.make(links, rule)
    }

    /// Makes the part of a rule that is in none yet: the rules that lead to it, and of those the ones that it leads to.
    fn make(&mut self, links: &Links, root: u32) -> Result<(), AllocError>
        requires rule { root < links.now.rules }
        requires free { ¬ IsIn self.old.names.of.items root }
        requires parts { AreParts links.now self.old.names.of.items self.old.found.of.items }
        ensures parts { OnOk result (AreParts links.now self.new.names.of.items self.new.found.of.items) }
        ensures stays { OnOk result (Stays self.old.names.of.items self.new.names.of.items) }
        ensures rule { OnOk result (IsIn self.new.names.of.items root) }
    {
        links.rules();
        self.found.fill(Search {
            from: links.callees(),
            to: links.callers(),
            fence: self.names.as_slice(),
            open: None,
            root,
        })?;
        self.names.fill(Search {
            from: links.callers(),
            to: links.callees(),
            fence: self.found.as_slice(),
            open: Some(root),
            root,
        })
    }
}

/// The name of each rule's part. It takes the time of one walk over the edges, since parts are made in the order in which
/// no part leads to one that was made before: then a search finds no rule of another part.
pub fn parts_of(alloc: Global, links: &Links) -> Result<Vec<Option<u32>>, AllocError>
    ensures { IfOk result (λ names. IsParted links.now names.items) }
{
    let mut parts = Parts::new(alloc, links)?;
    let order = finished(alloc, links)?;
    for rule in order.iter().rev() {
        parts.include(links, *rule)?;
    }
    for rule in 0..links.rules() {
        parts.include(links, rule)?;
    }
    Ok(parts.names.into_vec())
}
