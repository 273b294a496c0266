//! The rules that parsing may come to.

ghost use Rattle.std.specs.Prelude.{◌≡◌, ◌<◌, ℕ, IfOk, length, true};
ghost use Rattle.std.specs.List.{AllByRecursion};
ghost use Rattle.ipg_core.specs.MustTouch.{is_marked};
ghost use Rattle.ipg_graph.specs.Graph.{IsInside};
ghost use Rattle.ipg_cover.specs.Reach.{AreReached};
ghost use Rattle.ipg_cover.specs.Pass.{AreSound, Passed, Stepped};

use ipg_core::accepted::Core;
use ipg_facts_edges::{Edge, edges};
use ipg_facts_laws::laws::edges_are_inside;
use std::alloc::{AllocError, Global};

/// Marks the rule that a marked one calls. Whether that is new.
fn mark_callee(flags: &mut Vec<bool>, edge: Edge) -> bool
    requires { IsInside (length flags.old.items) edge }
    ensures { Stepped result flags.old.items edge flags.new.items }
{
    if !flags[edge.caller as usize] || flags[edge.callee as usize] {
        return false;
    }
    flags[edge.callee as usize] = true;
    true
}

/// One pass over the calls. Whether it marked a rule.
fn mark_callees(flags: &mut Vec<bool>, edges: &[Edge]) -> bool
    requires { AllByRecursion (IsInside (length flags.old.items)) edges.now }
    ensures size { length flags.new.items ≡ length flags.old.items }
    ensures keeps { (rule : ℕ) → is_marked flags.old.items rule ≡ true → is_marked flags.new.items rule ≡ true }
    ensures sound { AreSound edges.now flags.old.items → AreSound edges.now flags.new.items }
    ensures passed { Passed result edges.now flags.old.items flags.new.items }
{
    let mut more = false;
    for edge in edges {
        more |= mark_callee(flags, *edge);
    }
    more
}

/// A flag for each rule: whether the first one reaches it by calls, itself included. It goes over the calls again as long as
/// that marks a rule, so at most once for each rule, of which there are at most 1,024.
pub fn reached(alloc: Global, g: &Core) -> Result<Vec<bool>, AllocError>
    ensures { IfOk result (λ flags. AreReached g.now flags.items) }
{
    edges_are_inside();
    let edges = edges(alloc, g)?;
    let mut flags = vec![in alloc; false; g.rules().len()]?;
    flags[0] = true;
    while mark_callees(&mut flags, edges.as_slice()) {}
    Ok(flags)
}
