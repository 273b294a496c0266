//! Whether a certificate proves a grammar.
ghost use Rattle.std.specs.Prelude.{◌≡◌, IfOk, MatchResult, MatchOption};
ghost use Rattle.ipg_proof.specs.Proves.{Proves, AreChecked, IsUnsound, IsUnsoundness, IsFault};
ghost use Rattle.ipg_facts_edges.specs.Edges.{edges_of};

use crate::calls::CallGraph;
use crate::certificate::Certificate;
use crate::checking::unsound;
use crate::fault::ProofWhy;
use crate::placing::misplaced;
use ipg_core::accepted::Core;
use ipg_facts_edges::edges;
use ipg_graph::Edge;
use ipg_touch::must_touch;
use std::alloc::{AllocError, Global};

/// The first entry whose refutation does not check.
fn first_unsound(
    alloc: Global,
    g: &Core,
    edges: &[Edge],
    c: &Certificate,
) -> Result<Option<u64>, AllocError>
    requires { edges.now ≡ edges_of g.now }
    ensures { IfOk result (λ at. MatchOption at (AreChecked g.now c.now) (λ at. IsUnsound g.now c.now at)) }
{
    let marks = must_touch(alloc, g)?;
    let calls = CallGraph {
        grammar: g,
        marks: marks.as_slice(),
        edges,
    };
    let at = unsound(alloc, calls, c)?;
    Ok(at)
}

fn checked(alloc: Global, g: &Core, edges: &[Edge], c: &Certificate) -> Result<(), ProofWhy>
    requires { edges.now ≡ edges_of g.now }
    ensures { MatchResult result (λ _. AreChecked g.now c.now) (λ why. IsUnsoundness g.now c.now why) }
{
    match first_unsound(alloc, g, edges, c)? {
        Some(at) => Err(ProofWhy::Unsound { at }),
        None => Ok(()),
    }
}

/// Whether the certificate proves the grammar, and which entry is at fault first where it does not. Cycles are listed
/// one at a time, and none behind the first that is out of place.
pub fn judged(alloc: Global, g: &Core, c: &Certificate) -> Result<(), ProofWhy>
    ensures exact { MatchResult result (λ _. Proves g.now c.now) (λ why. IsFault g.now c.now why) }
{
    let edges = edges(alloc, g)?;
    match misplaced(alloc, g, edges.as_slice(), c)? {
        Some(at) => Err(ProofWhy::Mismatch { at }),
        None => checked(alloc, g, edges.as_slice(), c),
    }
}
