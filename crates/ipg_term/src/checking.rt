ghost use Rattle.std.specs.Prelude.{◌≡◌, MatchResult};
ghost use Rattle.ipg_proof.specs.Proves.{Accepts, Proves};
ghost use Rattle.ipg_term.specs.Loops.{IsReason};

use crate::cycles::refuted_cycles;
use crate::dead::dead_edges;
use crate::fault::{TermFault, TermWhy};
use ipg_core::accepted::{Checked, Core};
use ipg_facts_edges::edges;
use ipg_proof::laws::{accepts_is_total, live_cycles_are_cycles, loops_are_live};
use ipg_proof::{CallGraph, Certificate};
use ipg_touch::must_touch;
use std::alloc::Global;

/// The grammar, by which parsing ends, and a certificate that proves it: exactly where no simple cycle of calls has
/// conditions that can hold together.
///
/// # Errors
/// `MayLoop` with the first cycle that has; `Memory` where memory is wanting. The grammar comes back.
pub fn check(alloc: Global, g: Core) -> Result<(Checked, Certificate), TermFault>
    ensures accepted { MatchResult result (λ made. (made.0 ≡ g) × Accepts g) (λ fault. (fault.grammar ≡ g) × IsReason g fault.why) }
    ensures proved { MatchResult result (λ made. Proves g made.1) (λ _. Unit) }
{
    match examined(alloc, &g) {
        Ok(certificate) => Ok((accepted(g), certificate)),
        Err(why) => Err(TermFault { grammar: g, why }),
    }
}

fn accepted(g: Core) -> Checked
    requires { Accepts g }
    ensures { result ≡ g }
{
    g.rules();
    accepts_is_total();
    Checked::new(g)
}

/// A certificate of the grammar: its dead edges on cycles, and then each cycle of the others.
fn examined(alloc: Global, g: &Core) -> Result<Certificate, TermWhy>
    ensures accepted { MatchResult result (λ _. Accepts g.now) (λ why. IsReason g.now why) }
    ensures proved { MatchResult result (λ c. Proves g.now c) (λ _. Unit) }
{
    live_cycles_are_cycles();
    loops_are_live();
    g.rules();
    let edges = edges(alloc, g)?;
    let marks = must_touch(alloc, g)?;
    let calls = CallGraph {
        grammar: g,
        marks: marks.as_slice(),
        edges: edges.as_slice(),
    };
    let dead = dead_edges(alloc, calls)?;
    let cycles = refuted_cycles(alloc, calls, dead.as_slice())?;
    Ok(Certificate { dead, cycles })
}
