ghost use Rattle.std.specs.Prelude.{◌≡◌, MatchResult};
ghost use Rattle.ipg_proof.specs.declared.fault.ProofWhy.TheVariants.{Memory};
ghost use Rattle.ipg_proof.specs.Proves.{Proves, IsFault};

use crate::certificate::Certificate;
use crate::fault::{ProofFault, ProofWhy};
use crate::judging::judged;
use crate::laws::{proves_is_no_fault, proves_is_total};
use ipg_core::accepted::{Checked, Core};
use std::alloc::Global;

/// The grammar, by which parsing ends, exactly where the certificate proves it.
///
/// # Errors
/// `Mismatch` and `Unsound` with the first entry at fault, as `judged` tells them; `Memory` where memory is wanting. The
/// grammar comes back.
pub fn verify(alloc: Global, g: Core, c: &Certificate) -> Result<Checked, ProofFault>
    ensures proves { Proves g c.now → MatchResult result (λ checked. checked ≡ g) (λ fault. fault.why ≡ Memory) }
    ensures is { MatchResult result (λ checked. (checked ≡ g) × Proves g c.now) (λ fault. (fault.grammar ≡ g) × IsFault g c.now fault.why) }
{
    match judged(alloc, &g, c) {
        Ok(()) => Ok(proved(g, c)),
        Err(why) => Err(at_fault(g, c, why)),
    }
}

fn at_fault(g: Core, c: &Certificate, why: ProofWhy) -> ProofFault
    requires { IsFault g c.now why }
    ensures is { (result.grammar ≡ g) × IsFault g c.now result.why }
    ensures proves { Proves g c.now → result.why ≡ Memory }
{
    proves_is_no_fault();
    ProofFault { grammar: g, why }
}

fn proved(g: Core, c: &Certificate) -> Checked
    requires { Proves g c.now }
    ensures { result ≡ g }
{
    g.rules();
    proves_is_total();
    Checked::new(g)
}
