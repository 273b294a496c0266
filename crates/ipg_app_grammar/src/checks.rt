//! Checks that parsing by a core grammar ends.
ghost use Rattle.std.specs.Prelude.{◌≡◌, Ok, Err, IfOk};
ghost use Rattle.std.specs.List.{AllByRecursion};
ghost use Rattle.ipg_store_body.specs.Fits.{NestsRule};
ghost use Rattle.ipg_proof.specs.Proves.{Proves};
ghost use Rattle.ipg_proof.specs.Texts.{IsSpeakable};
ghost use Rattle.ipg_term.specs.Loops.{IsReason};
ghost use Rattle.ipg_app_text.specs.Said.{done};
ghost use Rattle.ipg_app_grammar.specs.Checks.{Checks, IsLoop};
ghost use Rattle.ipg_app_grammar.specs.Commands.{check, cert, table};
ghost use Rattle.ipg_app_text.specs.Found.{Says};
ghost use Rattle.ipg_app_text.specs.Early.{AnswersOrSays, IsSaid};
ghost use Rattle.ipg_app_text.specs.Lines.{said_of};

use crate::looping::may_loop;
use ipg_app_text::early::Early;
use ipg_app_text::said::{Settled, line};
use ipg_app_text::status::Status;
use ipg_core::accepted::{Checked, Core};
use ipg_proof::laws::proves_is_speakable;
use ipg_proof::{Certificate, cert_text, is_typed};
use ipg_store::save;
use ipg_term::{TermFault, TermWhy, check};
use std::alloc::{AllocError, Global};

/// The grammar, by which parsing ends, with a certificate that proves it; or what is said of its first cycle, G13.
pub fn accepted(alloc: Global, core: Core) -> Result<(Checked, Certificate), Early<Settled>>
    ensures checks { AnswersOrSays result (λ made. Checks core (Ok made.0)) (λ settled. Checks core (Err (said_of settled))) }
    ensures proved { IfOk result (λ made. Proves made.0 made.1) }
{
    match check(alloc, core) {
        Ok(made) => Ok(made),
        Err(TermFault { grammar, why }) => Err(Early::Said(refused(alloc, &grammar, &why)?)),
    }
}

fn refused(alloc: Global, g: &Core, why: &TermWhy) -> Result<Settled, AllocError>
    requires { IsReason g.now why.now }
    ensures { IfOk result (λ settled. IsLoop g.now (said_of settled)) }
{
    match why {
        TermWhy::MayLoop { cycle, values } => {
            may_loop(alloc, g, cycle.as_slice(), values.as_slice())
        }
        TermWhy::Memory => Err(AllocError),
    }
}

/// What `check` says.
pub fn say_check(alloc: Global, core: Core) -> Result<Settled, Early<Settled>>
    ensures { IsSaid result (Says (check core)) }
{
    accepted(alloc, core)?;
    Ok(line(alloc, Status::Done, b"accepted")?)
}

/// What `cert` says.
pub fn say_cert(alloc: Global, core: Core) -> Result<Settled, Early<Settled>>
    ensures { IsSaid result (Says (cert core)) }
{
    let (grammar, certificate) = accepted(alloc, core)?;
    is_speakable(&grammar, &certificate);
    Ok(written(cert_text(alloc, &certificate)?))
}

/// What `table` says of a grammar whose expressions a table file can hold.
pub fn say_table(alloc: Global, core: Core) -> Result<Settled, Early<Settled>>
    requires { AllByRecursion NestsRule core.rules }
    ensures { IsSaid result (Says (table core)) }
{
    let (grammar, certificate) = accepted(alloc, core)?;
    Ok(written(save(alloc, &grammar, &certificate)?))
}

/// Texts can say a certificate that proves a grammar.
fn is_speakable(grammar: &Checked, certificate: &Certificate)
    ensures { Proves grammar.now certificate.now → IsSpeakable certificate.now }
{
    let _rules = grammar.core().rules();
    is_typed(certificate);
    proves_is_speakable();
}

fn written(text: Vec<u8>) -> Settled
    ensures { said_of result ≡ done text.items }
{
    Settled {
        status: Status::Done,
        text,
    }
}
