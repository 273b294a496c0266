//! Verifies that a certificate proves a core grammar.
ghost use Rattle.std.specs.Prelude.{◌≡◌, ◌++◌, decimal, Some, Ok, Err, IfOk};
ghost use Rattle.ipg_app_text.specs.declared.status.Status.TheVariants.{BadProof};
ghost use Rattle.ipg_app_text.specs.Said.{line_said};
ghost use Rattle.ipg_app_grammar.specs.Certificate.{Reads, Judges, proof_said};
ghost use Rattle.ipg_app_grammar.specs.Commands.{judge};
ghost use Rattle.ipg_app_text.specs.Found.{Says};
ghost use Rattle.ipg_app_text.specs.Early.{AnswersOrSays, IsSaid};
ghost use Rattle.ipg_app_text.specs.Lines.{said_of};

use ipg_app_text::early::Early;
use ipg_app_text::said::{Settled, line};
use ipg_app_text::status::Status;
use ipg_core::accepted::Core;
use ipg_proof::{CertFault, Certificate, ProofFault, ProofWhy, cert_read, verify};
use itoa::Buffer;
use std::alloc::{AllocError, Global};

/// What is said of a certificate's text: C1 to C3, or that it proves the grammar.
pub fn judge(alloc: Global, core: Core, text: &[u8]) -> Result<Settled, Early<Settled>>
    ensures { IsSaid result (Says (judge text.now core)) }
{
    let certificate = certificate_in(alloc, text)?;
    Ok(judged(alloc, core, &certificate)?)
}

fn certificate_in(alloc: Global, text: &[u8]) -> Result<Certificate, Early<Settled>>
    ensures { AnswersOrSays result (λ c. Reads text.now (Ok c)) (λ settled. Reads text.now (Err (said_of settled))) }
{
    match cert_read(alloc, text) {
        Ok(certificate) => Ok(certificate),
        Err(CertFault::CertText { at }) => {
            Err(Early::Said(bad_proof(alloc, b"refused C1 CertText ", at)?))
        }
        Err(CertFault::Memory) => Err(Early::Memory),
    }
}

fn judged(alloc: Global, core: Core, c: &Certificate) -> Result<Settled, AllocError>
    ensures { IfOk result (λ settled. Judges core c.now (said_of settled)) }
{
    match verify(alloc, core, c) {
        Ok(_) => line(alloc, Status::Done, b"verified"),
        Err(ProofFault { grammar: _, why }) => refused(alloc, why),
    }
}

fn refused(alloc: Global, why: ProofWhy) -> Result<Settled, AllocError>
    ensures { IfOk result (λ settled. proof_said why ≡ Some (said_of settled)) }
{
    match why {
        ProofWhy::Mismatch { at } => bad_proof(alloc, b"refused C2 Mismatch ", at),
        ProofWhy::Unsound { at } => bad_proof(alloc, b"refused C3 Unsound ", at),
        ProofWhy::Memory => Err(AllocError),
    }
}

/// A refusal of a certificate or a table file, which ends with a place or an entry's number.
pub fn bad_proof(alloc: Global, words: &[u8], at: u64) -> Result<Settled, AllocError>
    ensures { IfOk result (λ settled. said_of settled ≡ line_said BadProof (words.now ++ decimal at)) }
{
    let mut buffer = Buffer::new();
    let mut told = Vec::from_slice(alloc, words)?;
    told.extend_from_slice(buffer.format(at).as_bytes())?;
    line(alloc, Status::BadProof, &told)
}
