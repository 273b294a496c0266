//! Reads a certificate's text.
ghost use Rattle.std.specs.Prelude.{◌≡◌, ◌-◌, ◌≤◌, length, Err, MatchResult};
ghost use Rattle.ipg_proof.specs.declared.certificate.Certificate.{Certificate};
ghost use Rattle.ipg_proof.specs.declared.fault.CertFault.TheVariants.{Memory};
ghost use Rattle.ipg_proof.specs.Texts.{text_of, IsSpeakable, IsTextOf, IsCertFault};
ghost use Rattle.ipg_proof.specs.Reads.{Reads};

use crate::certificate::Certificate;
use crate::cursor::{Cursor, Stall};
use crate::fault::CertFault;
use std::alloc::Global;

/// How many bytes of the text stand before those that are left.
fn place(text: &[u8], left: &[u8]) -> u64
    requires { length left.now ≤ length text.now }
    ensures { result ≡ length text.now - length left.now }
{
    (text.len() - left.len()) as u64
}

fn fault_of(text: &[u8], left: &[u8], why: Stall) -> CertFault
    requires { Reads IsSpeakable text_of text.now left.now (Err why) }
    ensures is { IsCertFault text.now result }
    ensures back { (c : Certificate) → IsTextOf c text.now → result ≡ Memory }
{
    match why {
        Stall::Here => CertFault::CertText {
            at: place(text, left),
        },
        Stall::Memory => CertFault::Memory,
    }
}

/// What was read, if nothing is left.
fn ended(
    text: &[u8],
    left: &[u8],
    read: Result<Certificate, Stall>,
) -> Result<Certificate, CertFault>
    requires { Reads IsSpeakable text_of text.now left.now read }
    ensures is { MatchResult result (λ c. IsTextOf c text.now) (λ fault. IsCertFault text.now fault) }
    ensures back { (c : Certificate) → IsTextOf c text.now → MatchResult result (λ read. read ≡ c) (λ fault. fault ≡ Memory) }
{
    match read {
        Ok(c) => {
            if left.is_empty() {
                Ok(c)
            } else {
                Err(CertFault::CertText {
                    at: place(text, left),
                })
            }
        }
        Err(why) => Err(fault_of(text, left, why)),
    }
}

/// The certificate that the text is.
///
/// # Errors
/// `CertText` names the first byte with which no certificate's text goes on, or the text's length where it ends too early.
pub fn cert_read(alloc: Global, text: &[u8]) -> Result<Certificate, CertFault>
    ensures is { MatchResult result (λ c. IsTextOf c text.now) (λ fault. IsCertFault text.now fault) }
    ensures back { (c : Certificate) → IsTextOf c text.now → MatchResult result (λ read. read ≡ c) (λ fault. fault ≡ Memory) }
{
    let mut cursor = Cursor { left: text };
    let read = cursor.certificate(alloc);
    ended(text, cursor.left, read)
}
