//! Writes a table file.

ghost use Rattle.std.specs.Prelude.{◌≡◌, IfOk};
ghost use Rattle.std.specs.List.{AllByRecursion};
ghost use Rattle.ipg_proof.specs.Proves.{Proves};
ghost use Rattle.ipg_reader.specs.Laws.{HasCount};
ghost use Rattle.ipg_store_body.specs.Fits.{NestsRule};
ghost use Rattle.ipg_store.specs.File.{file_with, file_of, Holds};

use crate::parts::MAGIC;
use ipg_core::accepted::Checked;
use ipg_proof::laws::proves_is_speakable;
use ipg_proof::{Certificate, cert_text, is_typed};
use ipg_store_body::write;
use std::alloc::{AllocError, Global};

/// A file of these parts.
fn file_with(alloc: Global, body: &[u8], proof: &[u8]) -> Result<Vec<u8>, AllocError>
    ensures is { IfOk result (λ file. file.items ≡ file_with body.now proof.now) }
    ensures counted { IfOk result (λ _. HasCount body.now) }
{
    let mut file = Vec::from_slice(alloc, MAGIC.as_slice())?;
    file.extend_from_slice(&(body.len() as u64).to_le_bytes())?;
    file.extend_from_slice(body)?;
    file.extend_from_slice(proof)?;
    Ok(file)
}

/// The table file of a grammar and a certificate. Where the certificate proves the grammar, the file holds them, so that
/// `loaded` gives the grammar back.
pub fn save(alloc: Global, g: &Checked, c: &Certificate) -> Result<Vec<u8>, AllocError>
    requires { AllByRecursion NestsRule g.now.rules }
    ensures is { IfOk result (λ file. file.items ≡ file_of g.now c.now) }
    ensures holds { Proves g.now c.now → IfOk result (λ file. Holds file.items g.now c.now) }
{
    proves_is_speakable();
    is_typed(c);
    let core = g.core();
    core.rules();
    let body = write(alloc, core)?;
    let proof = cert_text(alloc, c)?;
    file_with(alloc, body.as_slice(), proof.as_slice())
}
