//! Reads a table file.

ghost use Rattle.std.specs.Prelude.{◌≡◌, MatchResult};
ghost use Rattle.ipg_core.specs.Grammar.{Grammar};
ghost use Rattle.ipg_core.specs.Good.{Good};
ghost use Rattle.ipg_core.specs.Total.{Total};
ghost use Rattle.ipg_proof.specs.declared.certificate.Certificate.{Certificate};
ghost use Rattle.ipg_proof.specs.Proves.{Proves};
ghost use Rattle.ipg_proof.specs.Texts.{IsTextOf};
ghost use Rattle.ipg_table.specs.Rows.{StandFor};
ghost use Rattle.ipg_store.specs.declared.fault.LoadFault.TheVariants.{Memory};
ghost use Rattle.ipg_store.specs.File.{Holds};
ghost use Rattle.ipg_store.specs.Faults.{IsGrammarIn, IsHeld, IsLoadFault};
ghost use Rattle.ipg_store.specs.Steps.{IsGrammarFault, IsProofFault};

use crate::fault::LoadFault;
use crate::laws::load_once;
use crate::parts::split;
use ipg_core::accepted::{Checked, Core};
use ipg_proof::{CertFault, ProofWhy, cert_read, verify};
use ipg_reader::Fault;
use ipg_store_adopt::{AdoptFault, adopt};
use ipg_store_body::{Body, read};
use ipg_table::tables::{Tables, compile};
use std::alloc::Global;

/// The good grammar that the bytes are the body of.
fn grammar_in(alloc: Global, body: &[u8]) -> Result<Core, LoadFault>
    ensures { MatchResult result (IsGrammarIn body.now) (IsGrammarFault body.now) }
{
    let body = match read(alloc, body) {
        Ok(body) => body,
        Err(Fault::At(at)) => return Err(LoadFault::Body { at }),
        Err(Fault::Memory) => return Err(LoadFault::Memory),
    };
    match adopt(alloc, body) {
        Ok(core) => Ok(core),
        Err(AdoptFault::NotGood) => Err(LoadFault::NotGood),
        Err(AdoptFault::Memory) => Err(LoadFault::Memory),
    }
}

/// The grammar, if the text is that of a certificate which proves it.
fn proved(alloc: Global, core: Core, text: &[u8]) -> Result<Checked, LoadFault>
    ensures { MatchResult result (λ g. (g ≡ core) × (c : Certificate) × IsTextOf c text.now × Proves core c) (IsProofFault core text.now) }
{
    let c = match cert_read(alloc, text) {
        Ok(c) => c,
        Err(CertFault::CertText { at }) => return Err(LoadFault::CertText { at }),
        Err(CertFault::Memory) => return Err(LoadFault::Memory),
    };
    match verify(alloc, core, &c) {
        Ok(g) => Ok(g),
        Err(fault) => match fault.why {
            ProofWhy::Mismatch { at } | ProofWhy::Unsound { at } => Err(LoadFault::Proof { at }),
            ProofWhy::Memory => Err(LoadFault::Memory),
        },
    }
}

/// The grammar that a table file holds, by which parsing ends: its certificate is checked.
///
/// # Errors
/// The first thing at fault in the file, in the order of the variants, or want of memory.
pub fn loaded(alloc: Global, file: &[u8]) -> Result<Checked, LoadFault>
    ensures is { MatchResult result (IsHeld file.now) (IsLoadFault file.now) }
    ensures back { (g : Grammar) (c : Certificate) → Holds file.now g c → MatchResult result (λ loaded. loaded ≡ g) (λ fault. fault ≡ Memory) }
{
    load_once();
    let parts = split(file)?;
    let core = grammar_in(alloc, parts.body)?;
    proved(alloc, core, parts.proof)
}

/// The tables of the grammar that a table file holds.
///
/// # Errors
/// As `loaded` says.
pub fn load(alloc: Global, file: &[u8]) -> Result<Tables, LoadFault>
    ensures is { MatchResult result (λ t. (g : Grammar) × IsHeld file.now g × StandFor t g × Total g) (IsLoadFault file.now) }
    ensures back { (g : Grammar) (c : Certificate) → Holds file.now g c → MatchResult result (λ t. StandFor t g) (λ fault. fault ≡ Memory) }
{
    let g = loaded(alloc, file)?;
    match compile(alloc, &g) {
        Ok(tables) => Ok(tables),
        Err(_) => Err(LoadFault::Memory),
    }
}
