//! Why a certificate does not prove a grammar.

ghost use Rattle.std.specs.Prelude.{◌≡◌};

use ipg_core::accepted::Core;
use std::alloc::AllocError;
use thiserror::Error;

/// What is at fault in a certificate. Its entries are the dead edges and then the cycles, counted from 0.
#[derive(Debug, Drop, Error)]
pub enum ProofWhy {
    /// The first entry that is no dead edge above the one before it, or not the cycle that is due at its place; the
    /// number of entries where cycles are missing.
    #[error("entry {at} is not the one that is due")]
    Mismatch { at: u64 },
    /// Each entry is in place, and this is the first whose refutation does not check.
    #[error("the refutation of entry {at} does not check")]
    Unsound { at: u64 },
    /// No memory was left.
    #[error("no memory is left")]
    Memory,
}

impl From<AllocError> for ProofWhy {
    ghost use Rattle.ipg_proof.specs.declared.fault.ProofWhy.TheVariants.{Memory};

    ghost from_gives = { λ _ e. e ≡ Memory };

    fn from(_: AllocError) -> ProofWhy {
        ProofWhy::Memory
    }
}

/// The grammar that a certificate does not prove, given back, and what is at fault.
#[derive(Drop)]
pub struct ProofFault {
    pub grammar: Core,
    pub why: ProofWhy,
}

/// Why a text is no certificate's.
#[derive(Clone, Copy, Debug, Drop, Error, PartialEq, Eq)]
pub enum CertFault {
    /// No certificate's text goes on with the byte at this place, or the text ends here.
    #[error("no certificate goes on at byte {at}")]
    CertText { at: u64 },
    /// No memory was left.
    #[error("no memory is left")]
    Memory,
}
