//! Why a text has no core grammar by which parsing ends.
ghost use Rattle.std.specs.Prelude.{◌≡◌, [], IfOk};
ghost use Rattle.ipg_app_text.specs.Lines.{said_of};
ghost use Rattle.ipg_app_text.specs.Seen.{reason_of};
ghost use Rattle.ipg_app_text.specs.Reasons as spec;
ghost use Rattle.ipg_app_text.specs.Reasons.{limit_why, listed};

use crate::refusal::{name_refusal, refusal};
use crate::said::Settled;
use ipg_app_explain::Why;
use ipg_names::NameFault;
use ipg_read_tokens::{ReadFault, Which};
use std::alloc::{AllocError, Global};

/// What is said of it, of which kind it is, at which places of the text, in bytes, and what is noted of them, in whole lines.
#[derive(Drop)]
pub struct Reason {
    pub said: Settled,
    pub why: Why,
    pub places: Vec<u32>,
    pub notes: Vec<u8>,
}

/// A reason at a place, if there is one.
pub fn reason_at(
    alloc: Global,
    said: Settled,
    why: Why,
    at: Option<u32>,
) -> Result<Reason, AllocError>
    ensures { IfOk result (λ r. reason_of r ≡ record { said = said_of said; why = why; places = listed at; notes = [] }) }
{
    let mut places = Vec::new(alloc);
    if let Some(at) = at {
        places.push(at)?;
    }
    Ok(Reason {
        said,
        why,
        places,
        notes: Vec::new(alloc),
    })
}

fn limit_why(which: Which) -> Why
    ensures { result ≡ limit_why which }
{
    match which {
        Which::Rules => Why::Rules,
        Which::Alternatives => Why::Alternatives,
        Which::Terms => Why::Terms,
        Which::Depth => Why::Depth,
    }
}

/// Why a text reads as no grammar, G1 to G5.
pub fn read_reason(alloc: Global, fault: &ReadFault) -> Result<Reason, AllocError>
    ensures { IfOk result (λ r. reason_of r ≡ spec.read_reason fault.now) }
{
    let said = refusal(alloc, fault)?;
    match fault {
        ReadFault::TooLong => reason_at(alloc, said, Why::TooLong, None),
        ReadFault::Lex { at } => reason_at(alloc, said, Why::Lex, Some(*at)),
        ReadFault::Number { at } => reason_at(alloc, said, Why::Number, Some(*at)),
        ReadFault::Syntax { at } => reason_at(alloc, said, Why::Syntax, Some(*at)),
        ReadFault::Limit { which, at } => reason_at(alloc, said, limit_why(*which), Some(*at)),
        ReadFault::Memory => Err(AllocError),
    }
}

/// Why a name stands for nothing, or twice, G6 to G11.
pub fn name_reason(alloc: Global, fault: NameFault) -> Result<Reason, AllocError>
    ensures { IfOk result (λ r. reason_of r ≡ spec.name_reason fault) }
{
    let said = name_refusal(alloc, fault)?;
    match fault {
        NameFault::DuplicateRule { at } => reason_at(alloc, said, Why::DuplicateRule, Some(at)),
        NameFault::UnknownRule { at } => reason_at(alloc, said, Why::UnknownRule, Some(at)),
        NameFault::DuplicateAttr { at } => reason_at(alloc, said, Why::DuplicateAttr, Some(at)),
        NameFault::UnknownAttr { at } => reason_at(alloc, said, Why::UnknownAttr, Some(at)),
        NameFault::PartAttr { at } => reason_at(alloc, said, Why::PartAttr, Some(at)),
        NameFault::NoOccurrence { at } => reason_at(alloc, said, Why::NoOccurrence, Some(at)),
        NameFault::Memory => Err(AllocError),
    }
}
