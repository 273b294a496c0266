//! The line that refuses a text.
ghost use Rattle.std.specs.Prelude.{◌≡◌, ◌++◌, ◌∷◌, decimal, codes, IfOk, OnOk};
ghost use Rattle.ipg_app_text.specs.declared.status.Status.TheVariants.{Refused};
ghost use Rattle.ipg_app_text.specs.Said.{line_said};
ghost use Rattle.ipg_app_text.specs.Refusal as spec;
ghost use Rattle.ipg_app_text.specs.Refusal.{limit_name, fault_said, name_said, term_words};
ghost use Rattle.ipg_app_text.specs.Lines.{said_of};

use crate::said::{Settled, line};
use crate::status::Status;
use ipg_names::NameFault;
use ipg_read_tokens::{ReadFault, Which};
use itoa::Buffer;
use std::alloc::{AllocError, Global};

/// What is said of a text that reads as no grammar, G1 to G5.
pub fn refusal(alloc: Global, fault: &ReadFault) -> Result<Settled, AllocError>
    ensures { IfOk result (λ settled. said_of settled ≡ fault_said fault.now) }
{
    match fault {
        ReadFault::TooLong => line(alloc, Status::Refused, b"refused G1 TooLong"),
        ReadFault::Lex { at } => line_at(alloc, b"refused G2 Lex ", *at),
        ReadFault::Number { at } => line_at(alloc, b"refused G3 Number ", *at),
        ReadFault::Syntax { at } => line_at(alloc, b"refused G4 Syntax ", *at),
        ReadFault::Limit { which, at } => line_at(alloc, limit_words(*which), *at),
        ReadFault::Memory => Err(AllocError),
    }
}

fn limit_words(which: Which) -> &'static [u8]
    ensures { result.now ≡ codes "refused G5 Limit " ++ (limit_name which ++ codes " ") }
{
    match which {
        Which::Rules => b"refused G5 Limit rules ",
        Which::Alternatives => b"refused G5 Limit alternatives ",
        Which::Terms => b"refused G5 Limit terms ",
        Which::Depth => b"refused G5 Limit depth ",
    }
}

/// What is said of a name that stands for nothing, or twice, G6 to G11.
pub fn name_refusal(alloc: Global, fault: NameFault) -> Result<Settled, AllocError>
    ensures { IfOk result (λ settled. said_of settled ≡ name_said fault) }
{
    match fault {
        NameFault::DuplicateRule { at } => line_at(alloc, b"refused G6 DuplicateRule ", at),
        NameFault::UnknownRule { at } => line_at(alloc, b"refused G7 UnknownRule ", at),
        NameFault::DuplicateAttr { at } => line_at(alloc, b"refused G8 DuplicateAttr ", at),
        NameFault::UnknownAttr { at } => line_at(alloc, b"refused G9 UnknownAttr ", at),
        NameFault::PartAttr { at } => line_at(alloc, b"refused G10 PartAttr ", at),
        NameFault::NoOccurrence { at } => line_at(alloc, b"refused G11 NoOccurrence ", at),
        NameFault::Memory => Err(AllocError),
    }
}

/// A refusal that ends with a place.
fn line_at(alloc: Global, words: &[u8], at: u32) -> Result<Settled, AllocError>
    ensures { IfOk result (λ settled. said_of settled ≡ line_said Refused (words.now ++ decimal at)) }
{
    let mut buffer = Buffer::new();
    let mut told = Vec::from_slice(alloc, words)?;
    told.extend_from_slice(buffer.format(at).as_bytes())?;
    line(alloc, Status::Refused, &told)
}

/// A term: the name of its rule, its alternative and its own number, from 0.
#[derive(Clone, Copy)]
pub struct TermPlace<'a> {
    pub rule: &'a [u8],
    pub alt: u32,
    pub term: u32,
}

/// What is said where the terms of an alternative have no order, G12: the term is the leftmost that has no turn.
pub fn circular(alloc: Global, at: TermPlace<'_>) -> Result<Settled, AllocError>
    ensures { IfOk result (λ settled. said_of settled ≡ spec.circular at.entry.rule.now at.entry.alt at.entry.term) }
{
    line_of(alloc, b"refused G12 Circular ", at)
}

/// What is said of a repetition whose items may touch no byte, G14.
pub fn no_touch(alloc: Global, at: TermPlace<'_>) -> Result<Settled, AllocError>
    ensures { IfOk result (λ settled. said_of settled ≡ spec.no_touch at.entry.rule.now at.entry.alt at.entry.term) }
{
    line_of(alloc, b"refused G14 NoTouch ", at)
}

/// A refusal that ends with a term.
fn line_of(alloc: Global, words: &[u8], at: TermPlace<'_>) -> Result<Settled, AllocError>
    ensures { IfOk result (λ settled. said_of settled ≡ line_said Refused (words.now ++ term_words at.entry.rule.now at.entry.alt at.entry.term)) }
{
    let mut told = Vec::from_slice(alloc, words)?;
    told.extend_from_slice(at.rule)?;
    add_number(&mut told, at.alt)?;
    add_number(&mut told, at.term)?;
    line(alloc, Status::Refused, &told)
}

/// Appends a space and a number.
fn add_number(told: &mut Vec<u8>, number: u32) -> Result<(), AllocError>
    ensures { OnOk result (told.new.items ≡ told.old.items ++ 32 ∷ decimal number) }
{
    let mut buffer = Buffer::new();
    told.push(b' ')?;
    told.extend_from_slice(buffer.format(number).as_bytes())
}
