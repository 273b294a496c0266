//! Why the names of a grammar don't resolve, and which of several faults is told.
ghost use Rattle.std.specs.Prelude.{◌≡◌, ◌||◌, ◌&&◌, nat_lt, nat_eq};
ghost use Rattle.ipg_names.specs.Fault as spec;
ghost use Rattle.ipg_names.specs.declared.fault.NameFault.TheVariants.{Memory};

use std::alloc::{AllocError, AllocFailed};
use thiserror::Error;

/// Why there is no resolved grammar; `at` is a place in the text, in bytes.
#[derive(Clone, Copy, Debug, PartialEq, Eq, Error)]
pub enum NameFault {
    /// The head has the name of an earlier rule, or of a primitive.
    #[error("a second rule of one name at {at}")]
    DuplicateRule { at: u32 },
    /// There is no rule of that name here.
    #[error("no rule of the name at {at}")]
    UnknownRule { at: u32 },
    /// The alternative sets the attribute twice, or a loop variable has its name.
    #[error("a second attribute of one name at {at}")]
    DuplicateAttr { at: u32 },
    /// There is no attribute of that name here.
    #[error("no attribute of the name at {at}")]
    UnknownAttr { at: u32 },
    /// Some alternatives of the rule set the attribute, and some don't.
    #[error("not each alternative sets the attribute at {at}")]
    PartAttr { at: u32 },
    /// There is no term to refer to.
    #[error("no term to refer to at {at}")]
    NoOccurrence { at: u32 },
    #[error("out of memory")]
    Memory,
}

impl From<AllocError> for NameFault {
    ghost from_gives = { λ _ e. e ≡ Memory };

    fn from(_e: AllocError) -> NameFault {
        NameFault::Memory
    }
}

impl<T: Drop> From<AllocFailed<T>> for NameFault {
    ghost from_gives = { λ _ e. e ≡ Memory };

    fn from(_e: AllocFailed<T>) -> NameFault {
        NameFault::Memory
    }
}

fn number(fault: NameFault) -> u32
    ensures { result ≡ spec.number_of fault }
{
    match fault {
        NameFault::DuplicateRule { .. } => 6,
        NameFault::UnknownRule { .. } => 7,
        NameFault::DuplicateAttr { .. } => 8,
        NameFault::UnknownAttr { .. } => 9,
        NameFault::PartAttr { .. } => 10,
        NameFault::NoOccurrence { .. } => 11,
        NameFault::Memory => 12,
    }
}

fn place(fault: NameFault) -> u32
    ensures { result ≡ spec.place_of fault }
{
    match fault {
        NameFault::DuplicateRule { at } => at,
        NameFault::UnknownRule { at } => at,
        NameFault::DuplicateAttr { at } => at,
        NameFault::UnknownAttr { at } => at,
        NameFault::PartAttr { at } => at,
        NameFault::NoOccurrence { at } => at,
        NameFault::Memory => 0,
    }
}

fn is_before(a: NameFault, b: NameFault) -> bool
    ensures { result ≡ spec.is_before a b }
{
    number(a) < number(b) || number(a) == number(b) && place(a) < place(b)
}

/// The one of the two that is told, where there is one.
pub fn earlier(a: Option<NameFault>, b: Option<NameFault>) -> Option<NameFault>
    ensures { result ≡ spec.earlier a b }
{
    match (a, b) {
        (None, b) => b,
        (Some(a), None) => Some(a),
        (Some(a), Some(b)) => Some(if is_before(b, a) { b } else { a }),
    }
}
