//! Why a file isn't loaded.

use thiserror::Error;

/// The first thing at fault in a file, or want of memory. A place in the body, or in the certificate's text, is counted from
/// its first byte; an entry of the certificate from 0.
#[derive(Clone, Copy, Debug, Drop, Error, PartialEq, Eq)]
pub enum LoadFault {
    /// The file doesn't begin as a table file does.
    #[error("the file is no table file")]
    Magic,
    /// The file has fewer than 16 bytes, or the body's length is above the number of those that follow.
    #[error("the file ends within its body")]
    Length,
    /// No body goes on with this byte, or the body ends too early.
    #[error("no body goes on at byte {at}")]
    Body { at: u64 },
    /// No good grammar has these names and rules.
    #[error("no good grammar has these names and rules")]
    NotGood,
    /// No certificate's text goes on with this byte, or the text ends too early.
    #[error("no certificate goes on at byte {at}")]
    CertText { at: u64 },
    /// The certificate doesn't prove the grammar; this is the first entry at fault.
    #[error("entry {at} of the certificate doesn't prove the grammar")]
    Proof { at: u64 },
    /// No memory was left.
    #[error("no memory is left")]
    Memory,
}
