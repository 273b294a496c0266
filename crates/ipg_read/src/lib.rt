//! Reads a text as a grammar, or finds its first fault.
#![tactic(auto)]

mod build;
mod count;
mod limits;
mod reading;

pub use ipg_ast::Grammar;
pub use ipg_read_tokens::{ReadFault, Token, TokenKind, Which, tokens};
pub use reading::read;
