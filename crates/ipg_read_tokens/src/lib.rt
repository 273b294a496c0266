//! The tokens of a grammar's text.
#![tactic(auto)]

mod class;
mod fault;
mod front;
mod name;
mod number;
mod room;
mod scan;
mod string;
mod symbol;
mod token;

pub use fault::{ReadFault, Which};
pub use ipg_ast::TokenKind;
pub use scan::tokens;
pub use token::Token;
