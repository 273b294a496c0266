//! A grammar as it is written, and its canonical text.
#![tactic(auto)]

mod grammar;
mod put;
mod symbol;
mod text;
mod token;

pub use grammar::{
    Alt, Case, Expr, Field, Grammar, Ident, Name, Place, Rule, Slot, Span, Term, What,
};
pub use symbol::Symbol;
pub use text::text_of;
pub use token::{Reserved, TokenKind};
