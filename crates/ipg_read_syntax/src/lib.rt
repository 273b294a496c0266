//! The grammar of grammars: when the tokens of a text are those of a grammar, and the machine that finds it.
#![tactic(auto)]

pub mod laws;
