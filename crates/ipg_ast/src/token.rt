use crate::{Name, Symbol};

/// The words that are no names.
#[derive(Clone, Copy, Debug, PartialEq, Eq)]
pub enum Reserved {
    For,
    To,
    Do,
    Switch,
    Case,
    Else,
    Where,
    Start,
    End,
    Eoi,
    Tok,
    Many,
}

/// A token without its place: a name, a reserved word, a number, a string's bytes or a symbol.
#[derive(Debug, Drop)]
pub enum TokenKind {
    Name(Name),
    Word(Reserved),
    Number(i64),
    Text(Name),
    Symbol(Symbol),
}
