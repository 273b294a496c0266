use ipg_num::{Held, List, Op2};

/// The bytes of a name, or of a string.
pub type Name = List<u8>;

/// Byte places in the text, from the first byte up to and not including `to`.
#[derive(Clone, Copy, Debug, PartialEq, Eq)]
pub struct Span {
    pub from: u32,
    pub to: u32,
}

/// A name, and where it stands.
#[derive(Debug, Drop)]
pub struct Ident {
    pub name: Name,
    pub span: Span,
}

/// A grammar's rules in the order of the text. The first is where parsing begins.
#[derive(Drop)]
pub struct Grammar {
    pub rules: List<Rule>,
}

/// A rule and its alternatives, which are tried in this order.
#[cycle(rules)]
#[derive(Drop)]
pub struct Rule {
    pub name: Ident,
    pub alts: List<Alt>,
}

/// One alternative, with the local rules of its `where`.
#[cycle(rules)]
#[derive(Drop)]
pub struct Alt {
    pub terms: List<Term>,
    pub locals: List<Rule>,
}

/// A term of an alternative.
#[derive(Drop)]
pub enum Term {
    Slot(Slot),
    /// `{name = value}`
    Set {
        name: Ident,
        value: Expr,
    },
    /// `?(cond)`; `at` is the place of its first token.
    Test {
        at: Span,
        cond: Expr,
    },
    /// `for var = first to last do item[from, to]`
    Repeat {
        var: Ident,
        first: Expr,
        last: Expr,
        item: Ident,
        from: Expr,
        to: Expr,
    },
    /// `many item place`; `at` is the place of its first token.
    Many {
        at: Span,
        item: Ident,
        place: Place,
    },
    /// `switch { case(cond) slot .. else other }`; `at` is the place of its first token.
    Pick {
        at: Span,
        cases: List<Case>,
        other: Slot,
    },
}

/// A case of a switch: its slot is parsed where the condition isn't 0.
#[derive(Drop)]
pub struct Case {
    pub cond: Expr,
    pub slot: Slot,
}

/// A terminal or a call, with its interval as written; `span` is the place of the string or the name.
#[derive(Drop)]
pub struct Slot {
    pub what: What,
    pub span: Span,
    pub place: Place,
}

/// A string of bytes, or the name of a rule or a primitive.
#[derive(Drop)]
pub enum What {
    Text(Name),
    Call(Name),
}

/// No interval, `[length]`, or `[left, right]`.
#[derive(Drop)]
pub enum Place {
    Open,
    Length(Expr),
    Ends(Expr, Expr),
}

/// An expression, as it is written.
#[derive(Drop)]
pub enum Expr {
    Num(i64),
    Eoi,
    Id(Ident),
    /// `A.f`
    Part(Ident, Field),
    /// `A(index).f`
    Item(Ident, Held<Expr>, Field),
    /// Parentheses, which are kept.
    Group(Held<Expr>),
    Neg(Held<Expr>),
    Not(Held<Expr>),
    Two(Op2, Held<Expr>, Held<Expr>),
    Both(Held<Expr>, Held<Expr>),
    Either(Held<Expr>, Held<Expr>),
    Cond(Held<Expr>, Held<Expr>, Held<Expr>),
}

/// What is read of a part: an attribute, or one of its ends.
#[derive(Drop)]
pub enum Field {
    Id(Ident),
    Start,
    End,
}
