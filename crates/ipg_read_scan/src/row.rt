use crate::lexeme::{Infix, Label};
use ipg_ast::Span;

/// Alternatives are those of a rule of the grammar, or of a local rule.
#[derive(Clone, Copy)]
pub enum Site {
    Global,
    Local,
}

/// What a slot with its interval is for; `Many` has the place of its `many`.
#[derive(Clone, Copy)]
pub enum Role {
    Term,
    Many(Span),
    Case,
    Other,
}

/// No interval, `[length]`, or `[left, right]`.
#[derive(Clone, Copy)]
pub enum Extent {
    Open,
    Length,
    Ends,
}

/// What follows a `.`.
#[derive(Clone, Copy)]
pub enum Member<'a> {
    Named(Label<'a>),
    Start,
    End,
}

/// What reading makes of tokens, each form after its parts. A number of type `usize` is that of a token.
#[derive(Clone, Copy)]
pub enum Row<'a> {
    /// A rule begins, local or not.
    Rule(usize),
    /// A name, which a later row takes.
    Name(Label<'a>),
    /// An alternative begins, and its first term.
    First(Site, usize),
    /// A further term begins.
    Term(usize),
    Text(Label<'a>),
    Call(Label<'a>),
    /// A slot's interval, or that of a repetition, which ends the slot or the repetition.
    Placed(Extent, Role),
    Set,
    Test(Span),
    Repeat,
    Pick(Span),
    /// An alternative ends, and another follows.
    NextAlt(Site),
    /// An alternative ends, and its rule.
    EndRule(Site),
    /// The local rules of an alternative follow.
    Locals,
    /// An alternative with local rules ends.
    EndLocals,
    /// A rule ends after an alternative with local rules.
    Close,
    Num(i64),
    Eoi,
    Id,
    Part(Member<'a>),
    Item(Member<'a>),
    Group,
    Neg,
    Not,
    Two(Infix),
    Cond,
    /// A whole expression ends, which began at the token.
    Whole(usize),
}
