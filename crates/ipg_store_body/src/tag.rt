//! The bytes that tell variants apart: each is a place in one of these tables.

use ipg_num::Op2;

/// Of a symbol.
#[derive(Clone, Copy)]
pub enum SymTag {
    Text,
    Prim,
    Rule,
}

/// Of a field.
#[derive(Clone, Copy)]
pub enum FieldTag {
    Attr,
    Start,
    End,
}

/// Of an expression that has no expression in it.
#[derive(Clone, Copy)]
pub enum Leaf {
    Num,
    Eoi,
    Own,
    Outer,
    Loop,
    Seen,
}

/// Of an expression that has some.
#[derive(Clone, Copy)]
pub enum Node {
    Item,
    After,
    Neg,
    Not,
    Two,
    Both,
    Either,
    Cond,
}

/// Of any expression.
#[derive(Clone, Copy)]
pub enum ExprTag {
    Leaf(Leaf),
    Node(Node),
}

/// Of a term.
#[derive(Clone, Copy)]
pub enum TermTag {
    Slot,
    Set,
    Test,
    Repeat,
    Pick,
    Many,
}

/// Of a rule: whether it has a holder.
#[derive(Clone, Copy)]
pub enum HolderTag {
    Global,
    Local,
}

pub const SYM_TAGS: [SymTag; 3] = [SymTag::Text, SymTag::Prim, SymTag::Rule];

pub const FIELD_TAGS: [FieldTag; 3] = [FieldTag::Attr, FieldTag::Start, FieldTag::End];

pub const LEAVES: [Leaf; 6] = [
    Leaf::Num,
    Leaf::Eoi,
    Leaf::Own,
    Leaf::Outer,
    Leaf::Loop,
    Leaf::Seen,
];

pub const EXPR_TAGS: [ExprTag; 14] = [
    ExprTag::Leaf(Leaf::Num),
    ExprTag::Leaf(Leaf::Eoi),
    ExprTag::Leaf(Leaf::Own),
    ExprTag::Leaf(Leaf::Outer),
    ExprTag::Leaf(Leaf::Loop),
    ExprTag::Leaf(Leaf::Seen),
    ExprTag::Node(Node::Item),
    ExprTag::Node(Node::After),
    ExprTag::Node(Node::Neg),
    ExprTag::Node(Node::Not),
    ExprTag::Node(Node::Two),
    ExprTag::Node(Node::Both),
    ExprTag::Node(Node::Either),
    ExprTag::Node(Node::Cond),
];

pub const TERM_TAGS: [TermTag; 6] = [
    TermTag::Slot,
    TermTag::Set,
    TermTag::Test,
    TermTag::Repeat,
    TermTag::Pick,
    TermTag::Many,
];

pub const HOLDER_TAGS: [HolderTag; 2] = [HolderTag::Global, HolderTag::Local];

pub const OPERATORS: [Op2; 16] = [
    Op2::Add,
    Op2::Sub,
    Op2::Mul,
    Op2::Div,
    Op2::Mod,
    Op2::Shl,
    Op2::Shr,
    Op2::BitAnd,
    Op2::BitOr,
    Op2::BitXor,
    Op2::Eq,
    Op2::Ne,
    Op2::Lt,
    Op2::Le,
    Op2::Gt,
    Op2::Ge,
];
