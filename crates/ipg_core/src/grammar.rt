//! The core grammar: references resolved, intervals complete, terms in order.

ghost use Rattle.std.specs.Prelude.{◌≡◌, ◌≤◌, length, bytes_eq};
ghost use Rattle.ipg_core.specs.Grammar as spec;
ghost use Rattle.ipg_core.specs.Lines as lines;
ghost use Rattle.ipg_core.specs.Touch as touch;

use ipg_num::{Held, List, Op2};

/// A name, as its bytes.
pub type Name = List<u8>;

/// The primitives: numbers by their width in bits and their byte order, and raw bytes.
#[derive(Clone, Copy, Debug, PartialEq, Eq)]
pub enum Primitive {
    U8,
    U16LE,
    U16BE,
    U32LE,
    U32BE,
    U64LE,
    U64BE,
    Bytes,
}

/// All primitives, each at its number.
pub const PRIMITIVES: [Primitive; 8] = [
    Primitive::U8,
    Primitive::U16LE,
    Primitive::U16BE,
    Primitive::U32LE,
    Primitive::U32BE,
    Primitive::U64LE,
    Primitive::U64BE,
    Primitive::Bytes,
];

impl Primitive {
    /// Its place in the list of primitives, from 0 on.
    pub fn number(self) -> u8
        ensures { result ≡ spec.primitive_number self }
    {
        self as u8
    }

    /// How many bytes a number takes; 0 for raw bytes, which have no width of their own.
    pub fn width(self) -> u32
        ensures value { result ≡ touch.width self }
        ensures small { result ≤ 8 }
    {
        match self {
            Primitive::U8 => 1,
            Primitive::U16LE | Primitive::U16BE => 2,
            Primitive::U32LE | Primitive::U32BE => 4,
            Primitive::U64LE | Primitive::U64BE => 8,
            Primitive::Bytes => 0,
        }
    }

    /// Its word in a grammar, of at most five letters.
    pub fn word(self) -> &'static [u8]
        ensures name { result.now ≡ lines.primitive_name self }
        ensures long { length result.now ≤ 5 }
    {
        match self {
            Primitive::U8 => b"U8",
            Primitive::U16LE => b"U16LE",
            Primitive::U16BE => b"U16BE",
            Primitive::U32LE => b"U32LE",
            Primitive::U32BE => b"U32BE",
            Primitive::U64LE => b"U64LE",
            Primitive::U64BE => b"U64BE",
            Primitive::Bytes => b"Bytes",
        }
    }

    fn has_word(self, name: &[u8]) -> bool
        ensures { result ≡ bytes_eq name.now (lines.primitive_name self) }
    {
        name == self.word()
    }

    /// The primitive that the name is the word of, if it is one's.
    pub fn of_word(name: &[u8]) -> Option<Primitive>
        ensures { result ≡ lines.primitive_of name.now }
    {
        if Primitive::U8.has_word(name) {
            Some(Primitive::U8)
        } else if Primitive::U16LE.has_word(name) {
            Some(Primitive::U16LE)
        } else if Primitive::U16BE.has_word(name) {
            Some(Primitive::U16BE)
        } else if Primitive::U32LE.has_word(name) {
            Some(Primitive::U32LE)
        } else if Primitive::U32BE.has_word(name) {
            Some(Primitive::U32BE)
        } else {
            Primitive::of_wide_word(name)
        }
    }

    fn of_wide_word(name: &[u8]) -> Option<Primitive>
        ensures { result ≡ lines.wide_primitive_of name.now }
    {
        if Primitive::U64LE.has_word(name) {
            Some(Primitive::U64LE)
        } else if Primitive::U64BE.has_word(name) {
            Some(Primitive::U64BE)
        } else if Primitive::Bytes.has_word(name) {
            Some(Primitive::Bytes)
        } else {
            None
        }
    }
}

/// What a slot parses: a terminal, a primitive, or the rule of that number.
#[derive(Debug, Drop)]
pub enum Sym {
    Text(Name),
    Prim(Primitive),
    Rule(u32),
}

/// A field of a result: the attribute of that number, or one of its ends.
#[derive(Clone, Copy, Debug, PartialEq, Eq)]
pub enum CoreField {
    Attr(u32),
    Start,
    End,
}

/// An expression, whose value is a number.
#[derive(Debug, Drop)]
pub enum CoreExpr {
    Num(i64),
    /// The length of the part at hand.
    Eoi,
    /// An attribute of the alternative itself.
    Own(u32),
    /// An attribute of the holder.
    Outer(u32),
    /// The loop variable.
    Loop,
    /// A field of the result of a slot or of a switch that took this symbol.
    Seen {
        term: u32,
        sym: Sym,
        field: CoreField,
    },
    /// A field of an item of an array or a repetition.
    Item {
        term: u32,
        index: Held<CoreExpr>,
        field: CoreField,
    },
    /// The greatest end of the items of an array or a repetition that touch, else `left`.
    After {
        term: u32,
        left: Held<CoreExpr>,
    },
    Neg(Held<CoreExpr>),
    Not(Held<CoreExpr>),
    Two(Op2, Held<CoreExpr>, Held<CoreExpr>),
    Both(Held<CoreExpr>, Held<CoreExpr>),
    Either(Held<CoreExpr>, Held<CoreExpr>),
    Cond(Held<CoreExpr>, Held<CoreExpr>, Held<CoreExpr>),
}

/// A symbol on an interval.
#[derive(Debug, Drop)]
pub struct CoreSlot {
    pub sym: Sym,
    pub from: CoreExpr,
    pub to: CoreExpr,
}

/// A term of an alternative, its names resolved and its intervals complete.
#[derive(Debug, Drop)]
pub enum CoreTerm {
    Slot(CoreSlot),
    Set {
        attr: u32,
        value: CoreExpr,
    },
    Test(CoreExpr),
    Repeat {
        first: CoreExpr,
        last: CoreExpr,
        item: Sym,
        from: CoreExpr,
        to: CoreExpr,
    },
    /// Items one after another on `[from, to]`, each from the end of the one before.
    Many {
        item: Sym,
        from: CoreExpr,
        to: CoreExpr,
    },
    Pick {
        cases: List<(CoreExpr, CoreSlot)>,
        other: CoreSlot,
    },
}

/// An alternative: its terms in text order, and the order in which they run.
#[derive(Debug, Drop)]
pub struct CoreAlt {
    pub terms: List<CoreTerm>,
    pub order: List<u32>,
}

/// A rule; a local one names its holder by rule and alternative.
#[derive(Debug, Drop)]
pub struct CoreRule {
    pub name: Name,
    pub holder: Option<(u32, u32)>,
    pub alts: List<CoreAlt>,
}
