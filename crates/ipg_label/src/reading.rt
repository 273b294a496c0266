//! Which term an expression reads, where it reads that and nothing else.

ghost use Rattle.std.specs.Prelude.{◌≡◌, bytes_eq};
ghost use Rattle.ipg_core.specs.declared.grammar.CoreExpr.{out-CoreExpr};
ghost use Rattle.ipg_core.specs.Grammar.{name_at};
ghost use Rattle.ipg_label.specs.Reading as spec;

use ipg_core::grammar::{CoreExpr, CoreField, Name, Sym};
use ipg_num::{Op2, item_at};

/// What is read of a term.
#[derive(Clone, Copy, Debug, PartialEq, Eq)]
pub enum What {
    /// The attribute of that number, of a number that was read from bytes: its value or a half.
    Number(u32),
    /// The attribute of that number, of a part.
    Part(u32),
    /// Both halves of a number of 64 bits, put together.
    Joined,
}

/// A read of a term, by its number.
#[derive(Clone, Copy, Debug, PartialEq, Eq)]
pub struct Reading {
    pub term: u32,
    pub what: What,
}

/// Whether the attribute of that number has this name.
fn is_named(names: &[Name], attr: u32, word: &[u8]) -> bool
    ensures { result ≡ bytes_eq (name_at names.now attr) word.now }
{
    match item_at(names, attr as usize) {
        Some(name) => name.as_slice() == word,
        None => word.is_empty(),
    }
}

/// The read of a field of a term.
fn field_read(term: u32, sym: &Sym, field: CoreField) -> Option<Reading>
    ensures { result ≡ spec.field_read term sym.now field }
{
    match (sym, field) {
        (Sym::Prim(_), CoreField::Attr(attr)) => Some(Reading {
            term,
            what: What::Number(attr),
        }),
        (Sym::Rule(_), CoreField::Attr(attr)) => Some(Reading {
            term,
            what: What::Part(attr),
        }),
        _ => None,
    }
}

fn half_at(names: &[Name], word: &[u8], term: u32, sym: &Sym, field: CoreField) -> Option<u32>
    ensures { result ≡ spec.half_at names.now word.now term sym.now field }
{
    match (sym, field) {
        (Sym::Prim(_), CoreField::Attr(attr)) => {
            if is_named(names, attr, word) {
                Some(term)
            } else {
                None
            }
        }
        _ => None,
    }
}

/// The term of whose number the expression is the half of that name.
fn half(names: &[Name], word: &[u8], e: &CoreExpr) -> Option<u32>
    ensures { result ≡ spec.half names.now word.now (out-CoreExpr e.now) }
{
    match e {
        CoreExpr::Seen { term, sym, field } => half_at(names, word, *term, sym, *field),
        _ => None,
    }
}

fn is_number(value: i64, e: &CoreExpr) -> bool
    ensures { result ≡ spec.is_number value (out-CoreExpr e.now) }
{
    match e {
        CoreExpr::Num(other) => *other == value,
        _ => false,
    }
}

fn same_term(a: Option<u32>, b: Option<u32>) -> Option<u32>
    ensures { result ≡ spec.same_term a b }
{
    match (a, b) {
        (Some(t), Some(u)) => { if t == u { Some(t) } else { None } }
        _ => None,
    }
}

/// The term whose upper half the expression compares with 2^31.
fn is_small(names: &[Name], e: &CoreExpr) -> Option<u32>
    ensures { result ≡ spec.is_small names.now (out-CoreExpr e.now) }
{
    match e {
        CoreExpr::Two(Op2::Lt, a, b) => {
            if is_number(1 << 31, b.get()) {
                half(names, b"hi", a.get())
            } else {
                None
            }
        }
        _ => None,
    }
}

/// The term whose upper half the expression is, less 2^32.
fn less(names: &[Name], e: &CoreExpr) -> Option<u32>
    ensures { result ≡ spec.less names.now (out-CoreExpr e.now) }
{
    match e {
        CoreExpr::Two(Op2::Sub, a, b) => {
            if is_number(1 << 32, b.get()) {
                half(names, b"hi", a.get())
            } else {
                None
            }
        }
        _ => None,
    }
}

/// The term whose upper half the expression is, as it is or with a sign.
fn signed(names: &[Name], e: &CoreExpr) -> Option<u32>
    ensures { result ≡ spec.signed names.now (out-CoreExpr e.now) }
{
    match e {
        CoreExpr::Seen { term, sym, field } => half_at(names, b"hi", *term, sym, *field),
        CoreExpr::Cond(c, a, b) => {
            let whole = same_term(half(names, b"hi", a.get()), less(names, b.get()));
            same_term(is_small(names, c.get()), whole)
        }
        _ => None,
    }
}

/// The term whose upper half the expression is, 2^32 times.
fn scaled(names: &[Name], e: &CoreExpr) -> Option<u32>
    ensures { result ≡ spec.scaled names.now (out-CoreExpr e.now) }
{
    match e {
        CoreExpr::Two(Op2::Mul, a, b) => {
            if is_number(1 << 32, b.get()) {
                signed(names, a.get())
            } else {
                None
            }
        }
        _ => None,
    }
}

fn joined_read(term: Option<u32>) -> Option<Reading>
    ensures { result ≡ spec.joined_read term }
{
    match term {
        Some(term) => Some(Reading {
            term,
            what: What::Joined,
        }),
        None => None,
    }
}

/// What the expression reads of a term, where it reads that and nothing else.
pub fn read(names: &[Name], e: &CoreExpr) -> Option<Reading>
    ensures { result ≡ spec.read names.now (out-CoreExpr e.now) }
{
    match e {
        CoreExpr::Seen { term, sym, field } => field_read(*term, sym, *field),
        CoreExpr::Two(Op2::Add, a, b) => {
            let upper = scaled(names, a.get());
            joined_read(same_term(upper, half(names, b"lo", b.get())))
        }
        _ => None,
    }
}
