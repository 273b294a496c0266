//! A symbol on an interval.

ghost use Rattle.std.specs.Prelude.{◌≡◌, ◌+◌, ◌-◌, ◌≤◌, ℕ, length, slice_get, IfSome, Some, None, nat_le, if◌then◌else◌};
ghost use Rattle.std.specs.Int.{w32, from_le_bytes, from_be_bytes};
ghost use Rattle.ipg_core.specs.declared.grammar.Sym.{Sym};
ghost use Rattle.ipg_core.specs.declared.grammar.Sym.TheVariants.{Text, Prim, Rule};
ghost use Rattle.ipg_core.specs.Part as part;
ghost use Rattle.ipg_core.specs.Touch.{width as wide};
ghost use Rattle.ipg_core.specs.Within.{IsInterval};
ghost use Rattle.ipg_core.specs.Environment.{Values};
ghost use Rattle.ipg_core.specs.Meaning as spec;
ghost use Rattle.ipg_core.specs.Meaning.{Frame, Place};
ghost use Rattle.ipg_mach_nodes.specs.Stored.{Stored, Source};
ghost use Rattle.ipg_mach_slot.specs.Found.{IsFound, LiesAt};
ghost use Rattle.ipg_mach_moves.specs.Moves.{silent};

use crate::found::Found;
use ipg_core::grammar::{Primitive, Sym};
use ipg_mach_nodes::Kid;
use ipg_table::tables::Tables;

/// The ends of an interval as places, where it is valid.
pub fn interval(size: u32, from: i64, to: i64) -> Option<(u32, u32)>
    ensures valid { result ≡ part.interval size from to }
    ensures inside { IfSome result (λ ends. (ends.0 ≤ ends.1) × (ends.1 ≤ size)) }
{
    if 0 <= from && from <= to && to <= i64::from(size) {
        Some((from as u32, to as u32))
    } else {
        None
    }
}

/// Where a number that is an item of a repetition ends its part.
fn number_end(from: u32, to: u32, wide: u32) -> Option<u32>
    requires { from ≤ to }
    ensures end { result ≡ (if nat_le (from + wide) to then Some (from + wide) else None) }
    ensures inside { IfSome result (λ end. (from ≤ end) × (end ≤ to)) }
{
    if wide <= to - from {
        Some(from + wide)
    } else {
        None
    }
}

fn primitive_end(from: u32, to: u32, prim: Primitive) -> Option<u32>
    requires { from ≤ to }
    ensures end { result ≡ spec.item_end from to (Prim prim) }
    ensures inside { IfSome result (λ end. (from ≤ end) × (end ≤ to)) }
{
    match prim {
        Primitive::Bytes => Some(to),
        _ => number_end(from, to, prim.width()),
    }
}

/// Where an item of a repetition from `from` to `to` ends its part: a number takes its width, all else what is left.
pub(crate) fn item_end(from: u32, to: u32, sym: &Sym) -> Option<u32>
    requires { from ≤ to }
    ensures end { result ≡ spec.item_end from to sym.now }
    ensures inside { IfSome result (λ end. (from ≤ end) × (end ≤ to)) }
{
    match sym {
        Sym::Prim(prim) => primitive_end(from, to, *prim),
        Sym::Text(_) => Some(to),
        Sym::Rule(_) => Some(to),
    }
}

fn little(bytes: &[u8]) -> u32
    requires { 4 ≤ length bytes.now }
    ensures { result ≡ from_le_bytes w32 bytes.now }
{
    u32::from_le_bytes([bytes[0], bytes[1], bytes[2], bytes[3]])
}

fn big(bytes: &[u8]) -> u32
    requires { 4 ≤ length bytes.now }
    ensures { result ≡ from_be_bytes w32 bytes.now }
{
    u32::from_be_bytes([bytes[0], bytes[1], bytes[2], bytes[3]])
}

/// The number that the first bytes hold, in halves of 32 bits where it has 64.
#[inline(always)]
fn halves(prim: Primitive, bytes: &[u8]) -> (u32, u32)
    requires { wide prim ≤ length bytes.now }
    ensures { result ≡ spec.halves prim bytes.now }
{
    match prim {
        Primitive::U8 => (0, u32::from(bytes[0])),
        Primitive::U16LE => (0, u32::from(u16::from_le_bytes([bytes[0], bytes[1]]))),
        Primitive::U16BE => (0, u32::from(u16::from_be_bytes([bytes[0], bytes[1]]))),
        Primitive::U32LE => (0, little(bytes)),
        Primitive::U32BE => (0, big(bytes)),
        Primitive::U64LE => (little(&bytes[4..]), little(bytes)),
        Primitive::U64BE => (big(bytes), big(&bytes[4..])),
        Primitive::Bytes => (0, 0),
    }
}

/// A terminal, the symbol of that number, where the bytes begin with it.
#[inline(always)]
#[tactic(auto, unfolding(ipg_core::specs::Meaning::token_on, ipg_core::specs::Run::finish, ipg_core::specs::Run::stop))]
fn token(sym: u32, ends: (u32, u32), bytes: &[u8], token: &[u8]) -> Found
    ensures { (src : Source) (st : Stored) (at : ℕ) (f : Frame) (own : Values) → slice_get src.syms sym ≡ Some (Text token.now)
        → IsInterval (length f.bytes) ends.0 ends.1 → length bytes.now ≡ ends.1 - ends.0
        → IsFound src st at f own result (spec.token_on ends.0 ends.1 bytes.now token.now) }
{
    if bytes.starts_with(token) {
        Found::Kid(Kid::Text {
            sym,
            from: ends.0,
            to: ends.1,
        })
    } else {
        Found::NoTree
    }
}

/// A number, where there are enough bytes.
#[inline(always)]
#[tactic(auto, unfolding(ipg_core::specs::Meaning::number_on, ipg_core::specs::Run::finish, ipg_core::specs::Run::stop))]
fn number(prim: Primitive, ends: (u32, u32), bytes: &[u8]) -> Found
    ensures { (src : Source) (st : Stored) (at : ℕ) (f : Frame) (own : Values) → IsInterval (length f.bytes) ends.0 ends.1
        → length bytes.now ≡ ends.1 - ends.0 → IsFound src st at f own result (spec.number_on ends.0 ends.1 bytes.now prim) }
{
    if bytes.len() < prim.width() as usize {
        return Found::NoTree;
    }
    let (high, low) = halves(prim, bytes);
    Found::Kid(Kid::Number {
        prim,
        from: ends.0,
        to: ends.1,
        high,
        low,
    })
}

/// A number, or all the bytes unread.
#[inline(always)]
#[tactic(auto, unfolding(ipg_core::specs::Run::finish))]
fn primitive(prim: Primitive, ends: (u32, u32), bytes: &[u8]) -> Found
    ensures { (src : Source) (st : Stored) (at : ℕ) (f : Frame) (own : Values) → part.part src.input (at + ends.0) (at + ends.1) ≡ bytes.now
        → IsInterval (length f.bytes) ends.0 ends.1 → length bytes.now ≡ ends.1 - ends.0
        → IsFound src st at f own result (spec.primitive_on ends.0 ends.1 bytes.now prim) }
{
    match prim {
        Primitive::Bytes => Found::Kid(Kid::Raw {
            from: ends.0,
            to: ends.1,
        }),
        _ => number(prim, ends, bytes),
    }
}

/// A call that is to be made.
#[tactic(auto, using(crate::proofs::Calling::rule_calls))]
fn call(rule: u32, ends: (u32, u32)) -> Found
    ensures { (src : Source) (st : Stored) (at : ℕ) (f : Frame) (place : Place) (own : Values) → IsInterval (length f.bytes) ends.0 ends.1
        → IsFound src st at f own result (spec.symbol_on silent f place own ends.0 ends.1 (Rule rule)) }
{
    Found::Call {
        rule,
        from: ends.0,
        to: ends.1,
    }
}

/// A symbol on a valid interval of a part.
#[inline(always)]
pub(crate) fn symbol(tables: &Tables, bytes: &[u8], sym: u32, ends: (u32, u32)) -> Found
    requires { (ends.0 ≤ ends.1) × (ends.1 ≤ length bytes.now) }
    ensures { (src : Source) (st : Stored) (at : ℕ) (f : Frame) (place : Place) (own : Values) (one : Sym) → src.syms ≡ tables.now.syms
        → slice_get tables.now.syms sym ≡ Some one → f.bytes ≡ bytes.now → LiesAt src.input at bytes.now
        → IsFound src st at f own result (spec.symbol_on silent f place own ends.0 ends.1 one) }
{
    let part = &bytes[ends.0 as usize..ends.1 as usize];
    match tables.symbol_at(sym) {
        Some(Sym::Text(text)) => token(sym, ends, part, text.as_slice()),
        Some(Sym::Prim(prim)) => primitive(*prim, ends, part),
        Some(Sym::Rule(rule)) => call(*rule, ends),
        None => Found::NoTree,
    }
}
