//! Symbols that fail on an interval.

ghost use Rattle.std.specs.Prelude.{◌≡◌, ◌≤◌, ℕ, length, slice_get, Some, None, Option};
ghost use Rattle.ipg_core.specs.declared.grammar.Sym.{Sym};
ghost use Rattle.ipg_core.specs.declared.grammar.Sym.TheVariants.{Prim};
ghost use Rattle.ipg_core.specs.Meaning.{item_end};
ghost use Rattle.ipg_mach_failures.specs.Failing as spec;
ghost use Rattle.ipg_mach_watch.specs.Agreeing.{begins};

use ipg_core::grammar::{Primitive, Sym};
use ipg_mach_failures::{Cause, Miss};
use ipg_mach_slot::PartSite;

/// Whether the first byte is this one.
fn begins_with(bytes: &[u8], want: u8) -> bool
    ensures { result ≡ begins bytes.now want }
{
    bytes.first() == Some(&want)
}

/// How many bytes agree with those that are wanted, before the first that doesn't.
fn agreed(wanted: &[u8], bytes: &[u8]) -> u64
    ensures count { result ≡ spec.agreed wanted.now bytes.now }
    ensures small { result ≤ length wanted.now }
{
    let mut left = wanted;
    let mut rest = bytes;
    let mut count = 0u64;
    while let Some((want, others)) = left.split_first() {
        if !begins_with(rest, *want) {
            return count;
        }
        left = others;
        rest = &rest[1..];
        count += 1;
    }
    count
}

/// A terminal that the bytes from a place of the part on don't begin with.
fn token(branch: u64, from: u32, bytes: &[u8], token: &[u8]) -> Option<Miss>
    ensures { result ≡ spec.token_fails branch from bytes.now token.now }
{
    if bytes.starts_with(token) {
        return None;
    }
    let agreed = agreed(token, bytes);
    Some(Miss {
        branch,
        cause: Cause::Differs { agreed },
        place: Some(u64::from(from) + agreed),
    })
}

/// A number for which the bytes from a place of the part on are too few.
fn number(branch: u64, from: u32, bytes: &[u8], prim: Primitive) -> Option<Miss>
    ensures { result ≡ spec.number_fails branch from bytes.now prim }
{
    if bytes.len() >= prim.width() as usize {
        return None;
    }
    let left = bytes.len() as u64;
    Some(Miss {
        branch,
        cause: Cause::CutShort { left },
        place: Some(u64::from(from) + left),
    })
}

/// A symbol that fails on a valid interval of the part.
pub(crate) fn symbol(site: &PartSite<'_>, branch: u64, sym: u32, ends: (u32, u32)) -> Option<Miss>
    requires { (ends.0 ≤ ends.1) × (ends.1 ≤ length site.now.bytes.now) }
    ensures { (one : Sym) → slice_get site.now.tables.now.syms sym ≡ Some one
        → result ≡ spec.symbol_fails branch site.now.bytes.now ends.0 ends.1 one }
{
    let part = &site.bytes[ends.0 as usize..ends.1 as usize];
    match site.tables.symbol_at(sym) {
        Some(Sym::Text(text)) => token(branch, ends.0, part, text.as_slice()),
        Some(Sym::Prim(prim)) => number(branch, ends.0, part, *prim),
        Some(Sym::Rule(_)) => None,
        None => None,
    }
}

/// A number for which what is left of a repetition is too short.
fn number_item(bytes: &[u8], prim: Primitive, from: u32, to: u32) -> Option<Miss>
    requires { (from ≤ to) × (to ≤ length bytes.now) }
    ensures { result ≡ spec.item_fails bytes.now from to (Prim prim) (item_end from to (Prim prim)) }
{
    let left = to - from;
    if left >= prim.width() {
        return None;
    }
    Some(Miss {
        branch: 0,
        cause: Cause::CutShort {
            left: u64::from(left),
        },
        place: Some(u64::from(to)),
    })
}

/// An item of a repetition that fails on what is left.
pub(crate) fn turn(site: &PartSite<'_>, sym: u32, from: u32, to: u32) -> Option<Miss>
    requires { (from ≤ to) × (to ≤ length site.now.bytes.now) }
    ensures { (one : Sym) → slice_get site.now.tables.now.syms sym ≡ Some one
        → result ≡ spec.item_fails site.now.bytes.now from to one (item_end from to one) }
{
    match site.tables.symbol_at(sym) {
        Some(Sym::Prim(prim)) => number_item(site.bytes, *prim, from, to),
        Some(Sym::Text(_)) => symbol(site, 0, sym, (from, to)),
        Some(Sym::Rule(_)) | None => None,
    }
}
