//! Numbers as bytes.
ghost use Rattle.std.specs.Prelude.{◌≡◌, ℕ, ◌^◌, ◌<◌, ◌≤◌, length, Some, None, MatchOption};
ghost use Rattle.ipg_cover_leaves.specs.Bytes as spec;
ghost use Rattle.ipg_cover_leaves.specs.Bytes.{limits, written, number_bytes};

use ipg_core::grammar::Primitive;

/// Both halves of a number; the upper one is 0 where the primitive has at most 32 bits.
#[derive(Clone, Copy, Debug, PartialEq, Eq)]
pub struct Halves {
    pub high: u32,
    pub low: u32,
}

/// What both halves of a number lie below.
#[derive(Clone, Copy, Debug, PartialEq, Eq)]
pub struct Limits {
    pub high: u64,
    pub low: u64,
}

fn limits_of(prim: Primitive) -> Limits
    ensures { (result.high ≡ (limits prim).0) × (result.low ≡ (limits prim).1) }
{
    let (high, low) = match prim {
        Primitive::U8 => (1, 1 << 8),
        Primitive::U16LE | Primitive::U16BE => (1, 1 << 16),
        Primitive::U32LE | Primitive::U32BE => (1, 1 << 32),
        Primitive::U64LE | Primitive::U64BE => (1 << 32, 1 << 32),
        Primitive::Bytes => (0, 0),
    };
    Limits { high, low }
}

/// The number, where it lies from 0 to one less than `limit`.
fn below(limit: u64, number: i64) -> Option<u32>
    requires { limit ≤ 2 ^ 32 }
    ensures { result ≡ spec.below limit number }
{
    match u32::try_from(number) {
        Ok(n) if u64::from(n) < limit => Some(n),
        _ => None,
    }
}

/// The halves of a number; None where the primitive can't have it.
pub fn halves_of(prim: Primitive, high: &i64, low: &i64) -> Option<Halves>
    ensures { MatchOption result (number_bytes prim high.now low.now ≡ None)
        (λ halves. (halves.low < (limits prim).1) × (number_bytes prim high.now low.now ≡ Some (written prim halves.high halves.low))) }
{
    let limits = limits_of(prim);
    match (below(limits.high, *high), below(limits.low, *low)) {
        (Some(high), Some(low)) => Some(Halves { high, low }),
        _ => None,
    }
}

/// How many bytes a number of the primitive has.
pub fn width_of(prim: Primitive) -> u64
    ensures { (high : ℕ) → (low : ℕ) → result ≡ length (written prim high low) }
{
    match prim {
        Primitive::U8 => 1,
        Primitive::U16LE | Primitive::U16BE => 2,
        Primitive::U32LE | Primitive::U32BE => 4,
        Primitive::U64LE | Primitive::U64BE => 8,
        Primitive::Bytes => 0,
    }
}
