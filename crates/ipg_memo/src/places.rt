ghost use Rattle.std.specs.Prelude.{◌≡◌, ◌≤◌, ◌<◌, ◌^◌};
ghost use Rattle.ipg_memo.specs.Places as places;
ghost use Rattle.ipg_memo.specs.Parted.{IsSmall};

use crate::memo::Key;

/// The factors that mix a key's numbers: 2^64 over the golden ratio, what takes it to 2^64 times the square root of 2, and one
/// with bits that look random. So keys evenly apart get places evenly apart, whether `from` goes up, or both do.
const OF_FROM: u128 = 11400714819323198485;

const OF_TO: u128 = 14686920831342365939;

const OF_RULE: u128 = 14029467366897019727;

/// So many heads lie side by side, in a line of a processor's cache.
const LINE: u32 = 16;

/// So many bits has each number of a key.
pub(crate) const BITS: u32 = 32;

/// What a key's numbers are mixed to. Keys that differ only in the last three bits of their places come to the same.
#[tactic(auto, unfolding(crate::specs::Places::mixed))]
#[inline(always)]
fn mixed(key: &Key) -> u128
    ensures value { result ≡ places.mixed key.now }
    ensures small { result < 2 ^ 98 }
{
    u128::from(key.from / 8) * OF_FROM
        + u128::from(key.to / 8) * OF_TO
        + u128::from(key.rule) * OF_RULE
}

/// The head of a key.
#[tactic(auto, unfolding(crate::specs::Places::home))]
#[inline(always)]
pub(crate) fn home(heads: u32, key: &Key) -> usize
    ensures value { result ≡ places.home heads key.now }
    ensures bits { IsSmall key.now }
{
    let mixed = mixed(key);
    let high = ((mixed >> 32) % (1 << 32)) as u64;
    let line = (high * u64::from(heads / LINE)) >> 32;
    let slot = (u128::from(key.from) + 2 * u128::from(key.to) + (mixed >> 12)) % 16;
    (line * u64::from(LINE) + slot as u64) as usize
}

/// The cell under a row that a key goes to, while so many bits are left.
#[tactic(auto, unfolding(crate::specs::Places::side))]
#[inline(always)]
pub(crate) fn side(key: &Key, left: u32) -> usize
    requires { left ≤ 32 }
    ensures value { result ≡ places.side key.now left }
    ensures small { result < 8 }
{
    let bit = BITS - left;
    let rule = (u64::from(key.rule) >> bit) % 2;
    let from = (u64::from(key.from) >> bit) % 2;
    let to = (u64::from(key.to) >> bit) % 2;
    (rule * 4 + from * 2 + to) as usize
}
