//! What is handed on along calls: flags in rows of 256, one row a rule.

ghost use Rattle.std.specs.Prelude.{◌≡◌, ◌<◌, ◌≤◌, ◌*◌, ◌⊎◌, length, IfOk, ℕ, List, true, false, Contains};
ghost use Rattle.std.specs.List.{AllByRecursion};
ghost use Rattle.ipg_core.specs.MustTouch.{is_marked};
ghost use Rattle.ipg_order.specs.Closure.{AreReached, AreSound, Stepped, IsHandedOn, AreHandedOn, unset, IsRow};
ghost use Rattle.ipg_order.specs.declared.closure.Hand.{Hand};

use std::alloc::{AllocError, Global};

/// How many flags a row has: one for each term that an alternative may have.
pub(crate) const ROW: usize = 256;

/// The callee's flags are handed on to the caller.
#[derive(Clone, Copy, Debug, PartialEq, Eq)]
pub(crate) struct Hand {
    pub caller: u32,
    pub callee: u32,
}

/// The flags of so many rows: those of the keys, and all that is handed on from row to row.
pub(crate) fn closure(
    alloc: Global,
    rows: usize,
    keys: &[u32],
    hands: &[Hand],
) -> Result<Vec<bool>, AllocError>
    requires rows { rows ≤ 1024 }
    requires keys { AllByRecursion (λ k. k < rows * 256) keys.now }
    requires hands { AllByRecursion (IsRow rows) hands.now }
    ensures { IfOk result (λ flags. AreReached rows keys.now hands.now flags.items) }
{
    let mut flags = vec![in alloc; false; rows * ROW]?;
    set_all(&mut flags, keys);
    while hand_on(&mut flags, rows, hands) {}
    Ok(flags)
}

fn set_all(flags: &mut Vec<bool>, keys: &[u32])
    requires { AllByRecursion (λ k. k < length flags.old.items) keys.now }
    ensures size { length flags.new.items ≡ length flags.old.items }
    ensures keeps { (k : ℕ) → is_marked flags.old.items k ≡ true → is_marked flags.new.items k ≡ true }
    ensures sets { (k : ℕ) → Contains keys.now k → is_marked flags.new.items k ≡ true }
    ensures only { (k : ℕ) → is_marked flags.new.items k ≡ true → (is_marked flags.old.items k ≡ true) ⊎ Contains keys.now k }
{
    for key in keys {
        flags[*key as usize] = true;
    }
}

/// One pass over the hands. Whether it set a flag.
fn hand_on(flags: &mut Vec<bool>, rows: usize, hands: &[Hand]) -> bool
    requires rows { rows ≤ 1024 }
    requires size { length flags.old.items ≡ rows * 256 }
    requires hands { AllByRecursion (IsRow rows) hands.now }
    ensures size { length flags.new.items ≡ rows * 256 }
    ensures keeps { (k : ℕ) → is_marked flags.old.items k ≡ true → is_marked flags.new.items k ≡ true }
    ensures sound { (keys : List ℕ) → AreSound keys hands.now flags.old.items → AreSound keys hands.now flags.new.items }
    ensures closed { result ≡ false → AreHandedOn hands.now flags.new.items }
    ensures fewer { result ≡ true → unset flags.new.items < unset flags.old.items }
{
    let mut more = false;
    for hand in hands {
        more |= hand_row(flags, rows, *hand);
    }
    more
}

/// Hands a row on. Whether that set a flag.
fn hand_row(flags: &mut Vec<bool>, rows: usize, hand: Hand) -> bool
    requires rows { rows ≤ 1024 }
    requires size { length flags.old.items ≡ rows * 256 }
    requires row { IsRow rows hand }
    ensures size { length flags.new.items ≡ rows * 256 }
    ensures keeps { (k : ℕ) → is_marked flags.old.items k ≡ true → is_marked flags.new.items k ≡ true }
    ensures sound { (keys : List ℕ) (hands : List Hand) → Contains hands hand → AreSound keys hands flags.old.items → AreSound keys hands flags.new.items }
    ensures closed { result ≡ false → (flags.new.items ≡ flags.old.items) × IsHandedOn 256 hand flags.new.items }
    ensures fewer { result ≡ true → unset flags.new.items < unset flags.old.items }
{
    let mut more = false;
    for column in 0..ROW {
        let from = hand.callee as usize * ROW + column;
        let to = hand.caller as usize * ROW + column;
        more |= step(flags, from, to);
    }
    more
}

/// Sets a flag where another one is set. Whether that is new.
fn step(flags: &mut Vec<bool>, from: usize, to: usize) -> bool
    requires { (from < length flags.old.items) × (to < length flags.old.items) }
    ensures { Stepped result flags.old.items from to flags.new.items }
{
    if !flags[from] || flags[to] {
        return false;
    }
    flags[to] = true;
    true
}
