//! An order by what each item needs: always the least that isn't taken and whose needs all are.

ghost use Rattle.std.specs.Prelude.{◌≡◌, ◌<◌, ◌≤◌, length, IfOk, IfSome, IfNone, ℕ, true, false, Contains};
ghost use Rattle.ipg_core.specs.MustTouch.{is_marked as is_set};
ghost use Rattle.ipg_order.specs.Needs.{needs_at, IsReady, IsArrangement, IsFirstReady, IsFirstFree};
ghost use Rattle.std.specs.Bool.{Decides};

use ipg_num::{List, item_at};
use std::alloc::{AllocError, Global};

/// All items in their order, or the least that is left once no item can be taken.
#[derive(Drop)]
pub(crate) enum Arrangement {
    Whole(Vec<u32>),
    Stuck(u32),
}

/// The order of as many items as there are lists of needs; each list names items by number. It looks at each need once
/// for each item that is taken, at most.
pub(crate) fn arrange(alloc: Global, needs: &[List<u32>]) -> Result<Arrangement, AllocError>
    requires { length needs.now ≤ 256 }
    ensures { IfOk result (λ s. IsArrangement needs.now s) }
{
    let mut taken = vec![in alloc; false; needs.len()]?;
    let mut order = Vec::with_capacity(alloc, needs.len())?;
    while let Some(next) = first_ready(needs, taken.as_slice()) {
        taken[next as usize] = true;
        order.push(next)?;
    }
    match first_free(taken.as_slice()) {
        Some(left) => Ok(Arrangement::Stuck(left)),
        None => Ok(Arrangement::Whole(order)),
    }
}

fn first_ready(needs: &[List<u32>], taken: &[bool]) -> Option<u32>
    requires { length needs.now ≤ 256 }
    ensures some { IfSome result (λ u. IsFirstReady needs.now taken.now u) }
    ensures none { IfNone result ((w : ℕ) → IsReady needs.now taken.now w → ⊥) }
{
    for (item, needed) in needs.iter().enumerate() {
        if !is_taken(taken, item) && are_taken(taken, needed.as_slice()) {
            return Some(item as u32);
        }
    }
    None
}

fn first_free(taken: &[bool]) -> Option<u32>
    requires { length taken.now ≤ 256 }
    ensures some { IfSome result (λ u. IsFirstFree taken.now u) }
    ensures none { IfNone result ((w : ℕ) → w < length taken.now → is_set taken.now w ≡ true) }
{
    for (item, mark) in taken.iter().enumerate() {
        if !*mark {
            return Some(item as u32);
        }
    }
    None
}

fn is_taken(taken: &[bool], item: usize) -> bool
    ensures { result ≡ is_set taken.now item }
{
    match item_at(taken, item) {
        Some(mark) => *mark,
        None => false,
    }
}

fn are_taken(taken: &[bool], items: &[u32]) -> bool
    ensures { Decides result ((v : ℕ) → Contains items.now v → is_set taken.now v ≡ true) }
{
    for item in items {
        if !is_taken(taken, *item as usize) {
            return false;
        }
    }
    true
}
