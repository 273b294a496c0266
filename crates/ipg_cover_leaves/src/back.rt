//! Puts leaves back into bytes.
ghost use Rattle.std.specs.Prelude.{◌≡◌, ℕ, ◌≤◌, ◌^◌, List, length, Some, MatchOption, MatchResult};
ghost use Rattle.std.specs.List.{All};
ghost use Rattle.ipg_cover_leaves.specs.declared.fault.PutFault.TheVariants.{Memory};
ghost use Rattle.ipg_cover_leaves.specs.Back.{HasBytes, IsInside, IsFirstNot, IsBack, IsPutFault};

use crate::fault::PutFault;
use crate::leaf::Leaf;
use crate::page::Page;
use std::alloc::Global;

/// The first leaf with a number that its primitive can't have.
fn without_bytes(leaves: &[Leaf]) -> Option<u64>
    ensures { MatchOption result (All HasBytes leaves.now) (IsFirstNot HasBytes leaves.now) }
{
    for (n, leaf) in leaves.iter().enumerate() {
        if !leaf.has_bytes() {
            return Some(n as u64);
        }
    }
    None
}

/// The first leaf that has a byte at or past a length.
fn outside(leaves: &[Leaf], len: u32) -> Option<u64>
    requires { All HasBytes leaves.now }
    ensures { MatchOption result (All (IsInside len) leaves.now) (IsFirstNot (IsInside len) leaves.now) }
{
    for (n, leaf) in leaves.iter().enumerate() {
        if !leaf.is_inside(len) {
            return Some(n as u64);
        }
    }
    None
}

/// The bytes of a length that leaves put, each at its place; leaves may lie over one another where they agree.
///
/// # Errors
/// The first that holds: `Value`, where a number is none that its primitive can have; `Outside`, where a leaf has a byte at
/// or past the length; `Clash`, where two leaves put different bytes at a place; `Gap`, where none puts one. `Memory` where
/// memory is wanting.
pub fn put_back(alloc: Global, leaves: &[Leaf], len: u32) -> Result<Vec<u8>, PutFault>
    ensures is { MatchResult result (λ bytes. IsBack leaves.now len bytes.items) (IsPutFault leaves.now len) }
{
    if let Some(leaf) = without_bytes(leaves) {
        return Err(PutFault::Value { leaf });
    }
    if let Some(leaf) = outside(leaves, len) {
        return Err(PutFault::Outside { leaf });
    }
    let mut page = Page::new(alloc, len)?;
    page.put_leaves(leaves);
    match page.clash() {
        Some(at) => Err(PutFault::Clash { at }),
        None => page.bytes(alloc),
    }
}
