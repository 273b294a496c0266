//! What is kept for a parse.

ghost use Rattle.std.specs.Prelude.{◌≡◌, IfOk, Result};
ghost use Rattle.ipg_mach_nodes.specs.Stored.{Source, Stored, nothing};
ghost use Rattle.ipg_mach.specs.Known.{IsKnown};
ghost use Rattle.ipg_mach.specs.Turning.{known_at, memo_at};

use crate::machine::Remember;
use ipg_mach_nodes::Store;
use ipg_memo::Memo;
use std::alloc::{AllocError, Allocator};

/// Nodes, and the answers of calls that stand among them. Without a memo answers aren't remembered.
#[derive(Drop)]
pub struct Kept<A: Allocator> {
    pub store: Store<A>,
    pub memo: Option<Memo<A>>,
}

/// A memo without entries, where answers are remembered.
fn memo_for<A: Allocator + Clone + Drop>(alloc: A, remember: Remember) -> Option<Memo<A>>
    ensures memo { result ≡ memo_at remember }
    ensures known { (src : Source) (st : Stored) → IsKnown src st result (known_at remember) }
{
    match remember {
        Remember::Nothing => None,
        Remember::Answers => Some(Memo::new(alloc)),
    }
}

impl<A: Allocator + Clone + Drop> Kept<A> {
    /// Nothing is kept so far.
    pub fn new(alloc: A, remember: Remember) -> Result<Kept<A>, AllocError>
        ensures store { IfOk result (λ kept. kept.store ≡ nothing) }
        ensures memo { IfOk result (λ kept. kept.memo ≡ memo_at remember) }
        ensures known { IfOk result (λ kept. (src : Source) → IsKnown src kept.store kept.memo (known_at remember)) }
    {
        let memo = memo_for(alloc.clone()?, remember);
        Ok(Kept {
            store: Store::new(alloc)?,
            memo,
        })
    }
}
