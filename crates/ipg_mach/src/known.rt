//! What is known of calls.

ghost use Rattle.std.specs.Prelude.{◌≡◌, Option, Some, Result, OnOk};
ghost use Rattle.ipg_core.specs.Grammar.{Grammar, rule_at, holder_of};
ghost use Rattle.ipg_core.specs.Tree.{Tree};
ghost use Rattle.ipg_core.specs.Run.{Stop};
ghost use Rattle.ipg_mach_moves.specs.Moves as moves;
ghost use Rattle.ipg_mach_moves.specs.Moves.{Known};
ghost use Rattle.ipg_mach_nodes.specs.Stored.{Source, Stored};
ghost use Rattle.ipg_mach.specs.Known.{key_of, IsEntryOf, IsKnown};

use ipg_memo::{Entry, Key, Memo};
use std::alloc::{AllocError, Allocator};

/// The answer that is known of a call.
pub(crate) fn known<A: Allocator + Clone + Drop>(memo: &Option<Memo<A>>, key: Key) -> Option<Entry>
    ensures { (src : Source) (st : Stored) (known : Option Known) → IsKnown src st memo.now known
        → IsEntryOf src st key result (moves.known_of known (key_of key)) }
{
    match memo {
        Some(memo) => memo.get(key),
        None => None,
    }
}

/// An answer more, where the rule is global: that of a local one hangs on its holder's attributes too.
fn add<A: Allocator + Clone + Drop>(
    memo: &mut Memo<A>,
    holder: Option<(u32, u32)>,
    key: Key,
    entry: Entry,
) -> Result<(), AllocError>
    ensures { (src : Source) (st : Stored) (known : Known) (answer : Result Tree Stop) → IsKnown src st (Some memo.old) (Some known)
        → IsEntryOf src st key (Some entry) (Some answer)
        → OnOk result (IsKnown src st (Some memo.new) (Some (moves.learned holder known (key_of key) answer))) }
{
    match holder {
        Some(_) => Ok(()),
        None => memo.put(key, entry),
    }
}

/// An answer more, where the rule is global and there is a memo.
pub(crate) fn learn<A: Allocator + Clone + Drop>(
    memo: &mut Option<Memo<A>>,
    holder: Option<(u32, u32)>,
    key: Key,
    entry: Entry,
) -> Result<(), AllocError>
    ensures { (src : Source) (st : Stored) (g : Grammar) (known : Option Known) (answer : Result Tree Stop) → IsKnown src st memo.old known
        → IsEntryOf src st key (Some entry) (Some answer) → holder ≡ holder_of (rule_at g key.rule)
        → OnOk result (IsKnown src st memo.new (moves.learn g known (key_of key) answer)) }
{
    match memo {
        Some(memo) => add(memo, holder, key, entry),
        None => Ok(()),
    }
}
