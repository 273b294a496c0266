//! Which terms of its holder each local rule waits for.

ghost use Rattle.std.specs.Prelude.{◌≡◌, map, IfOk};
ghost use Rattle.ipg_order.specs.Reading.{TellWaits, holders_of};

use crate::closure::closure;
use crate::locals::{all_hands, all_keys};
use ipg_complete::completed::{Completed, CompletedRule};
use std::alloc::{AllocError, Global};

/// Flags in rows of 256, a row a rule and a flag a term of its holder: those that set what the rule reads, itself or
/// through others. Rows of global rules say nothing.
pub(crate) fn waits(alloc: Global, c: &Completed) -> Result<Vec<bool>, AllocError>
    ensures { IfOk result (λ flags. TellWaits c.now flags.items) }
{
    let rules = c.rules();
    let keys = all_keys(alloc, rules)?;
    let hands = all_hands(alloc, rules)?;
    closure(alloc, rules.len(), keys.as_slice(), hands.as_slice())
}

/// The holder of each rule.
pub(crate) fn holders(
    alloc: Global,
    rules: &[CompletedRule],
) -> Result<Vec<Option<(u32, u32)>>, AllocError>
    ensures { IfOk result (λ holders. holders.items ≡ holders_of rules.now) }
{
    let mut holders = Vec::with_capacity(alloc, rules.len())?;
    for rule in rules {
        holders.push(rule.holder)?;
    }
    Ok(holders)
}
