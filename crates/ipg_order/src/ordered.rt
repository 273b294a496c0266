//! A grammar with its terms in order.

ghost use Rattle.std.specs.Prelude.{◌≡◌, IfOk, IfErr};
ghost use Rattle.ipg_complete.specs.Unordered.{core_of};
ghost use Rattle.ipg_order.specs.Answer.{without_orders, OrderStops};

use crate::fault::OrderFault;
use crate::ordering::ordered_rules;
use crate::providers::Local;
use crate::waits::{holders, waits};
use ipg_complete::completed::Completed;
use ipg_core::accepted::Core;
use ipg_num::List;
use std::alloc::Global;

/// The core grammar that has the terms of each alternative in their order. `Circular` exactly where an alternative has no
/// order.
pub fn order(alloc: Global, c: Completed) -> Result<Core, OrderFault>
    ensures ok { IfOk result (λ core. without_orders core ≡ core_of c) }
    ensures err { IfErr result (OrderStops (core_of c)) }
{
    let flags = waits(alloc, &c)?;
    let holders = holders(alloc, c.rules())?;
    let local = Local {
        holders: holders.as_slice(),
        flags: flags.as_slice(),
    };
    let Completed { rules, names } = c;
    let rules = ordered_rules(alloc, local, rules)?;
    Ok(Core {
        rules: List::from_vec(rules),
        names,
    })
}
