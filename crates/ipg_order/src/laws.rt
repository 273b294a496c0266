//! What holds of orders, each the contract of a function that does nothing.

ghost use Rattle.ipg_order.specs.Laws.{StuckHasNone, OrdersOnce, GoodIsNotStuck, StuckOnce, FormedWithout, GoodAsOrdered};

/// Terms that get stuck have no order.
pub fn stuck_has_none()
    ensures { StuckHasNone }
{}

/// Good grammars that differ in no more than orders are one.
pub fn orders_once()
    ensures { OrdersOnce }
{}

/// No terms of a good grammar get stuck.
pub fn good_is_not_stuck()
    ensures { GoodIsNotStuck }
{}

/// The first alternative that gets stuck is one, and gets stuck at one term.
pub fn stuck_once()
    ensures { StuckOnce }
{}

/// A well-formed grammar is well-formed without its orders.
pub fn formed_without_orders()
    ensures { FormedWithout }
{}

/// A grammar that is well-formed without its orders is good if each of them is an order of its terms there.
pub fn good_as_ordered()
    ensures { GoodAsOrdered }
{}
