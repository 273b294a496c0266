//! What holds of table files, each the contract of a function that calls only the laws it stands on.

ghost use Rattle.ipg_store.specs.Laws.{LoadOnce, HeldIsTotal};

use ipg_order::laws::orders_once;
use ipg_proof::laws::{fault_is_one, proves_is_no_fault, proves_is_total, text_is_of_one};
use ipg_store_body::laws::body_is_of_one;

/// A file has one answer, want of memory apart: the grammar that it holds, or the first thing at fault in it.
pub fn load_once()
    ensures { LoadOnce }
{
    body_is_of_one();
    orders_once();
    text_is_of_one();
    proves_is_no_fault();
    fault_is_one();
}

/// Parsing by a grammar that a file holds ends.
pub fn held_is_total()
    ensures { HeldIsTotal }
{
    proves_is_total();
}
