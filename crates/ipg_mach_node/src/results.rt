//! Items that become the result of their term.

ghost use Rattle.std.specs.Prelude.{◌≡◌, ℕ, List, Some, false, slice_get, IfOk, OnOk, OnErr};
ghost use Rattle.ipg_core.specs.declared.grammar.Sym.{Sym};
ghost use Rattle.ipg_core.specs.Tree as tree;
ghost use Rattle.ipg_core.specs.Tree.{kids_of};
ghost use Rattle.ipg_mach_nodes.specs.Stored.{Source};
ghost use Rattle.ipg_mach_nodes.specs.Laws.{Grows};
ghost use Rattle.ipg_mach_slot.specs.Now.{IsDone};
ghost use Rattle.ipg_mach_node.specs.Items as spec;
ghost use Rattle.ipg_mach_node.specs.Items.{HasItems, together};

use crate::laws::{grows_on, items_stay};
use ipg_mach_nodes::{Kid, RunId, Store};
use ipg_mach_slot::Done;
use std::alloc::{AllocError, Allocator};

/// What several items are together.
#[derive(Clone, Copy, Debug, PartialEq, Eq)]
pub enum Several {
    Array,
    Repetition,
}

/// A list of items as one result.
fn row_of(several: Several, sym: u32, items: RunId) -> Kid
    ensures { result ≡ spec.row_of several sym items }
{
    match several {
        Several::Array => Kid::Array { sym, items },
        Several::Repetition => Kid::Many { sym, items },
    }
}

/// The items of an array or a repetition that is past, stored as its result.
pub fn past_items<A: Allocator + Clone + Drop>(
    store: &mut Store<A>,
    several: Several,
    sym: u32,
    items: &[Kid],
) -> Result<Done, AllocError>
    ensures result { IfOk result (λ row. (src : Source) (at n : ℕ) (one : Sym) (ones : List tree.Kid) → slice_get src.syms sym ≡ Some one
        → HasItems src store.old at n items.now ones
        → IsDone src store.new at n row (record { is_switch = false; kid = together several one (kids_of ones) })) }
    ensures grows { OnOk result (Grows store.old store.new) }
    ensures err { OnErr result (store.new ≡ store.old) }
{
    grows_on();
    items_stay();
    let items = store.add_list(items)?;
    Ok(Done {
        is_switch: false,
        kid: row_of(several, sym, items),
    })
}
