//! The rows of a parsed tree.
ghost use Rattle.std.specs.Prelude.{◌≡◌, ◌++◌, List, OnOk};
ghost use Rattle.ipg_core.specs.Tree.{Tree};
ghost use Rattle.ipg_mach_nodes.specs.Stored.{Source};
ghost use Rattle.ipg_tree_rows.specs.Rows as spec;
ghost use Rattle.ipg_tree_rows.specs.Sees.{IsTree};

use crate::row::TreeRow;
use crate::visited::add_visit;
use ipg_tree_walk::Parsed;
use std::alloc::{AllocError, Allocator};

/// Adds the rows of a parsed tree, in the order of a walk: each before those of what lies in it. Those of a shared node come as often as it
/// is met. Where memory is wanting some may have been added.
pub fn add_rows<A: Allocator + Clone + Drop>(
    rows: &mut Vec<TreeRow>,
    p: &mut Parsed<'_, A>,
) -> Result<(), AllocError>
    ensures parse { p.new.parse ≡ p.old.parse }
    ensures rows { (src : Source) (one : Tree) → IsTree p.old.parse src one → OnOk result (rows.new.items ≡ rows.old.items ++ spec.rows_of one) }
{
    p.rewind();
    while let Some(visit) = p.next() {
        add_visit(rows, p, visit)?;
    }
    Ok(())
}
