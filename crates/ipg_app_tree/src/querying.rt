//! Writes what a path picks of a parsed tree.
ghost use Rattle.std.specs.Prelude.{List};
ghost use Rattle.ipg_query.specs.Hits.{IsHit};
ghost use Rattle.ipg_query.specs.Picked.{Pick};
ghost use Rattle.ipg_table.specs.Rows.{Each};
ghost use Rattle.ipg_tree.specs.Puts.{Puts};
ghost use Rattle.ipg_app_tree.specs.Queried.{pick_line, picks_text};

use ipg_outside::{Sink, SinkFault};
use ipg_query::Hit;
use ipg_tree::{print_part, print_value};

/// Writes the line of a hit.
fn put_hit<S: Sink>(hit: &Hit<'_>, out: &mut S) -> Result<(), SinkFault>
    ensures { (pick : Pick) → IsHit hit.now pick
        → Puts result (pick_line pick) (S.output out.old) (S.faults out.old) (S.output out.new) (S.faults out.new) }
{
    match hit {
        Hit::Value(value) => print_value(out, *value),
        Hit::Part { from, to, bytes } => {
            print_part(out, u64::from(*from), u64::from(*to), bytes)
        }
    }
}

/// Writes a line for each hit.
pub fn put_hits<S: Sink>(hits: &[Hit<'_>], out: &mut S) -> Result<(), SinkFault>
    ensures { (picks : List Pick) → Each IsHit hits.now picks
        → Puts result (picks_text picks) (S.output out.old) (S.faults out.old) (S.output out.new) (S.faults out.new) }
{
    for hit in hits {
        put_hit(hit, out)?;
    }
    Ok(())
}
