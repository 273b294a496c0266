//! The gap of each alternative, up to the first that can't be refuted.

ghost use Rattle.std.specs.Prelude.{IfOk};
ghost use Rattle.ipg_core.specs.MustTouch.{AreLimit};
ghost use Rattle.ipg_facts.specs.Gap.{HasAlternative};
ghost use Rattle.ipg_cover.specs.Cover.{IsCover, gap_at};
ghost use Rattle.ipg_cover.specs.Gaps.{TellsGap};

use crate::answer::Cover;
use crate::least::{LeastGap, least_gap};
use crate::listing::alternatives;
use crate::reach::reached;
use ipg_cert::laws::checks_refute;
use ipg_core::accepted::{Checked, Core};
use ipg_facts::gap;
use ipg_facts_laws::laws::gaps_are_bounded;
use ipg_facts_room::ask_gap_room;
use ipg_num::List;
use ipg_touch::must_touch;
use std::alloc::{AllocError, Global};

/// What there is of the gap of an alternative.
fn gap_of(
    alloc: Global,
    g: &Core,
    marks: &[bool],
    place: (u32, u32),
) -> Result<LeastGap, AllocError>
    requires { HasAlternative g.now place.0 place.1 }
    ensures { IfOk result (TellsGap (gap_at g.now marks.now place)) }
{
    gaps_are_bounded();
    ask_gap_room(alloc, g, place.0, place.1)?;
    let part = gap(alloc, g, marks, place.0, place.1)?;
    least_gap(alloc, &part)
}

/// Whether the grammar leaves no byte out: exactly where no alternative of a rule that the first one reaches has a place that
/// all of its slots miss. Else the first such alternative, with the least length of the part at which that may be, and the
/// least place.
pub fn cover(alloc: Global, g: &Checked) -> Result<Cover, AllocError>
    ensures { IfOk result (IsCover g.now) }
{
    checks_refute();
    let core = g.core();
    let marks = must_touch(alloc, core)?;
    let flags = reached(alloc, core)?;
    let places = alternatives(alloc, core, flags.as_slice())?;
    let mut refutations = List::new(alloc);
    for place in places.as_slice() {
        match gap_of(alloc, core, marks.as_slice(), *place)? {
            LeastGap::Refuted(r) => refutations.push(r)?,
            LeastGap::Gap { at, eoi } => {
                return Ok(Cover::MayGap {
                    rule: place.0,
                    alt: place.1,
                    at,
                    eoi,
                });
            }
        }
    }
    Ok(Cover::Covered(refutations))
}
