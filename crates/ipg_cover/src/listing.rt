//! The alternatives to be tried, in order.

ghost use Rattle.std.specs.Prelude.{◌≡◌, ◌≤◌, ◌++◌, [], IfOk, OnOk, length, if◌then◌else◌};
ghost use Rattle.ipg_core.specs.MustTouch.{is_marked};
ghost use Rattle.ipg_cover.specs.Cover as spec;

use ipg_core::accepted::Core;
use ipg_core::grammar::CoreAlt;
use ipg_facts_holder::is_marked;
use std::alloc::{AllocError, Global};

fn add_alternatives(
    places: &mut Vec<(u32, u32)>,
    rule: u32,
    alts: &[CoreAlt],
) -> Result<(), AllocError>
    requires { length alts.now ≤ 64 }
    ensures { OnOk result (places.new.items ≡ places.old.items ++ spec.alternatives_of rule alts.now) }
{
    for (alt, _of) in alts.iter().enumerate() {
        places.push((rule, alt as u32))?;
    }
    Ok(())
}

/// The alternatives of the rule, if it is flagged.
fn add_flagged(
    places: &mut Vec<(u32, u32)>,
    flags: &[bool],
    rule: u32,
    alts: &[CoreAlt],
) -> Result<(), AllocError>
    requires { length alts.now ≤ 64 }
    ensures { OnOk result (places.new.items ≡ places.old.items ++ (if is_marked flags.now rule then spec.alternatives_of rule alts.now else [])) }
{
    if is_marked(flags, rule) {
        add_alternatives(places, rule, alts)
    } else {
        Ok(())
    }
}

/// The alternatives of the flagged rules.
pub fn alternatives(alloc: Global, g: &Core, flags: &[bool]) -> Result<Vec<(u32, u32)>, AllocError>
    ensures { IfOk result (λ places. places.items ≡ spec.alternatives g.now flags.now) }
{
    let mut places = Vec::new(alloc);
    for (rule, of) in g.rules().iter().enumerate() {
        add_flagged(&mut places, flags, rule as u32, of.alts.as_slice())?;
    }
    Ok(places)
}
