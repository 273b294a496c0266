//! Repetitions whose items may touch no byte.

ghost use Rattle.std.specs.Prelude.{◌≡◌, ◌≤◌, length};
ghost use Rattle.ipg_touch.specs.Few.{IsFew};
ghost use Rattle.ipg_core.specs.MustTouch.{AreLimit};
ghost use Rattle.ipg_touch.specs.Loose as spec;

use crate::marks::sym_marked;
use ipg_core::accepted::Core;
use ipg_core::grammar::{CoreAlt, CoreTerm};

/// The first repetition, by rule, alternative and term, that names raw bytes or a rule that may touch no byte; `touch`
/// is what `must_touch` gives of the grammar. Takes no memory.
pub fn loose(g: &Core, touch: &[bool]) -> Option<(u32, u32, u32)>
    requires { AreLimit g.now touch.now }
    ensures first { result ≡ spec.loose touch.now g.now.rules }
{
    for (rule, body) in g.rules().iter().enumerate() {
        if let Some((alt, term)) = loose_alt(touch, body.alts.as_slice()) {
            return Some((rule as u32, alt, term));
        }
    }
    None
}

fn loose_alt(touch: &[bool], alts: &[CoreAlt]) -> Option<(u32, u32)>
    requires { IsFew alts.now }
    ensures { result ≡ spec.loose_alt touch.now 0 alts.now }
{
    for (alt, body) in alts.iter().enumerate() {
        if let Some(term) = loose_term(touch, body.terms.as_slice()) {
            return Some((alt as u32, term));
        }
    }
    None
}

fn loose_term(touch: &[bool], terms: &[CoreTerm]) -> Option<u32>
    requires { length terms.now ≤ 256 }
    ensures { result ≡ spec.loose_term touch.now 0 terms.now }
{
    for (term, body) in terms.iter().enumerate() {
        if is_loose(touch, body) {
            return Some(term as u32);
        }
    }
    None
}

fn is_loose(touch: &[bool], term: &CoreTerm) -> bool
    ensures { result ≡ spec.is_loose touch.now term.now }
{
    match term {
        CoreTerm::Many { item, .. } => !sym_marked(touch, item),
        CoreTerm::Slot(_) => false,
        CoreTerm::Set { .. } => false,
        CoreTerm::Test(_) => false,
        CoreTerm::Repeat { .. } => false,
        CoreTerm::Pick { .. } => false,
    }
}
