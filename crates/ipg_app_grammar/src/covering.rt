//! Whether a grammar leaves no byte out.
ghost use Rattle.std.specs.Prelude.{◌≡◌, ◌++◌, Ok, IfOk, OnOk};
ghost use Rattle.ipg_app_grammar.specs.Covering as spec;
ghost use Rattle.ipg_app_grammar.specs.Covering.{CoverSays, place_words, at_words, eoi_words, gap_words};
ghost use Rattle.ipg_app_text.specs.declared.status.Status.TheVariants.{Refused};
ghost use Rattle.ipg_app_text.specs.Said.{line_said};
ghost use Rattle.ipg_app_text.specs.Found.{Says};
ghost use Rattle.ipg_app_text.specs.Early.{IsSaid};
ghost use Rattle.ipg_app_text.specs.Lines.{said_of};
ghost use Rattle.ipg_app_grammar.specs.Commands.{cover};

use crate::checks::accepted;
use ipg_app_text::core_of::rule_name;
use ipg_app_text::early::Early;
use ipg_app_text::said::{Settled, line};
use ipg_app_text::status::Status;
use ipg_core::accepted::{Checked, Core};
use ipg_cover::{Cover, cover};
use itoa::Buffer;
use std::alloc::{AllocError, Global};

/// What `cover` says.
pub fn say_cover(alloc: Global, core: Core) -> Result<Settled, Early<Settled>>
    ensures { IsSaid result (Says (cover core)) }
{
    let (grammar, _) = accepted(alloc, core)?;
    Ok(covered(alloc, &grammar)?)
}

/// What is said of a grammar by which parsing ends.
fn covered(alloc: Global, grammar: &Checked) -> Result<Settled, AllocError>
    ensures { IfOk result (λ settled. CoverSays grammar.now (said_of settled)) }
{
    match cover(alloc, grammar)? {
        Cover::Covered(_) => line(alloc, Status::Done, b"covered"),
        Cover::MayGap { rule, alt, at, eoi } => {
            may_gap(alloc, grammar.core(), (rule, alt), at, eoi)
        }
    }
}

/// Appends RULE/ALT.
#[tactic(auto, unfolding(crate::specs::Covering::place_words))]
fn add_place(told: &mut Vec<u8>, g: &Core, place: (u32, u32)) -> Result<(), AllocError>
    ensures { OnOk result (told.new.items ≡ told.old.items ++ place_words g.now place) }
{
    let mut number = Buffer::new();
    told.extend_from_slice(rule_name(g.rules(), place.0))?;
    told.push(b'/')?;
    told.extend_from_slice(number.format(place.1).as_bytes())
}

/// Appends the place that is left out.
#[tactic(auto, unfolding(crate::specs::Covering::at_words))]
fn add_at(told: &mut Vec<u8>, at: i64) -> Result<(), AllocError>
    ensures { OnOk result (told.new.items ≡ told.old.items ++ at_words at) }
{
    let mut number = Buffer::new();
    told.extend_from_slice(b" AT=")?;
    told.extend_from_slice(number.format(at).as_bytes())
}

/// Appends the length of the part.
#[tactic(auto, unfolding(crate::specs::Covering::eoi_words))]
fn add_length(told: &mut Vec<u8>, eoi: i64) -> Result<(), AllocError>
    ensures { OnOk result (told.new.items ≡ told.old.items ++ eoi_words eoi) }
{
    let mut number = Buffer::new();
    told.extend_from_slice(b" EOI=")?;
    told.extend_from_slice(number.format(eoi).as_bytes())
}

/// A refusal that ends with an alternative, a place and a length.
fn line_of(
    alloc: Global,
    words: &[u8],
    g: &Core,
    place: (u32, u32),
    at: i64,
    eoi: i64,
) -> Result<Settled, AllocError>
    ensures { IfOk result (λ settled. said_of settled ≡ line_said Refused (words.now ++ gap_words g.now place at eoi)) }
{
    let mut told = Vec::from_slice(alloc, words)?;
    add_place(&mut told, g, place)?;
    add_at(&mut told, at)?;
    add_length(&mut told, eoi)?;
    line(alloc, Status::Refused, &told)
}

/// The line that refuses a grammar one of whose alternatives may leave a byte out, V5.
fn may_gap(
    alloc: Global,
    g: &Core,
    place: (u32, u32),
    at: i64,
    eoi: i64,
) -> Result<Settled, AllocError>
    ensures { IfOk result (λ settled. said_of settled ≡ spec.may_gap g.now place at eoi) }
{
    line_of(alloc, b"refused V5 MayGap ", g, place, at, eoi)
}
