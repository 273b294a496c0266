//! Tries a built-in grammar on a sample.
ghost use Rattle.std.specs.Prelude.{◌≡◌, ◌≤◌, ◌++◌, ℕ, List, length, decimal, IfOk, OnOk, Ok};
ghost use Rattle.ipg_formats.specs.Sample.{sample_of};
ghost use Rattle.ipg_formats.specs.Text.{text_of};
ghost use Rattle.ipg_app_text.specs.Found.{Says};
ghost use Rattle.ipg_app_text.specs.Early.{IsSaid};
ghost use Rattle.ipg_app_text.specs.Lines.{said_of};
ghost use Rattle.ipg_app_text.specs.Said.{done_line};
ghost use Rattle.ipg_app.specs.Reply as spec;
ghost use Rattle.ipg_app.specs.Trial.{Tries, kind_by, or_usage, max_parts, size_words};

use ipg_app_grammar::checks::accepted;
use ipg_app_text::core_of::core_in_text;
use ipg_app_text::early::Early;
use ipg_app_text::said::{Settled, line, usage};
use ipg_app_text::status::Status;
use ipg_app_tree::measuring::{Measured, Size, measure};
use ipg_core::accepted::{Checked, Core};
use ipg_formats::{Kind, sample, text};
use itoa::Buffer;
use std::alloc::{AllocError, Global};

const MAX_PARTS: u32 = 10_000;

const TRIAL_MIB: u32 = 512;

/// What is said of a trial of the format with this name on a sample with so many parts.
pub fn trial(alloc: Global, name: &str, parts: u32) -> Result<Settled, Early<Settled>>
    ensures { IsSaid result (Says (spec.trial name.now parts)) }
{
    match kind_by(name) {
        Some(kind) => trial_of(alloc, name, kind, parts),
        None => Ok(usage(alloc)?),
    }
}

fn kind_by(name: &str) -> Option<Kind>
    ensures { or_usage result ≡ kind_by name.now }
{
    match name {
        "elf" => Some(Kind::Elf),
        "pe" => Some(Kind::Pe),
        "gif" => Some(Kind::Gif),
        "pcap" => Some(Kind::Pcap),
        _ => None,
    }
}

fn trial_of(alloc: Global, name: &str, kind: Kind, parts: u32) -> Result<Settled, Early<Settled>>
    ensures { IsSaid result (Says (spec.trial_of name.now parts kind)) }
{
    if parts > MAX_PARTS {
        return Ok(usage(alloc)?);
    }
    let core = core_in_text(alloc, text(kind))?;
    try_core(alloc, name, kind, core, parts)
}

fn try_core(
    alloc: Global,
    name: &str,
    kind: Kind,
    core: Core,
    parts: u32,
) -> Result<Settled, Early<Settled>>
    requires { parts ≤ max_parts }
    ensures { IsSaid result (Says (spec.try_core name.now kind parts core)) }
{
    let (checked, _) = accepted(alloc, core)?;
    Ok(tried(alloc, name, kind, &checked, parts)?)
}

fn tried(
    alloc: Global,
    name: &str,
    kind: Kind,
    grammar: &Checked,
    parts: u32,
) -> Result<Settled, AllocError>
    requires { parts ≤ max_parts }
    ensures { IfOk result (λ settled. Tries name.now kind parts grammar.now (said_of settled)) }
{
    let input = sample(alloc, kind, parts)?;
    match measure(alloc, grammar, &input, TRIAL_MIB)? {
        Measured::Tree(size) => size_line(alloc, name, parts, input.len(), size),
        Measured::NoTree => line(alloc, Status::NoParse, b"no parse"),
        Measured::Range => line(alloc, Status::Range, b"range"),
    }
}

fn size_line(
    alloc: Global,
    name: &str,
    parts: u32,
    bytes: usize,
    size: Size,
) -> Result<Settled, AllocError>
    ensures { IfOk result (λ settled. said_of settled ≡ done_line (size_words name.now parts bytes size)) }
{
    let mut told = Vec::from_slice(alloc, b"kind=")?;
    told.extend_from_slice(name.as_bytes())?;
    add_number(&mut told, b" n=", u64::from(parts))?;
    add_number(&mut told, b" bytes=", bytes as u64)?;
    add_number(&mut told, b" nodes=", size.lines)?;
    add_number(&mut told, b" bodies=", size.bodies)?;
    line(alloc, Status::Done, &told)
}

/// Appends a name and a number.
fn add_number(told: &mut Vec<u8>, name: &[u8], number: u64) -> Result<(), AllocError>
    ensures { OnOk result (told.new.items ≡ told.old.items ++ (name.now ++ decimal number)) }
{
    let mut buffer = Buffer::new();
    told.extend_from_slice(name)?;
    told.extend_from_slice(buffer.format(number).as_bytes())
}
