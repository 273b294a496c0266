//! The built-in grammars' texts, and files made for them to read.
#![tactic(auto)]

mod samples;
mod texts;

ghost use Rattle.std.specs.Prelude.{◌≡◌, ◌≤◌, length, vec_len, IsTrue, IfOk};
ghost use Rattle.ipg_formats.specs.Text.{text_of, text_len, is_text};
ghost use Rattle.ipg_formats.specs.Sample.{sample_of, sample_len};
ghost use Rattle.ipg_formats.specs.Names.{kind_of};

use std::alloc::{AllocError, Global};

/// A file format that a built-in grammar describes.
#[derive(Clone, Copy, Debug, PartialEq, Eq)]
pub enum Kind {
    Elf,
    Pe,
    Gif,
    Pcap,
}

/// The format whose grammar has this name, as in `@gif`.
pub fn kind_named(name: &str) -> Option<Kind>
    ensures { result ≡ kind_of name.now }
{
    match name {
        "@elf" => Some(Kind::Elf),
        "@pe" => Some(Kind::Pe),
        "@gif" => Some(Kind::Gif),
        "@pcap" => Some(Kind::Pcap),
        _ => None,
    }
}

/// The text of the built-in grammar, in plain ASCII: lines that each end in a line feed.
pub fn text(kind: Kind) -> &'static [u8]
    ensures value { result.now ≡ text_of kind }
    ensures size { length result.now ≡ text_len kind }
    ensures lines { IsTrue (is_text result.now) }
{
    match kind {
        Kind::Elf => texts::elf::TEXT,
        Kind::Pe => texts::pe::TEXT,
        Kind::Gif => texts::gif::TEXT,
        Kind::Pcap => texts::pcap::TEXT,
    }
}

/// The bytes of a small file of the format, with `n` sections, comments or packets.
/// The only other answer is want of memory.
pub fn sample(alloc: Global, kind: Kind, n: u32) -> Result<Vec<u8>, AllocError>
    requires { n ≤ 10000 }
    ensures bytes { IfOk result (λ v. v.items ≡ sample_of kind n) }
    ensures size { IfOk result (λ v. vec_len v ≡ sample_len kind n) }
{
    let mut out = Vec::with_capacity(alloc, samples::size(kind, n))?;
    samples::write(&mut out, kind, n)?;
    Ok(out)
}
