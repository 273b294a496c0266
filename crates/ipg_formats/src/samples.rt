//! Files of each format, written part by part.

mod elf;
mod fields;
mod gif;
mod pcap;
mod pe;

ghost use Rattle.std.specs.Prelude.{◌≡◌, ◌≤◌, ◌++◌, OnOk};
ghost use Rattle.ipg_formats.specs.Sample.{sample_of, sample_len};

use crate::Kind;
use std::alloc::AllocError;

/// How many bytes a sample has.
pub fn size(kind: Kind, n: u32) -> usize
    requires { n ≤ 10000 }
    ensures { result ≡ sample_len kind n }
{
    let n = n as usize;
    match kind {
        Kind::Elf => 64 + 65 * n,
        Kind::Pe => 200 + 41 * n,
        Kind::Gif => 29 + 5 * n,
        Kind::Pcap => 24 + 62 * n,
    }
}

/// Appends a sample.
pub fn write(out: &mut Vec<u8>, kind: Kind, n: u32) -> Result<(), AllocError>
    requires { n ≤ 10000 }
    ensures { OnOk result (out.new.items ≡ out.old.items ++ sample_of kind n) }
{
    match kind {
        Kind::Elf => elf::write(out, n),
        Kind::Pe => pe::write(out, n),
        Kind::Gif => gif::write(out, n),
        Kind::Pcap => pcap::write(out, n),
    }
}
