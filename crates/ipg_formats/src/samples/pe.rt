//! A PE image of 64 bits for x86-64, with sections of one byte.

ghost use Rattle.std.specs.Prelude.{◌≡◌, ◌<◌, ◌≤◌, ◌++◌, OnOk};
ghost use Rattle.ipg_formats.specs.Pe.{pe, dos_header, coff_header, optional_header, section_header, coff_for, section_for, section_table};

use crate::samples::fields::{self, le16, le32};
use std::alloc::AllocError;

/// What follows the signature "PE".
#[derive(Drop)]
struct CoffHeader {
    machine: u16,
    sections: u16,
    time: u32,
    symbol_table: u32,
    symbols: u32,
    optional_size: u16,
    flags: u16,
}

/// One row of the section table; its name is eight zero bytes.
#[derive(Drop)]
struct SectionHeader {
    virtual_size: u32,
    virtual_address: u32,
    raw_size: u32,
    raw_offset: u32,
    relocation_table: u32,
    line_table: u32,
    relocations: u16,
    lines: u16,
    flags: u32,
}

impl CoffHeader {
    /// For x86-64, `n` sections, no symbols and an optional header of 112 bytes.
    fn for_sections(n: u32) -> Self
        requires { n ≤ 10000 }
        ensures { result ≡ coff_for n }
    {
        CoffHeader {
            machine: 0x8664,
            sections: n as u16,
            time: 0,
            symbol_table: 0,
            symbols: 0,
            optional_size: 112,
            flags: 0,
        }
    }

    fn write(&self, out: &mut Vec<u8>) -> Result<(), AllocError>
        ensures { OnOk result (out.new.items ≡ out.old.items ++ coff_header self.now) }
    {
        fields::bytes(out, b"PE\x00\x00")?;
        le16(out, self.machine)?;
        le16(out, self.sections)?;
        le32(out, self.time)?;
        le32(out, self.symbol_table)?;
        le32(out, self.symbols)?;
        le16(out, self.optional_size)?;
        le16(out, self.flags)
    }
}

impl SectionHeader {
    /// Section `i` of `n`, on a page of its own, whose one byte stands behind all headers.
    fn of(n: u32, i: u32) -> Self
        requires many { n ≤ 10000 }
        requires within { i < n }
        ensures { result ≡ section_for n i }
    {
        SectionHeader {
            virtual_size: 1,
            virtual_address: 4096 * (i + 1),
            raw_size: 1,
            raw_offset: 200 + 40 * n + i,
            relocation_table: 0,
            line_table: 0,
            relocations: 0,
            lines: 0,
            flags: 0,
        }
    }

    fn write(&self, out: &mut Vec<u8>) -> Result<(), AllocError>
        ensures { OnOk result (out.new.items ≡ out.old.items ++ section_header self.now) }
    {
        fields::bytes(out, &[0; 8])?;
        le32(out, self.virtual_size)?;
        le32(out, self.virtual_address)?;
        le32(out, self.raw_size)?;
        le32(out, self.raw_offset)?;
        le32(out, self.relocation_table)?;
        le32(out, self.line_table)?;
        le16(out, self.relocations)?;
        le16(out, self.lines)?;
        le32(out, self.flags)
    }
}

/// Appends the old header, whose last field is the place of the new one.
fn write_dos_header(out: &mut Vec<u8>) -> Result<(), AllocError>
    ensures { OnOk result (out.new.items ≡ out.old.items ++ dos_header 64) }
{
    fields::bytes(out, b"MZ")?;
    fields::bytes(out, &[0; 58])?;
    le32(out, 64)
}

/// Appends an optional header of 112 bytes for 64 bits, with no data directories.
fn write_optional_header(out: &mut Vec<u8>) -> Result<(), AllocError>
    ensures { OnOk result (out.new.items ≡ out.old.items ++ optional_header 523 0) }
{
    le16(out, 523)?;
    fields::bytes(out, &[0; 106])?;
    le32(out, 0)
}

/// Appends the section table.
fn write_sections(out: &mut Vec<u8>, n: u32) -> Result<(), AllocError>
    requires { n ≤ 10000 }
    ensures { OnOk result (out.new.items ≡ out.old.items ++ section_table n) }
{
    for i in 0..n {
        SectionHeader::of(n, i).write(out)?;
    }
    Ok(())
}

/// Appends a PE image with `n` sections.
pub fn write(out: &mut Vec<u8>, n: u32) -> Result<(), AllocError>
    requires { n ≤ 10000 }
    ensures { OnOk result (out.new.items ≡ out.old.items ++ pe n) }
{
    write_dos_header(out)?;
    CoffHeader::for_sections(n).write(out)?;
    write_optional_header(out)?;
    write_sections(out, n)?;
    fields::counters(out, n)
}
