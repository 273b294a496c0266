//! An ELF file of 64 bits, the low byte first, with sections of one byte.

ghost use Rattle.std.specs.Prelude.{◌≡◌, ◌<◌, ◌≤◌, ◌++◌, OnOk};
ghost use Rattle.ipg_formats.specs.Elf.{elf, file_header, section_header, header_for, section_for, section_table};

use crate::samples::fields::{self, le16, le32, le64};
use std::alloc::AllocError;

/// The magic number, 64 bits, low byte first, version 1, and nine bytes of padding.
const IDENTIFICATION: [u8; 16] = *b"\x7fELF\x02\x01\x01\x00\x00\x00\x00\x00\x00\x00\x00\x00";

#[derive(Drop)]
struct FileHeader {
    file_type: u16,
    machine: u16,
    version: u32,
    entry: u64,
    program_table: u64,
    section_table: u64,
    flags: u32,
    header_size: u16,
    program_size: u16,
    programs: u16,
    section_size: u16,
    sections: u16,
    name_section: u16,
}

#[derive(Drop)]
struct SectionHeader {
    name: u32,
    section_type: u32,
    flags: u64,
    address: u64,
    offset: u64,
    size: u64,
    link: u32,
    info: u32,
    alignment: u64,
    entry_size: u64,
}

impl FileHeader {
    /// An executable for x86-64 with `n` sections and no program headers.
    fn for_sections(n: u32) -> Self
        requires { n ≤ 10000 }
        ensures { result ≡ header_for n }
    {
        FileHeader {
            file_type: 2,
            machine: 62,
            version: 1,
            entry: 0,
            program_table: 0,
            section_table: if n == 0 { 0 } else { 64 },
            flags: 0,
            header_size: 64,
            program_size: 0,
            programs: 0,
            section_size: 64,
            sections: n as u16,
            name_section: 0,
        }
    }

    fn write(&self, out: &mut Vec<u8>) -> Result<(), AllocError>
        ensures { OnOk result (out.new.items ≡ out.old.items ++ file_header self.now) }
    {
        fields::bytes(out, &IDENTIFICATION)?;
        le16(out, self.file_type)?;
        le16(out, self.machine)?;
        le32(out, self.version)?;
        le64(out, self.entry)?;
        le64(out, self.program_table)?;
        le64(out, self.section_table)?;
        le32(out, self.flags)?;
        le16(out, self.header_size)?;
        le16(out, self.program_size)?;
        le16(out, self.programs)?;
        le16(out, self.section_size)?;
        le16(out, self.sections)?;
        le16(out, self.name_section)
    }
}

impl SectionHeader {
    /// Section `i` of `n`, whose one byte stands behind all headers.
    fn of(n: u32, i: u32) -> Self
        requires many { n ≤ 10000 }
        requires within { i < n }
        ensures { result ≡ section_for n i }
    {
        SectionHeader {
            name: i,
            section_type: 1,
            flags: 0,
            address: 0,
            offset: 64 + 64 * n as u64 + i as u64,
            size: 1,
            link: 0,
            info: 0,
            alignment: 1,
            entry_size: 0,
        }
    }

    fn write(&self, out: &mut Vec<u8>) -> Result<(), AllocError>
        ensures { OnOk result (out.new.items ≡ out.old.items ++ section_header self.now) }
    {
        le32(out, self.name)?;
        le32(out, self.section_type)?;
        le64(out, self.flags)?;
        le64(out, self.address)?;
        le64(out, self.offset)?;
        le64(out, self.size)?;
        le32(out, self.link)?;
        le32(out, self.info)?;
        le64(out, self.alignment)?;
        le64(out, self.entry_size)
    }
}

/// Appends the section headers.
fn write_sections(out: &mut Vec<u8>, n: u32) -> Result<(), AllocError>
    requires { n ≤ 10000 }
    ensures { OnOk result (out.new.items ≡ out.old.items ++ section_table n) }
{
    for i in 0..n {
        SectionHeader::of(n, i).write(out)?;
    }
    Ok(())
}

/// Appends an ELF file with `n` sections.
pub fn write(out: &mut Vec<u8>, n: u32) -> Result<(), AllocError>
    requires { n ≤ 10000 }
    ensures { OnOk result (out.new.items ≡ out.old.items ++ elf n) }
{
    FileHeader::for_sections(n).write(out)?;
    write_sections(out, n)?;
    fields::counters(out, n)
}
