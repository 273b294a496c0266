//! The grammars as they are read, one file each.

pub mod elf;
pub mod gif;
pub mod pcap;
pub mod pe;
