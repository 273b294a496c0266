//! A capture of UDP packets over Ethernet, in pcap's own form with the low byte first.

ghost use Rattle.std.specs.Prelude.{◌≡◌, ◌<◌, ◌≤◌, ◌++◌, OnOk};
ghost use Rattle.ipg_formats.specs.Pcap.{pcap, file_header, record_header, ethernet_header, ip_header, udp_header, packet, packets, ethernet};
ghost use Rattle.ipg_formats.specs.Pcap.{record_for, frame_for, datagram_for, ports_for};

use crate::samples::fields::{self, be16, be32, le16, le32};
use std::alloc::AllocError;

#[derive(Drop)]
struct FileHeader {
    magic: u32,
    major: u16,
    minor: u16,
    zone: u32,
    accuracy: u32,
    longest: u32,
    link_type: u32,
}

#[derive(Drop)]
struct RecordHeader {
    seconds: u32,
    microseconds: u32,
    captured: u32,
    original: u32,
}

#[derive(Drop)]
struct EthernetHeader {
    destination: [u8; 6],
    source: [u8; 6],
    ether_type: u16,
}

/// With no options; flags and the offset of a fragment are one number.
#[derive(Drop)]
struct IpHeader {
    version_and_size: u8,
    service: u8,
    total: u16,
    identification: u16,
    fragment: u16,
    time_to_live: u8,
    protocol: u8,
    checksum: u16,
    source: [u8; 4],
    destination: [u8; 4],
}

#[derive(Drop)]
struct UdpHeader {
    source: u16,
    destination: u16,
    length: u16,
    checksum: u16,
}

impl FileHeader {
    /// Version 2.4, packets of up to 65,535 bytes, over Ethernet.
    fn ethernet() -> Self
        ensures { result ≡ ethernet }
    {
        FileHeader {
            magic: 0xa1b2_c3d4,
            major: 2,
            minor: 4,
            zone: 0,
            accuracy: 0,
            longest: 65535,
            link_type: 1,
        }
    }

    fn write(&self, out: &mut Vec<u8>) -> Result<(), AllocError>
        ensures { OnOk result (out.new.items ≡ out.old.items ++ file_header self.now) }
    {
        le32(out, self.magic)?;
        le16(out, self.major)?;
        le16(out, self.minor)?;
        le32(out, self.zone)?;
        le32(out, self.accuracy)?;
        le32(out, self.longest)?;
        le32(out, self.link_type)
    }
}

impl RecordHeader {
    /// A whole packet of 46 bytes, caught in second `i`.
    fn of(i: u32) -> Self
        ensures { result ≡ record_for i }
    {
        RecordHeader {
            seconds: i,
            microseconds: 0,
            captured: 46,
            original: 46,
        }
    }

    fn write(&self, out: &mut Vec<u8>) -> Result<(), AllocError>
        ensures { OnOk result (out.new.items ≡ out.old.items ++ record_header self.now) }
    {
        le32(out, self.seconds)?;
        le32(out, self.microseconds)?;
        le32(out, self.captured)?;
        le32(out, self.original)
    }
}

impl EthernetHeader {
    /// An IPv4 packet from the second station to the first.
    fn of_ip() -> Self
        ensures { result ≡ frame_for }
    {
        EthernetHeader {
            destination: [2, 0, 0, 0, 0, 1],
            source: [2, 0, 0, 0, 0, 2],
            ether_type: 0x800,
        }
    }

    fn write(&self, out: &mut Vec<u8>) -> Result<(), AllocError>
        ensures { OnOk result (out.new.items ≡ out.old.items ++ ethernet_header self.now) }
    {
        fields::bytes(out, &self.destination)?;
        fields::bytes(out, &self.source)?;
        be16(out, self.ether_type)
    }
}

impl IpHeader {
    /// A packet of 32 bytes of UDP from 10.0.0.1 to 10.0.0.2.
    fn of(i: u16) -> Self
        ensures { result ≡ datagram_for i }
    {
        IpHeader {
            version_and_size: 0x45,
            service: 0,
            total: 32,
            identification: i,
            fragment: 0,
            time_to_live: 64,
            protocol: 17,
            checksum: 0,
            source: [10, 0, 0, 1],
            destination: [10, 0, 0, 2],
        }
    }

    fn write(&self, out: &mut Vec<u8>) -> Result<(), AllocError>
        ensures { OnOk result (out.new.items ≡ out.old.items ++ ip_header self.now) }
    {
        fields::bytes(out, &[self.version_and_size, self.service])?;
        be16(out, self.total)?;
        be16(out, self.identification)?;
        be16(out, self.fragment)?;
        fields::bytes(out, &[self.time_to_live, self.protocol])?;
        be16(out, self.checksum)?;
        fields::bytes(out, &self.source)?;
        fields::bytes(out, &self.destination)
    }
}

impl UdpHeader {
    /// Four bytes from port 1000 to port 2000.
    fn of_four_bytes() -> Self
        ensures { result ≡ ports_for }
    {
        UdpHeader {
            source: 1000,
            destination: 2000,
            length: 12,
            checksum: 0,
        }
    }

    fn write(&self, out: &mut Vec<u8>) -> Result<(), AllocError>
        ensures { OnOk result (out.new.items ≡ out.old.items ++ udp_header self.now) }
    {
        be16(out, self.source)?;
        be16(out, self.destination)?;
        be16(out, self.length)?;
        be16(out, self.checksum)
    }
}

/// Appends record `i`, whose packet carries `i`.
fn write_packet(out: &mut Vec<u8>, i: u32) -> Result<(), AllocError>
    requires { i < 10000 }
    ensures { OnOk result (out.new.items ≡ out.old.items ++ packet i) }
{
    RecordHeader::of(i).write(out)?;
    EthernetHeader::of_ip().write(out)?;
    IpHeader::of(i as u16).write(out)?;
    UdpHeader::of_four_bytes().write(out)?;
    be32(out, i)
}

/// Appends the records.
fn write_packets(out: &mut Vec<u8>, n: u32) -> Result<(), AllocError>
    requires { n ≤ 10000 }
    ensures { OnOk result (out.new.items ≡ out.old.items ++ packets n) }
{
    for i in 0..n {
        write_packet(out, i)?;
    }
    Ok(())
}

/// Appends a capture with `n` packets.
pub fn write(out: &mut Vec<u8>, n: u32) -> Result<(), AllocError>
    requires { n ≤ 10000 }
    ensures { OnOk result (out.new.items ≡ out.old.items ++ pcap n) }
{
    FileHeader::ethernet().write(out)?;
    write_packets(out, n)
}
