//! Captures, field by field.

use anyhow::Result;
use std::alloc::Global;

/// A little-endian pcap with microseconds, on Ethernet: 4 bytes of 60, then 0 of 42, then 3 of 3.
/// Its packets begin at 24, 44 and 60, and it ends at 79.
pub(crate) const PCAP: [u8; 79] = [
    0xd4, 0xc3, 0xb2, 0xa1, 2, 0, 4, 0, 0, 0, 0, 0, 0, 0, 0, 0, 0, 0, 4, 0, 1, 0, 0, 0, //
    1, 0, 0, 0, 2, 0, 0, 0, 4, 0, 0, 0, 0x3c, 0, 0, 0, 0x0a, 0x0b, 0x0c, 0x0d, //
    2, 0, 0, 0, 0x20, 0xa1, 7, 0, 0, 0, 0, 0, 0x2a, 0, 0, 0, //
    3, 0, 0, 0, 0, 0, 0, 0, 3, 0, 0, 0, 3, 0, 0, 0, 0x0e, 0x0f, 0x10,
];

/// The pcap, whose third packet has 262,145 bytes, one more than is allowed.
pub(crate) const LONG_PACKET: [u8; 79] = [
    0xd4, 0xc3, 0xb2, 0xa1, 2, 0, 4, 0, 0, 0, 0, 0, 0, 0, 0, 0, 0, 0, 4, 0, 1, 0, 0, 0, //
    1, 0, 0, 0, 2, 0, 0, 0, 4, 0, 0, 0, 0x3c, 0, 0, 0, 0x0a, 0x0b, 0x0c, 0x0d, //
    2, 0, 0, 0, 0x20, 0xa1, 7, 0, 0, 0, 0, 0, 0x2a, 0, 0, 0, //
    3, 0, 0, 0, 0, 0, 0, 0, 1, 0, 4, 0, 3, 0, 0, 0, 0x0e, 0x0f, 0x10,
];

/// A little-endian pcapng of five blocks, which begin at 0, 28, 48, 84 and 108. They are a section,
/// an interface of Ethernet, a packet of 3 bytes of 60, statistics, and a simple packet of 4 bytes.
/// It ends at 128.
pub(crate) const PCAPNG: [u8; 128] = [
    0x0a, 0x0d, 0x0d, 0x0a, 0x1c, 0, 0, 0, 0x4d, 0x3c, 0x2b, 0x1a, 1, 0, 0, 0, //
    0xff, 0xff, 0xff, 0xff, 0xff, 0xff, 0xff, 0xff, 0x1c, 0, 0, 0, //
    1, 0, 0, 0, 0x14, 0, 0, 0, 1, 0, 0, 0, 0, 0, 0, 0, 0x14, 0, 0, 0, //
    6, 0, 0, 0, 0x24, 0, 0, 0, 0, 0, 0, 0, 0, 0, 0, 0, 0x42, 0x42, 0x0f, 0, //
    3, 0, 0, 0, 0x3c, 0, 0, 0, 0x0a, 0x0b, 0x0c, 0, 0x24, 0, 0, 0, //
    5, 0, 0, 0, 0x18, 0, 0, 0, 0, 0, 0, 0, 0, 0, 0, 0, 0, 0, 0, 0, 0x18, 0, 0, 0, //
    3, 0, 0, 0, 0x14, 0, 0, 0, 4, 0, 0, 0, 0x14, 0x15, 0x16, 0x17, 0x14, 0, 0, 0,
];

/// The start of a picture, which is not a capture.
pub(crate) const PICTURE: [u8; 6] = [0x47, 0x49, 0x46, 0x38, 0x39, 0x61];

/// Returns a pcap of two packets: one of 200,000 bytes, which repeat 0 to 250, and one of 1 byte, a
/// second earlier.
pub(crate) fn long_packet(alloc: Global) -> Result<Vec<u8>> {
    let mut data = Vec::with_capacity(alloc, 200_000)?;
    for place in 0..200_000_u32 {
        data.push((place % 251) as u8)?;
    }
    let mut bytes = Vec::from_slice(alloc, &PCAP[..24])?;
    put_packet(&mut bytes, 5, &data)?;
    put_packet(&mut bytes, 4, &[0x11])?;
    Ok(bytes)
}

/// Returns a pcap of 10,000 packets, one a second. Each has 4 bytes: its number, from 0 up.
pub(crate) fn many_packets(alloc: Global) -> Result<Vec<u8>> {
    let mut bytes = Vec::from_slice(alloc, &PCAP[..24])?;
    for number in 0..10_000_u32 {
        put_packet(&mut bytes, number, &number.to_le_bytes())?;
    }
    Ok(bytes)
}

fn put_packet(bytes: &mut Vec<u8>, seconds: u32, data: &[u8]) -> Result<()> {
    let length = u32::try_from(data.len())?.to_le_bytes();
    bytes.extend_from_slice(&seconds.to_le_bytes())?;
    bytes.extend_from_slice(&[0, 0, 0, 0])?;
    bytes.extend_from_slice(&length)?;
    bytes.extend_from_slice(&length)?;
    bytes.extend_from_slice(data)?;
    Ok(())
}
