//! Frames, and if they carry an IPv4 packet.

use anyhow::{Result, bail, ensure};
use packets::LinkType;
use std::alloc::Global;

/// The first bytes of an IPv4 packet.
const PACKET: &[u8] = &[0x45, 0xc0, 0, 24, 7];

/// The first bytes of an IPv6 packet.
const OTHER: &[u8] = &[0x60, 0, 0, 0, 7];

/// A frame: the bytes before its packet, the packet, and if it has to be found.
#[derive(Clone, Copy)]
pub struct FrameTrial<'a> {
    pub name: &'a str,
    number: u16,
    before: &'a [u8],
    packet: &'a [u8],
    is_found: bool,
}

fn carries<'a>(name: &'a str, number: u16, before: &'a [u8]) -> FrameTrial<'a> {
    FrameTrial {
        name,
        number,
        before,
        packet: PACKET,
        is_found: true,
    }
}

fn carries_none<'a>(
    name: &'a str,
    number: u16,
    before: &'a [u8],
    packet: &'a [u8],
) -> FrameTrial<'a> {
    FrameTrial {
        name,
        number,
        before,
        packet,
        is_found: false,
    }
}

/// Returns the Ethernet frames to test.
pub fn ethernet_frames() -> [FrameTrial<'static>; 5] {
    [
        carries(
            "Ethernet",
            1,
            &[1, 0, 0x5e, 0, 0, 5, 2, 0, 0, 0, 0, 1, 8, 0],
        ),
        carries(
            "Ethernet with three tags",
            1,
            &[
                1, 0, 0x5e, 0, 0, 5, 2, 0, 0, 0, 0, 1, 0x91, 0, 0, 1, 0x88, 0xa8, 0, 100, 0x81, 0,
                0, 10, 8, 0,
            ],
        ),
        carries_none(
            "Ethernet with IPv6",
            1,
            &[1, 0, 0x5e, 0, 0, 5, 2, 0, 0, 0, 0, 1, 0x86, 0xdd],
            OTHER,
        ),
        carries_none(
            "Ethernet with a tag that is cut off",
            1,
            &[1, 0, 0x5e, 0, 0, 5, 2, 0, 0, 0, 0, 1, 0x81, 0, 8],
            &[],
        ),
        carries_none("Ethernet that is cut off", 1, &[1, 0, 0x5e, 0, 0, 5], &[]),
    ]
}

/// Returns the frames of other link types to test.
pub fn other_frames() -> [FrameTrial<'static>; 11] {
    [
        carries("raw IP by 12", 12, &[]),
        carries("raw IP by 101", 101, &[]),
        carries("raw IP by 228", 228, &[]),
        carries_none("raw IPv6", 101, &[], OTHER),
        carries(
            "cooked, version 1",
            113,
            &[0, 0, 0, 1, 0, 6, 2, 0, 0, 0, 0, 1, 0, 0, 8, 0],
        ),
        carries_none(
            "cooked, version 1, with ARP",
            113,
            &[0, 0, 0, 1, 0, 6, 2, 0, 0, 0, 0, 1, 0, 0, 8, 6],
            PACKET,
        ),
        carries(
            "cooked, version 2",
            276,
            &[8, 0, 0, 0, 0, 0, 0, 2, 0, 1, 0, 6, 2, 0, 0, 0, 0, 1, 0, 0],
        ),
        carries("the family in one byte order", 0, &[2, 0, 0, 0]),
        carries("the family in the other", 0, &[0, 0, 0, 2]),
        carries("the family, highest byte first", 108, &[0, 0, 0, 2]),
        carries_none("the family, lowest byte first", 108, &[2, 0, 0, 0], PACKET),
    ]
}

impl FrameTrial<'_> {
    pub fn run(&self, alloc: Global) -> Result<()> {
        let name = self.name;
        let Some(link) = LinkType::of_number(self.number) else {
            bail!("{name}: the link type is not known");
        };
        let mut frame = Vec::from_slice(alloc, self.before)?;
        frame.extend_from_slice(self.packet)?;
        let is_right = match link.ipv4_of(&frame) {
            Some(packet) => self.is_found && packet == self.packet,
            None => !self.is_found,
        };
        ensure!(is_right, "{name}: something else is found");
        Ok(())
    }
}

/// Returns true if the link types of PPP (9), and after Linux's cooked headers (277), are unknown.
pub fn are_unknown() -> bool {
    LinkType::of_number(9).is_none() && LinkType::of_number(277).is_none()
}
