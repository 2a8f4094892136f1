//! The IPv4 packet that a frame carries, by the link type of its capture.

use crate::headers::{
    behind_any_family, behind_cooked_v1, behind_cooked_v2, behind_ethernet, behind_family,
    version_4,
};

/// The link type of a capture: the header at the start of its frames. The numbers are from the
/// LINKTYPE_ list.
#[derive(Clone, Copy, Debug, PartialEq, Eq)]
pub enum LinkType {
    /// 0: an address family of 4 bytes, in the byte order of the capturing machine.
    Null,
    /// 1: Ethernet, with any number of VLAN tags.
    Ethernet,
    /// 12, 101 and 228: the packet itself.
    Raw,
    /// 108: an address family of 4 bytes, with the highest byte first.
    Loop,
    /// 113: the cooked header of Linux with 16 bytes.
    CookedV1,
    /// 276: the cooked header of Linux with 20 bytes.
    CookedV2,
}

impl LinkType {
    ghost use Rattle.std.specs.Prelude.{◌≡◌};
    ghost use Rattle.packets.specs.Frames.{Finds};
    ghost use Rattle.packets.specs.Links.{Carries, link_of_number};

    /// Returns the link type with the number, or `None` for any other number.
    pub fn of_number(number: u16) -> Option<LinkType>
        ensures { result ≡ link_of_number number }
    {
        match number {
            0 => Some(LinkType::Null),
            1 => Some(LinkType::Ethernet),
            12 | 101 | 228 => Some(LinkType::Raw),
            108 => Some(LinkType::Loop),
            113 => Some(LinkType::CookedV1),
            276 => Some(LinkType::CookedV2),
            _ => None,
        }
    }

    /// Returns the IPv4 packet that the frame carries, with all bytes that follow it in the frame.
    /// Returns `None` if the frame carries another protocol, or is too short to show it.
    pub fn ipv4_of(self, frame: &[u8]) -> Option<&[u8]>
        ensures { Finds result (Carries self frame.now) }
    {
        match self {
            LinkType::Null => behind_any_family(frame),
            LinkType::Ethernet => behind_ethernet(frame),
            LinkType::Raw => version_4(frame),
            LinkType::Loop => behind_family(frame),
            LinkType::CookedV1 => behind_cooked_v1(frame),
            LinkType::CookedV2 => behind_cooked_v2(frame),
        }
    }
}
