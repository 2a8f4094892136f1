//! The headers that a link puts before a packet.
ghost use Rattle.packets.specs.Frames.{Finds, IsEthernet, IsCookedV1, IsCookedV2, IsHighFirst};
ghost use Rattle.packets.specs.Frames.{IsAnyFirst, IsVersion4, IsPast};

use crate::tags::{behind_tags, behind_type};

/// The length of the two addresses of an Ethernet frame, in bytes.
const ADDRESSES: usize = 12;

/// The number of bytes before the protocol in a cooked header of version 1.
const COOKED_V1_FRONT: usize = 14;

/// The number of bytes after the protocol in a cooked header of version 2.
const COOKED_V2_BACK: usize = 18;

/// Returns the bytes after the first `count`, if there are as many.
fn past(count: usize, bytes: &[u8]) -> Option<&[u8]>
    ensures { Finds result (IsPast count bytes.now) }
{
    if count > bytes.len() {
        return None;
    }
    Some(&bytes[count..])
}

/// Returns the bytes after the header of an Ethernet frame, if its EtherType is IPv4.
pub(crate) fn behind_ethernet(frame: &[u8]) -> Option<&[u8]>
    ensures { Finds result (IsEthernet frame.now) }
{
    behind_tags(past(ADDRESSES, frame)?)
}

/// Returns the bytes after a cooked header of version 1, if its protocol is IPv4.
pub(crate) fn behind_cooked_v1(frame: &[u8]) -> Option<&[u8]>
    ensures { Finds result (IsCookedV1 frame.now) }
{
    behind_type(past(COOKED_V1_FRONT, frame)?)
}

/// Returns the bytes after a cooked header of version 2, if its protocol is IPv4.
pub(crate) fn behind_cooked_v2(frame: &[u8]) -> Option<&[u8]>
    ensures { Finds result (IsCookedV2 frame.now) }
{
    past(COOKED_V2_BACK, behind_type(frame)?)
}

/// Returns the bytes after the address family, if it is IPv4, with the highest byte first.
pub(crate) fn behind_family(frame: &[u8]) -> Option<&[u8]>
    ensures { Finds result (IsHighFirst frame.now) }
{
    match frame {
        [0, 0, 0, 2, packet @ ..] => Some(packet),
        _ => None,
    }
}

/// Returns the bytes after the address family, if it is IPv4, in either byte order.
pub(crate) fn behind_any_family(frame: &[u8]) -> Option<&[u8]>
    ensures { Finds result (IsAnyFirst frame.now) }
{
    match frame {
        [0, 0, 0, 2, packet @ ..] | [2, 0, 0, 0, packet @ ..] => Some(packet),
        _ => None,
    }
}

/// Returns the frame, if it begins as a packet of version 4 does.
pub(crate) fn version_4(frame: &[u8]) -> Option<&[u8]>
    ensures { Finds result (IsVersion4 frame.now) }
{
    match frame {
        [first, ..] if first / 16 == 4 => Some(frame),
        _ => None,
    }
}
