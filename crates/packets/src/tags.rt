//! The EtherType of a frame, and the VLAN tags before it (IEEE 802.1Q).
ghost use Rattle.packets.specs.Frames.{Finds, IsBehindTag, IsBehindTags, IsBehindType};

/// Returns the bytes after the first tag, if they begin with a whole one.
fn behind_tag(bytes: &[u8]) -> Option<&[u8]>
    ensures { Finds result (IsBehindTag bytes.now) }
{
    match bytes {
        [0x81 | 0x91, 0x00, _, _, rest @ ..] | [0x88, 0xa8, _, _, rest @ ..] => Some(rest),
        _ => None,
    }
}

/// Returns the bytes after the EtherType of IPv4, if they begin with it.
pub(crate) fn behind_type(bytes: &[u8]) -> Option<&[u8]>
    ensures { Finds result (IsBehindType bytes.now) }
{
    match bytes {
        [0x08, 0x00, packet @ ..] => Some(packet),
        _ => None,
    }
}

/// Returns the bytes after any number of tags and the EtherType of IPv4.
pub(crate) fn behind_tags(bytes: &[u8]) -> Option<&[u8]>
    ensures { Finds result (IsBehindTags bytes.now) }
{
    let mut rest = bytes;
    while let Some(more) = behind_tag(rest) {
        rest = more;
    }
    behind_type(rest)
}
