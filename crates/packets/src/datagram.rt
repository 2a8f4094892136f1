//! IPv4 datagrams and their fragments, by their headers (RFC 791, 3.1).
ghost use Rattle.std.specs.Prelude.{◌≤◌, ◌+◌, length};

/// The length of the longest datagram, in bytes.
pub const LONGEST: usize = 65_535;

/// An IPv4 datagram, or a fragment of one, by its header (RFC 791, 3.1). Numbers are in host order.
#[derive(Clone, Copy, Debug)]
pub struct Datagram<'a> {
    /// The address of the sender.
    pub source: u32,
    /// The address of the receiver.
    pub destination: u32,
    /// The number that the fragments of one datagram share. It separates them from the fragments of
    /// other datagrams between the two addresses.
    pub identification: u16,
    /// The protocol of the payload, 89 for OSPF.
    pub protocol: u8,
    /// The offset of the payload in the payload of the whole datagram, in bytes.
    pub offset: usize,
    /// True if no more fragments follow.
    pub is_last: bool,
    /// The bytes after the header, up to the total length.
    pub payload: &'a [u8],
    // The payload ends within the longest datagram.
    pub ghost fits: { offset + length payload.now ≤ 65535 },
}

impl<'a> Datagram<'a> {
    ghost use Rattle.std.specs.Prelude.{◌≡◌, ◌==◌, ◌&&◌};
    ghost use Rattle.packets.specs.Parts.{part_of, end_of};

    /// Returns true if this is a whole datagram and not a fragment.
    pub fn is_whole(&self) -> bool
        ensures { result ≡ ((self.now.offset == 0) && self.now.is_last) }
    {
        self.offset == 0 && self.is_last
    }

    /// Returns the end of the payload in the payload of the whole datagram, in bytes.
    pub fn end(&self) -> usize
        ensures value { result ≡ end_of (part_of self.now) }
        ensures small { result ≤ 65535 }
    {
        self.offset + self.payload.len()
    }
}
