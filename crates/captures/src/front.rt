//! The item at the start of the unread bytes.

use crate::interface::CaptureInterface;
use crate::order::Order;
use crate::pcap::PcapFile;

/// The greatest number of captured bytes of a packet.
pub(crate) const MOST_CAPTURED: usize = 262_144;

/// The format of a capture, as far as it was read.
#[derive(Clone, Copy)]
pub(crate) enum CaptureFormat {
    /// Nothing was read yet.
    Unread,
    /// A pcap whose header was read.
    Pcap(PcapFile),
    /// A pcapng, in a section of this byte order.
    Section(Order),
}

/// A packet by its header, and the place of its bytes.
#[derive(Clone, Copy)]
pub(crate) struct PacketHeader {
    /// The time in nanoseconds since 1970, if the packet has one.
    pub(crate) time: Option<u64>,
    /// The LINKTYPE_ number.
    pub(crate) link: u16,
    /// The number of bytes on the wire.
    pub(crate) wire_length: u32,
    /// The index of the first byte of the packet.
    pub(crate) start: usize,
    /// The number of captured bytes.
    pub(crate) captured: usize,
}

/// The item at the start of the unread bytes.
#[derive(Clone, Copy)]
pub(crate) enum Front {
    /// Less than a whole part, with the number of bytes needed.
    Short(usize),
    /// A header, with its length. After it, the capture has this format and no interfaces.
    Header(CaptureFormat, usize),
    /// A declaration of one more interface, with its length.
    Declared(CaptureInterface, usize),
    /// A block that is not read, with its length.
    Other(usize),
    /// A packet, with the distance from the start to the next part, in bytes.
    Captured(PacketHeader, usize),
}
