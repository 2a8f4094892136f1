//! The state of a capture that is being read.

ghost use Rattle.std.specs.Prelude.{◌≡◌, ◌≢◌, ◌↔◌, ◌+◌, ◌≤◌, IsTrue, IfOk, length};
ghost use Rattle.captures.specs.Reading.{unread, front_of, IsFrontAnswer, IsPartInReach, IsSteady};
ghost use Rattle.captures.specs.Reading.{IsPacketOf, has_begun};
ghost use Rattle.captures.specs.Fronts.{IsInReach};
ghost use Rattle.captures.specs.Written.{ReadsWritten};
ghost use Rattle.captures.specs.Told.{WasWritten};
ghost use Rattle.captures.specs.Runs.{ReadsFiles};
ghost use Rattle.captures.specs.RunsOfBlocks.{ReadsSections};

use crate::block::block_front_in;
use crate::fault::{FaultKind, ReadError};
use crate::front::{CaptureFormat, Front, PacketHeader};
use crate::interface::CaptureInterface;
use crate::opening::opening_front_in;
use crate::pcap::packet_front_in;
use std::alloc::Global;
use std::marker::Model;

/// The format of a capture, as far as it was read, and the interfaces that its section has
/// declared.
pub struct Capture {
    format: CaptureFormat,
    interfaces: Vec<CaptureInterface>,
}

// proof: a value is dropped by one call, not part by part at each exit of a function.
impl Drop for Capture {
    fn drop(self) {
        let Capture {
            format: _,
            interfaces: _interfaces,
        } = self;
    }
}

/// The part at the start of the unread bytes.
#[derive(Clone, Copy, Debug, PartialEq, Eq)]
pub enum Part<'a> {
    /// Less than a whole part. The number is the bytes needed, counted from the start of the part.
    /// It is greater than the number of bytes passed, and at most 1 MiB.
    More(usize),
    /// A header, or a block without a packet. The next part begins this number of bytes after the
    /// start of this one, which may be past the bytes that were passed.
    Skip(usize),
    /// A packet. The next part begins `length` bytes after the start of this one.
    Packet {
        packet: CapturedPacket<'a>,
        length: usize,
    },
}

/// A captured packet.
#[derive(Clone, Copy, Debug, PartialEq, Eq)]
pub struct CapturedPacket<'a> {
    /// The time of the packet in nanoseconds since the beginning of 1970, UTC. `None` for a simple
    /// packet of a pcapng, which has no time.
    pub time: Option<u64>,
    /// The LINKTYPE_ number: the protocol that the bytes begin with, 1 for Ethernet.
    pub link: u16,
    /// The number of bytes that the packet had on the wire.
    pub wire_length: u32,
    /// The bytes that were captured.
    pub bytes: &'a [u8],
}

/// Contracts see the format, as far as the headers give it, and the interfaces in their order.
impl Model for Capture {
    ghost use Rattle.captures.specs.Reading.{CaptureState};

    ghost Value = { CaptureState };

    ghost view = { λ c. record { format = c.format; interfaces = c.interfaces.items } };
}

impl Capture {
    /// Creates the state of a capture of which nothing was read.
    pub fn new(alloc: Global) -> Capture
        ensures unread { result ≡ unread }
        // From this state, a whole pcap is read as its packets, and so is a whole pcapng.
        ensures files { ReadsFiles result }
        ensures sections { ReadsSections result }
    {
        Capture {
            format: CaptureFormat::Unread,
            interfaces: Vec::new(alloc),
        }
    }

    /// Returns true if a header was read. An input that ends before that is cut off, even if it is
    /// empty.
    pub fn has_begun(&self) -> bool
        ensures { result ≡ has_begun self.now }
    {
        !matches!(self.format, CaptureFormat::Unread)
    }

    /// Reads the part at the start of `bytes`, which begin where the last part ended.
    ///
    /// Only the caller knows where its input ends. If it has ended, `bytes` is empty and
    /// `has_begun` is true, the capture has ended. If it has ended otherwise, and the part is a
    /// `More` or a `Skip` past its end, the capture is cut off.
    ///
    /// # Errors
    ///
    /// Returns the fault of the bytes (62 to 68), or `Memory` if memory runs out for an interface
    /// of a pcapng. The capture is then unchanged.
    pub fn read_part<'a>(&mut self, bytes: &'a [u8]) -> Result<Part<'a>, ReadError>
        ensures answer { IsFrontAnswer (front_of self.old bytes.now) bytes.now self.old self.new result }
        ensures reach { IfOk result (IsPartInReach bytes.now) }
        // How many bytes are passed at once does not change how the part is read.
        ensures steady { IsSteady self.old bytes.now }
        // A header, packet or block that is written as its format says is read as what was written.
        ensures written { ReadsWritten self.old bytes.now }
        // No other bytes are read as a packet or an interface.
        ensures only { WasWritten self.old bytes.now }
    {
        match self.front(bytes)? {
            Front::Short(needed) => Ok(Part::More(needed)),
            Front::Header(format, length) => {
                self.format = format;
                self.interfaces.clear();
                Ok(Part::Skip(length))
            }
            Front::Declared(interface, length) => {
                self.interfaces.push(interface)?;
                Ok(Part::Skip(length))
            }
            Front::Other(length) => Ok(Part::Skip(length)),
            Front::Captured(header, length) => Ok(Part::Packet {
                packet: packet_in(header, bytes),
                length,
            }),
        }
    }

    // Reads the item at the start of the bytes.
    fn front(&self, bytes: &[u8]) -> Result<Front, FaultKind>
        ensures front { result ≡ front_of self.now bytes.now }
        ensures reach { IfOk result (IsInReach bytes.now) }
    {
        match self.format {
            CaptureFormat::Unread => opening_front_in(bytes),
            CaptureFormat::Pcap(file) => packet_front_in(file, bytes),
            CaptureFormat::Section(order) => block_front_in(order, &self.interfaces, bytes),
        }
    }
}

// Returns the packet of the header, with its bytes.
fn packet_in(header: PacketHeader, bytes: &[u8]) -> CapturedPacket<'_>
    requires { header.start + header.captured ≤ length bytes.now }
    ensures { IsPacketOf header bytes.now result }
{
    CapturedPacket {
        time: header.time,
        link: header.link,
        wire_length: header.wire_length,
        bytes: &bytes[header.start..header.start + header.captured],
    }
}
