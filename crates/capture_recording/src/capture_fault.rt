//! The faults in a capture by layer: datagram, OSPF packet, Link State Update and LSA.
ghost use Rattle.std.specs.Prelude.{Some};
ghost use Rattle.capture_recording.specs.Notes.{capture_fault_text};

use lsa_codec::WireFault;
use packets::{DatagramFault, PacketFault, UpdateFault};
use std::fmt;

/// A fault in a capture, by its place.
#[derive(Clone, Copy)]
pub(crate) enum CaptureFault {
    /// An IPv4 packet of OSPF is not a valid datagram.
    Datagram(DatagramFault),
    /// A payload is not a valid OSPF packet.
    Packet(PacketFault),
    /// A Link State Update has no whole LSA at the place of one.
    Update(UpdateFault),
    /// Bytes in a Link State Update are not a valid LSA.
    Lsa(WireFault),
}

/// Prints the number and the name, as `2 Checksum`.
impl fmt::Display for CaptureFault {
    ghost output = { λ fault. Some (capture_fault_text fault) };

    fn fmt<W: fmt::Write>(&self, f: &mut fmt::Formatter<W>) -> fmt::Result {
        match self {
            CaptureFault::Datagram(fault) => fault.fmt(f),
            CaptureFault::Packet(fault) => fault.fmt(f),
            CaptureFault::Update(fault) => fault.fmt(f),
            CaptureFault::Lsa(fault) => fault.fmt(f),
        }
    }
}
