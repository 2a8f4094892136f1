//! The result of a datagram's payload: the seconds and LSAs that are recorded, or its fault.
use crate::recorded::Recorded;
use packets::{PacketFault, PacketKind};

/// The result of taking the payload of a datagram.
#[derive(Debug, Drop)]
pub enum Taken {
    /// An OSPF packet.
    Packet {
        kind: PacketKind,
        /// Router ID of the packet's source, in host order.
        router: u32,
        /// Area ID, in host order.
        area: u32,
        /// The number of whole seconds by which its time is before the time of the last packet with
        /// one. It is 0 if no seconds are recorded.
        back: u64,
        /// The number of seconds recorded before its LSAs.
        seconds: u64,
        /// The results for its LSAs, in order. Only a Link State Update has any.
        recorded: Vec<Recorded>,
    },
    /// Not a valid OSPF packet. Nothing is recorded.
    Fault(PacketFault),
}
