//! The packet types (RFC 2328, A.3.1).
ghost use Rattle.std.specs.Prelude.{◌≡◌};
ghost use Rattle.packets.specs.Packets.{kind_of_number, number_of_kind};

/// The type of a packet (RFC 2328, A.3.1).
#[derive(Clone, Copy, Debug, PartialEq, Eq, Hash)]
pub enum PacketKind {
    Hello,
    DatabaseDescription,
    LinkStateRequest,
    LinkStateUpdate,
    LinkStateAcknowledgment,
}

impl PacketKind {
    /// Returns the packet type with the number, or `None` if the number is not 1 to 5.
    pub fn of_number(number: u8) -> Option<PacketKind>
        ensures { result ≡ kind_of_number number }
    {
        match number {
            1 => Some(PacketKind::Hello),
            2 => Some(PacketKind::DatabaseDescription),
            3 => Some(PacketKind::LinkStateRequest),
            4 => Some(PacketKind::LinkStateUpdate),
            5 => Some(PacketKind::LinkStateAcknowledgment),
            _ => None,
        }
    }

    /// Returns the number of the packet type, 1 to 5.
    pub fn number(self) -> u8
        ensures { result ≡ number_of_kind self }
    {
        match self {
            PacketKind::Hello => 1,
            PacketKind::DatabaseDescription => 2,
            PacketKind::LinkStateRequest => 3,
            PacketKind::LinkStateUpdate => 4,
            PacketKind::LinkStateAcknowledgment => 5,
        }
    }
}
