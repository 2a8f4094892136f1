//! The faults of packets and of Link State Updates, with their numbers and names.
ghost use Rattle.std.specs.Prelude.{◌≡◌, Some};
ghost use Rattle.packets.specs.Text.{packet_fault_text, update_fault_text};

use std::fmt;
use thiserror::Error;

/// The reason why bytes are not a valid packet. `read_packet` returns the first one in this order.
#[derive(Clone, Copy, Debug, PartialEq, Eq, Error)]
pub enum PacketFault {
    /// There are fewer than the 24 bytes of a packet header (RFC 2328, A.3.1).
    Short,
    /// The version is not 2.
    Version,
    /// The packet type is not 1 to 5.
    Kind,
    /// The packet length is below 24, or greater than the number of bytes.
    Length,
    /// The checksum does not fit the packet (RFC 2328, D.4.1, D.4.2).
    Checksum,
}

/// Prints the number and the name, as in `71 Version`.
impl fmt::Display for PacketFault {
    ghost output = { λ fault. Some (packet_fault_text fault) };

    fn fmt<W: fmt::Write>(&self, f: &mut fmt::Formatter<W>) -> fmt::Result {
        f.write_str(match self {
            PacketFault::Short => "70 Short",
            PacketFault::Version => "71 Version",
            PacketFault::Kind => "72 Kind",
            PacketFault::Length => "73 Length",
            PacketFault::Checksum => "74 Checksum",
        })
    }
}

/// The reason why the body of a Link State Update does not have the LSAs that it should have (RFC
/// 2328, A.3.5).
#[derive(Clone, Copy, Debug, PartialEq, Eq, Error)]
pub enum UpdateFault {
    /// There are fewer than the four bytes of the number of LSAs.
    Count,
    /// The length in the header of the next LSA is below 20, or the body ends before this LSA does.
    LsaLength {
        /// The number of bytes of the body before the LSA.
        place: usize,
    },
}

/// Prints the number and the name, as in `75 Count`, without the place.
impl fmt::Display for UpdateFault {
    ghost output = { λ fault. Some (update_fault_text fault) };

    fn fmt<W: fmt::Write>(&self, f: &mut fmt::Formatter<W>) -> fmt::Result {
        f.write_str(match self {
            UpdateFault::Count => "75 Count",
            UpdateFault::LsaLength { .. } => "76 LsaLength",
        })
    }
}
