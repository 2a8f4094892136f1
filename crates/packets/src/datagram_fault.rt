//! The faults of bytes that are not a valid IPv4 datagram, with their numbers and names.
ghost use Rattle.std.specs.Prelude.{Some};
ghost use Rattle.packets.specs.DatagramText.{datagram_fault_text};

use std::fmt;
use thiserror::Error;

/// The reason why bytes are not a valid IPv4 datagram. `read_datagram` returns the first one in
/// this order.
#[derive(Clone, Copy, Debug, PartialEq, Eq, Error)]
pub enum DatagramFault {
    /// There are fewer than 20 bytes, or the version is not 4 (RFC 791, 3.1). Or the length of the
    /// header is below 20 bytes or greater than the number of bytes.
    Header,
    /// The total length is below the header's, or greater than the number of bytes, as in a packet
    /// that the capture cut off.
    Length,
    /// The payload of a fragment that is not the last is not whole blocks of 8 bytes, or a fragment
    /// ends past 65535.
    Fragment,
}

/// Prints the number and the name, as in `80 Header`.
impl fmt::Display for DatagramFault {
    ghost output = { λ fault. Some (datagram_fault_text fault) };

    fn fmt<W: fmt::Write>(&self, f: &mut fmt::Formatter<W>) -> fmt::Result {
        f.write_str(match self {
            DatagramFault::Header => "80 Header",
            DatagramFault::Length => "81 Length",
            DatagramFault::Fragment => "82 Fragment",
        })
    }
}
