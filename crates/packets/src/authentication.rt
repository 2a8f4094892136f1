//! The authentication of a packet (RFC 2328, D).
ghost use Rattle.std.specs.Prelude.{◌≡◌, ◌≤◌, length, take, drop};
ghost use Rattle.packets.specs.Packets.{authentication_of, authentication_data};

use byteorder::{BigEndian, ByteOrder};

/// The authentication of a packet, by its AuType and the 64 bits after it (RFC 2328, D).
#[derive(Clone, Copy, Debug, PartialEq, Eq, Hash)]
pub enum Authentication {
    /// No authentication (RFC 2328, D.1).
    Null,
    /// A password in clear text (RFC 2328, D.2).
    Password([u8; 8]),
    /// A message digest after the packet, instead of a checksum (RFC 2328, D.3).
    Cryptographic {
        /// The Key ID.
        key: u8,
        /// The length of the digest in bytes.
        digest_length: u8,
        /// The cryptographic sequence number, in host order.
        sequence: u32,
    },
    /// Any other AuType than 0, 1 or 2.
    Other(u16),
}

/// The AuType of cryptographic authentication.
pub(crate) const CRYPTOGRAPHIC: u16 = 2;

/// Returns the authentication of the packet.
pub(crate) fn authentication_in(packet: &[u8]) -> Authentication
    requires { 24 ≤ length packet.now }
    ensures { result ≡ authentication_of packet.now }
{
    match BigEndian::read_u16(&packet[14..]) {
        0 => Authentication::Null,
        1 => Authentication::Password(password_in(packet)),
        CRYPTOGRAPHIC => Authentication::Cryptographic {
            key: packet[18],
            digest_length: packet[19],
            sequence: BigEndian::read_u32(&packet[20..]),
        },
        other => Authentication::Other(other),
    }
}

fn password_in(packet: &[u8]) -> [u8; 8]
    requires { 24 ≤ length packet.now }
    ensures { result ≡ authentication_data packet.now }
{
    let mut password = [0; 8];
    password.copy_from_slice(&packet[16..24]);
    password
}
