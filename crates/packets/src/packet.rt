//! The header of a packet (RFC 2328, A.3.1).

ghost use Rattle.std.specs.Prelude.{◌≡◌, ◌≤◌, false, IfOk, IfErr, Some, None, length};
ghost use Rattle.packets.specs.Packets.{packet_fault_of, has_right_sum as has_right_sum_test};
ghost use Rattle.packets.specs.Packets.{has_wrong_sum as has_wrong_sum_test};
ghost use Rattle.packets.specs.Packets.{is_wrong_length as is_wrong_length_test, kind_of_number};
ghost use Rattle.packets.specs.Packets.{kind_field, length_field, router_field, area_field};
ghost use Rattle.packets.specs.Packets.{authentication_of, body_field};

use crate::authentication::{Authentication, CRYPTOGRAPHIC, authentication_in};
use crate::checksum::{added, folded};
use crate::fault::PacketFault;
use crate::kind::PacketKind;
use byteorder::{BigEndian, ByteOrder};

/// The length of the header in bytes.
const HEADER: usize = 24;

/// The version number of OSPF version 2.
const VERSION: u8 = 2;

/// A packet, with its numbers in host order.
#[derive(Clone, Copy, Debug)]
pub struct Packet<'a> {
    /// The packet type.
    pub kind: PacketKind,
    /// The Router ID of the packet's source.
    pub router: u32,
    /// The Area ID.
    pub area: u32,
    /// The authentication fields. They are not verified.
    pub authentication: Authentication,
    /// The bytes after the header, up to the packet length.
    pub body: &'a [u8],
}

/// Reads a packet. Bytes after its length do not belong to it, such as a message digest (RFC 2328,
/// D.4.3).
///
/// The checksum has to fit for every AuType except cryptographic authentication.
///
/// # Errors
///
/// Returns the first fault of the bytes, in the order of `PacketFault`.
pub fn read_packet(bytes: &[u8]) -> Result<Packet<'_>, PacketFault>
    // Bytes with a fault are refused for their first fault.
    ensures fault { IfErr result (λ fault. packet_fault_of bytes.now ≡ Some fault) }
    // All other bytes are read.
    ensures accepted { IfOk result (λ packet. packet_fault_of bytes.now ≡ None) }
    ensures kind { IfOk result (λ packet. kind_of_number (kind_field bytes.now) ≡ Some packet.kind) }
    ensures router { IfOk result (λ packet. packet.router ≡ router_field bytes.now) }
    ensures area { IfOk result (λ packet. packet.area ≡ area_field bytes.now) }
    ensures authentication { IfOk result (λ packet. packet.authentication ≡ authentication_of bytes.now) }
    ensures body { IfOk result (λ packet. packet.body.now ≡ body_field bytes.now) }
{
    if bytes.len() < HEADER {
        return Err(PacketFault::Short);
    }
    if bytes[0] != VERSION {
        return Err(PacketFault::Version);
    }
    let Some(kind) = PacketKind::of_number(bytes[1]) else {
        return Err(PacketFault::Kind);
    };
    let length = length_in(bytes);
    if is_wrong_length(length, bytes.len()) {
        return Err(PacketFault::Length);
    }
    if has_wrong_sum(&bytes[..length]) {
        return Err(PacketFault::Checksum);
    }
    Ok(Packet {
        kind,
        router: BigEndian::read_u32(&bytes[4..]),
        area: BigEndian::read_u32(&bytes[8..]),
        authentication: authentication_in(bytes),
        body: &bytes[HEADER..length],
    })
}

/// Returns the packet length in bytes, including the header.
fn length_in(bytes: &[u8]) -> usize
    requires { 24 ≤ length bytes.now }
    ensures { result ≡ length_field bytes.now }
{
    usize::from(BigEndian::read_u16(&bytes[2..]))
}

/// Returns true if the packet length is below the header's, or greater than the number of bytes.
fn is_wrong_length(length: usize, present: usize) -> bool
    ensures value { result ≡ is_wrong_length_test length present }
    ensures fits { result ≡ false → (24 ≤ length) × (length ≤ present) }
{
    length < HEADER || length > present
}

/// Returns true if authentication is not cryptographic and the checksum does not fit the packet.
fn has_wrong_sum(packet: &[u8]) -> bool
    requires { 24 ≤ length packet.now }
    ensures { result ≡ has_wrong_sum_test packet.now }
{
    BigEndian::read_u16(&packet[14..]) != CRYPTOGRAPHIC && !has_right_sum(packet)
}

/// Returns true if the sum of all words that the checksum covers, including the checksum, is all
/// ones (RFC 2328, D.4.1).
fn has_right_sum(packet: &[u8]) -> bool
    requires { 24 ≤ length packet.now }
    ensures { result ≡ has_right_sum_test packet.now }
{
    let front = added(0, &packet[..16]);
    folded(added(front, &packet[HEADER..])) == u16::MAX
}
