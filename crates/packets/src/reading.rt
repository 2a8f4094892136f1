//! The header of an IPv4 datagram (RFC 791, 3.1), read from its bytes.
ghost use Rattle.std.specs.Prelude.{◌≡◌, ◌≤◌, length, false, None, Some, MatchResult};
ghost use Rattle.packets.specs.Layout.{has_wrong_header as has_wrong_header_test};
ghost use Rattle.packets.specs.Layout.{has_wrong_length as has_wrong_length_test};
ghost use Rattle.packets.specs.Layout.{is_wrong_fragment as is_wrong_fragment_test};
ghost use Rattle.packets.specs.Layout.{header_length as header_length_of};
ghost use Rattle.packets.specs.Layout.{total_length as total_length_of, fault_of, FitsDatagram};
ghost use Rattle.packets.specs.Layout.{has_more as has_more_test, offset_field};
ghost use Rattle.packets.specs.Reading.{IsDatagram};

use crate::datagram::{Datagram, LONGEST};
use crate::datagram_fault::DatagramFault;
use byteorder::{BigEndian, ByteOrder};

/// The length of a header without options, in bytes.
const SHORTEST_HEADER: usize = 20;

/// The bit above the fragment offset, which is set if more fragments follow.
const MORE: u16 = 0x2000;

/// Returns the length of the header in bytes.
fn header_length(bytes: &[u8]) -> usize
    requires { 20 ≤ length bytes.now }
    ensures { result ≡ header_length_of bytes.now }
{
    4 * usize::from(bytes[0] % 16)
}

/// Returns the length of the header and the payload in bytes.
fn total_length(bytes: &[u8]) -> usize
    requires { 20 ≤ length bytes.now }
    ensures value { result ≡ total_length_of bytes.now }
    ensures bound { result ≤ 65535 }
{
    usize::from(BigEndian::read_u16(&bytes[2..]))
}

/// Returns the offset of the payload in the payload of the whole datagram, in bytes.
fn offset(bytes: &[u8]) -> usize
    requires { 20 ≤ length bytes.now }
    ensures value { result ≡ offset_field bytes.now }
    ensures bound { result ≤ 65535 }
{
    8 * usize::from(BigEndian::read_u16(&bytes[6..]) % MORE)
}

/// Returns true if more fragments follow.
fn has_more(bytes: &[u8]) -> bool
    requires { 20 ≤ length bytes.now }
    ensures { result ≡ has_more_test bytes.now }
{
    BigEndian::read_u16(&bytes[6..]) / MORE % 2 == 1
}

fn has_wrong_header(bytes: &[u8]) -> bool
    ensures value { result ≡ has_wrong_header_test bytes.now }
    ensures whole { result ≡ false → 20 ≤ length bytes.now }
{
    if bytes.len() < SHORTEST_HEADER {
        return true;
    }
    let length = header_length(bytes);
    bytes[0] / 16 != 4 || length < SHORTEST_HEADER || length > bytes.len()
}

fn has_wrong_length(bytes: &[u8]) -> bool
    requires { 20 ≤ length bytes.now }
    ensures value { result ≡ has_wrong_length_test bytes.now }
    ensures whole { result ≡ false → header_length_of bytes.now ≤ total_length_of bytes.now }
{
    let total = total_length(bytes);
    total < header_length(bytes) || total > bytes.len()
}

fn is_wrong_fragment(bytes: &[u8]) -> bool
    requires header { 20 ≤ length bytes.now }
    requires whole { header_length_of bytes.now ≤ total_length_of bytes.now }
    ensures { result ≡ is_wrong_fragment_test bytes.now }
{
    let length = total_length(bytes) - header_length(bytes);
    has_more(bytes) && length % 8 != 0 || offset(bytes) + length > LONGEST
}

/// Returns the first fault of the bytes.
fn fault(bytes: &[u8]) -> Option<DatagramFault>
    ensures { result ≡ fault_of bytes.now }
{
    if has_wrong_header(bytes) {
        return Some(DatagramFault::Header);
    }
    if has_wrong_length(bytes) {
        return Some(DatagramFault::Length);
    }
    if is_wrong_fragment(bytes) {
        return Some(DatagramFault::Fragment);
    }
    None
}

/// Returns the datagram with the fields of the header.
fn datagram_in(bytes: &[u8]) -> Datagram<'_>
    requires { FitsDatagram bytes.now }
    ensures { IsDatagram bytes.now result }
{
    Datagram {
        source: BigEndian::read_u32(&bytes[12..]),
        destination: BigEndian::read_u32(&bytes[16..]),
        identification: BigEndian::read_u16(&bytes[4..]),
        protocol: bytes[9],
        offset: offset(bytes),
        is_last: !has_more(bytes),
        payload: &bytes[header_length(bytes)..total_length(bytes)],
    }
}

/// Reads the datagram at the start of the bytes. Bytes after its total length do not belong to it,
/// such as the padding of a short Ethernet frame.
///
/// The checksum of the header is not compared: in many captures, packets that the capturing machine
/// sent have none.
///
/// # Errors
///
/// Returns the first fault of the bytes, in the order of `DatagramFault`.
pub fn read_datagram(bytes: &[u8]) -> Result<Datagram<'_>, DatagramFault>
    ensures { MatchResult result (λ d. (fault_of bytes.now ≡ None) × IsDatagram bytes.now d) (λ f. fault_of bytes.now ≡ Some f) }
{
    match fault(bytes) {
        Some(fault) => Err(fault),
        None => Ok(datagram_in(bytes)),
    }
}
