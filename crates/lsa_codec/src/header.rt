//! The header of an LSA (RFC 2328, A.4.1), read from its bytes.

ghost use Rattle.std.specs.Prelude.{◌≡◌, ◌≤◌, length, false};
ghost use Rattle.lsa_codec.specs.Decoding.{header_of};
ghost use Rattle.lsa_codec.specs.Faults.{is_wrong_length as is_wrong_length_test};

use byteorder::{BigEndian, ByteOrder};
use ospf_types::lsa::Header;

/// The length of the header in bytes.
pub(crate) const HEADER: usize = 20;

/// Returns the header at the start of the bytes.
pub(crate) fn header_in(bytes: &[u8]) -> Header
    requires { 20 ≤ length bytes.now }
    ensures { result ≡ header_of bytes.now }
{
    Header {
        age: BigEndian::read_u16(bytes),
        options: bytes[2],
        kind: bytes[3],
        id: BigEndian::read_u32(&bytes[4..]),
        router: BigEndian::read_u32(&bytes[8..]),
        seq: BigEndian::read_u32(&bytes[12..]),
        sum: BigEndian::read_u16(&bytes[16..]),
        length: BigEndian::read_u16(&bytes[18..]),
    }
}

/// Returns true if the header is cut off, or its length field is not the number of bytes.
pub(crate) fn is_wrong_length(bytes: &[u8]) -> bool
    ensures value { result ≡ is_wrong_length_test bytes.now }
    ensures whole { result ≡ false → 20 ≤ length bytes.now }
{
    bytes.len() < HEADER || usize::from(BigEndian::read_u16(&bytes[18..])) != bytes.len()
}
