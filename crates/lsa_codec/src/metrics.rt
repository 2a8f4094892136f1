//! The metric and the first record of a summary-LSA or an AS-external-LSA (RFC 2328, A.4.4, A.4.5),
//! read from the bytes of the LSA.

ghost use Rattle.std.specs.Prelude.{◌≡◌, ◌≤◌, nat_le, length, drop, slice_index};
ghost use Rattle.byteorder.specs.Endian.{big_number};

use byteorder::{BigEndian, ByteOrder};
use ospf_types::lsa::ExternalFields;

/// Returns the metric of a summary-LSA, or of the first record of an AS-external-LSA.
pub(crate) fn metric_in(bytes: &[u8]) -> u32
    requires { 28 ≤ length bytes.now }
    ensures { result ≡ big_number 3 (drop 25 bytes.now) }
{
    BigEndian::read_u24(&bytes[25..])
}

/// Returns the first record of an AS-external-LSA, without its metric.
pub(crate) fn first_record(bytes: &[u8]) -> ExternalFields
    requires { 36 ≤ length bytes.now }
    ensures { result ≡ record { is_type_2 = nat_le 128 (slice_index bytes.now 24); forwarding = big_number 4 (drop 28 bytes.now) } }
{
    ExternalFields {
        is_type_2: bytes[24] >= 0x80,
        forwarding: BigEndian::read_u32(&bytes[28..]),
    }
}
