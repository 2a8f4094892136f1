//! Changes to the bytes of LSAs, and their checksum.
use lsa_codec::sum_of;
use std::test::Fail;

/// The router-LSA of 10.0.0.1 with a stub link to 192.0.2.0/24 at metric 10 (RFC 2328, A.4.2).
pub(crate) const STUB: [u8; 36] = [
    0, 1, 2, 1, 10, 0, 0, 1, 10, 0, 0, 1, 0x80, 0, 0, 1, 0xe9, 0x86, 0, 0x24, 0, 0, 0, 1, 192, 0,
    2, 0, 255, 255, 255, 0, 3, 0, 0, 10,
];

/// Writes the new bytes at an index.
pub(crate) fn put(bytes: &mut [u8], place: usize, new: &[u8]) -> Result<(), Fail> {
    for (n, byte) in new.iter().enumerate() {
        *bytes.get_mut(place.wrapping_add(n)).ok_or("a byte")? = *byte;
    }
    Ok(())
}

/// Writes the matching checksum.
pub(crate) fn seal(bytes: &mut [u8]) -> Result<(), Fail> {
    let sum = sum_of(bytes).ok_or("20 bytes")?;
    put(bytes, 16, &sum.to_be_bytes())
}
