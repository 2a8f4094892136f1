//! LSAs by their fields (RFC 2328, A.4).

use anyhow::Result;
use lsa_codec::{Checked, read, sum_of};
use std::alloc::Global;

/// The age of an LSA that is removed, in seconds (RFC 2328, B: MaxAge).
pub const MAX_AGE: u16 = 3600;

/// Fields of the header of an LSA.
#[derive(Clone, Copy)]
pub struct HeaderFields {
    pub age: u16,
    pub kind: u8,
    pub id: u32,
    pub router: u32,
    /// The number of the instance, counted over all LSAs.
    pub instance: u32,
}

/// Returns the LSA with this header and body.
///
/// # Errors
///
/// Returns an error if the LSA has a fault, or if memory runs out.
pub fn lsa(alloc: Global, head: HeaderFields, body: &[u8]) -> Result<Checked> {
    let length = u16::try_from(body.len())?.wrapping_add(20);
    let mut bytes = Vec::from_slice(alloc, &header(head, length))?;
    bytes.extend_from_slice(body)?;
    let [high, low] = sum_of(&bytes).unwrap_or(0).to_be_bytes();
    if let Some(place) = bytes.get_mut(16) {
        *place = high;
    }
    if let Some(place) = bytes.get_mut(17) {
        *place = low;
    }
    Ok(read(alloc, &bytes)?)
}

// Returns the bytes of the header, with checksum 0.
fn header(head: HeaderFields, length: u16) -> [u8; 20] {
    let [old, age] = head.age.to_be_bytes();
    let [a, b, c, d] = head.id.to_be_bytes();
    let [e, f, g, h] = head.router.to_be_bytes();
    let sequence = 0x8000_0001u32.wrapping_add(head.instance);
    let [i, j, k, l] = sequence.to_be_bytes();
    let [high, low] = length.to_be_bytes();
    [
        old, age, 2, head.kind, a, b, c, d, e, f, g, h, i, j, k, l, 0, 0, high, low,
    ]
}

/// Returns the 12 bytes of a link in a router-LSA.
pub fn link(id: u32, data: u32, kind: u8, metric: u16) -> [u8; 12] {
    let [a, b, c, d] = id.to_be_bytes();
    let [e, f, g, h] = data.to_be_bytes();
    let [high, low] = metric.to_be_bytes();
    [a, b, c, d, e, f, g, h, kind, 0, high, low]
}

/// Returns the body of a summary-LSA: a mask, and a metric of three bytes.
pub fn summary(mask: u32, metric: u32) -> [u8; 8] {
    let [a, b, c, d] = mask.to_be_bytes();
    let [_, e, f, g] = metric.to_be_bytes();
    [a, b, c, d, 0, e, f, g]
}

/// Returns the body of an AS-external-LSA, with a metric of type 2 or else of type 1.
pub fn external(mask: u32, is_type_2: bool, metric: u32, forward: u32) -> [u8; 16] {
    let [a, b, c, d] = mask.to_be_bytes();
    let [_, e, f, g] = metric.to_be_bytes();
    let [i, j, k, l] = forward.to_be_bytes();
    let kind = if is_type_2 { 0x80 } else { 0 };
    [a, b, c, d, kind, e, f, g, i, j, k, l, 0, 0, 0, 0]
}
