//! LSAs by their fields (RFC 2328, A.4).

use anyhow::Result;
use lsa_codec::{Checked, read, sum_of};
use std::alloc::Global;

/// Fields of the header of an LSA.
#[derive(Clone, Copy)]
pub struct HeaderFields {
    pub options: u8,
    pub id: u32,
    pub router: u32,
}

/// The Link ID, Link Data and type of a link.
pub type Fields = (u32, u32, u8);

/// Returns a router-LSA with these links, each at metric 10.
///
/// # Errors
///
/// Returns an error if there are too many links, or if memory runs out.
pub fn router_lsa(alloc: Global, head: HeaderFields, links: &[Fields]) -> Result<Checked> {
    let [high, low] = u16::try_from(links.len())?.to_be_bytes();
    let mut body = Vec::from_slice(alloc, &[0, 0, high, low])?;
    for fields in links {
        body.extend_from_slice(&link(*fields))?;
    }
    lsa(alloc, 1, head, &body)
}

/// Returns a summary-LSA for a network.
///
/// # Errors
///
/// Returns an error if the LSA has a fault, or if memory runs out.
pub fn summary_lsa(alloc: Global, head: HeaderFields, mask: u32, metric: u32) -> Result<Checked> {
    let [a, b, c, d] = mask.to_be_bytes();
    let [_, e, f, g] = metric.to_be_bytes();
    lsa(alloc, 3, head, &[a, b, c, d, 0, e, f, g])
}

fn lsa(alloc: Global, kind: u8, head: HeaderFields, body: &[u8]) -> Result<Checked> {
    let length = u16::try_from(body.len())?.wrapping_add(20);
    let mut bytes = Vec::from_slice(alloc, &header(kind, head, length))?;
    bytes.extend_from_slice(body)?;
    let [high, low] = sum_of(&bytes).unwrap_or(0).to_be_bytes();
    if let Some(place) = bytes.get_mut(16) {
        *place = high;
    }
    if let Some(place) = bytes.get_mut(17) {
        *place = low;
    }
    Ok(read(alloc, &bytes)?)
}

// Returns the bytes of the header, with checksum 0.
fn header(kind: u8, head: HeaderFields, length: u16) -> [u8; 20] {
    let [a, b, c, d] = head.id.to_be_bytes();
    let [e, f, g, h] = head.router.to_be_bytes();
    let [high, low] = length.to_be_bytes();
    [
        0,
        1,
        head.options,
        kind,
        a,
        b,
        c,
        d,
        e,
        f,
        g,
        h,
        0x80,
        0,
        0,
        1,
        0,
        0,
        high,
        low,
    ]
}

fn link(fields: Fields) -> [u8; 12] {
    let (id, data, kind) = fields;
    let [a, b, c, d] = id.to_be_bytes();
    let [e, f, g, h] = data.to_be_bytes();
    [a, b, c, d, e, f, g, h, kind, 0, 0, 10]
}
