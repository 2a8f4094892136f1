//! Router-LSAs and network-LSAs by their fields (RFC 2328, A.4.2 and A.4.3).
use lsa_codec::Checked;
use ospf_types::entry::Vertex;
use std::alloc::Global;
use std::test::Fail;

/// A point-to-point link, or a link to a transit network: its other end, Link Data and metric.
pub(crate) type Way = (Vertex, u32, u16);

pub(crate) fn router(alloc: Global, id: u32, ways: &[Way]) -> Result<Checked, Fail> {
    let [high, low] = u16::try_from(ways.len())?.to_be_bytes();
    let mut body = Vec::from_slice(alloc, &[0, 0, high, low])?;
    for way in ways {
        body.extend_from_slice(&link(*way))?;
    }
    lsa(alloc, 1, id, id, &body)
}

// Returns the bytes of a link.
fn link((to, detail, metric): Way) -> [u8; 12] {
    let (kind, id) = match to {
        Vertex::Router(id) => (1, id),
        Vertex::Network(id) => (2, id),
    };
    let [a, b, c, d] = id.to_be_bytes();
    let [e, f, g, h] = detail.to_be_bytes();
    let [high, low] = metric.to_be_bytes();
    [a, b, c, d, e, f, g, h, kind, 0, high, low]
}

/// Returns the network-LSA of the first of these routers.
pub(crate) fn network(alloc: Global, id: u32, routers: &[u32]) -> Result<Checked, Fail> {
    let mut body = Vec::from_slice(alloc, &[255, 255, 255, 0])?;
    for router in routers {
        body.extend_from_slice(&router.to_be_bytes())?;
    }
    let advertiser = routers.first().copied().unwrap_or(1);
    lsa(alloc, 2, id, advertiser, &body)
}

// Returns an LSA with its checksum.
fn lsa(alloc: Global, kind: u8, id: u32, router: u32, body: &[u8]) -> Result<Checked, Fail> {
    let length = u16::try_from(body.len())?.wrapping_add(20);
    let mut bytes = Vec::from_slice(alloc, &header(kind, id, router, length))?;
    bytes.extend_from_slice(body)?;
    seal(&mut bytes)?;
    Ok(lsa_codec::read(alloc, &bytes)?)
}

// Returns the header of an LSA at age 1, with checksum 0.
fn header(kind: u8, id: u32, router: u32, length: u16) -> [u8; 20] {
    let [a, b, c, d] = id.to_be_bytes();
    let [e, f, g, h] = router.to_be_bytes();
    let [high, low] = length.to_be_bytes();
    [
        0, 1, 2, kind, a, b, c, d, e, f, g, h, 0x80, 0, 0, 1, 0, 0, high, low,
    ]
}

// Writes the matching checksum.
fn seal(bytes: &mut [u8]) -> Result<(), Fail> {
    let [high, low] = lsa_codec::sum_of(bytes).ok_or("20 bytes")?.to_be_bytes();
    *bytes.get_mut(16).ok_or("a byte")? = high;
    *bytes.get_mut(17).ok_or("a byte")? = low;
    Ok(())
}
