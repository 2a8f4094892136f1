//! One side of a link, as an LSA lists it.
use ospf_types::entry::Vertex;

/// A link end: where a link of an LSA leads, whether the other side links back or not (RFC 2328,
/// A.4.2 and A.4.3).
#[derive(Clone, Copy, Debug, PartialEq, Eq, Hash, PartialOrd, Ord)]
pub struct LinkEnd {
    pub to: Vertex,
    /// The Link Data; 0 for a router in a network-LSA.
    pub detail: u32,
    /// The metric; 0 for a router in a network-LSA.
    pub metric: u16,
}
