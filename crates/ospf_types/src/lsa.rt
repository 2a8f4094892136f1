//! The constants, the header and the parts of link-state advertisements (RFC 2328, A.4).

/// MaxAge, in seconds: the age at which an LSA is no longer used (RFC 2328, appendix B).
pub const MAX_AGE: u16 = 3600;

/// LSInfinity: the metric of an unreachable destination (RFC 2328, appendix B).
pub const LS_INFINITY: u32 = 0xff_ffff;

/// The LS type of router-LSAs (RFC 2328, A.4.2).
pub const ROUTER_LSA: u8 = 1;

/// The LS type of network-LSAs (RFC 2328, A.4.3).
pub const NETWORK_LSA: u8 = 2;

/// The LS type of summary-LSAs for networks (RFC 2328, A.4.4).
pub const SUMMARY_LSA: u8 = 3;

/// The LS type of summary-LSAs for AS boundary routers (RFC 2328, A.4.4).
pub const ASBR_SUMMARY_LSA: u8 = 4;

/// The LS type of AS-external-LSAs (RFC 2328, A.4.5).
pub const AS_EXTERNAL_LSA: u8 = 5;

/// The header of an LSA (RFC 2328, A.4.1). Its numbers are in host order.
#[derive(Clone, Copy, Debug, PartialEq, Eq, Hash)]
pub struct Header {
    /// LS age, in seconds, at most 3600 in a valid LSA.
    pub age: u16,
    /// Options (A.2).
    pub options: u8,
    /// LS type.
    pub kind: u8,
    /// Link State ID.
    pub id: u32,
    /// Advertising Router.
    pub router: u32,
    /// LS sequence number: the 32 bits of a signed number.
    pub seq: u32,
    /// LS checksum.
    pub sum: u16,
    /// Length in bytes, including the header.
    pub length: u16,
}

/// The type of a link of a router-LSA (RFC 2328, A.4.2).
#[derive(Clone, Copy, Debug, PartialEq, Eq, Hash)]
pub enum LinkKind {
    /// A point-to-point link to another router, type 1.
    PointToPoint,
    /// A link to a transit network, type 2.
    Transit,
    /// A link to a stub network, type 3.
    Stub,
    /// A virtual link, type 4.
    Virtual,
}

/// A link of a router-LSA (RFC 2328, A.4.2), in host order, without its TOS metrics. These stay in
/// the LSA, but no route uses them.
#[derive(Clone, Copy, Debug, PartialEq, Eq, Hash)]
pub struct Link {
    /// Link ID: the Router ID of the neighbour, the address of the Designated Router, or the
    /// network number.
    pub id: u32,
    /// Link Data: the router's own interface address, or the mask of a stub network.
    pub detail: u32,
    /// The type of the link.
    pub kind: LinkKind,
    /// The metric of the link.
    pub metric: u16,
}

/// The fields of an AS-external-LSA's first record other than its metric (RFC 2328, A.4.5).
#[derive(Clone, Copy, Debug, PartialEq, Eq, Hash)]
pub struct ExternalFields {
    /// True if the metric is a type 2 metric (bit E).
    pub is_type_2: bool,
    /// The forwarding address in host order, or 0 for the AS boundary router itself.
    pub forwarding: u32,
}

/// The newer one of two instances of an LSA (RFC 2328, 13.1).
#[derive(Clone, Copy, Debug, PartialEq, Eq, Hash)]
pub enum Newer {
    /// The first instance is newer.
    First,
    /// The second instance is newer.
    Second,
    /// Both are the same instance.
    Same,
}
