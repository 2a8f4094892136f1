//! The facts that an LSA gives about the router.

use ospf_types::lsa::Link;

/// A link of a router-LSA of the router.
#[derive(Clone, Copy)]
pub(crate) struct OwnLink {
    /// Area ID.
    pub(crate) area: u32,
    pub(crate) link: Link,
}

/// A point-to-point link that leads to the router.
#[derive(Clone, Copy)]
pub(crate) struct LinkBack {
    /// Area ID.
    pub(crate) area: u32,
    /// Router ID of the router where it begins.
    pub(crate) router: u32,
    /// Its Link Data: the address where it begins.
    pub(crate) address: u32,
}

/// The facts that an LSA gives, its links aside.
#[derive(Clone, Copy)]
pub(crate) struct LsaFacts {
    /// Area ID.
    pub(crate) area: u32,
    /// True if it is a router-LSA of the router.
    pub(crate) is_own: bool,
    /// True if it is a router-LSA with the E-bit clear, as in a stub area (RFC 2328, 12.1.2).
    pub(crate) lacks_externals: bool,
    /// The metric at which the router advertises a default route into the area (RFC 2328, 12.4.3).
    pub(crate) default: Option<u32>,
    /// True if the router advertises another network into the area.
    pub(crate) has_other_summary: bool,
}
