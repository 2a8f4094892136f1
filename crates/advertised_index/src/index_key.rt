//! The groups of advertised routes by which an index finds them.
use ospf_types::key::Dest;

/// A group of advertised routes, by which they are found.
#[derive(Clone, Copy, Debug, PartialEq, Eq, PartialOrd, Ord)]
pub enum IndexKey {
    /// The routes to a destination.
    To(Dest),
    /// The routes that a router advertises, by its Router ID.
    By(u32),
    /// The routes with a forwarding address, in host order. The group of address 0 is empty.
    Forwarded(u32),
}
