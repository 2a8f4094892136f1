//! The labels of links, as contracts see them (RFC 2328, 16.1.1).
use crate::listed::Listed;

/// The part of a link that decides next hops (RFC 2328, 16.1.1), as contracts see it. Links store
/// it as a `LinkLabel`.
#[derive(Debug, Drop)]
pub enum Label {
    /// For a link out of the root: the interface that the link leads over.
    Over(u8),
    /// For a link out of a network: the addresses on it of the router at the link's head, in
    /// ascending order without duplicates.
    At(Listed<u32>),
    /// For any other link.
    Plain,
}
