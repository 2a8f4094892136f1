//! The change set that one layer of routes passes to the next.
use ospf_types::entry::Vertex;
use ospf_types::key::{Dest, Key, Scope};

/// The change set that the layers of routes pass on. It may list more than what changed, and things
/// that do not exist.
///
/// A list that is too long is harmless, because each new result is compared with the old one. A
/// vertex that was not there before need not be listed, so a build is an update that lists all LSAs
/// and nothing else.
#[derive(Drop)]
pub struct Dirty {
    /// Vertices whose distance or next hops changed, each with its Area ID.
    pub vertices: Vec<(u32, Vertex)>,
    /// LSAs that were added or removed, or are used differently, each with its scope.
    pub keys: Vec<(Scope, Key)>,
    /// Changed interfaces, by id.
    pub interfaces: Vec<u8>,
    /// Destinations whose result in a layer below changed.
    pub dests: Vec<Dest>,
}
