//! Links, and the interfaces and changes of a graph.
use crate::label::LinkLabel;
use vertex_map::HintedVertex;

/// An interface of the area that is up.
#[derive(Clone, Copy, Debug, PartialEq, Eq)]
pub struct Up {
    pub id: u8,
    /// The IP interface address, in host order.
    pub address: u32,
}

/// A link of the graph, with its metric (RFC 2328, 16.1).
///
/// Its vertices have hints to their rows.
#[derive(Debug)]
pub struct GraphLink {
    pub from: HintedVertex,
    pub to: HintedVertex,
    /// The metric; 0 for a link from a network.
    pub cost: u16,
    /// The part of the link that determines next hops.
    pub label: LinkLabel,
}

// proof: a value is dropped by one call, not part by part at each exit of a function.
impl Drop for GraphLink {
    fn drop(self) {
        let GraphLink {
            from: _from,
            to: _to,
            cost: _,
            label: _label,
        } = self;
    }
}

/// The links that a change removed and added. A link whose cost or label changed is in both lists.
pub struct LinkChanges {
    pub gone: Vec<GraphLink>,
    pub came: Vec<GraphLink>,
}

// proof: a value is dropped by one call, not part by part at each exit of a function.
impl Drop for LinkChanges {
    fn drop(self) {
        let LinkChanges {
            gone: _gone,
            came: _came,
        } = self;
    }
}
