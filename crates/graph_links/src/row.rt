//! The rows of a graph, one for each vertex.
use crate::link::GraphLink;
use crate::link_end::LinkEnd;
use indexmap::IndexMap;
use ospf_types::WordHash;
use ospf_types::entry::Vertex;

/// The row of a vertex: its link ends, and its links.
pub struct Row {
    /// The link ends of the vertex's LSA.
    pub ends: Vec<LinkEnd>,
    /// The links from the vertex.
    pub out: Vec<GraphLink>,
    /// The links to the vertex.
    pub into: Vec<GraphLink>,
}

// proof: a value is dropped by one call, not part by part at each exit of a function.
impl Drop for Row {
    fn drop(self) {
        let Row {
            ends: _ends,
            out: _out,
            into: _into,
        } = self;
    }
}

/// The rows of the vertices that have an LSA.
pub type Rows = IndexMap<Vertex, Row, WordHash>;

/// The new link ends of the vertices whose LSAs change, or `None` if the LSA is removed.
pub type StagedEnds = IndexMap<Vertex, Option<Vec<LinkEnd>>, WordHash>;
