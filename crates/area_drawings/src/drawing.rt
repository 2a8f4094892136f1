//! The picture of an area: its vertices, each in its cell, and the links between them.

use ospf_types::entry::Vertex;
use ospf_types::hop::NextHop;
use ospf_types::listed::Listed;

/// A cell of a picture. Columns are counted from the left and rows from the top, both from 0.
#[derive(Clone, Copy, Debug, PartialEq, Eq)]
pub struct GridCell {
    pub column: u32,
    pub row: u32,
}

/// The roles of a router, as its router-LSA states them (RFC 2328, A.4.2).
#[derive(Clone, Copy, Debug, PartialEq, Eq)]
pub struct Roles {
    /// True if bit B is set: the router is an area border router.
    pub border: bool,
    /// True if bit E is set: the router is an AS boundary router.
    pub boundary: bool,
}

/// A vertex that is reached, in its cell.
#[derive(Debug)]
pub struct DrawnVertex {
    /// The vertex.
    pub vertex: Vertex,
    /// The cell of the vertex.
    pub place: GridCell,
    /// The roles of a router. A transit network has none.
    pub roles: Roles,
    /// The distance of the vertex from the root: a sum of metrics (RFC 2328, 16.1).
    pub distance: u32,
    /// The next hops of the vertex, in ascending order without duplicates (RFC 2328, 16.1.1). The
    /// root has none.
    pub hops: Listed<NextHop>,
}

// proof: a value is dropped by one call, not part by part at each exit of a function.
impl Drop for DrawnVertex {
    fn drop(self) {
        let DrawnVertex {
            vertex: _,
            place: _,
            roles: _,
            distance: _,
            hops: _hops,
        } = self;
    }
}

/// An end of a link in a picture.
#[derive(Clone, Copy, Debug, PartialEq, Eq)]
pub struct DrawnEnd {
    /// The vertex.
    pub vertex: Vertex,
    /// The cell of the vertex.
    pub place: GridCell,
}

/// A link of the graph in a picture.
#[derive(Clone, Copy, Debug, PartialEq, Eq)]
pub struct DrawnLink {
    /// The tail of the link.
    pub from: DrawnEnd,
    /// The head of the link.
    pub to: DrawnEnd,
    /// The metric of the link.
    pub cost: u32,
    /// True if a shortest path from the root leads over the link: the distances of its ends differ
    /// by its metric.
    pub on_tree: bool,
}

/// The picture of an area.
#[derive(Debug)]
pub struct Drawing {
    /// The Router ID of the root.
    pub root: u32,
    /// The distance of the vertices in each column, from the left, in ascending order.
    pub columns: Listed<u32>,
    /// The number of rows.
    pub rows: u32,
    /// The vertices, without duplicates.
    pub vertices: Listed<DrawnVertex>,
    /// The links between the vertices, without duplicates.
    pub links: Listed<DrawnLink>,
}

// proof: a value is dropped by one call, not part by part at each exit of a function.
impl Drop for Drawing {
    fn drop(self) {
        let Drawing {
            root: _,
            columns: _columns,
            rows: _,
            vertices: _vertices,
            links: _links,
        } = self;
    }
}
