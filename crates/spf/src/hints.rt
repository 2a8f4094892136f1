//! Hints to vertices, taken from links.
ghost use Rattle.std.specs.Prelude.{◌≡◌, ◌↔◌, IsTrue};

use ospf_types::entry::Vertex;
use vertex_graph::{Graph, GraphLink};
use vertex_map::HintedVertex;

/// Returns the vertex, with the hint of the first of these links, which leave from it.
pub(crate) fn tail_of(links: &[GraphLink], vertex: Vertex) -> HintedVertex
    ensures { result ≡ vertex }
{
    match links.first() {
        Some(link) => link.from.with_vertex(vertex),
        None => HintedVertex::without_hint(vertex),
    }
}

/// Returns the root of the graph, with the hint of its links. `before` has the hint of the last
/// repair, by which the links are looked up.
pub(crate) fn root_of(graph: &Graph, before: &HintedVertex) -> HintedVertex
    ensures { result ≡ Vertex.Router graph.now.root }
{
    let root = Vertex::Router(graph.root());
    tail_of(graph.links_from_at(&before.with_vertex(root)), root)
}

/// Returns true if the vertex is the root.
pub(crate) fn is_at_root(root: u32, vertex: &HintedVertex) -> bool
    ensures { IsTrue result ↔ (vertex.now ≡ Vertex.Router root) }
{
    is_root(root, vertex.vertex())
}

fn is_root(root: u32, vertex: Vertex) -> bool
    ensures { IsTrue result ↔ (vertex ≡ Vertex.Router root) }
{
    match vertex {
        Vertex::Router(id) => id == root,
        Vertex::Network(_) => false,
    }
}
