//! Hints to rows, taken from links. A wrong hint only costs hashing the vertex.
ghost use Rattle.std.specs.Prelude.{◌≡◌};

use crate::link::GraphLink;
use ospf_types::entry::Vertex;
use vertex_map::HintedVertex;

/// Returns the vertex, with the hint of the link at this index. Without such a link it has no hint.
pub fn hinted_by(links: &[GraphLink], index: usize, vertex: Vertex) -> HintedVertex
    ensures { result ≡ vertex }
{
    match links.get(index) {
        Some(link) => HintedVertex::new(vertex, link.to.number()),
        None => HintedVertex::without_hint(vertex),
    }
}

/// Returns the vertex, with the hint that one of these links has for it.
///
/// The links are in the order of their heads, and a caller asks for vertices in that order. So the
/// first link that is not passed yet usually leads to the vertex.
#[inline]
pub(crate) fn next_placed(links: &[GraphLink], passed: &mut usize, vertex: Vertex) -> HintedVertex
    ensures { result ≡ vertex }
{
    match links.get(*passed) {
        Some(link) if link.to.vertex() == vertex => {
            *passed = passed.saturating_add(1);
            HintedVertex::new(vertex, link.to.number())
        }
        _ => later_placed(links, passed, vertex),
    }
}

// Skips the links to lower vertices, and takes the hint from the link after them.
#[inline(never)]
fn later_placed(links: &[GraphLink], passed: &mut usize, vertex: Vertex) -> HintedVertex
    ensures { result ≡ vertex }
{
    *passed = below(links, *passed, vertex);
    hinted_by(links, *passed, vertex)
}

// Returns the index of the first link, at `first` or later, that does not lead to a lower vertex.
fn below(links: &[GraphLink], first: usize, vertex: Vertex) -> usize {
    let mut past = first;
    while past < links.len() && links[past].to.vertex().compare(vertex).is_lt() {
        past += 1;
    }
    past
}
