//! Shortest paths, link by link.
ghost use Rattle.std.specs.Prelude.{IfOk};
ghost use Rattle.spf.specs.TreeValues.{IsTreeOf};
ghost use Rattle.area_trees.specs.LeastPaths.{IsPathOver, links_at};

use crate::last_link::{Before, TreeOf};
use ospf_types::entry::Vertex;
use ospf_types::hop::NextHop;
use ospf_types::memory::Memory;
use spf::Tree;
use std::alloc::Global;
use vertex_graph::{Graph, GraphLink};

/// Returns the links of a shortest path from the root to the vertex, in order, over which the
/// vertex gets this next hop (RFC 2328, 16.1 and 16.1.1). The list is empty if the vertex does not
/// have the next hop.
///
/// If there are several such paths, it is one of them. It is the same for the same history of the
/// graph.
pub fn links_of_path<'a>(
    alloc: Global,
    graph: &'a Graph,
    tree: &Tree,
    to: Vertex,
    hop: NextHop,
) -> Result<Vec<&'a GraphLink>, Memory>
    requires { IsTreeOf graph.now tree.now }
    ensures { IfOk result (λ links. IsPathOver graph.now to hop (links_at links.items)) }
{
    let tree_of = TreeOf { graph, tree };
    let mut links = Vec::new(alloc);
    let mut at = to;
    let mut left = tree_of.hop_at(to, hop);
    while let Some(hop) = left {
        let last = tree_of.last_link(at, hop);
        links.push(last.link)?;
        at = last.link.from.vertex();
        left = match last.before {
            Before::Root => None,
            Before::Path(hop) => Some(hop),
        };
    }
    links.reverse();
    Ok(links)
}
