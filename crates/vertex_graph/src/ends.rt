//! The link ends in an LSA.
ghost use Rattle.std.specs.Prelude.{◌≡◌, ◌≢◌, ◌↔◌, ◌≤◌, map as list_map, length, IsTrue, IfOk};
ghost use Rattle.std.specs.Prelude.{Contains};
ghost use Rattle.std.specs.List.{filter_map};
ghost use Rattle.std.specs.List.Sorted.{IsStrictlySortedBy, IsPartitionPoint};
ghost use Rattle.ospf_types.specs.Vertices.{vertex_cmp};
ghost use Rattle.lsa_codec.specs.Readers.{links_of, routers_of};
ghost use Rattle.graph_links.specs.EndOrder.{end_cmp, listed_end};
ghost use Rattle.vertex_graph.specs.Ends.{end_of as end_of_listed, end_of_link, AreEnds};
ghost use Rattle.graph_links.specs.Pairs.{Names};
ghost use Rattle.graph_links.specs.declared.link_end.LinkEnd.{LinkEnd as EndValue};

use graph_links::LinkEnd;
use lsa_codec::{Checked, Link, LinkKind};
use ospf_types::entry::Vertex;
use ospf_types::memory::Memory;
use std::alloc::Global;
use std::cmp::Ordering;

// A usual number of links or routers in an LSA.
const USUAL: usize = 16;

/// Returns the link ends of the vertex's LSA, in order and without duplicates.
pub(crate) fn ends_of(alloc: Global, vertex: Vertex, lsa: &Checked) -> Result<Vec<LinkEnd>, Memory>
    ensures { IfOk result (λ ends. AreEnds vertex lsa.now.body ends.items) }
{
    let mut ends = match vertex {
        Vertex::Router(_) => router_ends(alloc, lsa)?,
        Vertex::Network(_) => network_ends(alloc, lsa)?,
    };
    ends.sort_unstable();
    ends.dedup();
    Ok(ends)
}

/// Returns the link ends of a router-LSA, in the order of the LSA.
fn router_ends(alloc: Global, lsa: &Checked) -> Result<Vec<LinkEnd>, Memory>
    ensures { IfOk result (λ ends. ends.items ≡ filter_map end_of_listed (links_of lsa.now.body)) }
{
    let mut ends = Vec::with_capacity(alloc, USUAL)?;
    for link in lsa.links() {
        if let Some(end) = end_of(link) {
            ends.push(end)?;
        }
    }
    Ok(ends)
}

/// Returns the end of a link, or `None` for a link to a stub network and for a virtual link.
fn end_of(link: Link) -> Option<LinkEnd>
    ensures { result ≡ end_of_link link }
{
    let to = match link.kind {
        LinkKind::PointToPoint => Vertex::Router(link.id),
        LinkKind::Transit => Vertex::Network(link.id),
        // 16.1 (2) (a): links to stub networks are left to the second stage.
        LinkKind::Stub | LinkKind::Virtual => return None,
    };
    Some(LinkEnd {
        to,
        detail: link.detail,
        metric: link.metric,
    })
}

/// Returns the routers of a network-LSA as link ends, in the order of the LSA.
fn network_ends(alloc: Global, lsa: &Checked) -> Result<Vec<LinkEnd>, Memory>
    ensures { IfOk result (λ ends. ends.items ≡ list_map listed_end (routers_of lsa.now.body)) }
{
    let mut ends = Vec::with_capacity(alloc, USUAL)?;
    for router in lsa.routers() {
        ends.push(LinkEnd {
            to: Vertex::Router(router),
            detail: 0,
            metric: 0,
        })?;
    }
    Ok(ends)
}
