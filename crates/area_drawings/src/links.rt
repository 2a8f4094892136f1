//! The links of the picture: the links of the graph between vertices that are drawn.
ghost use Rattle.std.specs.Prelude.{◌≡◌, ◌≢◌, ◌↔◌, IfOk, IfSome, IfNone, IsTrue, OnOk, Contains};
ghost use Rattle.std.specs.List.{AllPairs};
ghost use Rattle.area_drawings.specs.Links.{AddsLink, AreStandsApart, AreLinksBetween, AreLinksOut};
ghost use Rattle.area_drawings.specs.Links.{HasOneMore, KeepsApart, LacksVertex, IsStandOf, end_of};
ghost use Rattle.area_drawings.specs.Links.{link_between};

use crate::branches::is_least;
use crate::stands::Stand;
use crate::{DrawnEnd, DrawnLink};
use area_trees::AreaTree;
use ospf_types::entry::Vertex;
use ospf_types::memory::Memory;
use std::alloc::Global;
use vertex_graph::GraphLink;

/// Returns the links between these vertices, without duplicates. Links of one cost between two
/// vertices are drawn as one.
pub(crate) fn draw_links(
    alloc: Global,
    tree: &AreaTree,
    stands: &[Stand],
) -> Result<Vec<DrawnLink>, Memory>
    requires { AreStandsApart stands.now }
    ensures exact { IfOk result (λ links. AreLinksBetween tree.now.area.graph stands.now links.items) }
    ensures each_once { IfOk result (λ links. AllPairs (λ k l. k ≢ l) links.items) }
{
    let mut links = Vec::new(alloc);
    for from in stands {
        let row = links_out(alloc, tree, stands, *from)?;
        links.extend_from_slice(&row)?;
    }
    Ok(links)
}

// Returns the links out of a vertex, without duplicates.
fn links_out(
    alloc: Global,
    tree: &AreaTree,
    stands: &[Stand],
    from: Stand,
) -> Result<Vec<DrawnLink>, Memory>
    requires { AreStandsApart stands.now }
    ensures exact { IfOk result (λ links. AreLinksOut tree.now.area.graph stands.now from links.items) }
    ensures each_once { IfOk result (λ links. AllPairs (λ k l. k ≢ l) links.items) }
{
    let mut links = Vec::new(alloc);
    for link in tree.links_from(from.reached.vertex) {
        add_link(stands, from, link, &mut links)?;
    }
    Ok(links)
}

// Appends a link out of a vertex, if the other end is drawn.
fn add_link(
    stands: &[Stand],
    from: Stand,
    link: &GraphLink,
    links: &mut Vec<DrawnLink>,
) -> Result<(), Memory>
    requires { AreStandsApart stands.now }
    ensures exact { OnOk result (AddsLink stands.now from link.now links.old.items links.new.items) }
    ensures each_once { OnOk result (KeepsApart links.old.items links.new.items) }
{
    match find(stands, link.to.vertex()) {
        Some(to) => add_new(drawn(from, link.cost, to), links),
        None => Ok(()),
    }
}

// Returns the vertex in its cell, if it is drawn.
fn find(stands: &[Stand], vertex: Vertex) -> Option<Stand>
    ensures some { IfSome result (IsStandOf stands.now vertex) }
    ensures none { IfNone result (LacksVertex stands.now vertex) }
{
    for stand in stands {
        if stand.reached.vertex == vertex {
            return Some(*stand);
        }
    }
    None
}

// Appends the link, unless the list has it.
fn add_new(link: DrawnLink, links: &mut Vec<DrawnLink>) -> Result<(), Memory>
    ensures exact { OnOk result (HasOneMore link links.old.items links.new.items) }
    ensures each_once { OnOk result (KeepsApart links.old.items links.new.items) }
{
    if has(links, link) {
        return Ok(());
    }
    links.push(link)?;
    Ok(())
}

// Returns true if the list has the link.
fn has(links: &[DrawnLink], link: DrawnLink) -> bool
    ensures { IsTrue result ↔ Contains links.now link }
{
    links.contains(&link)
}

// Returns the drawn link of this cost.
fn drawn(from: Stand, cost: u16, to: Stand) -> DrawnLink
    ensures { result ≡ link_between from cost to }
{
    DrawnLink {
        from: end(from),
        to: end(to),
        cost: u32::from(cost),
        on_tree: is_least(from.reached.distance, cost, to.reached.distance),
    }
}

// Returns the end of a link at a vertex.
fn end(stand: Stand) -> DrawnEnd
    ensures { result ≡ end_of stand }
{
    DrawnEnd {
        vertex: stand.reached.vertex,
        place: stand.place,
    }
}
