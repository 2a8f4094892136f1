//! The links from one vertex to another that links back to it.
ghost use Rattle.std.specs.Prelude.{◌≡◌, ◌<◌, length, OnOk, IsOk, IfOk};
ghost use Rattle.ospf_types.specs.declared.label.Label.TheVariants.{At};
ghost use Rattle.graph_links.specs.Pairs.{AddsBetween, AddsBy, AddsOnce, AddsOnto, AddsOver};
ghost use Rattle.graph_links.specs.Pairs.{AddsPlain, AreCheap, KeepsLinksApart, details_of, link_by};
ghost use Rattle.graph_links.specs.Pairs.{turned};

use crate::label::LinkLabel;
use crate::link::{GraphLink, Up};
use crate::link_end::LinkEnd;
use crate::parallel_links::{ParallelLink, ways_over};
use ospf_types::entry::Vertex;
use ospf_types::listed::Listed;
use ospf_types::memory::Memory;
use std::alloc::Global;
use vertex_map::HintedVertex;

/// A vertex, the place of its row, and its link ends at another vertex.
#[derive(Clone, Copy)]
pub(crate) struct Facing<'a> {
    pub(crate) vertex: Vertex,
    pub(crate) place: u32,
    pub(crate) ends: &'a [LinkEnd],
}

/// The root and its interfaces, which its links depend on in addition to LSAs.
#[derive(Clone, Copy)]
pub struct RootInterfaces<'a> {
    /// The Router ID of the root.
    pub root: u32,
    /// The interfaces of the area that are up.
    pub interfaces: &'a [Up],
}

/// Two vertices whose LSAs list each other, so that there are links from `from` to `to`.
#[derive(Clone, Copy)]
pub(crate) struct VertexPair<'a> {
    pub(crate) local: RootInterfaces<'a>,
    pub(crate) from: Facing<'a>,
    pub(crate) to: Facing<'a>,
}

impl<'a> VertexPair<'a> {
    /// Returns the pair for the opposite direction.
    pub(crate) fn turned(self) -> VertexPair<'a>
        ensures { result ≡ turned self.entry }
    {
        VertexPair {
            local: self.local,
            from: self.to,
            to: self.from,
        }
    }

    /// Appends the links from `from` to `to`.
    pub(crate) fn list_links(&self, alloc: Global, links: &mut Vec<GraphLink>) -> Result<(), Memory>
        ensures listed { OnOk result (AddsBetween self.now links.old.items links.new.items) }
        ensures cheap { OnOk result (AreCheap links.old.items → AreCheap links.new.items) }
        ensures apart { OnOk result
            (KeepsLinksApart self.now.from.vertex self.now.to.vertex links.old.items links.new.items) }
    {
        match self.from.vertex {
            Vertex::Router(router) => self.list_from_router(alloc, router, links),
            Vertex::Network(_) => self.list_from_network(alloc, links),
        }
    }

    // Appends the links from a router. The usual case is one end at the other vertex.
    fn list_from_router(
        &self,
        alloc: Global,
        router: u32,
        links: &mut Vec<GraphLink>,
    ) -> Result<(), Memory>
        ensures listed { OnOk result (AddsOver self.now router links.old.items links.new.items) }
        ensures cheap { OnOk result (AreCheap links.old.items → AreCheap links.new.items) }
    {
        match self.from.ends {
            [only] if router != self.local.root => self.list_over_end(*only, links),
            _ => self.list_over_all(alloc, router, links),
        }
    }

    // Appends the links from any router, over all its ends at the other vertex.
    #[inline(never)]
    fn list_over_all(
        &self,
        alloc: Global,
        router: u32,
        links: &mut Vec<GraphLink>,
    ) -> Result<(), Memory>
        ensures listed { OnOk result (AddsOver self.now router links.old.items links.new.items) }
        ensures cheap { OnOk result (AreCheap links.old.items → AreCheap links.new.items) }
    {
        let ways = ways_over(alloc, self.local, router, self.from.ends)?;
        self.list_by_ways(ways.as_slice(), links)
    }

    // Appends the link from a router that is not the root over its only end, unless the metric is
    // 0.
    fn list_over_end(&self, end: LinkEnd, links: &mut Vec<GraphLink>) -> Result<(), Memory>
        ensures listed { OnOk result (AddsPlain self.now end links.old.items links.new.items) }
        ensures cheap { OnOk result (AreCheap links.old.items → AreCheap links.new.items) }
    {
        if end.metric == 0 {
            return Ok(());
        }
        let way = ParallelLink {
            cost: end.metric,
            interface: None,
        };
        links.push(self.link_by(way))?;
        Ok(())
    }

    // Appends a link for each of the parallel links.
    fn list_by_ways(&self, ways: &[ParallelLink], links: &mut Vec<GraphLink>) -> Result<(), Memory>
        ensures listed { OnOk result (AddsBy self.now ways.now links.old.items links.new.items) }
        ensures cheap { OnOk result (AreCheap links.old.items → AreCheap links.new.items) }
    {
        for way in ways {
            links.push(self.link_by(*way))?;
        }
        Ok(())
    }

    // Returns the link for one of the parallel links.
    fn link_by(&self, way: ParallelLink) -> GraphLink
        ensures value { result ≡ link_by self.now.from.vertex self.now.to.vertex way }
        ensures cheap { result.cost < 65536 }
    {
        self.link(way.cost, LinkLabel::over(way.interface))
    }

    // Appends the link from a network, if the other vertex is a router.
    #[inline(never)]
    fn list_from_network(&self, alloc: Global, links: &mut Vec<GraphLink>) -> Result<(), Memory>
        ensures listed { OnOk result (AddsOnto self.now links.old.items links.new.items) }
        ensures cheap { OnOk result (AreCheap links.old.items → AreCheap links.new.items) }
        ensures apart { OnOk result
            (KeepsLinksApart self.now.from.vertex self.now.to.vertex links.old.items links.new.items) }
    {
        let Vertex::Router(_) = self.to.vertex else {
            return Ok(());
        };
        let label = label_onto(alloc, self.to.ends)?;
        // A.4.3: the distance from a network to its routers is 0.
        links.push(self.link(0, label))?;
        Ok(())
    }

    // Returns the link with this cost and label.
    fn link(&self, cost: u16, label: LinkLabel) -> GraphLink
        ensures { result ≡ record {
          from = self.now.from.vertex;
          to = self.now.to.vertex;
          cost = cost;
          label = label;
        } }
    {
        GraphLink {
            from: HintedVertex::new(self.from.vertex, self.from.place),
            to: HintedVertex::new(self.to.vertex, self.to.place),
            cost,
            label,
        }
    }
}

/// Returns the label of a link from a network to a router with these ends there, usually one.
///
/// RFC 2328, 16.1.1: the Link Data of each link back to the network, even of metric 0, is the
/// address of a next hop.
fn label_onto(alloc: Global, ends: &[LinkEnd]) -> Result<LinkLabel, Memory>
    ensures label { IfOk result (λ label. label ≡ At (details_of ends.now)) }

    // A label with one address takes no memory.
    ensures one { length ends.now ≡ 1 → IsOk result }
{
    match ends {
        [only] => Ok(LinkLabel::at_one(only.detail)),
        _ => LinkLabel::at(alloc, each_once(alloc, ends)?),
    }
}

/// Returns the Link Data of the ends, without repetitions of the previous one.
fn each_once(alloc: Global, ends: &[LinkEnd]) -> Result<Listed<u32>, Memory>
    ensures { IfOk result (λ details. details ≡ details_of ends.now) }
{
    let mut details = Listed::new(alloc);
    let mut last = None;
    for end in ends {
        list_once(&mut details, last, end.detail)?;
        last = Some(end.detail);
    }
    Ok(details)
}

/// Appends the Link Data unless it repeats the previous one.
fn list_once(details: &mut Listed<u32>, last: Option<u32>, detail: u32) -> Result<(), Memory>
    ensures { OnOk result (AddsOnce last detail details.old details.new) }
{
    if last == Some(detail) {
        return Ok(());
    }
    details.push(detail)?;
    Ok(())
}
