//! The last link of a shortest path.
ghost use Rattle.std.specs.Prelude.{◌≡◌, ◌↔◌, IsTrue, IfSome, IfNone, Some, Contains};
ghost use Rattle.std.specs.FinMap as map;
ghost use Rattle.ospf_types.specs.Distances.{FirstOnly};
ghost use Rattle.spf.specs.HandedOn.{IsLeastLink};
ghost use Rattle.spf.specs.TreeValues.{IsTreeOf, listed_hops};
ghost use Rattle.vertex_graph.specs.Labels.{addresses_of};
ghost use Rattle.area_trees.specs.LeastPaths.{HasHop, IsLast, IsLeastLinkFrom, IsHandedBy, IsHopIfSome};
ghost use Rattle.area_trees.specs.LeastPaths.{IsNotBefore};

use ospf_types::entry::Vertex;
use ospf_types::hop::NextHop;
use spf::Tree;
use vertex_graph::{Graph, GraphLink};

/// A graph and its tree.
#[derive(Clone, Copy)]
pub(crate) struct TreeOf<'g, 't> {
    pub(crate) graph: &'g Graph,
    pub(crate) tree: &'t Tree,
}

/// The last link of a path, and the path before it.
#[derive(Clone, Copy)]
pub(crate) struct LastLink<'g> {
    pub(crate) link: &'g GraphLink,
    pub(crate) before: Before,
}

/// The part of a path before its last link.
#[derive(Clone, Copy)]
pub(crate) enum Before {
    /// The root only.
    Root,
    /// A path to the tail of the link, over which the tail gets this next hop.
    Path(NextHop),
}

impl<'g> TreeOf<'g, '_> {
    /// Returns the next hop, if the vertex has it.
    pub(crate) fn hop_at(self, vertex: Vertex, hop: NextHop) -> Option<NextHop>
        ensures { IsHopIfSome self.entry.tree.now vertex hop result }
    {
        self.has_hop(vertex, hop).then_some(hop)
    }

    /// Returns the last link of a shortest path to the vertex, over which the vertex gets this next
    /// hop.
    pub(crate) fn last_link(self, to: Vertex, hop: NextHop) -> LastLink<'g>
        requires tree { IsTreeOf self.graph.now self.tree.now }
        requires hop { HasHop self.graph.now to hop }
        ensures { IsLast self.entry.graph.now self.entry.tree.now to hop result }
    {
        for link in self.graph.links_to(to) {
            if let Some(before) = self.before(link, hop) {
                return LastLink { link, before };
            }
        }
        unreachable!()
    }

    // Returns the path before the link, if the link's head gets this next hop over the link.
    fn before(self, link: &GraphLink, hop: NextHop) -> Option<Before>
        ensures some { IfSome result (IsLeastLinkFrom self.entry.graph.now self.entry.tree.now link.now hop) }
        ensures none { IfNone result (IsNotBefore self.entry.graph.now self.entry.tree.now link.now hop) }
    {
        if !self.is_least(link) {
            return None;
        }
        // 16.1.1: for the root, the interface of the link; else the next hops of the tail.
        if link.from.vertex() == Vertex::Router(self.graph.root()) {
            return is_first(link, hop).then_some(Before::Root);
        }
        Some(Before::Path(self.handed_on(link, hop)?))
    }

    // Returns true if the link is a least link: the head is as far from the root as the tail and
    // the link's cost.
    fn is_least(self, link: &GraphLink) -> bool
        ensures { IsTrue result ↔ IsLeastLink (map.get self.entry.tree.now.distances) link.now }
    {
        match self.tree.distance(link.from.vertex()) {
            Some(near) => {
                let far = near + u32::from(link.cost);
                self.tree.distance(link.to.vertex()) == Some(far)
            }
            None => false,
        }
    }

    // Returns the next hop of the link's tail that becomes this next hop over the link.
    fn handed_on(self, link: &GraphLink, hop: NextHop) -> Option<NextHop>
        ensures some { IfSome result (λ tail. IsHandedBy self.entry.tree.now link.now hop tail) }
        ensures none { IfNone result ((tail : NextHop) → IsHandedBy self.entry.tree.now link.now hop tail → ⊥) }
    {
        let tail = link.from.vertex();
        match hop {
            NextHop::Peer(_) => self.hop_at(tail, hop),
            // 16.1.1: after a network attached to the root, the router's address on that network.
            NextHop::Router(interface, address) if has_address(link, address) => self
                .hop_at(tail, hop)
                .or(self.hop_at(tail, NextHop::Direct(interface))),
            NextHop::Router(_, _) => self.hop_at(tail, hop),
            NextHop::Direct(_) => None,
        }
    }

    fn has_hop(self, vertex: Vertex, hop: NextHop) -> bool
        ensures { IsTrue result ↔ Contains (listed_hops (map.get self.entry.tree.now.hops vertex)) hop }
    {
        self.tree.hops(vertex).contains(&hop)
    }
}

// Returns true if the path that consists of this link has the next hop.
fn is_first(link: &GraphLink, hop: NextHop) -> bool
    ensures { IsTrue result ↔ FirstOnly link.now.to link.now.label hop }
{
    match (link.to.vertex(), hop) {
        (Vertex::Router(_), NextHop::Peer(interface))
        | (Vertex::Network(_), NextHop::Direct(interface)) => {
            link.label.interface() == Some(interface)
        }
        _ => false,
    }
}

// Returns true if the link's label has the address: the router at its head has it on the network at
// its tail.
fn has_address(link: &GraphLink, address: u32) -> bool
    ensures { IsTrue result ↔ Contains (addresses_of link.now.label) address }
{
    link.label.addresses().contains(&address)
}
