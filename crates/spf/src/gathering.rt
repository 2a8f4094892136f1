//! The next hops that a vertex gets over its least links (RFC 2328, 16.1.1).
ghost use Rattle.std.specs.Prelude.{◌≡◌, ◌↔◌, IfSome, IfNone, IsTrue, IfOk, OnOk, Some};
ghost use Rattle.std.specs.Prelude.{option_copied, option_to_list};
ghost use Rattle.std.specs.FinMap as map;
ghost use Rattle.ospf_types.specs.Distances.{FirstOnly};
ghost use Rattle.spf.specs.HandedOn.{AreGiven, AreUnited, HasDirect, HaveSameHops, IsHandedOn};
ghost use Rattle.spf.specs.HandedOn.{IsLeastLink, IsOfSome, IsUnion, IsUnionOver};
ghost use Rattle.spf.specs.Trees.{HandsOn, first_hops};

use crate::hints::is_at_root;
use hop_sets::HopSet;
use ospf_types::entry::Vertex;
use ospf_types::hop::NextHop;
use ospf_types::memory::Memory;
use std::alloc::Global;
use vertex_graph::{Graph, GraphLink, LinkLabel};
use vertex_map::HintedVertex;
use vertex_queue::{Distances, NextHopMap};

/// A tree whose next hops are being updated. The distances are new, and the next hops of a vertex
/// may be old or new.
#[derive(Clone, Copy)]
pub(crate) struct TreeInUpdate<'a> {
    pub(crate) graph: &'a Graph,
    pub(crate) distances: &'a Distances,
    pub(crate) hops: &'a NextHopMap,
}

impl TreeInUpdate<'_> {
    /// Returns the next hops that the vertex gets over the least links to it. `far` is its
    /// distance.
    pub(crate) fn gather(
        self,
        alloc: Global,
        vertex: &HintedVertex,
        far: u32,
    ) -> Result<HopSet, Memory>
        requires { map.get self.distances.now vertex.now ≡ Some far }
        ensures { IfOk result (AreGiven self.entry.graph.now
            self.entry.distances.now self.entry.hops.now vertex.now) }
    {
        let root = self.graph.root();
        let mut set = HopSet::new(alloc);
        for link in self.graph.links_to_at(vertex) {
            self.add_given(root, link, far, &mut set)?;
        }
        Ok(set)
    }

    // Adds the next hops that the link passes on to its head, if it is a least link. `far` is the
    // distance of the head.
    fn add_given(
        self,
        root: u32,
        link: &GraphLink,
        far: u32,
        set: &mut HopSet,
    ) -> Result<(), Memory>
        requires { map.get self.distances.now link.now.to ≡ Some far }
        ensures { OnOk result
            (IsUnionOver root self.entry.distances.now self.entry.hops.now link.now
            set.old set.new) }
    {
        if !is_least(self.distances, link, far) {
            return Ok(());
        }
        // 16.1.1: for the root, the interface of the link; else the next hops of the tail.
        if is_at_root(root, &link.from) {
            return add_first(link.to.vertex(), &link.label, set);
        }
        match self.hops.get(&link.from) {
            Some(tail) => add_handed_on(tail, &link.label, set),
            None => Ok(()),
        }
    }
}

/// Returns true if the next hops are the same.
pub(crate) fn are_same(before: Option<&HopSet>, after: &HopSet) -> bool
    ensures { IsTrue result ↔ HaveSameHops (option_copied before.entry) after.now }
{
    match before {
        Some(before) => before.as_slice() == after.as_slice(),
        None => after.is_empty(),
    }
}

// Returns true if the link is a least link. `far` is the distance of its head.
fn is_least(distances: &Distances, link: &GraphLink, far: u32) -> bool
    requires { map.get distances.now link.now.to ≡ Some far }
    ensures { IsTrue result ↔ IsLeastLink (map.get distances.now) link.now }
{
    match distances.get(&link.from) {
        Some(near) => near + u32::from(link.cost) == far,
        None => false,
    }
}

// Adds the next hop of the path that consists of one link from the root.
fn add_first(to: Vertex, label: &LinkLabel, set: &mut HopSet) -> Result<(), Memory>
    ensures { OnOk result (IsUnion set.old set.new (FirstOnly to label.now)) }
{
    match first_hop(to, label) {
        Some(hop) => set.put(hop),
        None => Ok(()),
    }
}

// Returns the next hop of the path that consists of one link from the root, or `None` if the label
// has no interface.
fn first_hop(to: Vertex, label: &LinkLabel) -> Option<NextHop>
    ensures { option_to_list result ≡ first_hops to label.now }
{
    let interface = label.interface()?;
    match to {
        Vertex::Router(_) => Some(NextHop::Peer(interface)),
        Vertex::Network(_) => Some(NextHop::Direct(interface)),
    }
}

// Adds the next hops that a link passes on from its tail. They are the same as the tail's, unless
// the tail is a network attached to the root.
fn add_handed_on(tail: &HopSet, label: &LinkLabel, set: &mut HopSet) -> Result<(), Memory>
    ensures { OnOk result (IsUnion set.old set.new (IsOfSome tail.now (IsHandedOn label.now))) }
{
    if !has_direct(tail.as_slice()) {
        return unite(tail, set);
    }
    for hop in tail.as_slice() {
        add_handed(*hop, label, set)?;
    }
    Ok(())
}

// Adds all next hops of the tail. The set is usually empty before.
fn unite(tail: &HopSet, set: &mut HopSet) -> Result<(), Memory>
    ensures { OnOk result (AreUnited set.old tail.now set.new) }
{
    if set.is_empty() {
        *set = tail.copy()?;
        return Ok(());
    }
    set.unite(tail)
}

fn has_direct(hops: &[NextHop]) -> bool
    ensures { IsTrue result ↔ HasDirect hops.now }
{
    hops.iter().any(|hop| matches!(hop, NextHop::Direct(_)))
}

// Adds the next hops that a link passes on for one next hop of its tail.
fn add_handed(hop: NextHop, label: &LinkLabel, set: &mut HopSet) -> Result<(), Memory>
    ensures { OnOk result (IsUnion set.old set.new (HandsOn hop label.now)) }
{
    match hop {
        // 16.1.1: after a network attached to the root, the router's address on that network.
        NextHop::Direct(interface) => add_addresses(interface, label, set),
        NextHop::Peer(_) | NextHop::Router(_, _) => set.put(hop),
    }
}

// Adds the next hops over this interface, one for each address in the label.
fn add_addresses(interface: u8, label: &LinkLabel, set: &mut HopSet) -> Result<(), Memory>
    ensures { OnOk result (IsUnion set.old set.new (HandsOn (NextHop.Direct interface) label.now)) }
{
    for address in label.addresses() {
        set.put(NextHop::Router(interface, *address))?;
    }
    Ok(())
}
