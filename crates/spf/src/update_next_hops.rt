//! The third part of a repair: the new next hops (RFC 2328, 16.1.1), passed on over least links,
//! nearest vertex first.
ghost use Rattle.std.specs.Prelude.{◌≡◌, ◌-◌, ◌^◌, ◌<◌, ◌≤◌, ◌++◌, ◌∷◌, [], Some, IfSome, IfNone};
ghost use Rattle.std.specs.Prelude.{OnOk, Contains, length};
ghost use Rattle.std.specs.FinMap as map;
ghost use Rattle.vertex_queue.specs.VertexSet.{HasNoDoubles};
ghost use Rattle.vertex_queue.specs.Maps.{with_hops};
ghost use Rattle.spf.specs.HandedOn.{AreBlank, AreHeadsPut, AreReachedPut, HasDistance, IsHeadPut};
ghost use Rattle.spf.specs.HandedOn.{IsLeastLink, IsReachedPut, IsSettledIn};
ghost use Rattle.spf.specs.Parts.{AreReadyToUpdate, AreSettledIn};

use crate::gathering::{TreeInUpdate, are_same};
use crate::hints::is_at_root;
use crate::relax::Pending;
use hop_sets::HopSet;
use ospf_types::memory::Memory;
use std::alloc::Global;
use vertex_graph::{Graph, GraphLink};
use vertex_map::HintedVertex;
use vertex_queue::{Distances, NextHopMap, Queue, Touched, VertexList, VertexSet};

/// The result of the second part: the graph, the new distances, the lost vertices, and the moved
/// ones.
#[derive(Clone, Copy)]
pub(crate) struct Relaxed<'a> {
    pub(crate) graph: &'a Graph,
    pub(crate) distances: &'a Distances,
    pub(crate) lost: &'a VertexSet,
    pub(crate) moved: &'a VertexList,
}

/// The writer of next hops, which lists the vertices whose next hops it wrote and counts the work.
pub(crate) struct HopWriter {
    alloc: Global,
    pub(crate) written: VertexList,
    pub(crate) touched: Touched,
}

// proof: a value is dropped by one call, not part by part at each exit of a function.
impl Drop for HopWriter {
    fn drop(self) {
        let HopWriter {
            alloc: _,
            written: _written,
            touched: _,
        } = self;
    }
}

impl HopWriter {
    /// Creates a writer that has written nothing.
    pub(crate) fn new(alloc: Global) -> HopWriter {
        HopWriter {
            alloc,
            written: VertexList::new(alloc),
            touched: Touched::none(),
        }
    }

    /// Updates the next hops, and lists the vertices whose next hops were written.
    pub(crate) fn update_next_hops(
        &mut self,
        relaxed: Relaxed<'_>,
        pending: &mut Pending,
        hops: &mut NextHopMap,
    ) -> Result<(), Memory>
        requires none_wait { pending.old.queue ≡ map.empty }
        requires unsettled { AreReadyToUpdate relaxed hops.old pending.old.stale }
        requires fits { self.old.touched.taken < 2 ^ 63 }
        requires none_written { self.old.touched.hop_sets ≡ 0 }
        ensures settled { OnOk result (AreSettledIn relaxed.entry hops.old hops.new
            pending.old.stale self.new.written
            (self.new.touched.taken - self.old.touched.taken)) }
        ensures taken { OnOk result (self.old.touched.taken ≤ self.new.touched.taken) }
        ensures written { OnOk result (self.new.touched.hop_sets ≡ length self.new.written) }
    {
        let distances = relaxed.distances;
        self.written.clear();
        self.blank(distances, relaxed.lost.as_slice(), hops)?;
        let root = relaxed.graph.root();
        let moved = relaxed.moved.as_slice();
        put_reached(root, distances, moved, &mut pending.queue)?;
        put_reached(
            root,
            distances,
            pending.stale.as_slice(),
            &mut pending.queue,
        )?;
        prove!(distances.len() <= usize::MAX / 2);
        let least_links = LeastLinks {
            graph: relaxed.graph,
            distances,
        };
        // 16.1 (3): the vertex closest to the root, a network before a router.
        while let Some((vertex, distance)) = self.touched.take(&mut pending.queue) {
            let taken = PoppedVertex { vertex, distance };
            self.settle(least_links, &taken, hops, &mut pending.queue)?;
        }
        Ok(())
    }

    // Removes the next hops of the lost vertices that are not reached again. These vertices count
    // as written.
    fn blank(
        &mut self,
        distances: &Distances,
        lost: &[HintedVertex],
        hops: &mut NextHopMap,
    ) -> Result<(), Memory>
        requires apart { HasNoDoubles lost.now }
        requires none { self.old.written ≡ [] }
        requires none_written { self.old.touched.hop_sets ≡ 0 }
        ensures blanked { OnOk result (AreBlank distances.now lost.now
            hops.old hops.new self.new.written) }
        ensures taken { OnOk result (self.new.touched.taken ≡ self.old.touched.taken) }
        ensures counted { OnOk result (self.new.touched.hop_sets ≡ length self.new.written) }
    {
        for vertex in lost {
            if distances.get(vertex).is_none() {
                self.write(vertex, None, hops)?;
            }
        }
        Ok(())
    }

    // Updates the next hops of a vertex taken from the queue. If they change, the heads of its
    // least links are queued.
    fn settle(
        &mut self,
        least_links: LeastLinks<'_>,
        taken: &PoppedVertex,
        hops: &mut NextHopMap,
        queue: &mut Queue,
    ) -> Result<(), Memory>
        requires at { map.get least_links.distances.now taken.now.vertex ≡ Some taken.now.distance }
        requires fresh { Contains self.old.written taken.now.vertex → ⊥ }
        requires counted { self.old.touched.hop_sets ≡ length self.old.written }
        ensures settled { OnOk result (IsSettledIn
            least_links.entry.graph.now least_links.entry.distances.now taken.now.vertex
            queue.old queue.new hops.old hops.new self.old.written self.new.written) }
        ensures taken { OnOk result (self.new.touched.taken ≡ self.old.touched.taken) }
        ensures counted { OnOk result (self.new.touched.hop_sets ≡ length self.new.written) }
    {
        let tree = TreeInUpdate {
            graph: least_links.graph,
            distances: least_links.distances,
            hops,
        };
        // 16.1.1: the union over all paths of least cost.
        let set = tree.gather(self.alloc, &taken.vertex, taken.distance)?;
        if are_same(hops.get(&taken.vertex), &set) {
            return Ok(());
        }
        self.write(&taken.vertex, Some(set), hops)?;
        least_links.put_heads(taken, queue)
    }

    // Writes the next hops of a vertex that was not written before in this repair.
    fn write(
        &mut self,
        vertex: &HintedVertex,
        set: Option<HopSet>,
        hops: &mut NextHopMap,
    ) -> Result<(), Memory>
        requires fresh { Contains self.old.written vertex.now → ⊥ }
        requires counted { self.old.touched.hop_sets ≡ length self.old.written }
        ensures hops { OnOk result (hops.new ≡ with_hops hops.old vertex.now set) }
        ensures written { OnOk result (self.new.written ≡ self.old.written ++ vertex.now ∷ []) }
        ensures taken { OnOk result (self.new.touched.taken ≡ self.old.touched.taken) }
        ensures counted { OnOk result (self.new.touched.hop_sets ≡ length self.new.written) }
    {
        prove!(self.written.len() < usize::MAX);
        self.touched.write(hops, vertex, set)?;
        self.written.push(vertex)
    }
}

// A vertex taken from the queue, at its distance.
#[derive(Drop)]
struct PoppedVertex {
    vertex: HintedVertex,
    distance: u32,
}

// The least links of a graph: the head is as far from the root as the tail and the link's cost.
#[derive(Clone, Copy)]
struct LeastLinks<'a> {
    graph: &'a Graph,
    distances: &'a Distances,
}

impl LeastLinks<'_> {
    // Queues the heads of the least links from the vertex, except the root.
    fn put_heads(self, taken: &PoppedVertex, queue: &mut Queue) -> Result<(), Memory>
        requires { map.get self.distances.now taken.now.vertex ≡ Some taken.now.distance }
        ensures { OnOk result (AreHeadsPut self.entry.graph.now self.entry.distances.now
            taken.now.vertex queue.old queue.new) }
    {
        let root = self.graph.root();
        for link in self.graph.links_from_at(&taken.vertex) {
            self.put_head(root, link, taken.distance, queue)?;
        }
        Ok(())
    }

    // Queues the head of the link, if it is a least link and the head is not the root. `near` is
    // the distance of its tail.
    fn put_head(
        self,
        root: u32,
        link: &GraphLink,
        near: u32,
        queue: &mut Queue,
    ) -> Result<(), Memory>
        requires { map.get self.distances.now link.now.from ≡ Some near }
        ensures { OnOk result
            (IsHeadPut root self.entry.distances.now link.now queue.old queue.new) }
    {
        if is_at_root(root, &link.to) {
            return Ok(());
        }
        match least_distance(self.distances, link, near) {
            Some(distance) => queue.put(&link.to, distance),
            None => Ok(()),
        }
    }
}

// Queues the vertices that are reached, except the root.
fn put_reached(
    root: u32,
    distances: &Distances,
    vertices: &[HintedVertex],
    queue: &mut Queue,
) -> Result<(), Memory>
    ensures { OnOk result (AreReachedPut root distances.now vertices.now queue.old queue.new) }
{
    for vertex in vertices {
        put_if_reached(root, distances, vertex, queue)?;
    }
    Ok(())
}

fn put_if_reached(
    root: u32,
    distances: &Distances,
    vertex: &HintedVertex,
    queue: &mut Queue,
) -> Result<(), Memory>
    ensures { OnOk result (IsReachedPut root distances.now vertex.now queue.old queue.new) }
{
    if is_at_root(root, vertex) {
        return Ok(());
    }
    match distances.get(vertex) {
        Some(distance) => queue.put(vertex, distance),
        None => Ok(()),
    }
}

// Returns the distance of the link's head, if it is a least link. `near` is the distance of its
// tail.
fn least_distance(distances: &Distances, link: &GraphLink, near: u32) -> Option<u32>
    requires { map.get distances.now link.now.from ≡ Some near }
    ensures least { IfSome result (λ distance. IsLeastLink (map.get distances.now) link.now) }
    ensures head { IfSome result (HasDistance distances.now link.now.to) }
    ensures none { IfNone result (IsLeastLink (map.get distances.now) link.now → ⊥) }
{
    let far = distances.get(&link.to)?;
    if u64::from(near) + u64::from(link.cost) == u64::from(far) {
        Some(far)
    } else {
        None
    }
}
