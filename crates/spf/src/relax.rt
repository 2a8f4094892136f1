//! The second part of a repair: the new distances (RFC 2328, 16.1 (2) and (3)), from the distances
//! that are kept and the added links.
ghost use Rattle.std.specs.Prelude.{◌≡◌, ◌↔◌, ◌^◌, ◌<◌, [], OnOk, IfOk, IsTrue, length};
ghost use Rattle.std.specs.FinMap as map;
ghost use Rattle.ospf_types.specs.declared.entry.Vertex.TheVariants.{Router as RouterValue};
ghost use Rattle.vertex_graph.specs.Graphs.{HasRoot};
ghost use Rattle.vertex_graph.specs.Pairs.{AreCheap};
ghost use Rattle.vertex_queue.specs.Counts.{no_work, with_taken};
ghost use Rattle.vertex_queue.specs.Maps.{most_distance};
ghost use Rattle.spf.specs.Offers.{AreHeadsAt, AreMadeAt, AreMadeIn, IntoIn, IsCleared, OneOffer};
ghost use Rattle.spf.specs.Offers.{OutOfIn, OverLink, OverLinks, OverReachedIn};
ghost use Rattle.spf.specs.Parts.{AreLinksOfGraph, AreReadyToRelax, AreReset, IsRelaxed};

use crate::hints::is_at_root;
use ospf_types::WordHash;
use ospf_types::entry::Vertex;
use ospf_types::memory::Memory;
use std::alloc::Global;
use vertex_graph::{Graph, GraphLink};
use vertex_map::HintedVertex;
use vertex_queue::{Distances, Queue, Touched, VertexList, VertexSet};

/// The graph after the change, its root with a hint, and the added links.
#[derive(Clone, Copy)]
pub(crate) struct LinksAfter<'a> {
    pub(crate) graph: &'a Graph,
    pub(crate) root: &'a HintedVertex,
    pub(crate) came: &'a [GraphLink],
}

/// The vertices to be updated: the queued ones, and the stale ones, whose least links changed.
pub(crate) struct Pending {
    pub(crate) queue: Queue,
    pub(crate) stale: VertexSet,
}

// proof: a value is dropped by one call, not part by part at each exit of a function.
impl Drop for Pending {
    fn drop(self) {
        let Pending {
            queue: _queue,
            stale: _stale,
        } = self;
    }
}

impl Pending {
    pub(crate) fn new(alloc: Global, hashing: WordHash) -> Pending
        ensures { result.stale ≡ [] }
    {
        Pending {
            queue: Queue::new(alloc, hashing),
            stale: VertexSet::new(alloc, hashing),
        }
    }

    /// Updates the distances, and lists the vertices that got a lower distance or a distance again
    /// in `moved`. Vertices whose least links change become stale.
    pub(crate) fn relax(
        &mut self,
        after: LinksAfter<'_>,
        lost: &VertexSet,
        distances: &mut Distances,
        moved: &mut VertexList,
    ) -> Result<Touched, Memory>
        requires started { AreReadyToRelax after.graph.now after.came.now distances.old lost.now }
        requires links { AreLinksOfGraph after.graph.now after.came.now }
        requires none_wait { self.old.queue ≡ map.empty }
        ensures relaxed { OnOk result (IsRelaxed after.entry.graph.now after.entry.came.now
            distances.old distances.new lost.now self.old self.new moved.new) }
        ensures none_wait { OnOk result (self.new.queue ≡ map.empty) }
        ensures counted { IfOk result (λ touched.
            touched ≡ with_taken no_work (length moved.new)) }
        ensures small { IfOk result (λ touched. touched.taken < 2 ^ 63) }
    {
        let graph = after.graph;
        let mut touched = Touched::none();
        reset(graph, after.root, lost.as_slice(), distances)?;
        self.offer_into(graph, lost.as_slice(), distances)?;
        self.offer_reached(graph.root(), after.came, distances)?;
        moved.clear();
        // 16.1 (3): the vertex closest to the root, a network before a router.
        while let Some((vertex, distance)) = touched.take(&mut self.queue) {
            self.reach(graph, &vertex, distance, distances)?;
            moved.push(&vertex)?;
            prove!(moved.len() < usize::MAX);
        }
        Ok(touched)
    }

    // 16.1 (2): sets the distance of the vertex, and offers the heads of its links the distance
    // over them.
    fn reach(
        &mut self,
        graph: &Graph,
        vertex: &HintedVertex,
        distance: u32,
        distances: &mut Distances,
    ) -> Result<(), Memory>
        requires { distance < most_distance }
        ensures set { OnOk result
            (distances.new ≡ map.insert distances.old vertex.now distance) }
        ensures made { OnOk result (AreMadeIn (OutOfIn graph.now vertex.now distance)
            distances.new self.old self.new) }
    {
        let links = graph.links_from_at(vertex);
        distances.set(vertex, distance)?;
        self.offer_from(graph.root(), links, distance, distances)
    }

    // Offers the vertices the distances over the links to them from reached vertices.
    fn offer_into(
        &mut self,
        graph: &Graph,
        vertices: &[HintedVertex],
        distances: &Distances,
    ) -> Result<(), Memory>
        ensures { OnOk result (AreMadeIn (IntoIn graph.now distances.now vertices.now)
            distances.now self.old self.new) }
    {
        let root = graph.root();
        for vertex in vertices {
            let links = graph.links_to_at(vertex);
            let far = distances.get(vertex);
            self.offer_to(root, links, far, distances)?;
        }
        Ok(())
    }

    // Offers the head of these links the distances over them, for the tails that are reached. `far`
    // is the distance of the head.
    fn offer_to(
        &mut self,
        root: u32,
        links: &[GraphLink],
        far: Option<u32>,
        distances: &Distances,
    ) -> Result<(), Memory>
        requires cheap { AreCheap links.now }
        requires head { AreHeadsAt distances.now links.now far }
        ensures { OnOk result (AreMadeIn (OverReachedIn root distances.now links.now)
            distances.now self.old self.new) }
    {
        for link in links {
            if let Some(near) = distances.get(&link.from) {
                self.offer_over(root, link, near, far)?;
            }
        }
        Ok(())
    }

    // Offers the heads of the links the distances over them, for the tails that are reached.
    fn offer_reached(
        &mut self,
        root: u32,
        links: &[GraphLink],
        distances: &Distances,
    ) -> Result<(), Memory>
        requires { AreCheap links.now }
        ensures { OnOk result (AreMadeIn (OverReachedIn root distances.now links.now)
            distances.now self.old self.new) }
    {
        for link in links {
            if let Some(near) = distances.get(&link.from) {
                let far = distances.get(&link.to);
                self.offer_over(root, link, near, far)?;
            }
        }
        Ok(())
    }

    // Offers the heads of the links the distances over them. All tails are at the distance `near`.
    fn offer_from(
        &mut self,
        root: u32,
        links: &[GraphLink],
        near: u32,
        distances: &Distances,
    ) -> Result<(), Memory>
        requires reached { near < most_distance }
        requires cheap { AreCheap links.now }
        ensures { OnOk result (AreMadeIn (OverLinks root links.now near)
            distances.now self.old self.new) }
    {
        for link in links {
            let far = distances.get(&link.to);
            self.offer_over(root, link, near, far)?;
        }
        Ok(())
    }

    // Offers the head of the link the distance over it, unless it is the root. `near` and `far` are
    // the distances of tail and head.
    fn offer_over(
        &mut self,
        root: u32,
        link: &GraphLink,
        near: u32,
        far: Option<u32>,
    ) -> Result<(), Memory>
        requires reached { near < most_distance }
        requires cheap { link.now.cost < 65536 }
        ensures { OnOk result (AreMadeAt (OverLink root link.now near) link.now.to far
            self.old self.new) }
    {
        if is_at_root(root, &link.to) {
            return Ok(());
        }
        // 16.1 (2d): the cost of the path to the tail, and the cost of the link.
        self.offer(&link.to, near + u32::from(link.cost), far)
    }

    // 16.1 (2d): offers the vertex a distance. It is queued if the distance is below `far`, its
    // present one, or if it has none. It becomes stale if they are equal.
    fn offer(
        &mut self,
        vertex: &HintedVertex,
        distance: u32,
        far: Option<u32>,
    ) -> Result<(), Memory>
        ensures { OnOk result (AreMadeAt (OneOffer vertex.now distance) vertex.now far
            self.old self.new) }
    {
        let Some(least) = far else {
            return self.queue.put(vertex, distance);
        };
        if distance < least {
            return self.queue.put(vertex, distance);
        }
        if distance == least {
            self.stale.add(vertex)?;
        }
        Ok(())
    }
}

// Removes the distances of the lost vertices. The root gets the distance 0 if it is a vertex, and
// else none.
fn reset(
    graph: &Graph,
    place: &HintedVertex,
    lost: &[HintedVertex],
    distances: &mut Distances,
) -> Result<(), Memory>
    ensures { OnOk result (AreReset graph.now distances.old lost.now distances.new) }
{
    clear(lost, distances);
    let root = place.with_vertex(Vertex::Router(graph.root()));
    if has_root(graph, &root) {
        distances.set(&root, 0)?;
    } else {
        distances.remove(&root);
    }
    Ok(())
}

// Returns true if the root is a vertex. If it has links, it is found by its hint.
fn has_root(graph: &Graph, root: &HintedVertex) -> bool
    requires { root.now ≡ RouterValue graph.now.root }
    ensures { IsTrue result ↔ HasRoot graph.now }
{
    !graph.links_from_at(root).is_empty() || graph.has_root()
}

fn clear(lost: &[HintedVertex], distances: &mut Distances)
    ensures { IsCleared (map.get distances.old) lost.now (map.get distances.new) }
{
    for vertex in lost {
        distances.remove(vertex);
    }
}
