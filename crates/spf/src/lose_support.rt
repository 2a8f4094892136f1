//! The first part of a repair: the vertices that lose their distance, because no link supports it
//! any more. A full calculation does not need it, since it starts with the root only (RFC 2328,
//! 16.1 (1)).
ghost use Rattle.std.specs.Prelude.{◌≡◌, ◌↔◌, ◌<◌, [], IsTrue, IfSome, IfNone, IfOk, OnOk};
ghost use Rattle.std.specs.Prelude.{Contains, length};
ghost use Rattle.std.specs.FinMap as map;
ghost use Rattle.vertex_queue.specs.Maps.{most_distance};
ghost use Rattle.spf.specs.Parts.{AreBefore, AreLostBy};
ghost use Rattle.spf.specs.Suspects.{AreHeadsBeyondTold, AreHeadsTold, AreToldIn, AreSuspectsWithin};
ghost use Rattle.spf.specs.Suspects.{IsSuspectJudgedIn, MaySupport, NoneSupports, SomeSupports, Supports};
ghost use Rattle.spf.specs.Suspects.{TellsSupport, WasLeast};

use crate::relax::Pending;
use crate::workspace::MOST_KEPT;
use ospf_types::WordHash;
use ospf_types::entry::Vertex;
use ospf_types::memory::Memory;
use std::alloc::Global;
use vertex_graph::{Graph, GraphLink, LinkChanges};
use vertex_map::{HintedVertex, VertexMap};
use vertex_queue::{Distances, VertexSet};

/// Finds the vertices that are lost because links were removed.
pub(crate) fn lose_support(
    graph: &Graph,
    changes: &LinkChanges,
    distances: &Distances,
    search: &mut Search,
) -> Result<(), Memory>
    requires { AreBefore graph.now changes.now.gone.items changes.now.came.items distances.now }
    ensures { OnOk result (AreLostBy graph.now changes.now.gone.items changes.now.came.items
        distances.now search.new) }
{
    search.clear(MOST_KEPT);
    search.suspect_heads(changes.gone.as_slice(), graph.root(), distances)?;
    while let Some(suspect) = search.suspects.pop() {
        search.judge(graph, distances, &suspect)?;
    }
    Ok(())
}

/// The search for lost vertices: the lost ones, the ones to be updated later (`pending`), and the
/// suspects. It is kept for its memory.
pub(crate) struct Search {
    pub(crate) lost: VertexSet,
    pub(crate) pending: Pending,
    suspects: VertexSet,
    // The index, among the links to a vertex, where the search for support stopped, if it was at
    // least eight links further on.
    stops: VertexMap<usize>,
}

// proof: a value is dropped by one call, not part by part at each exit of a function.
impl Drop for Search {
    fn drop(self) {
        let Search {
            lost: _lost,
            pending: _pending,
            suspects: _suspects,
            stops: _stops,
        } = self;
    }
}

impl Search {
    pub(crate) fn new(alloc: Global, hashing: WordHash) -> Search
        ensures lost { result.lost ≡ [] }
        ensures stale { result.pending.stale ≡ [] }
        ensures suspects { result.suspects ≡ [] }
    {
        Search {
            lost: VertexSet::new(alloc, hashing),
            pending: Pending::new(alloc, hashing),
            suspects: VertexSet::new(alloc, hashing),
            stops: VertexMap::new(alloc, hashing),
        }
    }

    /// Gives back the memory of the search, except the queue's.
    pub(crate) fn give_back(&mut self, alloc: Global, hashing: WordHash) {
        self.lost = VertexSet::new(alloc, hashing);
        self.pending.stale = VertexSet::new(alloc, hashing);
        self.suspects = VertexSet::new(alloc, hashing);
        self.stops = VertexMap::new(alloc, hashing);
    }

    // Clears the results of the last search. At most `most` marks are kept in each set.
    fn clear(&mut self, most: usize)
        ensures lost { self.new.lost ≡ [] }
        ensures stale { self.new.pending.stale ≡ [] }
        ensures suspects { self.new.suspects ≡ [] }
    {
        self.lost.clear(most);
        self.pending.stale.clear(most);
        self.suspects.clear(most);
        self.stops.clear();
    }

    // Suspects the heads of the removed least links.
    fn suspect_heads(
        &mut self,
        gone: &[GraphLink],
        root: u32,
        distances: &Distances,
    ) -> Result<(), Memory>
        requires within { AreSuspectsWithin self.old.lost self.old.suspects self.old.pending.stale }
        ensures told { OnOk result (AreHeadsTold root distances.now gone.now self.old self.new) }
        ensures lost { OnOk result (self.new.lost ≡ self.old.lost) }
    {
        for link in gone {
            if was_least(link, root, distances) {
                self.suspect(&link.to)?;
            }
        }
        Ok(())
    }

    // Suspects the heads of the links that a lost vertex may have supported. `distance` is the
    // distance that it had.
    fn suspect_beyond(
        &mut self,
        links: &[GraphLink],
        root: u32,
        distances: &Distances,
        distance: u32,
    ) -> Result<(), Memory>
        requires near { distance < most_distance }
        requires within { AreSuspectsWithin self.old.lost self.old.suspects self.old.pending.stale }
        ensures told { OnOk result (AreHeadsBeyondTold root distances.now distance links.now
            self.old self.new) }
        ensures lost { OnOk result (self.new.lost ≡ self.old.lost) }
    {
        for link in links {
            if may_support(link, root, distances, distance) {
                self.suspect(&link.to)?;
            }
        }
        Ok(())
    }

    // Makes the vertex stale, and a suspect unless it is lost.
    fn suspect(&mut self, vertex: &HintedVertex) -> Result<(), Memory>
        requires within { AreSuspectsWithin self.old.lost self.old.suspects self.old.pending.stale }
        ensures told { OnOk result (AreToldIn (λ v. vertex.now ≡ v) self.old self.new) }
        ensures lost { OnOk result (self.new.lost ≡ self.old.lost) }
    {
        // A vertex that was not stale is neither lost nor a suspect.
        if self.pending.stale.add(vertex)? {
            return self.suspects.push(vertex);
        }
        if !self.lost.has(vertex) {
            self.suspects.add(vertex)?;
        }
        Ok(())
    }

    // Makes the suspect lost if it was reached and no link supports it. The
    // vertices that it may have supported then become suspects.
    fn judge(
        &mut self,
        graph: &Graph,
        distances: &Distances,
        suspect: &HintedVertex,
    ) -> Result<(), Memory>
        requires within { AreSuspectsWithin self.old.lost self.old.suspects self.old.pending.stale }
        requires stale { Contains self.old.pending.stale suspect.now }
        ensures { OnOk result (IsSuspectJudgedIn graph.now distances.now self.old self.new suspect.now) }
    {
        if self.lost.has(suspect) {
            return Ok(());
        }
        let Some(distance) = distances.get(suspect) else {
            return Ok(());
        };
        let kept = StillReached {
            distances,
            lost: &self.lost,
        };
        if kept.is_supported(&mut self.stops, graph, suspect, distance)? {
            return Ok(());
        }
        self.lost.push(suspect)?;
        self.suspect_beyond(
            graph.links_from_at(suspect),
            graph.root(),
            distances,
            distance,
        )
    }
}

// The vertices that keep their distance: they were reached and are not lost.
#[derive(Clone, Copy)]
struct StillReached<'a> {
    distances: &'a Distances,
    lost: &'a VertexSet,
}

impl StillReached<'_> {
    // Returns true if a link supports the vertex at its distance.
    //
    // The search continues where the last one for this vertex stopped. The links before that place
    // are read only if no later link supports the vertex.
    fn is_supported(
        self,
        stops: &mut VertexMap<usize>,
        graph: &Graph,
        vertex: &HintedVertex,
        distance: u32,
    ) -> Result<bool, Memory>
        ensures { IfOk result (TellsSupport graph.now self.entry.distances.now self.entry.lost.now
            vertex.now distance) }
    {
        let links = graph.links_to_at(vertex);
        let start = start_of(stops, vertex).min(links.len());
        let (passed, open) = links.split_at(start);
        if let Some(place) = self.find_support(open, distance) {
            note_stop(stops, vertex, start + place, place)?;
            return Ok(true);
        }
        Ok(self.find_support(passed, distance).is_some())
    }

    // Returns the index of the first link that supports its head at the distance.
    fn find_support(self, links: &[GraphLink], distance: u32) -> Option<usize>
        ensures none { IfNone result
            (NoneSupports self.entry.distances.now self.entry.lost.now distance links.now) }
        ensures within { IfSome result (λ place. place < length links.now) }
        ensures found { IfSome result (λ _.
            SomeSupports self.entry.distances.now self.entry.lost.now distance links.now) }
    {
        for (place, link) in links.iter().enumerate() {
            if self.supports(link, distance) {
                return Some(place);
            }
        }
        None
    }

    // Returns true if the tail of the link keeps its distance, and the head is at most this far
    // over the link.
    fn supports(self, link: &GraphLink, distance: u32) -> bool
        ensures { IsTrue result ↔
            Supports (map.get self.entry.distances.now) self.entry.lost.now distance link.now }
    {
        match self.distances.get(&link.from) {
            Some(near) => near + u32::from(link.cost) <= distance && !self.lost.has(&link.from),
            None => false,
        }
    }
}

// Returns the index from which support for the vertex is searched.
fn start_of(stops: &VertexMap<usize>, vertex: &HintedVertex) -> usize {
    if stops.is_empty() {
        return 0;
    }
    stops.get(vertex).copied().unwrap_or(0)
}

// Notes where a search for support stopped, if it passed at least eight links. Fewer are soon read
// again, and take no memory.
fn note_stop(
    stops: &mut VertexMap<usize>,
    vertex: &HintedVertex,
    stop: usize,
    passed: usize,
) -> Result<(), Memory> {
    if passed >= 8 {
        stops.insert(vertex, stop)?;
    }
    Ok(())
}

// Returns true if the link is a least link to another vertex than the root.
fn was_least(link: &GraphLink, root: u32, distances: &Distances) -> bool
    ensures { IsTrue result ↔ WasLeast root (map.get distances.now) link.now }
{
    if link.to.vertex() == Vertex::Router(root) {
        return false;
    }
    match distances.get(&link.from) {
        Some(near) => distances.get(&link.to) == Some(near + u32::from(link.cost)),
        None => false,
    }
}

// Returns true if the link may have supported its head: over it, a reached vertex other than the
// root is at most as far as it was. `distance` is the distance of the tail.
fn may_support(link: &GraphLink, root: u32, distances: &Distances, distance: u32) -> bool
    requires { distance < most_distance }
    ensures { IsTrue result ↔ MaySupport root (map.get distances.now) distance link.now }
{
    if link.to.vertex() == Vertex::Router(root) {
        return false;
    }
    match distances.get(&link.to) {
        Some(far) => distance + u32::from(link.cost) <= far,
        None => false,
    }
}
