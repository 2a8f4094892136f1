//! The next hops of the vertices of a tree.
ghost use Rattle.std.specs.Prelude.{◌≡◌, IfOk, OnOk, OnErr, option_copied};
ghost use Rattle.std.specs.FinMap as map;
ghost use Rattle.vertex_queue.specs.Maps.{AreHopsInOrder};

use hop_sets::HopSet;
use ospf_types::WordHash;
use ospf_types::entry::Vertex;
use ospf_types::memory::Memory;
use std::alloc::Global;
use std::marker::Model;
use vertex_map::{HintedVertex, VertexMap};

/// The next hops of each vertex that has a set of them.
pub struct NextHopMap {
    by_vertex: VertexMap<HopSet>,
}

// proof: a value is dropped by one call, not part by part at each exit of a function.
impl Drop for NextHopMap {
    fn drop(self) {
        let NextHopMap {
            by_vertex: _by_vertex,
        } = self;
    }
}

impl Model for NextHopMap {
    ghost use Rattle.std.specs.FinMap as map;
    ghost use Rattle.std.specs.Coded.{codes};
    ghost use Rattle.ospf_types.specs.Vertices.{vertex_code};
    ghost use Rattle.vertex_queue.specs.Maps.{AreHopsInOrder, HopMap};

    ghost Value = { HopMap };

    ghost coded = { map.code vertex_code (Prim.hlevel codes) };

    ghost view = { λ h. h.by_vertex };

    ghost invariant = { λ h. AreHopsInOrder h.by_vertex };
}

impl NextHopMap {
    /// Creates an empty map with room for `room` vertices.
    pub fn with_room(alloc: Global, hashing: WordHash, room: usize) -> Result<NextHopMap, Memory>
        ensures { IfOk result (λ none. none ≡ map.empty) }
    {
        let by_vertex = VertexMap::with_room(alloc, hashing, room)?;
        Ok(NextHopMap { by_vertex })
    }

    /// Returns the next hops of the vertex, or `None` if it has none.
    #[inline]
    pub fn get(&self, vertex: &HintedVertex) -> Option<&HopSet>
        ensures { option_copied result ≡ map.get self.now vertex.now }
    {
        self.by_vertex.get(vertex)
    }

    /// Returns the next hops of a vertex without a hint, which is hashed.
    pub fn find(&self, vertex: Vertex) -> Option<&HopSet>
        ensures { option_copied result ≡ map.get self.now vertex }
    {
        self.get(&HintedVertex::without_hint(vertex))
    }

    /// Returns the number of vertices with next hops.
    pub fn len(&self) -> usize
        ensures value { result ≡ map.len self.now }
        ensures in_order { AreHopsInOrder self.now }
    {
        self.by_vertex.len()
    }

    /// Sets the next hops of the vertex.
    pub fn set(&mut self, vertex: &HintedVertex, hops: HopSet) -> Result<(), Memory>
        ensures set { OnOk result (self.new ≡ map.insert self.old vertex.now hops) }
        ensures unchanged { OnErr result (self.new ≡ self.old) }
    {
        // proof: the set's invariant, that its hops are in order, is known by this call.
        let _ = hops.as_slice();
        self.by_vertex.insert(vertex, hops)?;
        Ok(())
    }

    /// Removes the next hops of the vertex.
    pub fn remove(&mut self, vertex: &HintedVertex)
        ensures { self.new ≡ map.remove self.old vertex.now }
    {
        self.by_vertex.remove(vertex);
    }

    /// Removes all next hops.
    pub fn clear(&mut self)
        ensures { self.new ≡ map.empty }
    {
        self.by_vertex.clear();
    }

    /// Drops the places kept for vertices without next hops, if more than `most` places are kept.
    pub fn trim(&mut self, most: usize)
        ensures { self.new ≡ self.old }
    {
        self.by_vertex.trim(most);
    }
}
