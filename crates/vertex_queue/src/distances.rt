//! The distances of the vertices of a tree.
ghost use Rattle.std.specs.Prelude.{◌≡◌, ◌<◌, ◌^◌, IfSome, IfOk, OnOk, OnErr};
ghost use Rattle.std.specs.FinMap as map;
ghost use Rattle.vertex_queue.specs.Maps.{most_distance};

use ospf_types::WordHash;
use ospf_types::entry::Vertex;
use ospf_types::memory::Memory;
use std::alloc::Global;
use std::marker::Model;
use vertex_map::{HintedVertex, VertexMap};

/// The distance of each vertex that is reached: a sum of metrics, below 2^30.
pub struct Distances {
    by_vertex: VertexMap<u32>,
}

// proof: a value is dropped by one call, not part by part at each exit of a function.
impl Drop for Distances {
    fn drop(self) {
        let Distances {
            by_vertex: _by_vertex,
        } = self;
    }
}

impl Model for Distances {
    ghost use Rattle.std.specs.FinMap as map;
    ghost use Rattle.std.specs.Coded.{coded_ℕ};
    ghost use Rattle.ospf_types.specs.Vertices.{vertex_code};
    ghost use Rattle.vertex_queue.specs.Maps.{AreBounded, DistanceMap};

    ghost Value = { DistanceMap };

    ghost coded = { map.code vertex_code coded_ℕ };

    ghost view = { λ d. d.by_vertex };

    ghost invariant = { λ d. AreBounded d.by_vertex };
}

impl Distances {
    /// Creates an empty map with room for `room` vertices.
    pub fn with_room(alloc: Global, hashing: WordHash, room: usize) -> Result<Distances, Memory>
        ensures { IfOk result (λ none. none ≡ map.empty) }
    {
        let by_vertex = VertexMap::with_room(alloc, hashing, room)?;
        Ok(Distances { by_vertex })
    }

    /// Returns the distance of the vertex, or `None` if it is not reached.
    #[inline]
    pub fn get(&self, vertex: &HintedVertex) -> Option<u32>
        ensures value { result ≡ map.get self.now vertex.now }
        ensures bounded { IfSome result (λ distance. distance < most_distance) }
    {
        self.by_vertex.get(vertex).copied()
    }

    /// Returns the distance of a vertex without a hint, which is hashed.
    pub fn find(&self, vertex: Vertex) -> Option<u32>
        ensures value { result ≡ map.get self.now vertex }
        ensures bounded { IfSome result (λ distance. distance < most_distance) }
    {
        self.get(&HintedVertex::without_hint(vertex))
    }

    /// Returns the number of vertices that are reached.
    pub fn len(&self) -> usize
        ensures value { result ≡ map.len self.now }
        ensures small { result < 2 ^ 63 }
    {
        self.by_vertex.len()
    }

    /// Sets the distance of the vertex.
    pub fn set(&mut self, vertex: &HintedVertex, distance: u32) -> Result<(), Memory>
        requires { distance < most_distance }
        ensures set { OnOk result (self.new ≡ map.insert self.old vertex.now distance) }
        ensures unchanged { OnErr result (self.new ≡ self.old) }
    {
        self.by_vertex.insert(vertex, distance)?;
        Ok(())
    }

    /// Removes the distance of the vertex.
    pub fn remove(&mut self, vertex: &HintedVertex)
        ensures { self.new ≡ map.remove self.old vertex.now }
    {
        self.by_vertex.remove(vertex);
    }

    /// Removes all distances.
    pub fn clear(&mut self)
        ensures { self.new ≡ map.empty }
    {
        self.by_vertex.clear();
    }

    /// Drops the places kept for vertices without a distance, if more than `most` places are kept.
    pub fn trim(&mut self, most: usize)
        ensures { self.new ≡ self.old }
    {
        self.by_vertex.trim(most);
    }
}
