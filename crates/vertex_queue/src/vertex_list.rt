//! A list of different vertices without lookup.
ghost use Rattle.std.specs.Prelude.{◌≡◌, ◌<◌, ◌^◌, ◌++◌, ◌∷◌, [], OnOk, OnErr, Contains, length};
ghost use Rattle.vertex_queue.specs.VertexSet.{HasNoDoubles};

use ospf_types::memory::Memory;
use std::alloc::Global;
use std::marker::Model;
use vertex_map::HintedVertex;

/// A list of different vertices, in the order in which they were added. Unlike `VertexSet` it
/// cannot be searched, so it takes less memory and time.
pub struct VertexList {
    list: Vec<HintedVertex>,
}

// proof: a value is dropped by one call, not part by part at each exit of a function.
impl Drop for VertexList {
    fn drop(self) {
        let VertexList { list: _list } = self;
    }
}

impl Model for VertexList {
    ghost use Rattle.std.specs.Prelude.{List};
    ghost use Rattle.ospf_types.specs.declared.entry.Vertex.{Vertex};
    ghost use Rattle.vertex_queue.specs.VertexSet.{HasNoDoubles};

    ghost Value = { List Vertex };

    ghost view = { λ m. m.list.items };

    ghost invariant = { λ m. HasNoDoubles m.list.items };
}

impl VertexList {
    /// Creates an empty list.
    pub fn new(alloc: Global) -> VertexList
        ensures { result ≡ [] }
    {
        VertexList {
            list: Vec::new(alloc),
        }
    }

    /// Returns the number of vertices.
    pub fn len(&self) -> usize
        ensures value { result ≡ length self.now }
        ensures small { result < 2 ^ 63 }
    {
        self.list.len()
    }

    /// Returns the vertices, in the order in which they were added.
    pub fn as_slice(&self) -> &[HintedVertex]
        ensures value { result.now ≡ self.now }
        ensures apart { HasNoDoubles self.now }
    {
        self.list.as_slice()
    }

    /// Appends a vertex that the list does not have.
    pub fn push(&mut self, vertex: &HintedVertex) -> Result<(), Memory>
        requires { Contains self.old vertex.now → ⊥ }
        ensures pushed { OnOk result (self.new ≡ self.old ++ vertex.now ∷ []) }
        ensures unchanged { OnErr result (self.new ≡ self.old) }
    {
        self.list.push(vertex.copy())?;
        Ok(())
    }

    /// Removes all vertices. The list keeps its memory.
    pub fn clear(&mut self)
        ensures { self.new ≡ [] }
    {
        self.list.clear();
    }
}
