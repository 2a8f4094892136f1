//! A list of vertices that is sorted at the end.
ghost use Rattle.std.specs.Prelude.{◌≡◌, ◌<◌, ◌^◌, ◌++◌, ◌∷◌, [], ℕ, OnOk, OnErr, Contains};
ghost use Rattle.std.specs.List.Sorted.{IsStrictlySortedBy};
ghost use Rattle.ospf_types.specs.Vertices.{vertex_cmp};
ghost use Rattle.vertex_queue.specs.Differing.{HaveSameVertices};
ghost use Rattle.vertex_queue.specs.Keys.{vertex_at, with_keys};

use ospf_types::entry::Vertex;
use ospf_types::memory::Memory;
use std::alloc::Global;
use std::marker::Model;

// The offset of the keys of networks, above all keys of routers.
const NETWORKS: u64 = 1 << 32;

/// A list of vertices to be sorted. Each vertex is kept as one number, which is fast to compare.
pub struct SortedVertices {
    keys: Vec<u64>,
}

// proof: a value is dropped by one call, not part by part at each exit of a function.
impl Drop for SortedVertices {
    fn drop(self) {
        let SortedVertices { keys: _keys } = self;
    }
}

impl Model for SortedVertices {
    ghost use Rattle.std.specs.Prelude.{◌<◌, ◌^◌, ℕ, List, Contains, map as list_map};
    ghost use Rattle.ospf_types.specs.declared.entry.Vertex.{Vertex};
    ghost use Rattle.vertex_queue.specs.Keys.{vertex_at};

    ghost Value = { List Vertex };

    ghost view = { λ l. list_map vertex_at l.keys.items };

    ghost invariant = { λ l. (k : ℕ) → Contains l.keys.items k → k < 2 ^ 33 };
}

impl SortedVertices {
    /// Creates an empty list.
    pub fn new(alloc: Global) -> SortedVertices
        ensures { result ≡ [] }
    {
        SortedVertices {
            keys: Vec::new(alloc),
        }
    }

    /// Appends the vertex.
    pub fn push(&mut self, vertex: Vertex) -> Result<(), Memory>
        ensures pushed { OnOk result (self.new ≡ self.old ++ vertex ∷ []) }
        ensures unchanged { OnErr result (self.new ≡ self.old) }
    {
        self.keys.push(key_of(vertex))?;
        Ok(())
    }

    /// Removes all vertices. The list keeps its memory.
    pub fn clear(&mut self)
        ensures { self.new ≡ [] }
    {
        self.keys.clear();
    }

    /// Makes `vertices` the list of these vertices, in ascending order without duplicates.
    ///
    /// # Errors
    ///
    /// Returns `Memory` if memory runs out. `vertices` then has only the first ones.
    pub fn list(&mut self, vertices: &mut Vec<Vertex>) -> Result<(), Memory>
        ensures in_order { OnOk result (IsStrictlySortedBy vertex_cmp vertices.new.items) }
        ensures same { OnOk result (HaveSameVertices vertices.new.items self.old) }
    {
        self.keys.sort_unstable();
        self.keys.dedup();
        vertices.clear();
        push_vertices(self.keys.as_slice(), vertices)
    }
}

// Appends the vertices with these keys.
fn push_vertices(keys: &[u64], vertices: &mut Vec<Vertex>) -> Result<(), Memory>
    requires { (k : ℕ) → Contains keys.now k → k < 2 ^ 33 }
    ensures { OnOk result (vertices.new.items ≡ with_keys vertices.old.items keys.now) }
{
    for key in keys {
        vertices.push(vertex_of(*key))?;
    }
    Ok(())
}

// Returns the key of the vertex. Keys have the order of vertices.
fn key_of(vertex: Vertex) -> u64
    ensures vertex { vertex_at result ≡ vertex }
    ensures small { result < 2 ^ 33 }
{
    match vertex {
        Vertex::Router(number) => u64::from(number),
        Vertex::Network(number) => NETWORKS + u64::from(number),
    }
}

// Returns the vertex with the key.
fn vertex_of(key: u64) -> Vertex
    requires { key < 2 ^ 33 }
    ensures { result ≡ vertex_at key }
{
    if key < NETWORKS {
        Vertex::Router(key as u32)
    } else {
        Vertex::Network((key - NETWORKS) as u32)
    }
}
