//! A set of vertices that keeps the order in which they were added.
ghost use Rattle.std.specs.Prelude.{◌≡◌, ◌↔◌, ◌<◌, ◌≤◌, ◌^◌, ◌++◌, ◌∷◌, [], IfNone, IfSome, IsTrue};
ghost use Rattle.std.specs.Prelude.{OnOk, OnErr, IfOk, Contains, Some, length, slice_get};
ghost use Rattle.vertex_queue.specs.VertexSet.{HasNoDoubles, IsAdded, IsWithMember};
ghost use Rattle.vertex_queue.specs.Marks.{IsMarked, AreMarked, AreFound};

use ospf_types::WordHash;
use ospf_types::memory::Memory;
use smallvec::SmallVec;
use std::alloc::Global;
use std::marker::Model;
use vertex_map::{HintedVertex, VertexMap};

/// A set of vertices, in the order in which they were added. Up to sixteen allocate no memory.
pub struct VertexSet {
    list: SmallVec<HintedVertex, 16>,
    // The index in `list` of each vertex, if there are more than sixteen. Other vertices may have a
    // mark too. A mark counts only if the list has the vertex at its index, so `clear` can leave
    // marks.
    marks: VertexMap<usize>,
}

// proof: a value is dropped by one call, not part by part at each exit of a function.
impl Drop for VertexSet {
    fn drop(self) {
        let VertexSet {
            list: _list,
            marks: _marks,
        } = self;
    }
}

impl Model for VertexSet {
    ghost use Rattle.std.specs.Prelude.{List};
    ghost use Rattle.ospf_types.specs.declared.entry.Vertex.{Vertex};
    ghost use Rattle.vertex_queue.specs.VertexSet.{HasNoDoubles};
    ghost use Rattle.vertex_queue.specs.Marks.{AreFound};

    ghost Value = { List Vertex };

    ghost view = { λ m. m.list.items };

    ghost invariant = { λ m. HasNoDoubles m.list.items × AreFound m.marks m.list.items };
}

impl VertexSet {
    /// Creates an empty set.
    pub fn new(alloc: Global, hashing: WordHash) -> VertexSet
        ensures { result ≡ [] }
    {
        VertexSet {
            list: SmallVec::new(alloc),
            marks: VertexMap::new(alloc, hashing),
        }
    }

    /// Returns true if the set has the vertex.
    pub fn has(&self, vertex: &HintedVertex) -> bool
        ensures { IsTrue result ↔ Contains self.now vertex.now }
    {
        let list = self.list.as_slice();
        if list.len() > 16 {
            return is_marked(&self.marks, list, vertex);
        }
        is_among(list, vertex)
    }

    /// Returns the number of vertices.
    pub fn len(&self) -> usize
        ensures value { result ≡ length self.now }
        ensures small { result < 2 ^ 63 }
    {
        // proof: a set of more than sixteen has a mark for each, so their number bounds it.
        let _ = self.marks.len();
        self.list.len()
    }

    /// Returns the vertices, in the order in which they were added.
    pub fn as_slice(&self) -> &[HintedVertex]
        ensures value { result.now ≡ self.now }
        ensures apart { HasNoDoubles self.now }
    {
        self.list.as_slice()
    }

    /// Appends the vertex, unless the set has it. Returns true if it was appended.
    pub fn add(&mut self, vertex: &HintedVertex) -> Result<bool, Memory>
        ensures end { IfOk result (λ fresh. IsWithMember self.old self.new vertex.now fresh) }
        ensures added { OnOk result (IsAdded self.old self.new vertex.now) }
        ensures unchanged { OnErr result (self.new ≡ self.old) }
    {
        if self.has(vertex) {
            return Ok(false);
        }
        self.push(vertex)?;
        Ok(true)
    }

    /// Appends a vertex that the set does not have.
    pub fn push(&mut self, vertex: &HintedVertex) -> Result<(), Memory>
        requires { Contains self.old vertex.now → ⊥ }
        ensures pushed { OnOk result (self.new ≡ self.old ++ vertex.now ∷ []) }
        ensures unchanged { OnErr result (self.new ≡ self.old) }
    {
        mark(&mut self.marks, self.list.as_slice(), vertex)?;
        self.list.push(vertex.copy())?;
        Ok(())
    }

    /// Removes the last vertex, and returns it.
    pub fn pop(&mut self) -> Option<HintedVertex>
        ensures none { IfNone result (self.old ≡ []) }
        ensures still_none { IfNone result (self.new ≡ []) }
        ensures last { IfSome result (λ vertex. self.old ≡ self.new ++ vertex ∷ []) }
    {
        self.list.pop()
    }

    /// Removes all vertices. The set keeps its memory, and its marks unless there are more than
    /// `most`.
    pub fn clear(&mut self, most: usize)
        ensures { self.new ≡ [] }
    {
        self.list.clear();
        if self.marks.len() > most {
            self.marks.clear();
        }
    }
}

// Returns true if the list has the vertex, comparing all of them.
fn is_among(list: &[HintedVertex], vertex: &HintedVertex) -> bool
    ensures { IsTrue result ↔ Contains list.now vertex.now }
{
    for other in list {
        if is_same(other, vertex) {
            return true;
        }
    }
    false
}

// Returns true if the list has the vertex at the index of its mark.
fn is_marked(marks: &VertexMap<usize>, list: &[HintedVertex], vertex: &HintedVertex) -> bool
    ensures { IsTrue result ↔ IsMarked marks.now list.now vertex.now }
{
    match marks.get(vertex) {
        Some(index) => stands_at(list, *index, vertex),
        None => false,
    }
}

fn stands_at(list: &[HintedVertex], index: usize, vertex: &HintedVertex) -> bool
    ensures { IsTrue result ↔ (slice_get list.now index ≡ Some vertex.now) }
{
    match list.get(index) {
        Some(other) => is_same(other, vertex),
        None => false,
    }
}

// Returns true if both are the same vertex. Hints are not compared.
fn is_same(one: &HintedVertex, other: &HintedVertex) -> bool
    ensures { IsTrue result ↔ (one.now ≡ other.now) }
{
    one.vertex() == other.vertex()
}

// Marks the vertex that is appended next, if the list has sixteen or more. The seventeenth vertex
// gets its mark together with the sixteen before it.
fn mark(
    marks: &mut VertexMap<usize>,
    list: &[HintedVertex],
    vertex: &HintedVertex,
) -> Result<(), Memory>
    requires apart { HasNoDoubles list.now }
    requires fresh { Contains list.now vertex.now → ⊥ }
    requires found { AreFound marks.old list.now }
    ensures grown { OnOk result (AreFound marks.new (list.now ++ vertex.now ∷ [])) }
    ensures still { AreFound marks.new list.now }
{
    if list.len() < 16 {
        return Ok(());
    }
    if list.len() > 16 {
        return mark_next(marks, list, vertex);
    }
    mark_all(marks, list)?;
    mark_next(marks, list, vertex)
}

// Marks the vertex that is appended next.
fn mark_next(
    marks: &mut VertexMap<usize>,
    list: &[HintedVertex],
    vertex: &HintedVertex,
) -> Result<(), Memory>
    requires fresh { Contains list.now vertex.now → ⊥ }
    requires marked { AreMarked marks.old list.now }
    ensures grown { OnOk result (AreMarked marks.new (list.now ++ vertex.now ∷ [])) }
    ensures still { AreMarked marks.new list.now }
{
    marks.insert(vertex, list.len())?;
    Ok(())
}

// Marks each vertex with its index.
fn mark_all(marks: &mut VertexMap<usize>, list: &[HintedVertex]) -> Result<(), Memory>
    requires { HasNoDoubles list.now }
    ensures { OnOk result (AreMarked marks.new list.now) }
{
    for (index, vertex) in list.iter().enumerate() {
        marks.insert(vertex, index)?;
    }
    Ok(())
}
