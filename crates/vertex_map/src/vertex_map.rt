//! The map from vertices to values.
ghost use Rattle.std.specs.Prelude.{◌≡◌, ◌↔◌, ◌<◌, ◌+◌, ◌^◌, cond, length, is_some, IfOk, IfSome};
ghost use Rattle.std.specs.Prelude.{OnOk, OnErr, IsTrue, option_copied};
ghost use Rattle.std.specs.FinMap as map;
ghost use Rattle.vertex_map.specs.Values.{IsAt, TakesOut, WritesAt, inner, is_valued, values_of};

use crate::hinted_vertex::{HintedVertex, NOWHERE};
use indexmap::IndexMap;
use ospf_types::WordHash;
use ospf_types::entry::Vertex;
use ospf_types::memory::Memory;
use std::alloc::Global;
use std::marker::Model;

/// A map from vertices to values.
///
/// A lookup first reads the entry at the vertex's hint. If that entry is of another vertex, the
/// vertex is hashed.
pub struct VertexMap<V> {
    // Each vertex with the place that it has or waits for, and its value. A vertex whose value was
    // removed keeps its entry.
    entries: IndexMap<Vertex, (u32, Option<V>), WordHash>,
    // The number of vertices that have a value.
    len: usize,
}

// proof: a value is dropped by one call, not part by part at each exit of a function.
impl<V: Drop> Drop for VertexMap<V> {
    fn drop(self) {
        let VertexMap {
            entries: _entries,
            len: _,
        } = self;
    }
}

impl<V> Model for VertexMap<V> {
    ghost use Rattle.std.specs.Prelude.{◌≡◌};
    ghost use Rattle.std.specs.FinMap as map;
    ghost use Rattle.ospf_types.specs.Vertices.{vertex_cmp, vertex_code};
    ghost use Rattle.vertex_map.specs.Values.{values_of};

    ghost Value = { map.FinMap vertex_cmp V };

    ghost coded = { map.code vertex_code V.code };

    ghost view = { λ m. values_of m.entries.entries };

    ghost invariant = { λ m. m.len ≡ map.len (values_of m.entries.entries) };
}

impl<V> VertexMap<V> {
    /// Returns the number of vertices that have a value.
    #[inline]
    pub fn len(&self) -> usize
        ensures value { result ≡ map.len self.now }
        ensures small { result < 2 ^ 63 }
    {
        // proof: there are at most as many values as entries.
        let _ = self.entries.len();
        self.len
    }

    /// Returns true if no vertex has a value.
    #[inline]
    pub fn is_empty(&self) -> bool
        ensures { IsTrue result ↔ (map.len self.now ≡ 0) }
    {
        self.len == 0
    }

    /// Returns the vertex's value. It takes no memory.
    #[inline]
    pub fn get(&self, vertex: &HintedVertex) -> Option<&V>
        ensures { option_copied result ≡ map.get self.now vertex.now }
    {
        match self.entries.get_index(vertex.place()) {
            Some((at, kept)) if *at == vertex.vertex() => kept.1.as_ref(),
            _ => self.find(vertex.vertex()),
        }
    }

    // Returns the vertex's value. It is found by the vertex's hash.
    #[inline(never)]
    fn find(&self, vertex: Vertex) -> Option<&V>
        ensures { option_copied result ≡ map.get self.now vertex }
    {
        match self.entries.get(&vertex) {
            Some(kept) => kept.1.as_ref(),
            None => None,
        }
    }
}

impl<V: Drop> VertexMap<V> {
    /// Creates an empty map. It takes no memory until a value is inserted.
    pub fn new(alloc: Global, hashing: WordHash) -> VertexMap<V>
        ensures { result ≡ map.empty }
    {
        VertexMap {
            entries: IndexMap::with_hasher(alloc, hashing),
            len: 0,
        }
    }

    /// Creates an empty map with room for `room` vertices.
    pub fn with_room(alloc: Global, hashing: WordHash, room: usize) -> Result<VertexMap<V>, Memory>
        ensures { IfOk result (λ none. none ≡ map.empty) }
    {
        let entries = IndexMap::with_capacity_and_hasher(alloc, room, hashing)?;
        Ok(VertexMap { entries, len: 0 })
    }

    /// Sets the vertex's value, and drops the old value if there is one.
    ///
    /// # Errors
    ///
    /// Returns `Memory` if memory runs out. Nothing changes then.
    pub fn insert(&mut self, vertex: &HintedVertex, value: V) -> Result<(), Memory>
        ensures ok { OnOk result (self.new ≡ map.insert self.old vertex.now value) }
        ensures err { OnErr result (self.new ≡ self.old) }
    {
        let len = self.len();
        match standing(&self.entries, vertex) {
            Some((place, had)) => {
                write_at(&mut self.entries, place, (vertex.number(), Some(value)));
                self.len = counted(len, had);
                Ok(())
            }
            None => self.put(vertex.vertex(), vertex.number(), value),
        }
    }

    /// Removes the vertex's value.
    pub fn remove(&mut self, vertex: &HintedVertex)
        ensures { self.new ≡ map.remove self.old vertex.now }
    {
        if take(&mut self.entries, vertex) {
            self.len -= 1;
        }
    }

    /// Removes all values.
    pub fn clear(&mut self)
        ensures { self.new ≡ map.empty }
    {
        self.entries.clear();
        self.len = 0;
    }

    /// Removes the entries without a value if there are more than `most` entries.
    ///
    /// Such entries are kept for their places. The owner of the map calls this from time to time
    /// with the number of vertices that there may be.
    pub fn trim(&mut self, most: usize)
        ensures { self.new ≡ self.old }
    {
        // If all entries have a value, no entry can be removed.
        if self.entries.len() > most.max(self.len) {
            tidy(&mut self.entries);
            settle_all(&mut self.entries);
        }
    }

    // Sets the vertex's value, and finds its entry by the vertex's hash. The entry moves to the
    // index `number`, or waits for that index if it is past the end.
    fn put(&mut self, vertex: Vertex, number: u32, value: V) -> Result<(), Memory>
        ensures ok { OnOk result (self.new ≡ map.insert self.old vertex value) }
        ensures err { OnErr result (self.new ≡ self.old) }
    {
        let len = self.len();
        let number = known_number(&self.entries, vertex, number);
        let (index, was) = self.entries.insert_full(vertex, (number, Some(value)))?;
        self.len = counted(len, is_value(&was));
        settle(&mut self.entries, index, number as usize);
        Ok(())
    }
}

// Returns `number`, or the hint in the vertex's entry if `number` is `NOWHERE`.
fn known_number<V>(
    entries: &IndexMap<Vertex, (u32, Option<V>), WordHash>,
    vertex: Vertex,
    number: u32,
) -> u32 {
    if number != NOWHERE {
        return number;
    }
    match entries.get(&vertex) {
        Some(kept) => kept.0,
        None => NOWHERE,
    }
}

// Returns the index of the vertex's entry and whether it has a value, if the entry is at the
// vertex's hint.
#[inline]
fn standing<V>(
    entries: &IndexMap<Vertex, (u32, Option<V>), WordHash>,
    vertex: &HintedVertex,
) -> Option<(usize, bool)>
    ensures at { IfSome result (λ p. IsAt entries.now.entries vertex.now p.0) }
    ensures had { IfSome result (λ p. p.1 ≡ is_valued entries.now.entries vertex.now) }
{
    let place = vertex.place();
    match entries.get_index(place) {
        Some((at, kept)) if *at == vertex.vertex() => Some((place, kept.1.is_some())),
        _ => None,
    }
}

// Replaces the contents of the entry at the index.
#[inline]
fn write_at<V: Drop>(
    entries: &mut IndexMap<Vertex, (u32, Option<V>), WordHash>,
    place: usize,
    kept: (u32, Option<V>),
)
    requires { place < length entries.old.entries }
    ensures { WritesAt place kept.1 entries.old.entries entries.new.entries }
{
    // proof: no vertex has two entries.
    let _ = entries.len();
    entries[place] = kept;
}

// Removes the vertex's value, and returns true if it had one. The entry stays.
fn take<V: Drop>(
    entries: &mut IndexMap<Vertex, (u32, Option<V>), WordHash>,
    vertex: &HintedVertex,
) -> bool
    ensures taken { TakesOut vertex.now entries.old.entries entries.new.entries }
    ensures had { result ≡ is_valued entries.old.entries vertex.now }
{
    match standing(entries, vertex) {
        Some((place, had)) => {
            write_at(entries, place, (vertex.number(), None));
            had
        }
        None => take_by_hash(entries, vertex.vertex()),
    }
}

// Removes the vertex's value, and returns true if it had one. Its entry is found by the vertex's
// hash.
fn take_by_hash<V: Drop>(
    entries: &mut IndexMap<Vertex, (u32, Option<V>), WordHash>,
    vertex: Vertex,
) -> bool
    ensures taken { TakesOut vertex entries.old.entries entries.new.entries }
    ensures had { result ≡ is_valued entries.old.entries vertex }
{
    let Some((place, _, kept)) = entries.get_full(&vertex) else {
        return false;
    };
    let number = kept.0;
    let had = kept.1.is_some();
    write_at(entries, place, (number, None));
    had
}

// Moves the entry at the index to the place, the entry from there to its own place, and so on. The
// last entry waits for a place past the end, or for one that another entry has by right.
fn settle<V>(entries: &mut IndexMap<Vertex, (u32, Option<V>), WordHash>, index: usize, place: usize)
    requires { index < length entries.old.entries }
    ensures same { values_of entries.new.entries ≡ values_of entries.old.entries }
    ensures as_many { length entries.new.entries ≡ length entries.old.entries }
{
    let mut next = exchange(entries, index, place);
    for _ in 0..entries.len() {
        if is_home(entries, next) {
            break;
        }
        next = exchange(entries, index, next);
    }
}

// Exchanges the entry at the index with the one at the place, and returns the place of the entry
// that is at the index afterwards.
fn exchange<V>(
    entries: &mut IndexMap<Vertex, (u32, Option<V>), WordHash>,
    index: usize,
    place: usize,
) -> usize
    requires { index < length entries.old.entries }
    ensures same { values_of entries.new.entries ≡ values_of entries.old.entries }
    ensures as_many { length entries.new.entries ≡ length entries.old.entries }
{
    swap_with(entries, index, place);
    entries[index].0 as usize
}

// Exchanges the entries at the index and at the place, if there is an entry at the place.
fn swap_with<V>(
    entries: &mut IndexMap<Vertex, (u32, Option<V>), WordHash>,
    index: usize,
    place: usize,
)
    requires { index < length entries.old.entries }
    ensures same { values_of entries.new.entries ≡ values_of entries.old.entries }
    ensures as_many { length entries.new.entries ≡ length entries.old.entries }
{
    if place < entries.len() && place != index {
        entries.swap_indices(index, place);
    }
}

// Returns true if no entry should move to the place: it is past the end, or its entry is in its own
// place and has a value.
fn is_home<V>(entries: &IndexMap<Vertex, (u32, Option<V>), WordHash>, place: usize) -> bool {
    match entries.get_index(place) {
        Some((_, kept)) => kept.0 as usize == place && kept.1.is_some(),
        None => true,
    }
}

// Moves each entry to its place.
fn settle_all<V>(entries: &mut IndexMap<Vertex, (u32, Option<V>), WordHash>)
    ensures { values_of entries.new.entries ≡ values_of entries.old.entries }
{
    for index in 0..entries.len() {
        let place = entries[index].0 as usize;
        settle(entries, index, place);
    }
}

// Removes the entries without a value.
fn tidy<V: Drop>(entries: &mut IndexMap<Vertex, (u32, Option<V>), WordHash>)
    ensures { values_of entries.new.entries ≡ values_of entries.old.entries }
{
    // proof: no vertex has two entries.
    let _ = entries.len();
    entries.retain(|_, kept| kept.1.is_some());
}

fn is_value<V>(was: &Option<(u32, Option<V>)>) -> bool
    ensures { result ≡ is_some (inner was.now) }
{
    matches!(was, Some((_, Some(_))))
}

// Returns the number of values after one is set.
fn counted(values: usize, had: bool) -> usize
    requires { values < 2 ^ 63 }
    ensures { result ≡ cond had values (values + 1) }
{
    if had { values } else { values + 1 }
}
