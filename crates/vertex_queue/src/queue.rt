//! The queue: a heap, and a map of the distances that count.
ghost use Rattle.std.specs.Prelude.{◌≡◌, ◌↔◌, Some, IfNone, IfSome, OnErr, OnOk, IsTrue};
ghost use Rattle.std.specs.Prelude.{option_copied};
ghost use Rattle.std.specs.FinMap as map;
ghost use Rattle.std.specs.BinaryHeap.{heap_items};
ghost use Rattle.vertex_queue.specs.Heaps.{AreQueue, HoldsOthers, IsHeapEntryAt, IsStale};
ghost use Rattle.vertex_queue.specs.Queues.{lessened, waits_within, IsFirstWaiting};

use crate::waiting::Waiting;
use ospf_types::WordHash;
use ospf_types::entry::Vertex;
use ospf_types::memory::Memory;
use std::alloc::Global;
use std::cmp::Reverse;
use std::collections::BinaryHeap;
use std::marker::Model;
use vertex_map::{HintedVertex, VertexMap};

/// A priority queue of vertices, each at its distance from the root. Distances are sums of metrics.
pub struct Queue {
    distances: VertexMap<u32>,
    // An entry for each queued vertex at its distance, and stale entries, which `pop_waiting`
    // drops.
    order: BinaryHeap<Reverse<Waiting>>,
}

// proof: a value is dropped by one call, not part by part at each exit of a function.
impl Drop for Queue {
    fn drop(self) {
        let Queue {
            distances: _distances,
            order: _order,
        } = self;
    }
}

impl Model for Queue {
    ghost use Rattle.std.specs.FinMap as map;
    ghost use Rattle.std.specs.Coded.{coded_ℕ};
    ghost use Rattle.ospf_types.specs.Vertices.{vertex_code};
    ghost use Rattle.vertex_queue.specs.Queues.{Queue as Distances};

    ghost Value = { Distances };

    ghost coded = { map.code vertex_code coded_ℕ };

    ghost use Rattle.std.specs.BinaryHeap.{heap_items};
    ghost use Rattle.vertex_queue.specs.Heaps.{AreQueue};

    ghost view = { λ q. q.distances };

    ghost invariant = { λ q. AreQueue q.distances (heap_items q.order) };
}

impl Queue {
    /// Creates an empty queue.
    pub fn new(alloc: Global, hashing: WordHash) -> Queue
        ensures { result ≡ map.empty }
    {
        Queue {
            distances: VertexMap::new(alloc, hashing),
            order: BinaryHeap::new(alloc),
        }
    }

    /// Returns the number of queued vertices.
    pub fn len(&self) -> usize
        ensures { result ≡ map.len self.now }
    {
        self.distances.len()
    }

    /// Returns true if no vertex is queued.
    pub fn is_empty(&self) -> bool
        ensures { IsTrue result ↔ (self.now ≡ map.empty) }
    {
        self.distances.is_empty()
    }

    /// Returns the distance at which the vertex is queued, or `None` if it is not queued.
    pub fn get(&self, vertex: &HintedVertex) -> Option<u32>
        ensures { result ≡ map.get self.now vertex.now }
    {
        self.distances.get(vertex).copied()
    }

    /// Queues the vertex at the distance, or lowers its distance. A vertex that is queued at this
    /// or a lower distance is unchanged.
    ///
    /// # Errors
    ///
    /// Returns `Memory` if memory runs out. The queued vertices and distances are then unchanged.
    pub fn put(&mut self, vertex: &HintedVertex, distance: u32) -> Result<(), Memory>
        ensures put { OnOk result (self.new ≡ lessened self.old vertex.now distance) }
        ensures unchanged { OnErr result (self.new ≡ self.old) }
    {
        if is_within(self.distances.get(vertex), distance) {
            return Ok(());
        }
        self.order.push(Reverse(Waiting::new(vertex, distance)))?;
        self.distances.insert(vertex, distance)?;
        Ok(())
    }

    /// Removes the first vertex, and returns it with its distance, or `None` if the queue is empty.
    ///
    /// The nearest vertex is first. At equal distances networks come before routers, and each kind
    /// is in the order of its numbers (Link State IDs or Router IDs).
    pub fn take(&mut self) -> Option<(HintedVertex, u32)>
        ensures none { IfNone result (self.old ≡ map.empty) }
        ensures first { IfSome result (λ p. IsFirstWaiting self.old p.0 p.1) }
        ensures rest { IfSome result (λ p. self.new ≡ map.remove self.old p.0) }
        ensures still_none { IfNone result (self.new ≡ map.empty) }
    {
        let (vertex, distance) = pop_waiting(&mut self.order, &self.distances)?;
        self.distances.remove(&vertex);
        Some((vertex, distance))
    }

    /// Removes all vertices.
    pub fn clear(&mut self)
        ensures { self.new ≡ map.empty }
    {
        self.distances.clear();
        self.order.clear();
    }

    /// Drops the places kept for vertices that are no longer queued, if more than `most` places are
    /// kept.
    ///
    /// The owner of the queue calls this from time to time, with the number of vertices that may be
    /// queued.
    pub fn trim(&mut self, most: usize)
        ensures { self.new ≡ self.old }
    {
        self.distances.trim(most);
    }
}

// Returns true if the vertex is queued at this or a lower distance. `least` is its distance in the
// queue.
fn is_within(least: Option<&u32>, distance: u32) -> bool
    ensures { result ≡ waits_within (option_copied least.entry) distance }
{
    match least {
        Some(least) => *least <= distance,
        None => false,
    }
}

// Removes the first entry that is not stale from the heap, and the stale ones before it. Returns
// its vertex and distance.
fn pop_waiting(
    order: &mut BinaryHeap<Reverse<Waiting>>,
    distances: &VertexMap<u32>,
) -> Option<(HintedVertex, u32)>
    requires { AreQueue distances.now (heap_items order.old) }
    ensures none { IfNone result (distances.now ≡ map.empty) }
    ensures first { IfSome result (λ p. IsFirstWaiting distances.now p.0 p.1) }
    ensures others { IfSome result (λ p. HoldsOthers distances.now p.0 (heap_items order.new)) }
    ensures none_kept { IfNone result (AreQueue distances.now (heap_items order.new)) }
{
    if distances.is_empty() {
        order.clear();
        return None;
    }
    while let Some(Reverse(first)) = order.pop() {
        if let Some(found) = waits(distances, first) {
            return Some(found);
        }
    }
    None
}

// Returns the vertex and distance of the entry, or `None` if the entry is stale.
fn waits(distances: &VertexMap<u32>, entry: Waiting) -> Option<(HintedVertex, u32)>
    ensures at { IfSome result (λ p. IsHeapEntryAt entry p.0 p.1) }
    ensures waits { IfSome result (λ p. map.get distances.now p.0 ≡ Some p.1) }
    ensures none { IfNone result (IsStale distances.now entry) }
{
    let vertex = entry.vertex();
    let distance = *distances.get(&vertex)?;
    if entry.is_at(distance) {
        Some((vertex, distance))
    } else {
        None
    }
}
