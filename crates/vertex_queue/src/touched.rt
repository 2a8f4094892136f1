//! The work of a tree, and the functions that count it.
ghost use Rattle.std.specs.Prelude.{◌≡◌, ◌+◌, ◌^◌, ◌<◌, IfSome, IfNone, OnOk, OnErr};
ghost use Rattle.std.specs.FinMap as map;
ghost use Rattle.vertex_queue.specs.Counts.{no_work, with_hop_sets, with_taken};
ghost use Rattle.vertex_queue.specs.Maps.{with_hops};
ghost use Rattle.vertex_queue.specs.Queues.{IsFirstWaiting};

use crate::Queue;
use crate::next_hop_map::NextHopMap;
use hop_sets::HopSet;
use ospf_types::memory::Memory;
use vertex_map::HintedVertex;

/// The work of building or repairing a shortest-path tree.
#[derive(Clone, Copy, Debug, PartialEq, Eq)]
pub struct Touched {
    /// The number of vertices taken from the queue.
    pub taken: usize,
    /// The number of next-hop sets written.
    pub hop_sets: usize,
}

impl Touched {
    /// Returns the value for no work.
    pub fn none() -> Touched
        ensures { result ≡ no_work }
    {
        Touched {
            taken: 0,
            hop_sets: 0,
        }
    }

    /// Takes the first vertex from the queue, and counts it. Vertices are taken only by this
    /// function.
    pub fn take(&mut self, queue: &mut Queue) -> Option<(HintedVertex, u32)>
        requires { self.old.taken + 1 < 2 ^ 64 }
        ensures none { IfNone result (queue.old ≡ map.empty) }
        ensures still_none { IfNone result (queue.new ≡ map.empty) }
        ensures uncounted { IfNone result (self.new ≡ self.old) }
        ensures first { IfSome result (λ p. IsFirstWaiting queue.old p.0 p.1) }
        ensures rest { IfSome result (λ p. queue.new ≡ map.remove queue.old p.0) }
        ensures counted { IfSome result (λ p. self.new ≡ with_taken self.old (self.old.taken + 1)) }
    {
        let first = queue.take()?;
        self.taken += 1;
        Some(first)
    }

    /// Writes or removes the next hops of the vertex, and counts it. Next hops are written only by
    /// this function.
    pub fn write(
        &mut self,
        sets: &mut NextHopMap,
        vertex: &HintedVertex,
        hops: Option<HopSet>,
    ) -> Result<(), Memory>
        requires { self.old.hop_sets + 1 < 2 ^ 64 }
        ensures written { OnOk result (sets.new ≡ with_hops sets.old vertex.now hops) }
        ensures counted { OnOk result (self.new ≡ with_hop_sets self.old (self.old.hop_sets + 1)) }
    {
        match hops {
            Some(hops) => sets.set(vertex, hops)?,
            None => sets.remove(vertex),
        }
        self.hop_sets += 1;
        Ok(())
    }
}
