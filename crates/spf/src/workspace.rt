//! The working memory of a repair.
ghost use Rattle.std.specs.Prelude.{◌≡◌, [], OnOk, IfOk};
ghost use Rattle.std.specs.FinMap as map;
ghost use Rattle.vertex_queue.specs.Maps.{AreHopsInOrder};
ghost use Rattle.spf.specs.TreeValues.{ComesTo, IsBegunWith, tree_of};

use crate::lose_support::Search;
use crate::relax::LinksAfter;
use crate::update_next_hops::{HopWriter, Relaxed};
use ospf_types::WordHash;
use ospf_types::memory::Memory;
use std::alloc::Global;
use vertex_map::HintedVertex;
use vertex_queue::{Distances, NextHopMap, Queue, SortedVertices, Touched, VertexList};

/// The maximum number of vertices whose memory is kept from repair to repair.
pub(crate) const MOST_KEPT: usize = 512;

/// The working memory of a repair. It is kept for the next repair, which starts without its
/// contents.
pub(crate) struct Workspace {
    pub(crate) search: Search,
    // The root and the lost vertices, with their distances before the repair.
    pub(crate) remembered: Vec<(HintedVertex, Option<u32>)>,
    pub(crate) moved: VertexList,
    pub(crate) writer: HopWriter,
    pub(crate) listing: SortedVertices,
    hashing: WordHash,
}

// proof: a value is dropped by one call, not part by part at each exit of a function.
impl Drop for Workspace {
    fn drop(self) {
        let Workspace {
            search: _search,
            remembered: _remembered,
            moved: _moved,
            writer: _writer,
            listing: _listing,
            hashing: _,
        } = self;
    }
}

impl Workspace {
    /// Creates an empty workspace.
    pub(crate) fn new(alloc: Global, hashing: WordHash) -> Workspace
        ensures lost { result.search.lost ≡ [] }
        ensures stale { result.search.pending.stale ≡ [] }
    {
        Workspace {
            search: Search::new(alloc, hashing),
            remembered: Vec::new(alloc),
            moved: VertexList::new(alloc),
            writer: HopWriter::new(alloc),
            listing: SortedVertices::new(alloc),
            hashing,
        }
    }

    /// Carries out the second and third part of a repair: updates the distances and the next hops,
    /// once the lost vertices are known.
    pub(crate) fn update_distances_and_hops(
        &mut self,
        after: LinksAfter<'_>,
        distances: &mut Distances,
        hops: &mut NextHopMap,
    ) -> Result<Touched, Memory>
        requires begun { IsBegunWith after.graph.now after.came.now
            (tree_of distances.old hops.old) self.old.search }
        ensures carried_out { IfOk result (ComesTo after.entry.graph.now after.entry.came.now
            (tree_of distances.old hops.old) (tree_of distances.new hops.new) self.old self.new) }
        ensures lost { OnOk result (self.new.search.lost ≡ self.old.search.lost) }
        ensures remembered { self.new.remembered ≡ self.old.remembered }
        ensures were_in_order { AreHopsInOrder hops.old }
        ensures in_order { OnOk result (AreHopsInOrder hops.new) }
    {
        // proof: the invariant of the next hops, that each set is in order, is known by this call.
        let _ = hops.len();
        // proof: the queue is empty already, because a tree is not repaired after memory ran out.
        empty(&mut self.search.pending.queue);
        let touched = self
            .search
            .pending
            .relax(after, &self.search.lost, distances, &mut self.moved)?;
        self.writer.touched = touched;
        let relaxed = Relaxed {
            graph: after.graph,
            distances,
            lost: &self.search.lost,
            moved: &self.moved,
        };
        self.writer
            .update_next_hops(relaxed, &mut self.search.pending, hops)?;
        // proof: the sets are in order after the update too.
        let _ = hops.len();
        Ok(self.writer.touched)
    }

    /// Drops the places kept for vertices that are not queued, if more than `most` places are kept.
    pub(crate) fn trim(&mut self, most: usize) {
        self.search.pending.queue.trim(most);
    }

    /// Gives back the memory that only a large repair needs.
    pub(crate) fn give_back(&mut self, alloc: Global) {
        if self.search.pending.stale.len() > MOST_KEPT {
            self.search.give_back(alloc, self.hashing);
            self.remembered = Vec::new(alloc);
        }
        if self.moved.len().max(self.writer.written.len()) > MOST_KEPT {
            self.moved = VertexList::new(alloc);
            self.writer.written = VertexList::new(alloc);
            self.listing = SortedVertices::new(alloc);
        }
    }
}

// Empties the queue.
fn empty(queue: &mut Queue)
    ensures { queue.new ≡ map.empty }
{
    if !queue.is_empty() {
        queue.clear();
    }
}
