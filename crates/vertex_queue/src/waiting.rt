//! Entries of the queue's heap.
ghost use Rattle.std.specs.Prelude.{◌≡◌, ◌↔◌, IsTrue};
ghost use Rattle.vertex_queue.specs.Heaps.{IsHeapEntryAt, waiting_vertex};
ghost use Rattle.vertex_queue.specs.Queues.{rank};

use ospf_types::entry::Vertex;
use vertex_map::HintedVertex;

// An entry of the heap: a vertex at a distance, with a hint. The derived order is the order of the
// queue.
#[derive(Clone, Copy, PartialEq, Eq, PartialOrd, Ord)]
pub(crate) struct Waiting {
    // Twice the distance, plus 1 for a router, so that networks come first at equal distances.
    rank: u64,
    number: u32,
    // The vertex's hint. No result depends on it, so it is compared last.
    place: u32,
}

impl Waiting {
    pub(crate) fn new(vertex: &HintedVertex, distance: u32) -> Waiting
        ensures { IsHeapEntryAt result vertex.now distance }
    {
        let place = vertex.number();
        let (rank, number) = match vertex.vertex() {
            Vertex::Router(number) => (u64::from(distance) * 2 + 1, number),
            Vertex::Network(number) => (u64::from(distance) * 2, number),
        };
        Waiting {
            rank,
            number,
            place,
        }
    }

    // Returns the vertex with its hint.
    pub(crate) fn vertex(&self) -> HintedVertex
        ensures { result ≡ waiting_vertex self.now }
    {
        let vertex = if self.rank % 2 == 0 {
            Vertex::Network(self.number)
        } else {
            Vertex::Router(self.number)
        };
        HintedVertex::new(vertex, self.place)
    }

    // Returns true if this is the distance of the entry.
    pub(crate) fn is_at(&self, distance: u32) -> bool
        ensures { IsTrue result ↔ (self.now.rank ≡ rank (waiting_vertex self.now) distance) }
    {
        self.rank / 2 == u64::from(distance)
    }
}
