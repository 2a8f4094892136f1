//! The shortest-path tree of an area (RFC 2328, 16.1 and 16.1.1).
//!
//! A tree has the distance of each vertex that is reached from the root, and its next hops over all
//! equal-cost paths. It is built once, and repaired after each change of links. Next hops pass
//! along *least links*: the head of such a link is as far from the root as its tail and its cost.
//!
//! A repair has three parts:
//!
//! 1. `lose_support` finds the vertices that lose their distance. The heads of removed least links
//!    become suspects. A suspect is kept if a link from a reached vertex that is not lost still
//!    supports its distance. Otherwise it is lost, and the heads of its links that it may have
//!    supported become suspects.
//! 2. `relax` finds the new distances. All links into lost vertices and all added links are offered
//!    to the queue. Then the nearest vertex is taken until the queue is empty (16.1 (3)).
//! 3. `update_next_hops` finds the new next hops. It takes the vertices with a new distance, and
//!    the vertices whose least links changed: nearest first, and networks before routers. The next
//!    hops of a vertex are the union of what its least links pass on (16.1.1). If they differ, they
//!    are written, and the heads of its own least links are queued.
//!
//! A build is the second and third part on an empty tree. It takes each reached vertex but the root
//! twice, and writes one set of next hops for each. The work of a repair (`Touched`) is bounded by
//! the vertices and links that differ. A repair without changed links does no work.
//!
//! Vertices have hints to their distances and next hops. Memory is kept from one repair for the
//! next.
//!
//! If the root was added to the graph or removed, the tree has to be repaired even if no link
//! changed, because the root's own distance changes.
//!
//! The number of vertices taken in a repair has bounds, and no exact value: the head of a changed
//! least link is taken for its next hops, which may stay. The number of next-hop sets written is
//! exact, and so are both numbers of a build. The links before a repair are the links of the graph
//! with the changes undone, so `repair` needs no earlier graph.
//!
//! Sets of up to sixteen vertices are searched one by one. Larger ones are marked by place, and a
//! mark counts only if the set has the vertex there, so a set is emptied without visiting its
//! marks. The sets and lists of a repair with more than 512 vertices are given back. The queue
//! keeps its places, as an empty one would hash each vertex again. Places of removed vertices are
//! dropped if there are more places than twice the number of vertices, and 64.
#![tactic(auto)]

mod gathering;
mod hints;
mod lose_support;
mod relax;
mod tree;
mod update_next_hops;
mod workspace;

pub use tree::Tree;
pub use vertex_queue::Touched;
