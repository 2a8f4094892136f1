//! The parts of a shortest-path tree that do not depend on the graph (RFC 2328, 16.1 and 16.1.1).
//!
//! - `Queue` is the candidate list of a search. The nearest vertex comes first, and at equal
//!   distances networks come before routers (16.1 (3)).
//! - `Distances` and `NextHopMap` have the distance and the next hops of each vertex that is
//!   reached.
//! - `VertexSet`, `VertexList` and `SortedVertices` are collections of vertices: with lookup,
//!   without it, and sorted at the end.
//! - `Touched` is the work of a tree: it counts the vertices taken from the queue and the next-hop
//!   sets written.
//! - `differing` lists the vertices that a repair changed.
//!
//! The crate `spf` builds and repairs trees of these parts. A vertex comes with a hint to its place
//! in a map, so it is usually found without hashing it. A queue keeps the places of vertices that
//! it no longer has, because the next repair needs them again.
#![tactic(auto)]

pub mod differing;
mod distances;
mod next_hop_map;
mod queue;
mod sorted_vertices;
mod touched;
mod vertex_list;
mod vertex_set;
mod waiting;

pub use distances::Distances;
pub use next_hop_map::NextHopMap;
pub use queue::Queue;
pub use sorted_vertices::SortedVertices;
pub use touched::Touched;
pub use vertex_list::VertexList;
pub use vertex_set::VertexSet;
