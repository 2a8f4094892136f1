//! A map from vertices to values.
//!
//! A vertex comes with a hint, the index of its entry. If another vertex has that entry, the vertex
//! is found by its hash.
//!
//! The hint is usually the place of the vertex's row in the graph of an area. Distances and next
//! hops are kept in that order, so a lookup usually reads one entry and compares its vertex: about
//! 20 instructions, and 70 with a hash. Results never depend on hints. If a vertex leaves the
//! graph, the last row moves to its place: that vertex is found by its hash until links have the
//! new place.
//!
//! An entry keeps its place when its value is removed, so that a queue that is emptied keeps its
//! places. `trim` removes such entries when there are many.
#![tactic(auto)]

mod hinted_vertex;
mod vertex_map;

pub use hinted_vertex::HintedVertex;
pub use vertex_map::VertexMap;
