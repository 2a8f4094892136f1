//! The links between the vertices of an area (RFC 2328, 16.1).
//!
//! A vertex's row has the link ends that its LSA lists, and its links out of and into other
//! vertices. A link needs an end on both sides (16.1 (2b)). A change of LSAs or interfaces gives
//! new rows (`row_updates`). These replace the old ones (`place`), and `changed_links` lists the
//! links removed and added.
//!
//! A vertex has its links out and its links in as lists of their own, which a tree reads directly.
//! A change replaces the lists of the vertices that it touches: those whose ends differ, and those
//! at ends that are removed or added. So its cost depends on the number of their links, not on the
//! size of the graph.
//!
//! The ends of a vertex are in order, so its ends at one other vertex are adjacent. The ends of the
//! other vertex that lead back are found by one search. A row finds its neighbours by the hints of
//! its old links, which are in the order of their heads. Ends have no hints, which would take
//! memory in every row, so a neighbour that does not link back is hashed.
//!
//! Nearly all routers have one address on a network, and most links have none. So a label with one
//! address is stored inline, and a link takes 48 bytes. A link out of a network has all addresses
//! of the router in ascending order, so that the order of the links in an LSA does not matter.
#![tactic(auto)]

mod at_vertex;
mod changes;
mod graph_view;
mod label;
mod link;
mod link_end;
mod parallel_links;
mod row;
mod row_hints;
mod row_update;
mod vertex_pair;

pub use changes::{changed_links, out_links};
pub use graph_view::{GraphView, ends_of_row, ends_or_empty, find_row, staged_ends};
pub use label::LinkLabel;
pub use link::{GraphLink, LinkChanges, Up};
pub use link_end::LinkEnd;
pub use row::{Row, Rows, StagedEnds};
pub use row_hints::hinted_by;
pub use row_update::{RowPool, RowUpdate, place, row_updates};
pub use vertex_pair::RootInterfaces;
