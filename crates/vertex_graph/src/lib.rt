//! The graph of an area (RFC 2328, 16.1): routers and transit networks, and the links that both
//! sides list. It is updated with LSAs and interfaces, and returns the links that were removed and
//! added.
//!
//! A graph keeps link ends, not LSAs: the ends of point-to-point and transit links, in order and
//! without duplicates. To refresh an LSA costs a comparison of its ends. A change is computed
//! first, with room for its rows, and then made. So if memory runs out, the graph is unchanged. Up
//! to eight touched vertices are compared one by one. A replaced row lends its memory to the next
//! row, unless it is far too large.
//!
//! A caller must not give the graph more than 16,384 routers. This bounds distances below 2^30, so
//! no sum in a search overflows. The links are defined over a *view*, which has routers, networks
//! and interfaces: the inputs of the calculation give one view, and a graph another.
#![tactic(auto)]

mod change;
mod ends;
mod graph;
mod staging;

pub use graph::Graph;
pub use graph_links::{GraphLink, LinkChanges, LinkEnd, LinkLabel, Up};
