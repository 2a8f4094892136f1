//! The graph and the shortest-path tree of an area (RFC 2328, 16.1), kept from event to event. They
//! are updated with the changed LSAs of the area's database and with its interfaces.
//!
//! Also here: paths in a tree, the links over which a vertex gets a next hop.
//!
//! The graph and the tree are one value, so that both follow the same LSAs. A router's vertex is
//! its router-LSA under its own key. The usable network-LSAs are in an ordered set by Link State ID
//! and Advertising Router, in which the last one of an ID describes the network. So the LSA of a
//! vertex is found without a scan. Every area gets each changed interface, because an interface may
//! move from one area to another.
#![tactic(auto)]

mod area_graph;
mod area_tree;
mod last_link;
mod networks;
mod path;
mod vertices;

pub use area_tree::AreaTree;
pub use path::links_of_path;
pub use vertices::vertex_of;
