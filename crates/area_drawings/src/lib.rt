//! The picture of an area: the vertices that its shortest-path tree reaches (RFC 2328, 16.1), each
//! in its cell, and the links of the graph between them; and its text as SVG. All coordinates are
//! whole numbers, so one drawing always gives the same bytes.
//!
//! - `reached` lists the vertices that are reached.
//! - `columns` makes a column of the networks, and one of the routers, at each distance. Networks
//!   come first, as a link out of a network costs nothing.
//! - `branches` and `ordering` put each vertex after the one before it on a shortest path. So the
//!   path goes straight on, its branches go below it, and no two vertices get the same cell.
//! - `stands` gives each vertex its cell in that order.
//! - `vertices` and `links` make the parts of the picture.
//! - `drawing`, `drawn_columns`, `drawn_vertices` and `drawn_links` write it as SVG. Every link of
//!   the graph is drawn, and the links of the tree come last. The two directions of a link are the
//!   same curve, so the one on the tree hides the other.
#![tactic(auto)]

mod area;
mod branches;
mod columns;
mod drawing;
mod drawn_columns;
mod drawn_links;
mod drawn_vertices;
mod layout;
mod links;
mod ordering;
mod picture;
mod reached;
mod stands;
mod vertices;

pub use area::draw_area;
pub use drawing::{Drawing, DrawnEnd, DrawnLink, DrawnVertex, GridCell, Roles};
pub use picture::put_drawing;
pub use reached::count_vertices;
