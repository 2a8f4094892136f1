//! The choice between paths, and the results that layers of routes keep (RFC 2328, 16.1 to 16.4).
//!
//! A layer of routes has three parts: an index of what LSAs advertise, sources, and one choice. The
//! index depends on the LSAs only. Distances, next hops and the match of a forwarding address are
//! sources: they are read when an entry is chosen, and are not copied. This crate has the choice,
//! and a map for its results:
//!
//! - `Best` collects offers, and gives their `Choice`: the least key, with all items that are
//!   offered at it. One item is stored inline, and most networks have one next hop, so most choices
//!   allocate no memory.
//! - A layer implements `Choose`, which defines its offers and chooses the result at a key. It
//!   keeps its results in a `ResultMap`, which recomputes them key by key and returns the keys
//!   whose result changed. Only these are passed on to the layer above.
//! - `add_networks`, `add_routers` and `dests_of` build the lists of destinations in which layers
//!   report changes.
//! - `ReachedRouter` is an area border router or AS boundary router that is reached in an area. A
//!   router is one if bit B or bit E of its router-LSA is set (16.1 (4)).
#![tactic(auto)]

mod choice;
mod choose;
mod dests;
mod entry_positions;
mod keys;
mod reached_router;
mod reported_as;
mod results;
mod same;

pub use choice::{AreaCost, Best, Choice, ExactOrd, offer_hop, offer_hops};
pub use choose::Choose;
pub use dests::{add_networks, add_routers, dests_of, networks_among, routers_among};
pub use keys::{ResultKey, sorted_unique};
pub use reached_router::{ReachedRouter, RouterReach, is_abr_or_asbr, reached_abr_or_asbr};
pub use reported_as::ReportedAs;
pub use results::ResultMap;
pub use same::{Same, are_same};
