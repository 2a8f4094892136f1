//! Inter-area routes (RFC 2328, 16.2): the entries of networks and AS boundary routers, by the
//! summary-LSAs of the examined area.
//!
//! An index has the route that each summary of the examined area advertises. It depends on these
//! LSAs only. The entry of a destination is chosen from the routes to it, by the present distances
//! and next hops of their border routers in the intra-area routes. So an update recomputes the
//! entry of a destination in these cases:
//!
//! - a summary for it was added or removed, or advertises something else;
//! - a router that advertises a summary for it is listed as changed by a layer below;
//! - a summary leads to it, and it is listed itself: as a network with another intra-area entry, as
//!   the prefix of a range that became active or inactive, or as a router.
//!
//! A listed destination without a summary has no entry, and had none before.
//!
//! If another area is examined than before, or none, the index is cleared and filled from all LSAs
//! of the area. The affected destinations are all that it had or has. Building is an update of
//! routes for which no area was examined.
#![tactic(auto)]

mod choose;
mod cost;
mod follow;
mod inputs;
mod inter;

pub use inputs::{ExaminedArea, InterInputs};
pub use inter::Inter;
