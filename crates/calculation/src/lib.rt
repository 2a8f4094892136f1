//! The results that are kept of a state from event to event (RFC 2328, 16): the graph and tree of
//! each area, and the routes calculated from them. An update recomputes only what an event may
//! change.
#![tactic(auto)]

mod calculation;

pub use calculation::{Calculation, Changed};
