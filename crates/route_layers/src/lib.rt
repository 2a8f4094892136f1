//! The layers of routes above the intra-area routes (RFC 2328, 16.2, 16.3 and 16.4), built and
//! updated from a state; the active areas; and the graphs and trees of a state's areas, which
//! follow its LSAs and interfaces (16.1).
#![tactic(auto)]

mod inputs;
mod layers;
mod trees;

pub use inputs::{area_inputs, is_up_in};
pub use layers::{IntraLayer, active_areas};
pub use trees::{ChangedState, build_trees, follow_trees};
