//! The event core of an OSPF area border router (RFC 2328). Events change its databases, interfaces
//! and address ranges; the routing table and the summary-LSAs due in each area are updated with
//! them.
//!
//! `Core::apply` has these steps:
//!
//! 1. `State::step` looks for the first refusal of the event. If there is none, it changes the
//!    state. What the event may change is listed before.
//! 2. If nothing that is used changed, only the serial of the table changes. Otherwise
//!    `Calculation::follow` updates the trees and the layers of routes, each by what the layer
//!    below changed.
//! 3. The table gets the items that differ, and the due summaries are updated. `changes` and
//!    `due_changes` list what differs.
//!
//! If memory runs out before the state changed, the event is refused with 30 Memory. If it runs out
//! later, the reply is `Behind`: the old table stays, and `catch_up` or the next event builds all
//! results from scratch. After that event no change is listed, so a caller who follows the changes
//! takes the whole table.
//!
//! A core proves that its state is the run of its journal from the base, and that its table is
//! right for the first `built` events. The work of an event is summed over the areas. It cannot
//! overflow, as a configuration has at most 16 areas, and each area has fewer than 2^32 vertices.
#![tactic(auto)]

mod affected;
mod calculated;
mod core_state;
mod listing;
mod reply;
mod routes;

pub use calculated::Calculated;
pub use calculation::Calculation;
pub use core_state::Core;
pub use event_state::{Base, Event, Limits, Refusal, State};
pub use ospf_types::{ConfigFault, fault_in};
pub use reply::{Reply, Status};
pub use route_table as table;
pub use spf::Touched;
pub use summaries::{DueChanges, DueSummaries, DueSummary};
