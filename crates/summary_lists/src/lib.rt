//! The list of summary-LSAs that are due in an area, and its changes. A change is planned, which
//! reserves memory for it, and is then carried out without allocating.
#![tactic(auto)]

mod due;
mod list;
mod plan;

pub use due::DueSummary;
pub use list::{AreaSummaries, look_up};
pub use plan::AreaPlan;
