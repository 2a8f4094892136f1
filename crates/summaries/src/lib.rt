//! Due summaries (RFC 2328, 12.4.3): the summary-LSAs that an area border router should originate
//! into each of its areas.
//!
//! The metric at which a network is due in an area depends on its intra-area entry, its inter-area
//! entry, and the members of the ranges with its prefix. An AS boundary router is due by its
//! preferred route. So an event affects the destinations that a layer of routes lists as changed,
//! and the prefix of each range, of any area, that covers a listed network. If other areas are
//! active than before, all destinations that are or may be due are affected. An update has three
//! steps:
//!
//! 1. The sources of a summary for each affected destination are looked up once for all areas. With
//!    fewer than two active areas nothing is due, and nothing is looked up.
//! 2. The list of each area is compared with the metrics that these sources give there. The
//!    differences are the plan of the area, for which memory is reserved.
//! 3. The plans are carried out without allocating. They are then the changes that the event made
//!    (`DueChanges`).
//!
//! The plans are made before the routing table changes, and carried out afterwards without memory.
//! So the table and the due summaries always reflect the same events. If no destination is affected
//! there is no plan.
//!
//! No interface is read here. An entry through another area has no next hop into this one, because
//! each next hop of an entry leaves over an interface of the entry's area. This is proved.
#![tactic(auto)]

mod affected;
mod due_changes;
mod giving;
mod inputs;
mod summaries;

pub use due_changes::DueChanges;
pub use giving::{advertises, has_other_active_area};
pub use inputs::SummaryInputs;
pub use summaries::{DueSummaries, Plan};
pub use summary_lists::{AreaSummaries, DueSummary};
