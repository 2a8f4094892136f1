//! The reason why a summary-LSA is due in an area at its metric, or is not due there (RFC 2328,
//! 12.4.3), for the state of a core. It is printed as text or as JSON.
//!
//! A reason has the sources of a summary for a destination, and the verdict on each in the area.
//! The first line says if the summary is due, and at which metric. Then the sources follow, each
//! with its cost and its verdict.
//!
//! Sources are not traced link by link: each is a route of its own, which `explanation` traces. The
//! cost of a range is the cost of its costliest network, as in its summary.
#![tactic(auto)]

mod active;
mod area_ranges;
mod due;
mod explained;
mod kinds;
mod objects;
mod printing;
mod reason_lines;
mod reasons;
mod sources;
mod text_lines;

pub use due::{DueExplained, DueReason, DueSource, DueVerdict, SourceKind};
pub use explained::explain_due;
pub use printing::{ExplainedDue, put_due_explanation};
pub use reasons::due_reason;
