//! Reports of the changes that each event of a recording makes: in the routing table, and in the
//! summary-LSAs that are due.
//!
//! Changes are reported by four kinds of lines. A reader that applies them in order, starting with
//! nothing, has the table and the due summaries after each line. The base is reported by the same
//! lines, at the number of its last line.
//!
//! ```text
//!  input ── the preamble, line by line ──> a core, and the report of its base
//!              │
//!              ▼
//!           each line as it comes ── run ──> the report of the line
//! ```
//!
//! - A recording is run as it comes, so that a router's log of any length can be piped in. Only its
//!   preamble is read whole, since there is no core before its end. Afterwards one line is held at
//!   a time.
//! - The preamble ends with the first line of another kind. If a line of it is missing, the fault
//!   is at the line that was read instead, as in a replay.
//! - A preamble of 1 MiB or more is searched for a fault whenever its length has doubled. So an
//!   input with a wrong line that never ends is held to about twice the length of a good one. A
//!   fault counts there only if another line follows it.
//! - A journal of 65,536 events is rolled before the next line. A roll then costs little for each
//!   event, and no report changes. If memory runs out for it, the roll is tried again at each line.
//!   With a full journal the run ends with 30 Memory.
//! - If memory runs out over an event, its changes are not known, and the run ends with 30 Memory.
//!   Only if answers are wanted (`abr follow`) the refusal is reported and the run goes on. An
//!   event that leaves the core behind always ends it.
#![tactic(auto)]

mod following;
mod lines;
mod opening;
mod printing;
mod running;
mod showing;
mod text_lines;

pub use lines::LineContext;
pub use printing::{ChangeFilter, ChangeOptions, print_changes};
pub use running::print_line_changes;
