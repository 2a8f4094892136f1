//! The conversion of a capture of a network into a recording of its OSPF LSAs: the lines of the
//! recording, a line for each fault, and a line of counts.
//!
//! ```text
//!  PacketReader ── packet ──> Listener, Recorder ── events ──> lines ──> the recording
//!                                 │ LSAs
//!                                 ▼
//!                             the router's configuration ──> the preamble, if none is given
//! ```
//!
//! - If a preamble is given, the lines of a packet are written as soon as it is taken, or in large
//!   pieces while more bytes are at hand. LSAs of areas that it does not have are left out, with a
//!   line for each such area. They are counted neither as LSAs nor as repeated.
//! - If the capture gives the preamble, all events wait until its end, as only then all areas and
//!   interfaces are known. Until then the bytes of each LSA are kept, and seconds as a number.
//! - Between two packets at most 3600 seconds are recorded. After these each LSA is at MaxAge, and
//!   ages no further (RFC 2328, 14). A line says how many seconds passed.
//! - If the time of a packet is before the last one by a whole second or more, a line says so.
//!   Interfaces that pass on packets in another order differ by less.
#![tactic(auto)]

mod capture_fault;
mod capturing;
mod counts;
mod counts_line;
mod ending;
mod events;
mod fault;
mod finishing;
mod gathered;
mod going;
mod kept_events;
mod kept_lines;
mod note_lines;
mod notes;
mod place;
mod seconds;
mod session;
mod source;
mod start;
mod writing;

pub use captured_lsas::Options;
pub use captures::FaultKind;
pub use capturing::{Capturing, Preamble, record_capture};
pub use counts::Counts;
pub use counts_line::put_counts;
pub use events::put_taken;
pub use fault::CapturingFault;
pub use note_lines::{put_fault_note, put_notes};
pub use ospf_types::memory::Memory;
pub use seconds::recorded_seconds;
