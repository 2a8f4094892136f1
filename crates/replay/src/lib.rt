//! Replays: a recording is read and run, and the outcome of each line is printed.
//!
//! `replay_one` carries out a whole replay on one thread:
//!
//! ```text
//!  input ──── read_recording ───> Recording
//!                                     │ OpenedRecording::open
//!                                     ▼
//!                              core, and lines to run
//!                                     │ each line is run, and printed into
//!                                     ▼
//!  output <── flush_if_full ───── the buffer <──── the state shown after the run
//! ```
//!
//! - `read_recording` reads all bytes and parses them. The first line with a fault ends the replay,
//!   and nothing is printed.
//! - `OpenedRecording::open` opens a core from the base of the recording.
//! - The lines after the base are run in order: events are applied, addresses are looked up, and a
//!   `roll` line rolls the core. Events and rolls print a line only if they are refused, or if an
//!   event leaves the core behind.
//! - Printed lines are collected in a buffer of some KiB, which is written whenever it is full.
//! - After the run the state is shown that `PrintOptions` names. A journal is shown alone: its run
//!   prints nothing. If memory runs out over an event, it ends with 30 Memory, as its text would
//!   lack that event.
//!
//! The contract states the output by the recording, the options and the answers to events and
//! rolls. If a replay ends early, the written part is a prefix of such an output. `replay_one`
//! borrows the reader and the writer, so that its contract can state their contents afterwards.
//!
//! If memory runs out, no line is cut: the buffer is whole lines. A failed write leaves a part of
//! the output unwritten. A contract over any writer sees only its bytes, so these two are all that
//! it states of an error.
//!
//! The functions that print lines and show states are public for other replays: over several
//! workers (`worker_replay`), and with the changes of each event (`change_log`).
#![tactic(auto)]

mod buffer;
mod fault;
mod journal;
pub mod json_lines;
mod lines;
mod opened;
mod output;
mod printing;
mod progress;
mod replaying;
mod running;
mod showing;
mod writing;

pub use buffer::{PrintError, fault_of, flush_buffer, flush_if_full, new_buffer};
pub use fault::ReplayFault;
pub use journal::Journal;
pub use lines::{
    put_answer, put_behind, put_dest, put_found, put_lookup, put_refused, put_roll, put_serial,
};
pub use opened::OpenedRecording;
pub use output_lines::Show;
pub use printing::PrintOptions;
pub use progress::Progress;
pub use replaying::{parse_bytes, read_recording, replay_one};
pub use running::first_event_line;
pub use showing::{show_items, show_lsas, show_summaries};
pub use writing::{WriteError, write_whole};
