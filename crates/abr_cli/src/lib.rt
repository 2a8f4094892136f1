//! The commands of the program `abr`: the table of an OSPF area border router (RFC 2328) from the
//! command line.
//!
//! The commands that read a recording or a capture are here, and write as they go. The answers of
//! the others are in `cli_queries`.
//!
//! - A file that cannot be opened is a reader whose first read fails: both are `cannot read`, with
//!   the word that was given.
//! - `follow` reports faults and refusals on standard output, at the number of the line. So a
//!   program that sends lines gets the answers in their order. Only what ends it is on standard
//!   error.
//! - JSON has the lines of the text, one for one and in the same order. Faults that end a command
//!   remain words on standard error.
//! - Progress is shown on standard error, after each thousand lines. Several workers take lines at
//!   the same time, so none is shown for them. The number of lines of a pipe is not known.
#![tactic(auto)]

mod capturing;
mod changing;
mod dispatch;
mod explaining;
mod paging;
mod replaying;

pub use capturing::CaptureCommand;
pub use changing::ChangesCommand;
pub use cli_args::{CaptureWords, Job, OneWords, Usage, job};
pub use cli_queries::{
    CommandAnswer, CommandFault, answer_decode, answer_number, answer_one, answer_usage, decode,
    fault, one, print_answer,
};
pub use dispatch::Invocation;
pub use explaining::ExplainCommand;
pub use output_lines::{Format, Show};
pub use paging::PageCommand;
pub use replay::{PrintOptions, Progress, ReplayFault, replay_one};
pub use replaying::{ReplayCommand, say_fault};
pub use worker_replay::{ReplayOptions, WorkerReplayFault, replay_many};
