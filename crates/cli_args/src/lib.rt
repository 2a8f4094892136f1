//! The command line of the program `abr`: the command that its words select, and the arguments of
//! the command.
//!
//! `--due` takes the area as its value, and the network or router is given where the address would
//! be: an option has one value. `--version` prints one version, which all commands share.
#![tactic(auto)]

mod command;
mod command_line;

pub use command::{CaptureWords, Job, OneWords, Usage};
pub use command_line::job;
