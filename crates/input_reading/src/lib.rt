//! The bytes and the lines of an input, read in bounded memory.
//!
//! - `read_once` reads once, and repeats the read if it was interrupted.
//! - `LineReader::next` returns the next line. The reader keeps a window of 64 KiB, and the caller
//!   one line.
//!
//! A line of more than `LONGEST` bytes is cut, in a way that its fault stays the same. No event is
//! that long: the longest has 131,094 bytes. Only two facts about the other bytes matter: if all
//! are hexadecimal digits, and if their number is even.
#![tactic(auto)]

mod fault;
mod line;
mod reader;
mod reading;
mod tail;

pub use fault::ReadFault;
pub use line::LONGEST;
pub use reader::{LineReader, Next};
pub use reading::read_once;
