//! Recordings: the base of an area border router, and the events, lookups and rolls after it, as
//! lines of text. Each recording has one spelling.
//!
//! `parse` reads a text line by line:
//!
//! ```text
//!  text ──────────> line ──────────> LineForm ──────────> Recording
//!         reader           form                parsing
//! ```
//!
//! - `reader` splits the text at its line feeds.
//! - `form` splits a line at its spaces, and finds the form that its words have.
//! - `parsing` checks that the line may come next, and adds it to the base or the lines.
//!
//! The lines of a recording come in this order:
//!
//! 1. the version; the Router ID; from version 2 on, RFC1583Compatibility; in version 3, the serial
//! 2. the areas and their ranges, ascending, which end the header
//! 3. in version 3, the interfaces and then the LSAs of the base, ascending
//! 4. events and lookups, and in version 3 rolls
//!
//! The configuration is checked at the end of the header. Each line of the base is checked as it is
//! read. `parse` stops at the first line with a fault, and returns the first fault of that line.
//!
//! `print` appends the text of a recording.
//!
//! Choices of the format, where several faults or spellings are possible:
//!
//! - A line that is neither an `area` nor a `range` line ends the header. The fault of a
//!   configuration is on the last line of the header, so it comes before a fault of the next line.
//!   If the next line is cut off, the fault is 50, as that line could have been part of the header.
//! - A header has at least two lines, three in version 2 and four in version 3. The fault 50 is at
//!   the next of them if the text ends before it.
//! - From version 2 on, the third line gives RFC1583Compatibility, whatever its value. A `compat`
//!   line has no form in version 1 (52), and is out of place on any other line (53).
//! - The lines of version 3 have no form in versions 1 and 2. So the base of such a recording has
//!   serial 0, no interfaces and no LSAs, and each recording has one text.
//! - A version line after line 1 is 53 if it is of this version, and 52 if it is of another.
//! - The scope of an LSA of the base is checked before its bytes are read, and its key afterwards:
//!   53 for its scope comes before 54, and 54 before 53 for its key. A key or interface that is
//!   listed twice is 53, as they must ascend.
//! - 56 is at the first line whose base no events could have made. A line out of place is 53 even
//!   if it also has a fault 56.
//! - `install SCOPE ` without digits is an LSA of no bytes: 54 with 1 Length. Hexadecimal digits
//!   are lower case.
//!
//! If memory runs out while a line is read, the fault is 30 at that line, and no line before it has
//! a fault.
#![tactic(auto)]

mod base_lines;
mod body;
mod decoding;
mod fault;
mod form;
mod header;
mod line;
mod parsing;
mod preamble;
mod printing;
mod reader;
mod recording;
mod version;
mod words;

pub use body::read_line;
pub use fault::{Fault, LineFault};
pub use line::Line;
pub use parsing::parse;
pub use preamble::is_preamble_line;
pub use printing::{append_event, append_preamble, print};
pub use recording::Recording;
pub use version::Version;
