//! The output of `replay` and `changes` as JSON, for programs to read.
//!
//! Each line is a JSON object (RFC 8259) without spaces. Its member `type` says what the line
//! reports. The members of an object ascend by name, as `serde_json` keeps them.
//!
//! Metrics, costs and serials are numbers. A serial goes up to 18446744073709551615, and a reader
//! that keeps numbers as floating point is exact only up to 2^53. Addresses, Router IDs and Area
//! IDs are strings, as `"192.0.2.1"`, and so are networks, as `"192.0.2.0/24"`. Lines of a
//! recording are numbered from 1.
//!
//! Each function appends one line. If memory runs out, the text may have a part of the line.
mod changed;
mod recorded;
mod replayed;
mod shown;

pub use changed::{put_drop, put_due, put_set, put_undue};
pub use recorded::put_recorded;
pub use replayed::{Lookup, put_behind, put_fault, put_lookup, put_refused};
pub use shown::{put_item, put_lsa, put_serial, put_shown_due};
