//! The parts of printed lines: their form, LSAs as text, and JSON objects (RFC 8259).
//!
//! - `Format` is the form of the lines, and `Show` the result that a command prints after a run.
//! - `put_lsa_text` prints each field of an LSA by its name in RFC 2328, A.4.
//! - An `Object` is built member by member, and printed without spaces on a line of its own. A
//!   route with its next hops, a destination, and the database of an LSA can be members. Members
//!   ascend by name, as `serde_json` keeps them.
//!
//! Metrics, costs and serials are numbers. A serial goes up to 18446744073709551615, and a reader
//! that keeps numbers as floating point is exact only up to 2^53. Addresses, Router IDs and Area
//! IDs are strings, as `"192.0.2.1"`, and so are networks, as `"192.0.2.0/24"`.
//!
//! Hexadecimal fields of an LSA are printed from its bytes, in their order, so the printed digits
//! are the encoding of those bytes.
#![tactic(auto)]

mod external;
mod fields;
mod format;
mod header;
mod key;
mod network;
mod object;
mod route;
mod router;
mod summary;
mod text;

pub use fields::put_hexadecimal;
pub use format::{Format, Show};
pub use object::Object;
pub use text::put_lsa_text;
