//! The replay of a recording, followed by an explanation. It explains the routing table's items for
//! an address (RFC 2328, 11.1 and 16), or a summary in an area, as text or as JSON.
//!
//! The first line has the longest match of the address. Then the networks that contain the address
//! follow, the longest first, if the table has an item for them or an LSA offers them. Each has a
//! line with its own item or `none`, and a line for each offer with its cost and its verdict. An
//! offer that is taken also has lines for its paths and for the links that they lead over.
//!
//! Nothing is printed of the run, not even refused events: `replay` prints these. If memory runs
//! out over an event, the replay ends with 30 Memory and prints nothing, as the answer would lack
//! that event.
#![tactic(auto)]

mod explained;
mod explaining;
mod lines;
mod objects;
mod question;
mod reasons;
mod text_lines;

pub use explained::{Explained, put_explanation};
pub use explaining::explain_one;
pub use question::{Explaining, Question};
