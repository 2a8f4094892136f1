//! Columns of numbers, with one element for each row.
//!
//! `second` ages a column of LSA ages (RFC 2328, 14). `rows_at` and `rows_of` find the rows at
//! which a column has a value.
#![tactic(auto)]

mod ages;
mod lane;
mod rows;

pub use ages::second;
pub use rows::{rows_at, rows_of};
