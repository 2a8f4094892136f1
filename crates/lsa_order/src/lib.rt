//! The comparison of two instances of an LSA: the newer one (RFC 2328, 13.1), and whether their
//! contents differ (13.2).
//!
//! The definitions are in `ospf_types`. The age that counts is the present age of an instance, not
//! the age in its header: a database keeps the two apart.
#![tactic(auto)]

mod contents;
mod order;

pub use contents::contents_differ;
pub use order::newer;
pub use ospf_types::lsa::{Header, Newer};
