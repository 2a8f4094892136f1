//! One link-state database of an OSPF area border router (RFC 2328, 12 to 14): LSAs by key, each at
//! its present age.
//!
//! A database is kept in rows and columns; `database` describes them.
//!
//! An LSA at MaxAge, which is an age of exactly 3600 seconds, stays in the database until it is
//! purged. It is not used in calculations, and a second does not age it further (14).
#![tactic(auto)]

mod contents;
mod database;
mod refusal;

pub use database::Database;
pub use refusal::{InstallRefusal, NoLsa, PurgeRefusal};
