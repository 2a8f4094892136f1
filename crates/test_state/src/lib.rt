//! Tests of LSAs, databases, the state of a router, and its routing table.
//!
//! They cover printed texts, bytes that are read and written back, and the faults of other bytes
//! (RFC 2328, A.4); which instance is newer (13.1), and if contents differ (13.2); columns with
//! lengths around a vector; and a database whose LSAs are installed, age and are purged (12 to 14).
//! A state takes events, or refuses them and is then unchanged. In the table the longest match
//! decides (11.1).
#![tactic(auto)]

#[cfg(test)]
mod bases;
#[cfg(test)]
mod bytes;
#[cfg(test)]
mod codec;
#[cfg(test)]
mod columns;
#[cfg(test)]
mod database;
#[cfg(test)]
mod events;
#[cfg(test)]
mod order;
#[cfg(test)]
mod ranges;
#[cfg(test)]
mod table;
#[cfg(test)]
mod types;
