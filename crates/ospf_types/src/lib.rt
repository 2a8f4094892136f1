//! The types of an OSPF area border router (RFC 2328), on which all other crates are built.
//!
//! - Values: addresses, prefixes, next hops, paths, entries of the routing table, and the keys,
//!   scopes, headers and links of LSAs, with their printed forms. Each type that contracts have to
//!   order has a `compare`, and the contract of `compare` states that order.
//! - Configurations, and `fault_in`, which finds the first fault of one (3.5, 3.6 and C.2).
//! - `WordHash`, the hash function of all hash maps: networks, vertices, destinations and keys hash
//!   as one or two words.
//! - `Memory`, the error that memory ran out, and `Listed`, a vector that contracts see as a list.
//!
//! `specs/` has the definitions of all results: links, distances, routes, the choice between two
//! instances of an LSA, and due summaries. So types that these definitions use are here too, below
//! the codec: `Header`, `Link`, `ExternalFields`, `Newer` and `Vertex`.
#![tactic(auto)]

pub mod address;
pub mod config;
mod config_fault;
mod dotted;
pub mod entry;
mod fault;
mod hasher;
pub mod hop;
pub mod key;
pub mod label;
pub mod listed;
pub mod lsa;
pub mod memory;
pub mod prefix;
mod text;

pub use config_fault::{MAX_AREAS, fault_in};
pub use fault::ConfigFault;
pub use hasher::{WordHash, WordHasher};
