//! The packets of a captured network, from the bytes of a frame to the LSAs of a Link State Update
//! (RFC 2328, A.3).
//!
//! ```text
//!  frame ──────> IPv4 packet ─────────────> datagram ───────────> Packet ─────────────> LSAs
//!        LinkType            read_datagram           read_packet         update_lsas
//!                            Fragments
//! ```
//!
//! - `LinkType` finds the IPv4 packet that a frame carries, after the headers of its link.
//! - `read_datagram` reads an IPv4 header (RFC 791, 3.1). It does not compare the header's
//!   checksum: many captures of what their own machine sent have none.
//! - `Fragments` reassembles a datagram that was sent in fragments (RFC 791, 3.2).
//! - `read_packet` reads the header of an OSPF packet, which is the payload of a whole datagram of
//!   protocol 89. It compares the checksum, except with cryptographic authentication (RFC 2328,
//!   D.4.3).
//! - `update_lsas` returns the bytes of the LSAs in the body of a Link State Update (A.3.5).
//!
//! Payloads, bodies and LSAs are borrowed. Only `Fragments` allocates memory, for the parts that it
//! keeps.
#![tactic(auto)]

mod authentication;
mod checksum;
mod datagram;
mod datagram_fault;
mod fault;
mod fragments;
mod headers;
mod key;
mod kind;
mod link;
mod packet;
mod partial;
mod reading;
mod steps;
mod tags;
mod update;

pub use authentication::Authentication;
pub use checksum::internet_checksum;
pub use datagram::{Datagram, LONGEST};
pub use datagram_fault::DatagramFault;
pub use fault::{PacketFault, UpdateFault};
pub use fragments::{Fragments, MOST};
pub use kind::PacketKind;
pub use link::LinkType;
pub use ospf_types::memory::Memory;
pub use packet::{Packet, read_packet};
pub use reading::read_datagram;
pub use update::{UpdateLsas, update_lsas};
