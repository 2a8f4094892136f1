//! The packets of a capture, a pcap or a pcapng, in bounded memory.
//!
//! `Capture::read_part` reads from bytes, and does no input. `PacketReader::next` reads from an
//! input, packet by packet:
//!
//! ```text
//!  input ── PacketReader::next ──> a packet, and its bytes
//!             │ a window of at most 1 MiB with the unread bytes
//!             ▼
//!           Capture::read_part ──> More | Skip | Packet
//! ```
//!
//! - For `More`, further bytes are read. No part needs more than 1 MiB at once, so a block that
//!   claims 4 GB takes no memory.
//! - For `Skip`, the bytes of the part are dropped. They need not be kept or even read at once:
//!   only their length counts.
//! - For `CapturedPacket`, the packet is returned, and its bytes are dropped afterwards.
//!
//! `next` stops reading when the next packet is whole. So a pipe or a socket can be read while it
//! is written.
//!
//! Times are nanoseconds since the beginning of 1970 in 64 bits, rounded down. A time outside of
//! that is a fault of its packet. Simple packets of a pcapng have no time.
#![tactic(auto)]

mod block;
mod capture;
mod capture_error;
mod fault;
mod frame;
mod front;
mod interface;
mod opening;
mod options;
mod order;
mod packets;
mod pcap;
mod reader;
mod time;
mod window;

pub use capture::{Capture, CapturedPacket, Part};
pub use capture_error::CaptureError;
pub use fault::{FaultKind, ReadError};
pub use reader::{PacketHead, PacketReader};
