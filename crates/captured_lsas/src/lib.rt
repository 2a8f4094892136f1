//! The OSPF packets of a capture, and the events of a recording that their LSAs become. This crate
//! does no input or output: a caller reads the capture, and prints the recording.
//!
//! ```text
//!  packet ── Listener::hear ──> payload ── Recorder::take ──> seconds, installs and purges
//! ```
//!
//! A router hears an LSA over each of its links, each time a little older. An old copy may still
//! come after a newer instance. So an LSA is left out if a router with the recorded LSAs would
//! discard it (RFC 2328, 13 (7) and (8)).
//!
//! - Of each LSA the header of the newest recorded instance is kept. That takes about 60 bytes an
//!   LSA, however often it comes.
//! - An instance at MaxAge is installed and purged at once. What then comes below MaxAge is
//!   recorded, as its router may originate the LSA again (12.1.6). So an old copy that comes after
//!   the flush of its LSA is recorded too.
//! - Ages are those in the headers. Two instances that 13.1 takes for the same are the same here.
//! - If the areas of the recording are given, LSAs of other areas are left out, since a replay has
//!   no database for them. AS-external-LSAs are kept, as their scope is the AS.
//!
//! Time passes from OSPF packet to OSPF packet. No second is recorded before the first LSA: until
//! then nothing ages. Time that passed before is recorded at the next packet, so the first ages may
//! be too high by as much. If the time of a packet is before the last one, no time passes, and
//! seconds go on from the earlier time. So a clock that was set, or one packet with a time far in
//! the future, never stops them for good.
#![tactic(auto)]

mod heard;
mod listener;
mod name;
mod newest;
mod options;
mod reading;
mod recorded;
mod recorder;
mod taken;

pub use heard::{Heard, Payload};
pub use listener::Listener;
pub use options::Options;
pub use ospf_types::memory::Memory;
pub use recorded::Recorded;
pub use recorder::Recorder;
pub use taken::Taken;
