//! The bytes of LSAs (RFC 2328, A.4): reading and writing.
//!
//! `read` checks that bytes are sound and in the grammar, and returns them as a `Checked`, which
//! always has such bytes. `write` appends the bytes of a `Checked`.
//!
//! A `Checked` stores only the bytes that were read. Contracts see the LSA that they spell, so a
//! database is a map from keys to LSAs in each contract.
//!
//! RFC 2328 takes the LS checksum from ISO 8473, in which a byte of 0 and one of 255 give the same
//! sums modulo 255. `sum_of` returns the one checksum that fits and has no zero byte. `read` also
//! accepts a 0 in place of a 255, unless both bytes are then 0: that means that there is no
//! checksum.
#![tactic(auto)]

mod body_checks;
mod checked;
mod checksum;
mod fault;
mod findings;
mod header;
mod links;
mod mask;
mod metrics;
mod reading;
mod routers;
mod writing;

pub use checked::Checked;
pub use checksum::sum_of;
pub use fault::WireFault;
pub use links::Links;
pub use ospf_types::lsa::{ExternalFields, Header, Link, LinkKind};
pub use ospf_types::memory::Memory;
pub use ospf_types::prefix::Prefix;
pub use reading::read;
pub use routers::Routers;
pub use writing::write;
