//! The reason why the bytes of an LSA were not installed.
ghost use Rattle.std.specs.Prelude.{Some};
ghost use Rattle.engine.specs.Texts.{bytes_fault_text};

use crate::Refused;
use lsa_codec::WireFault;
use std::fmt;
use thiserror::Error;

/// The reason why the bytes of an LSA were not installed.
#[derive(Debug, Drop, Error)]
pub enum BytesFault {
    /// The bytes are not a valid LSA.
    Wire(WireFault),
    /// The event was refused.
    Refused(Refused),
}

/// The fault as a number and a name, such as `2 Checksum`.
impl fmt::Display for BytesFault {
    ghost output = { λ fault. Some (bytes_fault_text fault) };

    fn fmt<W: fmt::Write>(&self, f: &mut fmt::Formatter<W>) -> fmt::Result {
        match self {
            BytesFault::Wire(fault) => fault.fmt(f),
            BytesFault::Refused(refused) => refused.fmt(f),
        }
    }
}
