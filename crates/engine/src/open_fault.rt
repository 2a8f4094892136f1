//! The reason why an engine was not opened.
ghost use Rattle.std.specs.Prelude.{Some};
ghost use Rattle.engine.specs.Texts.{open_fault_text};

use event_core::ConfigFault;
use event_state::EntryFault;
use std::fmt;
use thiserror::Error;

/// The reason why an engine was not opened: the first of these that holds.
#[derive(Clone, Copy, Debug, PartialEq, Eq, Error)]
pub enum OpenFault {
    /// The configuration has a fault, or memory ran out.
    Config(ConfigFault),
    /// An interface id, or a key in a scope, is listed twice in the base.
    Doubled,
    /// No events could have led to the interfaces and LSAs of the base.
    EntryFault(EntryFault),
    /// There are no readers, or more than 64.
    Readers,
    /// There was no place for a reader.
    Place,
}

/// The fault as a number and a name, such as `45 Readers`.
impl fmt::Display for OpenFault {
    ghost output = { λ fault. Some (open_fault_text fault) };

    fn fmt<W: fmt::Write>(&self, f: &mut fmt::Formatter<W>) -> fmt::Result {
        match self {
            OpenFault::Config(fault) => write!(f, "{fault}"),
            OpenFault::Doubled => f.write_str("47 Doubled"),
            OpenFault::EntryFault(unfit) => write!(f, "{unfit}"),
            OpenFault::Readers => f.write_str("45 Readers"),
            OpenFault::Place => f.write_str("46 Place"),
        }
    }
}
