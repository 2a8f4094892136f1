//! The reasons why the preamble of a recording was not written, and their printed text.
ghost use Rattle.std.specs.Prelude.{Some};
ghost use Rattle.captured_config.specs.Faults.{front_fault_text};

use ospf_types::ConfigFault;
use ospf_types::memory::Memory;
use std::fmt;
use thiserror::Error;

/// The reason why the preamble of a recording was not written.
#[derive(Clone, Copy, Debug, PartialEq, Eq, Error)]
pub enum PreambleFault {
    /// There are no areas, or too many.
    Config(ConfigFault),
    /// Memory ran out.
    Memory,
}

/// Prints the number and the name, as `40 Areas`.
impl fmt::Display for PreambleFault {
    ghost output = { λ fault. Some (front_fault_text fault) };

    fn fmt<W: fmt::Write>(&self, f: &mut fmt::Formatter<W>) -> fmt::Result {
        match self {
            PreambleFault::Config(fault) => fault.fmt(f),
            PreambleFault::Memory => Memory.fmt(f),
        }
    }
}

impl From<Memory> for PreambleFault {
    ghost use Rattle.std.specs.Prelude.{◌≡◌};
    ghost use Rattle.captured_config.specs.declared.fault.PreambleFault.TheVariants as front_fault;

    ghost from_gives = { λ _ given. given ≡ front_fault.Memory };

    fn from(_e: Memory) -> PreambleFault {
        PreambleFault::Memory
    }
}
