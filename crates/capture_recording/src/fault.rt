//! The reasons why a capture was not recorded whole, or why not all was printed about it.
use captures::FaultKind;
use ospf_types::ConfigFault;
use ospf_types::memory::Memory;
use recording::LineFault;

/// The reason why a capture was not recorded whole, or why not all was printed about it.
#[derive(Clone, Copy, Debug, PartialEq, Eq)]
pub enum CapturingFault {
    /// The bytes of the capture are not valid at this place, counted in bytes from the first one.
    /// The packets before it are recorded, unless the configuration of the router has a fault.
    Capture { kind: FaultKind, place: u64 },
    /// The capture could not be read further. The packets before that are recorded, unless the
    /// configuration of the router has a fault.
    Read,
    /// The given preamble is not a valid recording, or memory ran out while it was parsed. Nothing
    /// was read or written.
    Line(LineFault),
    /// The configuration that the capture shows for the router is not valid. Nothing is recorded.
    Config(ConfigFault),
    /// Not everything could be printed about the capture. Its packets are recorded, unless the
    /// configuration of the router has a fault.
    Unsaid,
    /// The output could not be written. A part of the recording may have been written.
    Write,
    /// The output is a pipe, and its reading end was closed. A part of the recording may have been
    /// written.
    Closed,
    /// Memory ran out. A part of the recording may have been written.
    Memory,
}

impl From<Memory> for CapturingFault {
    ghost use Rattle.std.specs.Prelude.{◌≡◌};
    ghost use Rattle.capture_recording.specs.declared.fault.CapturingFault.TheVariants.{
      Memory as
          OutOfMemory,
    };

    ghost from_gives = { λ _ given. given ≡ OutOfMemory };

    fn from(_error: Memory) -> CapturingFault {
        CapturingFault::Memory
    }
}
