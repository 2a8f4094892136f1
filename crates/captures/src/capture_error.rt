//! The faults of reading a packet.
ghost use Rattle.std.specs.Prelude.{◌≡◌};

use crate::FaultKind;
use input_reading::ReadFault;
use std::alloc::AllocError;

/// The reason why `PacketReader::next` read no packet.
#[derive(Clone, Copy, Debug, PartialEq, Eq)]
pub enum CaptureError {
    /// The bytes are not valid. `place` is counted in bytes from the first byte of the capture,
    /// which is 0. It is the place where the faulty part begins, or for `CutOff` where the input
    /// ended.
    Fault { kind: FaultKind, place: u64 },
    /// The input could not be read.
    Read,
    /// Memory ran out.
    Memory,
}

impl From<AllocError> for CaptureError {
    ghost use Rattle.captures.specs.declared.capture_error.CaptureError.TheVariants.{Memory as OutOfMemory};

    ghost from_gives = { λ _ given. given ≡ OutOfMemory };

    fn from(_error: AllocError) -> CaptureError {
        CaptureError::Memory
    }
}

impl From<ReadFault> for CaptureError {
    ghost use Rattle.captures.specs.Faults.{error_of};

    ghost from_gives = { λ fault given. given ≡ error_of fault };

    fn from(fault: ReadFault) -> CaptureError {
        match fault {
            ReadFault::Read => CaptureError::Read,
            ReadFault::Memory => CaptureError::Memory,
        }
    }
}
