//! The faults of a read.
ghost use Rattle.std.specs.Prelude.{◌≡◌};

use std::alloc::AllocError;
use std::io;

/// The reason why an input was not read.
#[derive(Clone, Copy, Debug, PartialEq, Eq)]
pub enum ReadFault {
    /// The input could not be read.
    Read,
    /// Memory ran out.
    Memory,
}

impl From<AllocError> for ReadFault {
    ghost use Rattle.input_reading.specs.declared.fault.ReadFault.TheVariants.{Memory as OutOfMemory};

    ghost from_gives = { λ _ given. given ≡ OutOfMemory };

    fn from(_error: AllocError) -> ReadFault {
        ReadFault::Memory
    }
}

/// Converts an error of the kind `OutOfMemory` into `Memory`, and any other into `Read`.
impl From<io::Error> for ReadFault {
    ghost use Rattle.input_reading.specs.Faults.{IsReadFaultOf};

    ghost from_gives = { IsReadFaultOf };

    fn from(error: io::Error) -> ReadFault {
        match error.kind() {
            io::ErrorKind::OutOfMemory => ReadFault::Memory,
            _ => ReadFault::Read,
        }
    }
}
