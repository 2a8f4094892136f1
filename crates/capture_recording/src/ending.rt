//! The end of a capture.
ghost use Rattle.std.specs.Prelude.{◌≡◌};
ghost use Rattle.capture_recording.specs.Ending.{fault_lacking, result_of};

use crate::fault::CapturingFault;
use captures::FaultKind;
use ospf_types::ConfigFault;

/// The reason why there are no more packets.
#[derive(Clone, Copy)]
pub(crate) enum Ending {
    /// The capture has ended.
    Whole,
    /// The bytes of the capture are not valid at this place.
    Fault { kind: FaultKind, place: u64 },
    /// The capture could not be read further.
    Unread,
}

impl Ending {
    /// Returns the result of recording the capture up to its end.
    pub(crate) fn result(self) -> Result<(), CapturingFault>
        ensures { result ≡ result_of self }
    {
        match self {
            Ending::Whole => Ok(()),
            Ending::Fault { kind, place } => Err(CapturingFault::Capture { kind, place }),
            Ending::Unread => Err(CapturingFault::Read),
        }
    }

    /// Returns the fault to report if the configuration of the router has a fault. A fault of the
    /// capture comes first.
    pub(crate) fn fault_lacking(self, fault: ConfigFault) -> CapturingFault
        ensures { result ≡ fault_lacking self fault }
    {
        match self {
            Ending::Whole => CapturingFault::Config(fault),
            Ending::Fault { kind, place } => CapturingFault::Capture { kind, place },
            Ending::Unread => CapturingFault::Read,
        }
    }
}
