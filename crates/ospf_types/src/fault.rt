//! The faults of a configuration, with their numbers and names.
ghost use Rattle.std.specs.Prelude.{Some};
ghost use Rattle.ospf_types.specs.Texts.{config_fault_text};

use std::fmt;
use thiserror::Error;

/// A fault of a configuration. `fault_in` returns the first one in this order.
#[derive(Clone, Copy, Debug, PartialEq, Eq, Error)]
pub enum ConfigFault {
    /// There is no area, there are more than 16, or two have the same Area ID.
    Areas,
    /// One range of an area covers another one of the same area.
    RangesOverlap,
    /// The backbone is a stub area.
    BackboneStub,
    /// The default cost of a stub area is LSInfinity or more.
    Cost,
    /// An area has more than 32 ranges.
    RangeCount,
    /// Memory ran out.
    Memory,
}

/// Prints the number and the name, as in `40 Areas`.
impl fmt::Display for ConfigFault {
    ghost output = { λ fault. Some (config_fault_text fault) };

    fn fmt<W: fmt::Write>(&self, f: &mut fmt::Formatter<W>) -> fmt::Result {
        f.write_str(match self {
            ConfigFault::Areas => "40 Areas",
            ConfigFault::RangesOverlap => "41 RangesOverlap",
            ConfigFault::BackboneStub => "42 BackboneStub",
            ConfigFault::Cost => "43 Cost",
            ConfigFault::RangeCount => "44 RangeCount",
            ConfigFault::Memory => "30 Memory",
        })
    }
}
