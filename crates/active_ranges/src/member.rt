//! The networks in the address ranges of areas (RFC 2328, C.2).
ghost use Rattle.std.specs.Prelude.{◌≡◌};

use ospf_types::prefix::Prefix;

/// A network in a range of an area.
#[derive(Clone, Copy, Debug, PartialEq, Eq)]
pub struct RangeMember {
    /// The prefix of the range.
    pub range: Prefix,
    /// The Area ID.
    pub area: u32,
    pub network: Prefix,
}

/// A range of an area.
#[derive(Clone, Copy, Debug, PartialEq, Eq, PartialOrd, Ord)]
pub(crate) struct AreaRange {
    pub prefix: Prefix,
    /// The Area ID.
    pub area: u32,
}

impl AreaRange {
    /// Returns the least range with this prefix.
    pub(crate) fn least_of(prefix: Prefix) -> AreaRange
        ensures { result ≡ record { prefix = prefix; area = 0 } }
    {
        AreaRange { prefix, area: 0 }
    }
}
