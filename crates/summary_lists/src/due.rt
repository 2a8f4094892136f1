//! A summary-LSA that is due in an area (RFC 2328, 12.4.3).
ghost use Rattle.std.specs.Prelude.{◌≡◌};
ghost use Rattle.summary_lists.specs.Lists.{due_for};

use ospf_types::key::Dest;

/// A summary-LSA that is due in an area.
#[derive(Clone, Copy, Debug, PartialEq, Eq, Hash)]
pub struct DueSummary {
    /// The LS type: 3 for a network, 4 for an AS boundary router.
    pub kind: u8,
    pub dest: Dest,
    /// The metric: below LSInfinity (2^24 - 1), or the configured cost of a stub area's default
    /// route.
    pub metric: u32,
}

impl DueSummary {
    /// Creates the summary for the destination.
    pub fn of(dest: Dest, metric: u32) -> DueSummary
        ensures { result ≡ due_for dest metric }
    {
        let kind = match dest {
            Dest::Net(_) => 3,
            Dest::Router(_) => 4,
        };
        DueSummary { kind, dest, metric }
    }
}
