//! The reasons why a summary is due in an area, or is not due there, and the verdicts on its
//! sources.
ghost use Rattle.std.specs.Prelude.{◌≡◌, Some, option_copied};
ghost use Rattle.summary_lists.specs.Lists.{kind_of as kind_of_dest};
ghost use Rattle.due_explanation.specs.ReasonLines as reasons;

use crate::{DueReason, DueVerdict};
use ospf_types::key::Dest;
use std::fmt;
use summary_lists::DueSummary;

/// The section of RFC 2328 that decides.
pub(crate) const STEP: &str = "12.4.3";

/// Returns true if the source gives the summary at its metric.
pub(crate) fn is_taken(verdict: DueVerdict) -> bool
    ensures { result ≡ reasons.is_taken verdict }
{
    matches!(verdict, DueVerdict::Given)
}

/// Returns the reason that is printed with the summary itself, or `None` if its sources are the
/// reason.
pub(crate) fn due_reason_of(reason: &DueReason) -> Option<&'static str>
    ensures { option_copied result ≡ reasons.due_reason_text reason.now }
{
    match reason {
        DueReason::NotConfigured => Some("no area has this Area ID"),
        DueReason::NotBorder => Some("fewer than two areas are active"),
        DueReason::NotActive => Some("the area is not active"),
        DueReason::StubRouter => Some("a stub area is sent no AS boundary routers"),
        DueReason::StubDefault => {
            Some("a stub area is sent its default route at its StubDefaultCost")
        }
        DueReason::StubHides => Some("the stub area is sent no networks but its default route"),
        DueReason::Sources(sources) if sources.is_empty() => Some("nothing leads there"),
        DueReason::Sources(_) => None,
    }
}

/// Prints the reason why a source gives the summary, or does not give it.
#[derive(Clone, Copy)]
pub(crate) struct FateField(pub(crate) DueVerdict);

impl fmt::Display for FateField {
    ghost output = { λ verdict. Some (reasons.reason_text verdict.0) };

    fn fmt<W: fmt::Write>(&self, f: &mut fmt::Formatter<W>) -> fmt::Result {
        match self.0 {
            DueVerdict::OwnArea => f.write_str("it is of the area itself"),
            DueVerdict::Infinity => f.write_str("its cost is LSInfinity or more"),
            DueVerdict::InRange(network) => {
                write!(f, "the range {network} of its area has the network")
            }
            DueVerdict::NotAdvertised => f.write_str("the range is not advertised"),
            DueVerdict::NoNetwork => {
                f.write_str("no network of the range costs less than LSInfinity")
            }
            DueVerdict::Lesser => f.write_str("another one costs more"),
            DueVerdict::Given => f.write_str("its cost is the metric"),
        }
    }
}

/// Returns the LS type of a summary for the destination: 3 for a network, 4 for an AS boundary
/// router.
pub(crate) fn kind_of(dest: &Dest) -> u8
    ensures { result ≡ kind_of_dest dest.now }
{
    // The LS type does not depend on the metric.
    DueSummary::of(*dest, 0).kind
}
