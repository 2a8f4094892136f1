//! The explanation of a summary that is due in an area, or is not due there.
ghost use Rattle.std.specs.Prelude.{◌≡◌, ◌↔◌, ℕ, Some, None, IsTrue};
ghost use Rattle.due_explanation.specs.declared.due.DueVerdict.TheVariants as due_fate;
ghost use Rattle.due_explanation.specs.Sources.{GivesInto, settled};

use ospf_types::prefix::Prefix;

/// The kind of a source of a summary (RFC 2328, 12.4.3).
#[derive(Clone, Copy, Debug, PartialEq, Eq)]
pub enum SourceKind {
    /// The intra-area route to a network.
    IntraArea,
    /// The inter-area route to a network.
    InterArea,
    /// An address range of an area.
    Range,
    /// The preferred route of an AS boundary router: 16.4 (3).
    Preferred,
}

/// The verdict on a source in an area: the first of these that holds.
#[derive(Clone, Copy, Debug, PartialEq, Eq)]
pub enum DueVerdict {
    /// The route leads through the area itself, or the range is one of its own.
    OwnArea,
    /// The cost of the route is LSInfinity or more.
    Infinity,
    /// This range of its area covers the network, and such a network is advertised only as part of
    /// a range.
    InRange(Prefix),
    /// The range is configured not to be advertised.
    NotAdvertised,
    /// The range has no network at a cost below LSInfinity.
    NoNetwork,
    /// Another source gives the summary at a higher metric.
    Lesser,
    /// The source gives the summary: its cost is the metric.
    Given,
}

/// A source of a summary for a destination, and the verdict on it in an area.
#[derive(Clone, Copy, Debug, PartialEq, Eq)]
pub struct DueSource {
    /// The kind of the source.
    pub kind: SourceKind,
    /// The Area ID of the area that the route leads through, or whose range it is.
    pub area: u32,
    /// The cost of the route. The cost of a range is the highest cost below LSInfinity of its
    /// networks, or `None` if it has no such network.
    pub cost: Option<u32>,
    /// The verdict on the source.
    pub verdict: DueVerdict,
}

/// The reason why a summary is due in an area, or is not due there: the first of these that holds.
#[derive(Debug, Drop)]
pub enum DueReason {
    /// No configured area has the Area ID.
    NotConfigured,
    /// Fewer than two areas are active, and only an area border router originates summaries.
    NotBorder,
    /// The area is not active.
    NotActive,
    /// No type 4 summary-LSAs are originated into stub areas.
    StubRouter,
    /// A stub area gets its default route, at its StubDefaultCost (C.2).
    StubDefault,
    /// The stub area gets no networks but its default route.
    StubHides,
    /// The sources of the summary: the intra-area route, the inter-area route, and then the ranges,
    /// in the order of the areas. For an AS boundary router, its preferred route. The list is empty
    /// if there are no sources.
    Sources(Vec<DueSource>),
}

/// The metric of a summary in an area, and the reason for it.
#[derive(Debug)]
pub struct DueExplained {
    /// The metric at which the summary is due, or `None` if it is not due.
    pub metric: Option<u32>,
    /// The reason why it is due or not due.
    pub reason: DueReason,
}

// proof: a value is dropped by one call, not part by part at each exit of a function.
impl Drop for DueExplained {
    fn drop(self) {
        let DueExplained {
            metric: _,
            reason: _reason,
        } = self;
    }
}

impl DueExplained {
    /// Creates the explanation of a summary that is not due, for this reason.
    pub(crate) fn undue(reason: DueReason) -> DueExplained
        ensures { result ≡ record { metric = None; reason = reason } }
    {
        DueExplained {
            metric: None,
            reason,
        }
    }
}

impl DueSource {
    /// Returns the metric at which the source by itself gives a summary in the area, or `None`.
    pub(crate) fn metric_into(&self, area: u32) -> Option<u32>
        ensures { (n : ℕ) → (result ≡ Some n) ↔ GivesInto area self.now n }
    {
        // 12.4.3: a route that leads through the area itself is not advertised into it.
        match self.verdict {
            DueVerdict::Given if self.area != area => self.cost,
            _ => None,
        }
    }

    /// Settles the verdict on the source in the area. `metric` is the metric of the summary there,
    /// or `None` if it is not due.
    pub(crate) fn settle(&mut self, area: u32, metric: Option<u32>)
        ensures { self.new ≡ settled area metric self.old }
    {
        if self.area == area {
            self.verdict = DueVerdict::OwnArea;
            return;
        }
        if is_given(&self.verdict) && self.cost != metric {
            self.verdict = DueVerdict::Lesser;
        }
    }
}

fn is_given(verdict: &DueVerdict) -> bool
    ensures { IsTrue result ↔ (verdict.now ≡ due_fate.Given) }
{
    matches!(verdict, DueVerdict::Given)
}
