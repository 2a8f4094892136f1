//! The metric at which a destination is due as a summary-LSA in an area (RFC 2328, 12.4.3).
//!
//! Routes and advertised address ranges are the *sources* of a summary. A source gives none in the
//! area that it leads through (split horizon). If a destination has several sources, the one with
//! the highest metric counts. So each destination is looked up once for all areas: it is enough to
//! keep the highest metric, and the highest metric through any other area than that one's.
ghost use Rattle.std.specs.Prelude.{ℕ, ◌≡◌, ◌≢◌, ◌↔◌, ◌≤◌, ◌⊎◌, Some, None, Contains, IsTrue, All};
ghost use Rattle.std.specs.Prelude.{option_copied};
ghost use Rattle.std.specs.FinMap as map;
ghost use Rattle.ospf_types.specs.declared.key.Dest.TheVariants as dest_value;
ghost use Rattle.ospf_types.specs.Address.{Covers};
ghost use Rattle.ospf_types.specs.Summaries.{default_route};
ghost use Rattle.summaries.specs.Giving.{RangeGives, Advertises, IsOutsideRanges, IsServed, IsMost};
ghost use Rattle.summaries.specs.Candidates.{IsCandidateOf, IsNetworkIn, IsOrdered, metric_into};
ghost use Rattle.summaries.specs.Candidates.{CostsInto, HasMostOf, IsIntraThrough, IsMetricOf};
ghost use Rattle.summaries.specs.Candidates.{IsNetworkMetricOf, IsOnly, IsRangeThrough, IsAsbrDueIn};
ghost use Rattle.summaries.specs.Candidates.{LeadsThrough, IsPreferredThrough};

use crate::inputs::SummaryInputs;
use external::AsbrRoute;
use ospf_types::config::{AreaConfig, Stub};
use ospf_types::entry::Entry;
use ospf_types::key::Dest;
use ospf_types::lsa::LS_INFINITY;
use ospf_types::prefix::Prefix;

/// A source of a summary: its area, and its cost, which is below LSInfinity. The area is the one
/// that the route leads through, or the one whose range it is.
#[derive(Clone, Copy, Debug, PartialEq, Eq)]
pub(crate) struct Through {
    pub area: u32,
    pub cost: u32,
}

/// The highest metrics among the sources of a summary.
#[derive(Clone, Copy, Debug)]
pub(crate) struct Given {
    // The source with the highest metric.
    most: Option<Through>,
    // The highest metric of the sources of other areas than that one's.
    next: Option<u32>,
}

/// A destination and the sources of its summary, for all areas.
#[derive(Clone, Copy, Debug)]
pub(crate) struct SummaryCandidate {
    pub dest: Dest,
    pub given: Given,
}

impl Given {
    // Returns the value for no sources.
    fn none() -> Given
        ensures in_order { IsOrdered result }
        ensures none { (area : ℕ) → metric_into result area ≡ None }
    {
        Given {
            most: None,
            next: None,
        }
    }

    // Adds a source, if there is one.
    fn with(self, through: Option<Through>) -> Given
        requires { IsOrdered self }
        ensures in_order { IsOrdered result }
        ensures greatest { HasMostOf self (CostsInto through) result }
    {
        let Some(through) = through else {
            return self;
        };
        let Some(most) = self.most else {
            return Given {
                most: Some(through),
                next: None,
            };
        };
        if through.area == most.area {
            return Given {
                most: Some(costlier(most, through)),
                next: self.next,
            };
        }
        if through.cost > most.cost {
            return Given {
                most: Some(through),
                next: Some(most.cost),
            };
        }
        Given {
            most: Some(most),
            next: greater(self.next, through.cost),
        }
    }

    // Returns the highest metric of the sources that count in the area, or `None` if there are
    // none.
    fn metric_into(self, area: u32) -> Option<u32>
        ensures { result ≡ metric_into self area }
    {
        // 12.4.3: a route that leads through the area itself is not advertised into it.
        match self.most {
            Some(through) if through.area != area => Some(through.cost),
            _ => self.next,
        }
    }
}

/// Looks up the sources of a summary for the destination. With fewer than two active areas there
/// are none, as no summaries are due then.
pub(crate) fn find_candidate(inputs: &SummaryInputs<'_>, dest: Dest) -> SummaryCandidate
    ensures dest { result.dest ≡ dest }
    ensures right { IsCandidateOf inputs.now result }
{
    // 12.4.3: only area border routers originate summary-LSAs.
    if inputs.active.len() < 2 {
        return SummaryCandidate {
            dest,
            given: Given::none(),
        };
    }
    match dest {
        Dest::Net(network) => SummaryCandidate {
            dest,
            given: network_given(inputs, network),
        },
        Dest::Router(router) => SummaryCandidate {
            dest,
            given: router_given(inputs.external.preferred(router)),
        },
    }
}

/// Returns the metric at which the destination is due in the area, or `None` if it is not due
/// there. `served` is the result of `is_served` for the area.
pub(crate) fn metric(area: &AreaConfig, served: bool, candidate: &SummaryCandidate) -> Option<u32>
    ensures { IsMetricOf area.now served candidate.now result }
{
    if !served {
        return None;
    }
    match candidate.dest {
        Dest::Net(network) => network_metric(area, candidate.given, network),
        Dest::Router(_) => router_metric(area.stub, area.id, candidate.given),
    }
}

/// Returns true if the area is active and so is another one: only then are summaries due in it.
pub(crate) fn is_served(active: &[u32], area: u32) -> bool
    ensures { IsTrue result ↔ IsServed active.now area }
{
    active.contains(&area) && has_other_active_area(active, area)
}

/// Returns true if another area than this one is active.
pub fn has_other_active_area(active: &[u32], area: u32) -> bool
    ensures { IsTrue result ↔ ((another : ℕ) × Contains active.now another × (another ≢ area)) }
{
    for another in active {
        if *another != area {
            return true;
        }
    }
    false
}

// Returns the metric at which the network is due in the area. Into a stub area only the default
// route is advertised, unless its configuration also wants the summaries of networks.
fn network_metric(area: &AreaConfig, given: Given, network: Prefix) -> Option<u32>
    ensures { IsNetworkMetricOf area.now given network result }
{
    // 12.4.3: a stub area gets a default route at its StubDefaultCost (C.2).
    if let Some(stub) = area.stub {
        if network.is_default() {
            return Some(stub.cost);
        }
        if !stub.summaries {
            return None;
        }
    }
    given.metric_into(area.id)
}

/// Returns the destination of the default route, 0.0.0.0/0.
pub(crate) fn default_network() -> Prefix
    ensures { result ≡ default_route }
{
    Prefix::from_mask(0, 0)
}

// Returns the sources of a summary for the network.
fn network_given(inputs: &SummaryInputs<'_>, network: Prefix) -> Given
    ensures { (area : ℕ) → IsNetworkIn inputs.now area network result }
{
    let intra = Given::none().with(intra_through(inputs, network));
    let own = intra.with(inter_through(inputs, network));
    with_ranges(inputs, network, own)
}

// Returns the intra-area route to the network as a source, if no range of its area covers the
// network.
fn intra_through(inputs: &SummaryInputs<'_>, network: Prefix) -> Option<Through>
    ensures { IsOnly (IsIntraThrough inputs.now network) result }
{
    let through = finite(inputs.intra.get(network))?;
    // 12.4.3: a network that a range of its area covers is advertised only as part of the range.
    if is_outside(inputs.areas, through.area, network) {
        return Some(through);
    }
    None
}

// Returns the inter-area route to the network as a source.
fn inter_through(inputs: &SummaryInputs<'_>, network: Prefix) -> Option<Through>
    ensures { IsOnly
        (LeadsThrough (map.get inputs.now.inter.entries (dest_value.Net network))) result }
{
    finite(inputs.inter.get(Dest::Net(network)))
}

// Returns the route as a source, if there is one and its cost is below LSInfinity.
fn finite(entry: Option<&Entry>) -> Option<Through>
    ensures { IsOnly (LeadsThrough (option_copied entry.entry)) result }
{
    let entry = entry?;
    let area = entry.area?;
    // 12.4.3: a route at LSInfinity or more is not advertised.
    if entry.cost < LS_INFINITY {
        return Some(Through {
            area,
            cost: entry.cost,
        });
    }
    None
}

// Returns true if no range of the area covers the network.
fn is_outside(areas: &[AreaConfig], id: u32, network: Prefix) -> bool
    ensures { IsTrue result ↔ IsOutsideRanges areas.now id network }
{
    for area in areas {
        if area.id == id && is_in_range(area, network) {
            return false;
        }
    }
    true
}

// Returns true if a range of the area covers the network.
fn is_in_range(area: &AreaConfig, network: Prefix) -> bool
    ensures { IsTrue result ↔ (All (λ r. Covers r.prefix network → ⊥) area.now.ranges → ⊥) }
{
    for range in area.ranges.as_slice() {
        if range.prefix.covers(network) {
            return true;
        }
    }
    false
}

// Adds the advertised ranges with this prefix, of all areas, to the sources.
fn with_ranges(inputs: &SummaryInputs<'_>, prefix: Prefix, own: Given) -> Given
    requires { IsOrdered own }
    ensures { HasMostOf own (λ area n. RangeGives inputs.now area prefix n) result }
{
    let mut given = own;
    for area in inputs.areas {
        given = given.with(range_through(inputs, area, prefix));
    }
    given
}

// Returns the area's advertised range with this prefix as a source, if it has one, with a network
// at a cost below LSInfinity.
fn range_through(inputs: &SummaryInputs<'_>, area: &AreaConfig, prefix: Prefix) -> Option<Through>
    ensures { IsOnly (IsRangeThrough inputs.now area.now prefix) result }
{
    if !advertises(area, prefix) {
        return None;
    }
    // 12.4.3: the cost of a range is the highest cost of its networks below LSInfinity. Networks
    // are left out one by one, and the range itself is not judged again.
    let cost = inputs.ranges.costliest(prefix, area.id, LS_INFINITY)?;
    Some(Through {
        area: area.id,
        cost,
    })
}

/// Returns true if the area has an advertised range with this prefix.
pub fn advertises(area: &AreaConfig, prefix: Prefix) -> bool
    ensures { IsTrue result ↔ Advertises area.now prefix }
{
    for range in area.ranges.as_slice() {
        if range.prefix == prefix && range.advertise {
            return true;
        }
    }
    false
}

// Returns the source with the higher cost.
fn costlier(a: Through, b: Through) -> Through
    ensures one { (result ≡ a) ⊎ (result ≡ b) }
    ensures first { a.cost ≤ result.cost }
    ensures second { b.cost ≤ result.cost }
{
    if b.cost > a.cost {
        return b;
    }
    a
}

// Returns the higher of the two metrics.
fn greater(a: Option<u32>, b: u32) -> Option<u32>
    ensures { IsMost (λ n. (a ≡ Some n) ⊎ (Some b ≡ Some n)) result }
{
    a.max(Some(b))
}

// Returns the metric at which an AS boundary router is due in the area. `given` is its preferred
// route.
fn router_metric(stub: Option<Stub>, area: u32, given: Given) -> Option<u32>
    ensures { (m : ℕ) → (result ≡ Some m) ↔ ((stub ≡ None) × (metric_into given area ≡ Some m)) }
{
    // 12.4.3: no type 4 summary-LSAs are originated into stub areas.
    match stub {
        Some(_) => None,
        None => given.metric_into(area),
    }
}

// Returns the sources of a summary for an AS boundary router: only its preferred route.
fn router_given(preferred: Option<&AsbrRoute>) -> Given
    ensures { IsAsbrDueIn (option_copied preferred.entry) result }
{
    Given {
        most: preferred_through(preferred),
        next: None,
    }
}

// Returns the preferred route as a source, if there is one and its cost is below LSInfinity.
fn preferred_through(preferred: Option<&AsbrRoute>) -> Option<Through>
    ensures { IsOnly (IsPreferredThrough (option_copied preferred.entry)) result }
{
    let preferred = preferred?;
    // 12.4.3: AS boundary routers are advertised by their preferred route, below LSInfinity. No
    // other route replaces it.
    if preferred.cost() < LS_INFINITY {
        return Some(Through {
            area: preferred.area(),
            cost: preferred.cost(),
        });
    }
    None
}
