//! The sources of a summary, kind by kind, with the verdict on each before an area is considered
//! (RFC 2328, 12.4.3).
ghost use Rattle.std.specs.Prelude.{option_copied};
ghost use Rattle.std.specs.FinMap as map;
ghost use Rattle.ospf_types.specs.declared.key.Dest.TheVariants as dest_value;
ghost use Rattle.due_explanation.specs.Sources.{IsEntrySource, IsInterFate, IsIntraFate};
ghost use Rattle.due_explanation.specs.Sources.{IsPreferredSource, IsRangeFate, IsRangeSource};
ghost use Rattle.due_explanation.specs.Sources.{IsRouteFate};
ghost use Rattle.due_explanation.specs.declared.due.SourceKind.TheVariants as source_kind;

use crate::area_ranges::{has_range, range_around};
use crate::due::{DueSource, DueVerdict, SourceKind};
use external::AsbrRoute;
use ospf_types::config::AreaConfig;
use ospf_types::key::Dest;
use ospf_types::lsa::LS_INFINITY;
use ospf_types::prefix::Prefix;
use summaries::{SummaryInputs, advertises};

/// Returns the intra-area route to the network as a source, if there is one through an area.
pub(crate) fn intra_source(inputs: &SummaryInputs<'_>, network: Prefix) -> Option<DueSource>
    ensures { IsEntrySource source_kind.IntraArea (IsIntraFate inputs.now.areas network)
        (map.get inputs.now.intra.entries network) result }
{
    let entry = inputs.intra.get(network)?;
    let area = entry.area?;
    Some(DueSource {
        kind: SourceKind::IntraArea,
        area,
        cost: Some(entry.cost),
        verdict: intra_fate(inputs.areas, area, network, entry.cost),
    })
}

/// Returns the inter-area route to the network as a source, if there is one through an area.
pub(crate) fn inter_source(inputs: &SummaryInputs<'_>, network: Prefix) -> Option<DueSource>
    ensures { IsEntrySource source_kind.InterArea IsInterFate
        (map.get inputs.now.inter.entries (dest_value.Net network)) result }
{
    let entry = inputs.inter.get(Dest::Net(network))?;
    let area = entry.area?;
    Some(DueSource {
        kind: SourceKind::InterArea,
        area,
        cost: Some(entry.cost),
        verdict: route_fate(entry.cost),
    })
}

/// Returns the preferred route of an AS boundary router as a source, if there is one.
pub(crate) fn preferred_source(preferred: Option<&AsbrRoute>) -> Option<DueSource>
    ensures { IsPreferredSource (option_copied preferred.entry) result }
{
    let preferred = preferred?;
    Some(DueSource {
        kind: SourceKind::Preferred,
        area: preferred.area(),
        cost: Some(preferred.cost()),
        verdict: route_fate(preferred.cost()),
    })
}

/// Returns the area's range with this prefix as a source, if the area has one.
pub(crate) fn range_source(
    inputs: &SummaryInputs<'_>,
    area: &AreaConfig,
    prefix: Prefix,
) -> Option<DueSource>
    ensures { IsRangeSource inputs.now area.now prefix result }
{
    if !has_range(area, prefix) {
        return None;
    }
    // 12.4.3: the cost of a range is the highest cost of its networks below LSInfinity.
    let cost = inputs.ranges.costliest(prefix, area.id, LS_INFINITY);
    Some(DueSource {
        kind: SourceKind::Range,
        area: area.id,
        cost,
        verdict: range_fate(area, prefix, cost),
    })
}

// Returns the verdict on a route at this cost.
fn route_fate(cost: u32) -> DueVerdict
    ensures { IsRouteFate cost result }
{
    // 12.4.3: a route at LSInfinity or more is not advertised.
    if cost >= LS_INFINITY {
        return DueVerdict::Infinity;
    }
    DueVerdict::Given
}

// Returns the verdict on the network's intra-area route, which leads through this area.
fn intra_fate(areas: &[AreaConfig], through: u32, network: Prefix, cost: u32) -> DueVerdict
    ensures { IsIntraFate areas.now network through cost result }
{
    if cost >= LS_INFINITY {
        return DueVerdict::Infinity;
    }
    // 12.4.3: a network that a range of its area covers is advertised only as part of the range.
    match range_around(areas, through, network) {
        Some(range) => DueVerdict::InRange(range),
        None => DueVerdict::Given,
    }
}

// Returns the verdict on the area's range with this prefix, whose cost is `cost`.
fn range_fate(area: &AreaConfig, prefix: Prefix, cost: Option<u32>) -> DueVerdict
    ensures { IsRangeFate area.now prefix cost result }
{
    if !advertises(area, prefix) {
        return DueVerdict::NotAdvertised;
    }
    match cost {
        Some(_) => DueVerdict::Given,
        None => DueVerdict::NoNetwork,
    }
}
