//! The sources of a summary for a destination, and their verdicts in an area.
ghost use Rattle.std.specs.Prelude.{◌≡◌, ◌⊎◌, ◌++◌, Some, IfOk, OnOk, map as list_map};
ghost use Rattle.std.specs.Prelude.{option_copied};
ghost use Rattle.summaries.specs.Giving.{IsMost};
ghost use Rattle.due_explanation.specs.Sources.{AreNetworkSources, AreRouterSources, AreSources};
ghost use Rattle.due_explanation.specs.Sources.{GivesAmong, listed, settled};

use crate::due::DueSource;
use crate::kinds::{inter_source, intra_source, preferred_source, range_source};
use external::AsbrRoute;
use ospf_types::key::Dest;
use ospf_types::memory::Memory;
use ospf_types::prefix::Prefix;
use std::alloc::Global;
use summaries::SummaryInputs;

/// Returns the sources of a summary for the destination, for all areas.
pub(crate) fn find_sources(
    alloc: Global,
    inputs: &SummaryInputs<'_>,
    dest: &Dest,
) -> Result<Vec<DueSource>, Memory>
    ensures { IfOk result (λ sources. AreSources inputs.now dest.now sources.items) }
{
    match dest {
        Dest::Net(network) => network_sources(alloc, inputs, *network),
        Dest::Router(router) => router_sources(alloc, inputs.external.preferred(*router)),
    }
}

/// Returns the highest metric at which one of the sources gives a summary in the area, or `None`.
pub(crate) fn greatest_into(sources: &[DueSource], area: u32) -> Option<u32>
    ensures { IsMost (GivesAmong area sources.now) result }
{
    let mut most = None;
    for source in sources {
        most = greater(most, source.metric_into(area));
    }
    most
}

/// Settles the verdicts on the sources in the area. `metric` is the metric of the summary there, or
/// `None` if it is not due.
pub(crate) fn settle_all(sources: &mut [DueSource], area: u32, metric: Option<u32>)
    ensures { sources.new ≡ list_map (settled area metric) sources.old }
{
    for source in sources.iter_mut() {
        source.settle(area, metric);
    }
}

// Returns the routes to the network and the ranges with its prefix, as sources.
fn network_sources(
    alloc: Global,
    inputs: &SummaryInputs<'_>,
    network: Prefix,
) -> Result<Vec<DueSource>, Memory>
    ensures { IfOk result (λ sources. AreNetworkSources inputs.now network sources.items) }
{
    let mut sources = Vec::new(alloc);
    push_found(&mut sources, intra_source(inputs, network).as_ref())?;
    push_found(&mut sources, inter_source(inputs, network).as_ref())?;
    for area in inputs.areas {
        push_found(&mut sources, range_source(inputs, area, network).as_ref())?;
    }
    Ok(sources)
}

// Returns the preferred route of the AS boundary router as a source, if there is one.
fn router_sources(alloc: Global, preferred: Option<&AsbrRoute>) -> Result<Vec<DueSource>, Memory>
    ensures { IfOk result (λ sources. AreRouterSources (option_copied preferred.entry)
        sources.items) }
{
    let mut sources = Vec::new(alloc);
    push_found(&mut sources, preferred_source(preferred).as_ref())?;
    Ok(sources)
}

// Appends the source, if there is one.
fn push_found(sources: &mut Vec<DueSource>, found: Option<&DueSource>) -> Result<(), Memory>
    ensures { OnOk result (sources.new.items
        ≡ sources.old.items ++ listed (option_copied found.entry)) }
{
    if let Some(source) = found {
        sources.push(*source)?;
    }
    Ok(())
}

// Returns the higher of the two metrics. `None` is the lowest.
fn greater(a: Option<u32>, b: Option<u32>) -> Option<u32>
    ensures { IsMost (λ n. (a ≡ Some n) ⊎ (b ≡ Some n)) result }
{
    a.max(b)
}
