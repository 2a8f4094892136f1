//! The reason why a summary is due in an area, or is not due there (RFC 2328, 12.4.3).
ghost use Rattle.std.specs.Prelude.{Some, IfNone, IfOk, IfSome};
ghost use Rattle.ospf_types.specs.declared.key.Dest.TheVariants as dest_value;
ghost use Rattle.summaries.specs.Giving.{IsServed};
ghost use Rattle.due_explanation.specs.Reasons.{IsExplained, IsExplainedIn, IsStubReason, MaySend};

use crate::active::{are_several, find_area, is_active};
use crate::due::{DueExplained, DueReason};
use crate::sources::{find_sources, greatest_into, settle_all};
use ospf_types::config::{AreaConfig, Stub};
use ospf_types::key::Dest;
use ospf_types::memory::Memory;
use ospf_types::prefix::Prefix;
use std::alloc::Global;
use summaries::SummaryInputs;

/// Explains why a summary for the destination is due in the area with this Area ID, or is not due
/// there. The destination is a network, or an AS boundary router by its Router ID.
///
/// If several reasons hold, the result has the first of them in the order of `DueReason`.
///
/// # Errors
///
/// Returns `Memory` if memory runs out.
pub fn due_reason(
    alloc: Global,
    inputs: &SummaryInputs<'_>,
    area: u32,
    dest: Dest,
) -> Result<DueExplained, Memory>
    ensures { IfOk result (IsExplained inputs.now area dest) }
{
    let Some(area) = find_area(inputs.areas, area) else {
        return Ok(DueExplained::undue(DueReason::NotConfigured));
    };
    reason_in(alloc, inputs, area, &dest)
}

// Explains the summary for a configured area.
fn reason_in(
    alloc: Global,
    inputs: &SummaryInputs<'_>,
    area: &AreaConfig,
    dest: &Dest,
) -> Result<DueExplained, Memory>
    ensures { IfOk result (IsExplainedIn inputs.now area.now dest.now) }
{
    // 12.4.3: only area border routers originate summary-LSAs.
    if !are_several(inputs.active) {
        return Ok(DueExplained::undue(DueReason::NotBorder));
    }
    if !is_active(inputs.active, area.id) {
        return Ok(DueExplained::undue(DueReason::NotActive));
    }
    if let Some(explained) = stub_reason(area.stub, dest) {
        return Ok(explained);
    }
    reason_by_sources(alloc, inputs, area, dest)
}

// Explains the summary by its sources. The area and another one are active, and if the area is a
// stub area, it also gets networks such as this one.
fn reason_by_sources(
    alloc: Global,
    inputs: &SummaryInputs<'_>,
    area: &AreaConfig,
    dest: &Dest,
) -> Result<DueExplained, Memory>
    requires served { IsServed inputs.now.active area.now.id }
    requires may_send { MaySend area.now.stub dest.now }
    ensures { IfOk result (IsExplainedIn inputs.now area.now dest.now) }
{
    let mut sources = find_sources(alloc, inputs, dest)?;
    let metric = greatest_into(&sources, area.id);
    settle_all(&mut sources, area.id, metric);
    Ok(DueExplained {
        metric,
        reason: DueReason::Sources(sources),
    })
}

// Returns the explanation of a summary that the stub area's configuration decides, or `None`.
fn stub_reason(stub: Option<Stub>, dest: &Dest) -> Option<DueExplained>
    ensures some { IfSome result (λ x. IsStubReason stub dest.now x.metric x.reason) }
    ensures none { IfNone result (MaySend stub dest.now) }
{
    let stub = stub?;
    match dest {
        Dest::Router(_) => Some(DueExplained::undue(DueReason::StubRouter)),
        Dest::Net(network) => stub_network_reason(stub, *network),
    }
}

// Returns the explanation for a network that the stub area's configuration decides, or `None`.
fn stub_network_reason(stub: Stub, network: Prefix) -> Option<DueExplained>
    ensures some { IfSome result (λ x. IsStubReason (Some stub) (dest_value.Net network)
        x.metric x.reason) }
    ensures none { IfNone result (MaySend (Some stub) (dest_value.Net network)) }
{
    if network.is_default() {
        return Some(DueExplained {
            metric: Some(stub.cost),
            reason: DueReason::StubDefault,
        });
    }
    if !stub.summaries {
        return Some(DueExplained::undue(DueReason::StubHides));
    }
    None
}
