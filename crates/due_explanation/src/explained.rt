//! The explanation of a due summary, from the results that a core keeps.
ghost use Rattle.std.specs.Prelude.{IfNone, IfOk, IfSome};
ghost use Rattle.calculation.specs.Calculations.{IsCalculationOf};
ghost use Rattle.event_core.specs.Cores.{IsCurrent, state_of};
ghost use Rattle.due_explanation.specs.Explained.{IsDueExplained, IsDueMetric};

use crate::{DueExplained, due_reason};
use event_core::{Calculated, Core};
use ospf_types::key::Dest;
use ospf_types::memory::Memory;
use route_layers::active_areas;
use std::alloc::Global;
use summaries::SummaryInputs;

/// Explains why a summary for the destination is due in the area with this Area ID, and at which
/// metric, or why it is not due. The destination is a network, or an AS boundary router by its
/// Router ID. Returns `None` if the core is behind.
///
/// # Errors
///
/// Returns `Memory` if memory runs out.
pub fn explain_due(
    alloc: Global,
    core: &Core,
    area: u32,
    dest: Dest,
) -> Result<Option<DueExplained>, Memory>
    ensures none { IfOk result (λ found. IfNone found (IsCurrent core.now → ⊥)) }
    ensures metric { IfOk result (λ found. IfSome found (λ explained.
        IsDueMetric (state_of core.now) area dest explained.metric)) }
    ensures explained { IfOk result (λ found. IfSome found (λ explained.
        IsDueExplained (state_of core.now) area dest explained)) }
{
    match core.calculated() {
        Some(found) => {
            let explained = explain_by(alloc, found, area, dest)?;
            Ok(Some(explained))
        }
        None => Ok(None),
    }
}

// Explains the summary by a state and the results calculated from it.
fn explain_by(
    alloc: Global,
    found: Calculated<'_>,
    area: u32,
    dest: Dest,
) -> Result<DueExplained, Memory>
    requires { IsCalculationOf found.state.now found.calculation.now }
    ensures { IfOk result (IsDueExplained found.entry.state.now area dest) }
{
    let active = active_areas(alloc, found.state)?;
    let calculation = found.calculation;
    let inputs = SummaryInputs {
        areas: found.state.config().areas.as_slice(),
        active: active.as_slice(),
        intra: calculation.intra(),
        ranges: calculation.active(),
        inter: calculation.inter(),
        external: calculation.external(),
    };
    due_reason(alloc, &inputs, area, dest)
}
