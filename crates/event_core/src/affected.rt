//! The parts of the state that an event may change, listed before it is taken.
ghost use Rattle.std.specs.Prelude.{◌≡◌, IfOk, IfErr, is_some};
ghost use Rattle.event_state.specs.Refusals.{IsRefusalOf};
ghost use Rattle.event_state.specs.Steps.{step};
ghost use Rattle.calculation.specs.Active.{RangesDifferAt};
ghost use Rattle.calculation.specs.Trees.{StatesDifferAmong};
ghost use Rattle.event_core.specs.Affected.{IsNamedBetween, IsRangeNamedBetween, range_of};

use event_state::{Event, Refusal, State};
use ospf_types::key::{Key, Scope};
use ospf_types::memory::Memory;
use ospf_types::prefix::Prefix;
use std::alloc::Global;

/// The LSAs, interfaces or address range that an event may change.
#[derive(Drop)]
pub(crate) struct AffectedInputs {
    /// The LSAs, by their keys.
    pub(crate) keys: Vec<(Scope, Key)>,
    /// The interfaces, by their ids.
    pub(crate) interfaces: Vec<u8>,
    /// The Area ID and the prefix of the range.
    pub(crate) range: Option<(u32, Prefix)>,
}

/// Returns what the event may change. If memory runs out, returns the event's refusal, or 30 Memory
/// if it has no other.
pub(crate) fn affected_by(
    alloc: Global,
    state: &State,
    event: &Event,
) -> Result<AffectedInputs, Refusal>
    ensures named { IfOk result (λ named.
        IsNamedBetween named state.now (step state.now event.now)) }
    ensures ranges { IfOk result (λ named.
        IsRangeNamedBetween named state.now (step state.now event.now)) }
    ensures range { IfOk result (λ named. named.range ≡ range_of event.now) }
    ensures refused { IfErr result (IsRefusalOf state.now event.now) }
{
    match changed_by(alloc, state, event) {
        Ok(named) => Ok(named),
        Err(Memory) => Err(state.refusal(event).unwrap_or(Refusal::Memory)),
    }
}

fn changed_by(alloc: Global, state: &State, event: &Event) -> Result<AffectedInputs, Memory>
    ensures named { IfOk result (λ named.
        IsNamedBetween named state.now (step state.now event.now)) }
    ensures ranges { IfOk result (λ named.
        IsRangeNamedBetween named state.now (step state.now event.now)) }
    ensures range { IfOk result (λ named. named.range ≡ range_of event.now) }
{
    if let Event::Interface { id, .. } = event {
        return Ok(AffectedInputs {
            keys: Vec::new(alloc),
            interfaces: Vec::from_slice(alloc, &[*id])?,
            range: None,
        });
    }
    Ok(AffectedInputs {
        keys: state.affected_lsas(alloc, event)?,
        interfaces: Vec::new(alloc),
        range: range_of(event),
    })
}

// Returns the Area ID and prefix of the range that the event sets or drops, or `None`.
fn range_of(event: &Event) -> Option<(u32, Prefix)>
    ensures { result ≡ range_of event.now }
{
    match event {
        Event::RangeSet { area, prefix, .. } | Event::RangeDrop { area, prefix } => {
            Some((*area, *prefix))
        }
        Event::Install { .. } | Event::Flush { .. } | Event::Purge { .. } => None,
        Event::Interface { .. } | Event::Second => None,
    }
}
