//! The lines of a recording, taken apart: the events, and the output that each line asks for.
ghost use Rattle.std.specs.Prelude.{◌≡◌, ◌++◌, ◌||◌, ◌∷◌, [], IfOk, OnOk, reverse};
ghost use Rattle.worker_replay.specs.Runs.{events_of, has_roll};
ghost use Rattle.worker_replay.specs.Parts.{ask_of, asks_of, is_roll};

use crate::dealing::reversed;
use engine::Event;
use ospf_types::memory::Memory;
use recording::Line;
use std::alloc::Global;

/// The output that a line asks for.
#[derive(Clone, Copy)]
pub(crate) enum Ask {
    /// The answer to the next event.
    Event,
    /// The match of the address, in host order.
    Lookup(u32),
    /// The answer to the roll, if this is the last line that asks for it.
    Roll { is_last: bool },
}

/// The lines of a recording, taken apart.
#[derive(Drop)]
pub(crate) struct Apart {
    /// The events, in order.
    pub(crate) events: Vec<Event>,
    /// The output that each line asks for.
    pub(crate) asks: Vec<Ask>,
    /// True if one of the lines is a roll.
    pub(crate) rolls: bool,
}

/// Returns the events of the lines, and the output that each line asks for.
///
/// It takes the lines from the last to the first, so that it knows the last roll.
pub(crate) fn set_all_apart(alloc: Global, lines: Vec<Line>) -> Result<Apart, Memory>
    ensures events { IfOk result (λ apart. apart.events.items ≡ events_of lines.items) }
    ensures asks { IfOk result (λ apart. apart.asks.items ≡ asks_of lines.items) }
    ensures rolls { IfOk result (λ apart. apart.rolls ≡ has_roll lines.items) }
{
    let mut lines = lines;
    let mut events = Vec::new(alloc);
    let mut asks = Vec::with_capacity(alloc, lines.len())?;
    let mut rolls = false;
    while let Some(line) = lines.pop() {
        rolls = set_apart(line, rolls, &mut events, &mut asks)?;
    }
    Ok(Apart {
        events: reversed(events),
        asks: reversed(asks),
        rolls,
    })
}

// Takes apart the line before those that were taken apart already. Both lists are in reverse order.
// `rolls` is true if one of those later lines is a roll. Returns true if this line or a later one
// is.
fn set_apart(
    line: Line,
    rolls: bool,
    events: &mut Vec<Event>,
    asks: &mut Vec<Ask>,
) -> Result<bool, Memory>
    ensures events { OnOk result (reverse events.new.items ≡ events_of (line ∷ [])
        ++ reverse events.old.items) }
    ensures asks { OnOk result (reverse asks.new.items
        ≡ ask_of line rolls ∷ reverse asks.old.items) }
    ensures rolls { IfOk result (λ now. now ≡ (is_roll line || rolls)) }
{
    match line {
        Line::Event(event) => {
            events.push(event)?;
            asks.push(Ask::Event)?;
            Ok(rolls)
        }
        Line::Lookup(address) => {
            asks.push(Ask::Lookup(address))?;
            Ok(rolls)
        }
        Line::Roll => {
            let is_last = !rolls;
            asks.push(Ask::Roll { is_last })?;
            Ok(true)
        }
    }
}
