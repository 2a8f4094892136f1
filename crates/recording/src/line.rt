//! The lines after the base of a recording.
use event_state::Event;

/// A line after the base: an event, a lookup or a roll.
#[derive(Debug, Drop)]
pub enum Line {
    Event(Event),
    /// A lookup of the address, in host order.
    Lookup(u32),
    /// A roll: the present state becomes the base, and the journal is emptied.
    Roll,
}
