//! The state of a core with the results calculated from it.
use calculation::Calculation;
use event_state::State;

/// A state and the results calculated from it (RFC 2328, 16).
#[derive(Clone, Copy)]
pub struct Calculated<'a> {
    /// The configuration, the databases and the interfaces.
    pub state: &'a State,
    /// The shortest-path trees of the areas, and the routes.
    pub calculation: &'a Calculation,
}
