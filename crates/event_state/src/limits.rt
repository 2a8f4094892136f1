//! The maximum sizes of a state's databases and journal.
//!
//! The limits are part of a state, so that tests can open one with small limits.

/// The sizes that a state may grow to.
#[derive(Clone, Copy, Debug, PartialEq, Eq)]
pub struct Limits {
    /// The maximum number of LSAs in the database of an area.
    pub area_lsas: u32,
    /// The maximum number of AS-external-LSAs.
    pub externals: u32,
    /// The maximum number of events in the journal.
    pub events: u64,
}

impl Limits {
    /// The standard limits: 16,384 LSAs in an area, 65,536 AS-external-LSAs, and 1,000,000 events.
    pub const STANDARD: Limits = Limits {
        area_lsas: 16_384,
        externals: 65_536,
        events: 1_000_000,
    };
}
