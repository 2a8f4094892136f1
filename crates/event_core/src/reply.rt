//! The reply to an event that was taken.

/// The status of the routing table and the due summaries.
#[derive(Clone, Copy, Debug, PartialEq, Eq)]
pub enum Status {
    /// The table and the due summaries reflect all events taken.
    Current,
    /// Memory ran out, and the table and the due summaries reflect an earlier prefix of the
    /// journal.
    Behind,
}

/// The reply to an event that was taken.
#[derive(Clone, Copy, Debug, PartialEq, Eq)]
pub struct Reply {
    /// The serial of the event. A core that is opened without a base gives its first event 1.
    pub serial: u64,
    /// True if the usable LSAs (key, Options, body), the interfaces or the address ranges changed.
    pub changed: bool,
    /// The status after the event.
    pub state: Status,
}
