//! The result that a command prints after a run, and the form of the lines that it prints.

/// The form of printed lines.
#[derive(Clone, Copy, Debug, PartialEq, Eq)]
pub enum Format {
    /// Words separated by single spaces.
    Text,
    /// JSON objects (RFC 8259), one for each line, without spaces.
    Json,
}

/// The result that a command prints after a run.
#[derive(Clone, Copy, Debug, PartialEq, Eq)]
pub enum Show {
    /// The routing table.
    Routes,
    /// The summary-LSAs that are due in each area.
    Due,
    /// All LSAs at their present age.
    Lsdb,
    /// A recording, and nothing else: the base, if one was given or made by a roll, and the events
    /// taken since.
    Journal,
}
