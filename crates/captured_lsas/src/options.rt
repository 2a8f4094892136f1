//! The options of a recording of a capture.

/// Options of a recording.
#[derive(Clone, Copy, Debug, PartialEq, Eq)]
pub struct Options {
    /// True if LSAs that a router would discard are recorded too.
    pub keeps_all: bool,
    /// True if no seconds are recorded.
    pub without_seconds: bool,
}
