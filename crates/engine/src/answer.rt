//! The answers to events and to queries of due summaries.
ghost use Rattle.std.specs.Prelude.{Some};
ghost use Rattle.engine.specs.RefusedText.{refused_text};

use event_core::{DueSummary, Refusal, Reply};
use publication::Told;
use std::fmt;
use thiserror::Error;

/// The answer to a taken event. It has a token if and only if the published table contains the
/// event.
#[derive(Drop)]
pub struct Answer {
    /// The core's reply. Its state is `Behind` if there is no token.
    pub reply: Reply,
    /// The token of the history up to the event.
    pub told: Option<Told>,
}

/// The answer to an event that was not taken. It has a token if and only if the published table
/// reflects the whole journal.
#[derive(Debug, Drop, Error)]
pub struct Refused {
    /// The reason why the event was not taken.
    pub refusal: Refusal,
    /// The token of the published history.
    pub told: Option<Told>,
}

/// The refusal as a number and a name, such as `23 Same`.
impl fmt::Display for Refused {
    ghost output = { λ refused. Some (refused_text refused) };

    fn fmt<W: fmt::Write>(&self, f: &mut fmt::Formatter<W>) -> fmt::Result {
        self.refusal.fmt(f)
    }
}

/// A copy of the summary-LSAs due in an area (RFC 2328, 12.4.3), in ascending order of LS type and
/// destination. It has a token if and only if the published table has the same serial.
#[derive(Drop)]
pub struct DueList {
    /// The serial of the last event that the list reflects.
    pub serial: u64,
    /// The due summaries.
    pub list: Vec<DueSummary>,
    /// The token of the published history.
    pub told: Option<Told>,
}
