//! Questions about the end of a recording.

use ospf_types::key::Dest;
use output_lines::Format;

/// A question about the core that a replay leaves.
#[derive(Clone, Copy, Debug, PartialEq, Eq)]
pub enum Question {
    /// The explanation of the routing table's items for this address, in host order.
    Address(u32),
    /// The reason why a summary for the destination is due in the area with this Area ID, or is not
    /// due there. The destination is a network, or an AS boundary router by its Router ID.
    Due(u32, Dest),
}

/// A question, and the form of its answer.
#[derive(Clone, Copy, Debug, PartialEq, Eq)]
pub struct Explaining {
    /// The question.
    pub question: Question,
    /// The format of the lines.
    pub format: Format,
    /// True if the number of lines done is shown on standard error.
    pub progress: bool,
}
