//! The faults of a recording's lines, with their numbers and names.
ghost use Rattle.std.specs.Prelude.{Some};
ghost use Rattle.recording.specs.Texts.{fault_text, line_fault_text};

use event_state::EntryFault;
use lsa_codec::WireFault;
use ospf_types::ConfigFault;
use ospf_types::memory::Memory;
use std::fmt;
use thiserror::Error;

/// The fault of a line: the first of these, in this order, that holds.
#[derive(Clone, Copy, Debug, PartialEq, Eq, Error)]
pub enum Fault {
    /// The line has no line feed; or the text ends before line 1 or 2, before line 3 from version 2
    /// on, or before line 4 in version 3.
    Truncated,
    /// The first line is neither `abr 1`, `abr 2` nor `abr 3`.
    Version,
    /// The line has no form of its version.
    Line,
    /// The line may not come after the lines before it.
    Order,
    /// The bytes of an LSA, to be installed or of the base, are not valid.
    Wire(WireFault),
    /// The configuration of the header has a fault. The line is the last line of the header.
    Config(ConfigFault),
    /// No events could have led to the base that this line and the lines before it describe.
    Base(EntryFault),
    /// Memory ran out.
    Memory,
}

/// The fault as a number and a name, followed by the number and name of the fault in it, if there
/// is one.
impl fmt::Display for Fault {
    ghost output = { λ fault. Some (fault_text fault) };

    fn fmt<W: fmt::Write>(&self, f: &mut fmt::Formatter<W>) -> fmt::Result {
        match self {
            Fault::Truncated => f.write_str("50 Truncated"),
            Fault::Version => f.write_str("51 Version"),
            Fault::Line => f.write_str("52 Line"),
            Fault::Order => f.write_str("53 Order"),
            Fault::Wire(fault) => write!(f, "54 Wire {fault}"),
            Fault::Config(fault) => write!(f, "55 Config {fault}"),
            Fault::Base(unfit) => write!(f, "56 Base {unfit}"),
            Fault::Memory => Memory.fmt(f),
        }
    }
}

/// The reason why bytes are not a valid recording.
#[derive(Clone, Copy, Debug, PartialEq, Eq, Error)]
pub struct LineFault {
    /// The number of the line, counted from 1.
    pub line: usize,
    /// The fault of the line.
    pub fault: Fault,
}

/// The line and its fault, such as `line 5: 54 Wire 2 Checksum`.
impl fmt::Display for LineFault {
    ghost output = { λ fault. Some (line_fault_text fault) };

    fn fmt<W: fmt::Write>(&self, f: &mut fmt::Formatter<W>) -> fmt::Result {
        let (line, fault) = (self.line, self.fault);
        write!(f, "line {line}: {fault}")
    }
}
