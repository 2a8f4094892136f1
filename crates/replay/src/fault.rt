//! The reasons why a replay ended early, and their printed text.
ghost use Rattle.std.specs.Prelude.{Some};
ghost use Rattle.replay.specs.Texts.{replay_fault_text};

use ospf_types::memory::Memory;
use recording::LineFault;
use std::fmt;
use thiserror::Error;

/// The reason why a replay ended early.
#[derive(Clone, Copy, Debug, PartialEq, Eq, Error)]
pub enum ReplayFault {
    /// An input that could not be read.
    Read,
    /// An output that could not be written.
    Write,
    /// An output pipe whose reading end was closed.
    Closed,
    /// A lack of memory.
    Memory,
    /// A fault of a line: the input is not a valid recording, or memory ran out at that line.
    Line(LineFault),
}

impl fmt::Display for ReplayFault {
    ghost output = { λ fault. Some (replay_fault_text fault) };

    fn fmt<W: fmt::Write>(&self, f: &mut fmt::Formatter<W>) -> fmt::Result {
        match self {
            ReplayFault::Read => f.write_str("cannot read"),
            ReplayFault::Write => f.write_str("cannot write"),
            ReplayFault::Closed => f.write_str("closed pipe"),
            ReplayFault::Memory => Memory.fmt(f),
            ReplayFault::Line(fault) => fault.fmt(f),
        }
    }
}
