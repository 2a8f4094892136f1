//! The faults of commands, with their status and their printed text.
ghost use Rattle.std.specs.Prelude.{◌≡◌, Some};
ghost use Rattle.cli_queries.specs.Faults.{command_fault_text, place_words, status_of};

use crate::argument_values::WordFault;
use captures::FaultKind;
use engine::{ConfigFault, Refusal};
use lsa_codec::WireFault;
use ospf_types::memory::Memory;
use recording::LineFault;
use std::alloc::AllocError;
use std::fmt;
use thiserror::Error;

const BEGINNING: &str = "capture takes --router ADDRESS or --begin HEAD";

/// The fault of a command.
#[derive(Clone, Copy, Debug, PartialEq, Eq, Error)]
pub enum CommandFault<'a> {
    /// A word that cannot be read.
    Word(WordFault),
    /// Bytes that are not a valid LSA.
    Wire(WireFault),
    /// A configuration that is not valid.
    Config(ConfigFault),
    /// An interface or an LSA that was refused.
    Refused(Refusal),
    /// A file of this name that cannot be read.
    Read(&'a str),
    /// A fault of a line of the file.
    Line(LineFault),
    /// A fault of the capture of this name, at a place in bytes from its first one, which is 0.
    Capture {
        file: &'a str,
        place: u64,
        kind: FaultKind,
    },
    /// A command `capture` with neither a Router ID nor a file with a beginning.
    Beginning,
    /// A lack of memory.
    Memory,
    /// An output that could not be written.
    Write,
    /// An output file of this name that could not be written.
    WriteTo(&'a str),
    /// A worker's thread that could not be started.
    Spawn,
    /// A reader for which there was no slot at the published table.
    Place,
    /// A lookup that could not enter the published table, or that saw another table than expected.
    NoEntry,
}

impl CommandFault<'_> {
    /// Returns the status of the program: 2 for a word that cannot be read or a missing beginning,
    /// and else 1.
    pub fn status(self) -> u8
        ensures { result ≡ status_of self.entry }
    {
        match self {
            CommandFault::Word(WordFault::Memory) => 1,
            CommandFault::Word(_) | CommandFault::Beginning => 2,
            _ => 1,
        }
    }
}

impl fmt::Display for CommandFault<'_> {
    ghost output = { λ fault. Some (command_fault_text fault) };

    fn fmt<W: fmt::Write>(&self, f: &mut fmt::Formatter<W>) -> fmt::Result {
        match self {
            CommandFault::Word(fault) => fault.fmt(f),
            CommandFault::Wire(fault) => fault.fmt(f),
            CommandFault::Config(fault) => fault.fmt(f),
            CommandFault::Refused(fault) => fault.fmt(f),
            CommandFault::Read(file) => write!(f, "cannot read {file}"),
            CommandFault::Line(fault) => fault.fmt(f),
            CommandFault::Capture { file, place, kind } => {
                write!(f, "{file} {} {place}: {kind}", place_words(*kind))
            }
            CommandFault::Beginning => f.write_str(BEGINNING),
            CommandFault::Memory => Memory.fmt(f),
            CommandFault::Write => f.write_str("cannot write"),
            CommandFault::WriteTo(file) => write!(f, "cannot write {file}"),
            CommandFault::Spawn => f.write_str("31 Spawn"),
            CommandFault::Place => f.write_str("46 Place"),
            CommandFault::NoEntry => f.write_str("no entry"),
        }
    }
}

// Returns the words between the name of a capture and the place of its fault.
fn place_words(kind: FaultKind) -> &'static str
    ensures { result.now ≡ place_words kind }
{
    match kind {
        FaultKind::CutOff => "is cut off at byte",
        _ => "is at fault at byte",
    }
}

impl<'a> From<WordFault> for CommandFault<'a> {
    ghost use Rattle.cli_queries.specs.declared.command_fault.CommandFault.TheVariants.{Word};

    ghost from_gives = { λ fault given. given ≡ Word fault };

    fn from(fault: WordFault) -> CommandFault<'a> {
        CommandFault::Word(fault)
    }
}

impl<'a> From<WireFault> for CommandFault<'a> {
    ghost use Rattle.cli_queries.specs.declared.command_fault.CommandFault.TheVariants.{Wire};

    ghost from_gives = { λ fault given. given ≡ Wire fault };

    fn from(fault: WireFault) -> CommandFault<'a> {
        CommandFault::Wire(fault)
    }
}

impl<'a> From<ConfigFault> for CommandFault<'a> {
    ghost use Rattle.cli_queries.specs.declared.command_fault.CommandFault.TheVariants.{Config};

    ghost from_gives = { λ fault given. given ≡ Config fault };

    fn from(fault: ConfigFault) -> CommandFault<'a> {
        CommandFault::Config(fault)
    }
}

impl<'a> From<Refusal> for CommandFault<'a> {
    ghost use Rattle.cli_queries.specs.declared.command_fault.CommandFault.TheVariants.{Refused};

    ghost from_gives = { λ refusal given. given ≡ Refused refusal };

    fn from(refusal: Refusal) -> CommandFault<'a> {
        CommandFault::Refused(refusal)
    }
}

impl<'a> From<Memory> for CommandFault<'a> {
    ghost use Rattle.cli_queries.specs.declared.command_fault.CommandFault.TheVariants as fault;

    ghost from_gives = { λ _ given. given ≡ fault.Memory };

    fn from(_e: Memory) -> CommandFault<'a> {
        CommandFault::Memory
    }
}

impl<'a> From<AllocError> for CommandFault<'a> {
    ghost use Rattle.cli_queries.specs.declared.command_fault.CommandFault.TheVariants as fault;

    ghost from_gives = { λ _ given. given ≡ fault.Memory };

    fn from(_e: AllocError) -> CommandFault<'a> {
        CommandFault::Memory
    }
}
