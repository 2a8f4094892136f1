//! The commands `changes` and `follow`.
ghost use Rattle.std.specs.Prelude.{◌≡◌, IfOk, IfErr};
ghost use Rattle.cli_queries.specs.declared.command_fault.CommandFault.TheVariants as fault;
ghost use Rattle.cli_queries.specs.declared.argument_values.WordFault.TheVariants.{NotANetwork};
ghost use Rattle.abr_cli.specs.Changing.{AsksForChanges, IsChangesTold, LacksNetwork, telling_of};

use crate::replaying::{say_end, say_fault};
use change_log::{ChangeFilter, ChangeOptions, print_changes};
use cli_queries::{CommandFault, read_network};
use ospf_types::prefix::Prefix;
use output_lines::Format;
use replay::Progress;
use std::alloc::Global;
use std::hash::RandomState;
use std::io;
use worker_replay::WorkerReplayFault;

/// The command `changes` or `follow`, with its words.
#[derive(Clone, Copy)]
pub struct ChangesCommand<'a> {
    /// The name of the recording.
    pub file: &'a str,
    /// The word of the one network that is wanted, or `None` if all are.
    pub only: Option<&'a str>,
    /// The form of the lines.
    pub format: Format,
    /// True if lookups, and refused events and rolls, are reported too. The report of each line is
    /// then written before the next line is read.
    pub answers: bool,
    /// True if a line with a fault after the preamble is reported and skipped.
    pub skips_faults: bool,
    /// The progress that is shown.
    pub progress: Progress,
}

impl ChangesCommand<'_> {
    /// Runs the recording from `input`, and writes to `out` what each of its events changed.
    ///
    /// The progress, and the reason for an early end, are written to `faults`. Returns the status.
    /// It is 2 only if the word is not a network: then nothing was read from `input`.
    pub fn run<R: io::Read, W: io::Write, F: io::Write>(
        self,
        alloc: Global,
        hashing: RandomState,
        input: &mut R,
        out: &mut W,
        faults: &mut F,
    ) -> u8
        ensures { IsChangesTold self.entry result (R.remaining input.old) (R.remaining input.new)
            (W.contents out.old) (W.contents out.new) (F.contents faults.old)
            (F.contents faults.new) }
    {
        let only = match asked(self.only) {
            Ok(only) => only,
            Err(fault) => return say_fault(alloc, fault, faults),
        };
        self.progress.show(alloc, 0, faults);
        let ended = print_changes(alloc, hashing, self.telling(only), input, out, faults);
        self.progress.end(faults);
        match ended {
            Ok(()) => 0,
            Err(fault) => say_end(alloc, self.file, WorkerReplayFault::Replay(fault), faults),
        }
    }

    // Returns the options of the report, with this network.
    fn telling(self, only: Option<Prefix>) -> ChangeOptions
        ensures { result ≡ telling_of self.entry only }
    {
        ChangeOptions {
            wanted: ChangeFilter {
                only,
                format: self.format,
            },
            answers: self.answers,
            skips_faults: self.skips_faults,
            progress: self.progress,
        }
    }
}

// Parses the word of the network, if there is one.
fn asked(word: Option<&str>) -> Result<Option<Prefix>, CommandFault<'static>>
    ensures asked { IfOk result (AsksForChanges word.entry) }
    ensures lacks { IfErr result (λ e. (e ≡ fault.Word NotANetwork) × LacksNetwork word.entry) }
{
    let Some(word) = word else {
        return Ok(None);
    };
    match read_network(word) {
        Ok(network) => Ok(Some(network)),
        Err(fault) => Err(CommandFault::Word(fault)),
    }
}
