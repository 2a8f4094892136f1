//! The command `page`.
ghost use Rattle.std.specs.Prelude.{◌≡◌};
ghost use Rattle.abr_cli.specs.Paging.{unwritten as unwritten_file, IsPageEndSaid, IsPageTold};

use crate::replaying::{say_end, say_fault};
use cli_queries::CommandFault;
use page_replay::page_one;
use replay::{Progress, ReplayFault};
use std::alloc::Global;
use std::hash::RandomState;
use std::io;
use worker_replay::WorkerReplayFault;

/// The command `page`, with its words.
#[derive(Clone, Copy)]
pub struct PageCommand<'a> {
    /// The name of the recording.
    pub file: &'a str,
    /// The name of the file that the page is written to, or `None` for standard output.
    pub output: Option<&'a str>,
    /// True if the progress is shown.
    pub progress: bool,
}

impl PageCommand<'_> {
    /// Runs the recording from `input`, and writes its page to `out`.
    ///
    /// The progress, and the reason if there is no page, are written to `faults`. The reason names
    /// an output file that cannot be written. Returns the status, 0 or 1.
    pub fn run<R: io::Read, W: io::Write, F: io::Write>(
        self,
        alloc: Global,
        hashing: RandomState,
        input: &mut R,
        out: &mut W,
        faults: &mut F,
    ) -> u8
        ensures { IsPageTold self.entry result (R.remaining input.old) (R.remaining input.new)
            (W.contents out.old) (W.contents out.new) (F.contents faults.old)
            (F.contents faults.new) }
    {
        let progress = Progress {
            is_shown: self.progress,
            all: None,
        };
        progress.show(alloc, 0, faults);
        let ended = page_one(alloc, hashing, self.progress, input, out, faults);
        progress.end(faults);
        match ended {
            Ok(()) => 0,
            Err(fault) => say_page_end(alloc, self.file, self.output, fault, faults),
        }
    }
}

// Writes why there is no page. Returns the status.
fn say_page_end<F: io::Write>(
    alloc: Global,
    file: &str,
    output: Option<&str>,
    fault: ReplayFault,
    faults: &mut F,
) -> u8
    ensures { IsPageEndSaid file.entry output.entry fault result (F.contents faults.old)
        (F.contents faults.new) }
{
    match unwritten(output, fault) {
        Some(name) => say_fault(alloc, CommandFault::WriteTo(name), faults),
        None => say_end(alloc, file, WorkerReplayFault::Replay(fault), faults),
    }
}

// Returns the name of the output file, if the fault is that it could not be written.
fn unwritten(output: Option<&str>, fault: ReplayFault) -> Option<&str>
    ensures { result ≡ unwritten_file output.entry fault }
{
    match fault {
        ReplayFault::Write => output,
        _ => None,
    }
}
