//! The command `replay`.
ghost use Rattle.std.specs.Prelude.{◌≡◌, ◌⊎◌};
ghost use Rattle.cli_queries.specs.Faults.{command_fault_text, fault_line, status_of};
ghost use Rattle.cli_queries.specs.Answers.{IsSaid};
ghost use Rattle.cli_args.specs.Command.{AreWorkers};
ghost use Rattle.abr_cli.specs.Replaying.{fault_from as from_replay, EndsBy, IsEndSaid};
ghost use Rattle.abr_cli.specs.Replaying.{IsReplayTold};
ghost use Rattle.abr_cli.specs.Showing.{IsRunTold};

use cli_queries::{CommandFault, NO_MEMORY, line_of, print_fault, say_unwritten};
use replay::{Progress, ReplayFault, WriteError, replay_one};
use std::alloc::Global;
use std::hash::RandomState;
use std::io;
use std::sync::Wait;
use std::thread::Threads;
use worker_replay::{ReplayOptions, WorkerReplayFault, replay_many};

/// The command `replay`, with its words.
#[derive(Clone, Copy)]
pub struct ReplayCommand<'a> {
    /// The name of the recording.
    pub file: &'a str,
    pub options: ReplayOptions,
}

impl ReplayCommand<'_> {
    /// Runs the recording from `input`. Its output, and the state that the options name, are
    /// written to `out`.
    ///
    /// The progress, and the reason for an early end, are written to `faults`. There is no such
    /// reason if `out` is a pipe that was closed, and no progress if there are several workers.
    /// Returns the status, 0 or 1.
    pub fn run<S: Threads + Wait + Sync, R: io::Read, W: io::Write, F: io::Write>(
        self,
        rt: &S,
        alloc: Global,
        hashing: RandomState,
        input: &mut R,
        out: &mut W,
        faults: &mut F,
    ) -> u8
        requires { AreWorkers self.options.workers }
        ensures { IsReplayTold self.entry.file self.entry.options.workers
            self.entry.options.printing result (R.remaining input.old) (R.remaining input.new)
            (W.contents out.old) (W.contents out.new) (F.contents faults.old)
            (F.contents faults.new) }
    {
        match run_with(rt, alloc, hashing, self.options, input, out, faults) {
            Ok(()) => 0,
            Err(fault) => say_end(alloc, self.file, fault, faults),
        }
    }
}

// Runs the recording, and shows the progress.
fn run_with<S: Threads + Wait + Sync, R: io::Read, W: io::Write, F: io::Write>(
    rt: &S,
    alloc: Global,
    hashing: RandomState,
    options: ReplayOptions,
    input: &mut R,
    out: &mut W,
    faults: &mut F,
) -> Result<(), WorkerReplayFault>
    requires { AreWorkers options.workers }
    ensures end { EndsBy options.workers options.printing result (R.remaining input.old)
        (R.remaining input.new) (W.contents out.old) (W.contents out.new) }
    ensures progress { IsRunTold options.workers options.printing.progress
        (F.contents faults.old) (F.contents faults.new) }
{
    let ReplayOptions { workers, printing } = options;
    if workers > 1 {
        return replay_many(rt, alloc, hashing, options, input, out);
    }
    let progress = Progress {
        is_shown: printing.progress,
        all: None,
    };
    progress.show(alloc, 0, faults);
    let ended = replay_one(alloc, hashing, printing, input, out, faults);
    progress.end(faults);
    match ended {
        Ok(()) => Ok(()),
        Err(fault) => Err(WorkerReplayFault::Replay(fault)),
    }
}

/// Writes why a run ended early, unless the pipe of the output was closed. Returns the status.
pub(crate) fn say_end<F: io::Write>(
    alloc: Global,
    file: &str,
    fault: WorkerReplayFault,
    faults: &mut F,
) -> u8
    ensures { IsEndSaid file.entry fault result (F.contents faults.old) (F.contents faults.new) }
{
    match fault_from(file, fault) {
        Ok(fault) => say_fault(alloc, fault, faults),
        Err(why) => say_unwritten(why, faults),
    }
}

// Returns the fault as a fault of the command, or the reason why the output was not written whole.
fn fault_from(file: &str, fault: WorkerReplayFault) -> Result<CommandFault<'_>, WriteError>
    ensures { result ≡ from_replay file.entry fault }
{
    match fault {
        WorkerReplayFault::Replay(ReplayFault::Read) => Ok(CommandFault::Read(file)),
        WorkerReplayFault::Replay(ReplayFault::Write) => Err(WriteError::Failed),
        WorkerReplayFault::Replay(ReplayFault::Closed) => Err(WriteError::Closed),
        WorkerReplayFault::Replay(ReplayFault::Memory) => Ok(CommandFault::Memory),
        WorkerReplayFault::Replay(ReplayFault::Line(fault)) => Ok(CommandFault::Line(fault)),
        WorkerReplayFault::Spawn => Ok(CommandFault::Spawn),
        WorkerReplayFault::Place => Ok(CommandFault::Place),
        WorkerReplayFault::NoEntry => Ok(CommandFault::NoEntry),
    }
}

/// Writes the line of the fault, or of 30 Memory if there is no memory for that line. Returns the
/// status, or 1 if the writer fails.
pub fn say_fault<F: io::Write>(alloc: Global, fault: CommandFault<'_>, faults: &mut F) -> u8
    ensures { IsSaid (fault_line (command_fault_text fault.entry)) (status_of fault.entry) result
        (F.contents faults.old) (F.contents faults.new)
        ⊎ IsSaid (fault_line (command_fault_text CommandFault.Memory)) 1 result (F.contents faults.old) (F.contents faults.new) }
{
    match line_of(alloc, fault) {
        Ok(line) => print_fault(line.as_str(), fault.status(), faults),
        Err(_) => print_fault(NO_MEMORY, 1, faults),
    }
}
