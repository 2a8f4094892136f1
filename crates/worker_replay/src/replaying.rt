//! A whole replay over several workers, from its input to its output.
ghost use Rattle.std.specs.Prelude.{◌≡◌, ◌≤◌, ◌⊎◌, ℕ, List, OnOk};
ghost use Rattle.replay.specs.Inputs.{ReadsAll};
ghost use Rattle.replay.specs.declared.buffer.PrintError.TheVariants as stop;
ghost use Rattle.recording.specs.declared.fault.LineFault.{LineFault};
ghost use Rattle.recording.specs.Faults.{IsFaultOf};
ghost use Rattle.replay.specs.declared.fault.ReplayFault.TheVariants as replay_fault;
ghost use Rattle.worker_replay.specs.declared.fault.WorkerReplayFault.TheVariants as many_fault;
ghost use Rattle.worker_replay.specs.Outputs.{Replays, ReplaysPart};
ghost use Rattle.worker_replay.specs.Parts.{AreWorkers};

use crate::fault::WorkerReplayFault;
use crate::output::RunEnd;
use crate::running::run_recording;
use replay::{PrintOptions, fault_of, read_recording};
use std::alloc::Global;
use std::hash::RandomState;
use std::io;
use std::sync::Wait;
use std::thread::Threads;

/// The options of a replay.
#[derive(Clone, Copy, Debug, PartialEq, Eq)]
pub struct ReplayOptions {
    /// The number of workers, 1 to 16.
    pub workers: usize,
    /// The options of the output. Progress is not shown, since several workers take lines at the
    /// same time.
    pub printing: PrintOptions,
}

/// Reads the input to its end as a recording, runs it over an engine, and writes what
/// `options.printing` names.
///
/// The events are submitted by `options.workers` threads. Each thread submits its events in order,
/// but the events of two threads may come in any order. The lookups see all events that were
/// answered `Current`. A journal may lack events that were refused with 30 Memory.
///
/// # Errors
///
/// - `Replay(Read)` if the input cannot be read. Nothing is written.
/// - `Replay(Line)` if a line has a fault, or memory runs out at that line. Nothing is written.
/// - `Spawn` if a worker's thread cannot be started. Nothing is written.
/// - `Place` if there is no slot for a reader of the published table. Nothing is written.
/// - `NoEntry` if a lookup cannot enter the published table. Nothing is written.
/// - `Replay(Closed)` if a write fails with an error of the kind `BrokenPipe`, and `Replay(Write)`
///   if it fails otherwise. A beginning of the output may be written, but not all of it.
/// - `Replay(Memory)` if memory runs out. A beginning of the output may be written, which has no
///   cut line.
pub fn replay_many<S: Threads + Wait + Sync, R: io::Read, W: io::Write>(
    rt: &S,
    alloc: Global,
    hashing: RandomState,
    options: ReplayOptions,
    input: &mut R,
    out: &mut W,
) -> Result<(), WorkerReplayFault>
    requires { AreWorkers options.workers }
    ensures ok { OnOk result (Replays options.printing (R.remaining input.old) (R.remaining input.new)
        (W.contents out.old) (W.contents out.new)) }
    ensures read { result ≡ Err (many_fault.Replay replay_fault.Read) → out.new ≡ out.old }
    ensures line { (f : LineFault) → result ≡ Err (many_fault.Replay (replay_fault.Line f))
        → (out.new ≡ out.old)
        × ((bytes : List ℕ) × ReadsAll (R.remaining input.old) (R.remaining input.new) bytes × IsFaultOf bytes f) }
    ensures spawn { result ≡ Err many_fault.Spawn → out.new ≡ out.old }
    ensures place { result ≡ Err many_fault.Place → out.new ≡ out.old }
    ensures no_entry { result ≡ Err many_fault.NoEntry → out.new ≡ out.old }
    ensures write { result ≡ Err (many_fault.Replay replay_fault.Write)
        → ReplaysPart stop.Write options.printing (R.remaining input.old) (R.remaining input.new)
        (W.contents out.old) (W.contents out.new) }
    ensures closed { result ≡ Err (many_fault.Replay replay_fault.Closed)
        → ReplaysPart stop.Closed options.printing (R.remaining input.old) (R.remaining input.new)
        (W.contents out.old) (W.contents out.new) }
    ensures memory { result ≡ Err (many_fault.Replay replay_fault.Memory) → (out.new ≡ out.old)
        ⊎ ReplaysPart stop.Memory options.printing (R.remaining input.old) (R.remaining input.new) (W.contents out.old) (W.contents out.new) }
{
    let recording = match read_recording(alloc, input) {
        Ok(recording) => recording,
        Err(fault) => return Err(WorkerReplayFault::Replay(fault)),
    };
    let version = recording.version();
    let (printed, core) = run_recording(
        rt,
        alloc,
        hashing,
        recording,
        options.workers,
        options.printing.format,
    )?;
    let end = RunEnd {
        version,
        core: &core,
    };
    match end.write(printed, out, options.printing) {
        Ok(()) => Ok(()),
        Err(stop) => Err(WorkerReplayFault::Replay(fault_of(stop))),
    }
}
