//! A whole replay, from its input to its output.
ghost use Rattle.std.specs.Prelude.{◌≡◌, ◌⊎◌, ℕ, List, IfOk, IfErr, OnOk};
ghost use Rattle.recording.specs.Faults.{IsFaultOf};
ghost use Rattle.replay.specs.declared.fault.ReplayFault.TheVariants as replay_fault;
ghost use Rattle.recording.specs.declared.fault.LineFault.{LineFault};
ghost use Rattle.replay.specs.Advance.{ShowsProgress};
ghost use Rattle.replay.specs.Inputs.{ReadsAll};
ghost use Rattle.replay.specs.declared.buffer.PrintError.TheVariants as stop;
ghost use Rattle.replay.specs.Outputs.{Replays, ReplaysPart};
ghost use Rattle.replay.specs.Parts.{IsParsed, IsRecordingRead, IsReadFault};

use crate::buffer::fault_of;
use crate::fault::ReplayFault;
use crate::opened::OpenedRecording;
use crate::printing::PrintOptions;
use recording::{Recording, parse};
use std::alloc::Global;
use std::hash::RandomState;
use std::io;

/// Reads the input to its end as a recording, runs it on one thread, and writes what `printing`
/// names.
///
/// If `printing.progress` is set, the number of lines done is shown on `faults`. Progress that
/// cannot be written there is left out. The caller ends the line that is overwritten.
///
/// A journal that is shown never lacks an event because memory ran out. With `Show::Journal` the
/// replay ends with `Memory`, and nothing is written, if an event is refused with 30 Memory or a
/// roll is refused.
///
/// # Errors
///
/// - `Read` if the input cannot be read. Nothing is written.
/// - `Line` if a line has a fault, or memory runs out at that line. Nothing is written.
/// - `Closed` if a write fails with an error of the kind `BrokenPipe`, and `Write` if it fails
///   otherwise. A beginning of the output may be written, but not all of it.
/// - `Memory` if memory runs out. A beginning of the output may be written, which has no cut line.
pub fn replay_one<R: io::Read, W: io::Write, F: io::Write>(
    alloc: Global,
    hashing: RandomState,
    printing: PrintOptions,
    input: &mut R,
    out: &mut W,
    faults: &mut F,
) -> Result<(), ReplayFault>
    ensures ok { OnOk result (Replays printing (R.remaining input.old) (R.remaining input.new)
        (W.contents out.old) (W.contents out.new)) }
    ensures read { result ≡ Err replay_fault.Read → out.new ≡ out.old }
    ensures line { (f : LineFault) → result ≡ Err (replay_fault.Line f) → (out.new ≡ out.old)
        × ((bytes : List ℕ) × ReadsAll (R.remaining input.old) (R.remaining input.new) bytes × IsFaultOf bytes f) }
    ensures write { result ≡ Err replay_fault.Write
        → ReplaysPart stop.Write printing (R.remaining input.old) (R.remaining input.new)
        (W.contents out.old) (W.contents out.new) }
    ensures closed { result ≡ Err replay_fault.Closed
        → ReplaysPart stop.Closed printing (R.remaining input.old) (R.remaining input.new)
        (W.contents out.old) (W.contents out.new) }
    ensures memory { result ≡ Err replay_fault.Memory → (out.new ≡ out.old)
        ⊎ ReplaysPart stop.Memory printing (R.remaining input.old) (R.remaining input.new) (W.contents out.old) (W.contents out.new) }
    ensures progress { ShowsProgress printing.progress (F.contents faults.old)
        (F.contents faults.new) }
{
    let recording = read_recording(alloc, input)?;
    let Ok(opened) = OpenedRecording::open(alloc, hashing, recording) else {
        return Err(ReplayFault::Memory);
    };
    match opened.print(alloc, printing, out, faults) {
        Ok(()) => Ok(()),
        Err(stop) => Err(fault_of(stop)),
    }
}

/// Reads the input to its end, and parses it as a recording.
///
/// # Errors
///
/// - `Read` if the input cannot be read.
/// - `Memory` if memory runs out while the input is read.
/// - `Line` if a line has a fault, or memory runs out at that line.
pub fn read_recording<R: io::Read>(alloc: Global, input: &mut R) -> Result<Recording, ReplayFault>
    ensures recording { IfOk result (IsRecordingRead (R.remaining input.old) (R.remaining input.new)) }
    ensures fault { IfErr result (IsReadFault (R.remaining input.old) (R.remaining input.new)) }
{
    let mut bytes = Vec::new(alloc);
    match input.read_to_end(&mut bytes) {
        Ok(_) => parse_bytes(alloc, bytes.as_slice()),
        Err(error) => Err(match error.kind() {
            io::ErrorKind::OutOfMemory => ReplayFault::Memory,
            _ => ReplayFault::Read,
        }),
    }
}

/// Parses the bytes as a recording.
///
/// # Errors
///
/// Returns `Line` if a line has a fault, or memory runs out at that line.
pub fn parse_bytes(alloc: Global, bytes: &[u8]) -> Result<Recording, ReplayFault>
    ensures recording { IfOk result (IsParsed bytes.now) }
    ensures fault { IfErr result (λ e. (f : LineFault) × (e ≡ replay_fault.Line f)
        × IsFaultOf bytes.now f) }
{
    match parse(alloc, bytes) {
        Ok(recording) => Ok(recording),
        Err(fault) => Err(ReplayFault::Line(fault)),
    }
}
