//! The replay of a recording, and the page about its end.
ghost use Rattle.std.specs.Prelude.{◌≡◌, ◌⊎◌, ℕ, List, IfErr, IfOk, OnErr, OnOk};
ghost use Rattle.std.specs.Io.KnownBytes.{Appends};
ghost use Rattle.recording.specs.Faults.{IsFaultOf};
ghost use Rattle.recording.specs.declared.fault.LineFault.{LineFault};
ghost use Rattle.replay.specs.declared.fault.ReplayFault.TheVariants as replay_fault;
ghost use Rattle.replay.specs.Advance.{ShowsProgress};
ghost use Rattle.replay.specs.Inputs.{ReadsAll};
ghost use Rattle.replay.specs.Writing.{AppendsPart};
ghost use Rattle.page_replay.specs.Outputs.{IsMadePage, WritesPage, WritesPagePart};

use crate::ending::run_to_end;
use crate::sections::page_of;
use ospf_types::memory::Memory;
use replay::{OpenedRecording, ReplayFault, WriteError, read_recording, write_whole};
use std::alloc::Global;
use std::hash::RandomState;
use std::io;

/// Reads the whole input as a recording, replays it on one thread, and writes one HTML page. The
/// page shows:
///
/// - The graph of each area with its shortest-path tree (RFC 2328, 16.1).
/// - The address ranges with their networks.
/// - The routing table.
/// - The summary-LSAs that are due (12.4.3).
/// - The changes of the last ten lines.
///
/// If `progress` is set, the number of lines done is shown on `faults`. Failed writes there are
/// ignored. The caller has to end the line that shows the progress.
///
/// # Errors
///
/// - `Read` if the input cannot be read, and `Line` if it is not a valid recording. Nothing is
///   written then.
/// - `Memory` if memory runs out, also during an event. Nothing is written then.
/// - `Closed` if a write fails with an error of the kind `BrokenPipe`, and `Write` if it fails
///   otherwise. A beginning of the page may be written then.
pub fn page_one<R: io::Read, W: io::Write, F: io::Write>(
    alloc: Global,
    hashing: RandomState,
    progress: bool,
    input: &mut R,
    out: &mut W,
    faults: &mut F,
) -> Result<(), ReplayFault>
    ensures ok { OnOk result (WritesPage (R.remaining input.old) (R.remaining input.new)
        (W.contents out.old) (W.contents out.new)) }
    ensures read { result ≡ Err replay_fault.Read → out.new ≡ out.old }
    ensures line { (f : LineFault) → result ≡ Err (replay_fault.Line f) → (out.new ≡ out.old)
        × ((bytes : List ℕ) × ReadsAll (R.remaining input.old) (R.remaining input.new) bytes × IsFaultOf bytes f) }
    ensures write { result ≡ Err replay_fault.Write → WritesPagePart (R.remaining input.old)
        (R.remaining input.new) (W.contents out.old) (W.contents out.new) }
    ensures closed { result ≡ Err replay_fault.Closed → WritesPagePart (R.remaining input.old)
        (R.remaining input.new) (W.contents out.old) (W.contents out.new) }
    ensures memory { result ≡ Err replay_fault.Memory → out.new ≡ out.old }
    ensures progress { ShowsProgress progress (F.contents faults.old) (F.contents faults.new) }
{
    let recording = read_recording(alloc, input)?;
    let Ok(opened) = OpenedRecording::open(alloc, hashing, recording) else {
        return Err(ReplayFault::Memory);
    };
    match made(alloc, opened, progress, faults) {
        Ok(page) => write_out(&page, out),
        Err(_) => Err(ReplayFault::Memory),
    }
}

// Runs the recording, and makes its page.
fn made<F: io::Write>(
    alloc: Global,
    opened: OpenedRecording,
    is_shown: bool,
    faults: &mut F,
) -> Result<Vec<u8>, Memory>
    ensures page { IfOk result (λ page.
        IsMadePage opened.version opened.core opened.lines.items page.items) }
    ensures progress { ShowsProgress is_shown (F.contents faults.old) (F.contents faults.new) }
{
    let ended = run_to_end(alloc, opened, is_shown, faults)?;
    page_of(alloc, &ended)
}

// Writes the page.
fn write_out<W: io::Write>(page: &[u8], out: &mut W) -> Result<(), ReplayFault>
    ensures ok { OnOk result (Appends (W.contents out.old) (W.contents out.new) page.now) }
    ensures err { OnErr result (AppendsPart (W.contents out.old) (W.contents out.new) page.now) }
    ensures fault { IfErr result (λ e. (e ≡ replay_fault.Write) ⊎ (e ≡ replay_fault.Closed)) }
{
    match write_whole(out, page) {
        Ok(()) => Ok(()),
        Err(WriteError::Failed) => Err(ReplayFault::Write),
        Err(WriteError::Closed) => Err(ReplayFault::Closed),
    }
}
