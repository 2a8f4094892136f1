//! The changes that the events of a recording made, printed.
ghost use Rattle.std.specs.Prelude.{◌≡◌, ◌⊎◌, ℕ, List, OnOk, IfOk, IfErr};
ghost use Rattle.recording.specs.declared.fault.LineFault.{LineFault};
ghost use Rattle.replay.specs.Outputs.{recording_of};
ghost use Rattle.replay.specs.Advance.{IsProgress};
ghost use Rattle.replay.specs.Runs.{IsOpened};
ghost use Rattle.replay.specs.declared.fault.ReplayFault.TheVariants as replay_fault;
ghost use Rattle.replay.specs.declared.buffer.PrintError.TheVariants as stop;
ghost use Rattle.change_log.specs.Begun.{IsRunBegun, StopsAtBase};
ghost use Rattle.change_log.specs.Outputs.{FailsAtFront, FailsBehind, TellsAll, TellsPart, TellsThese};

use crate::following::Run;
use crate::lines::LineContext;
use crate::opening::{Opening, read_opening};
use crate::running::print_line_changes;
use crate::showing::show_all;
use input_reading::{LineReader, ReadFault};
use ospf_types::prefix::Prefix;
use output_lines::Format;
use replay::{
    OpenedRecording, PrintError, Progress, ReplayFault, fault_of, first_event_line, new_buffer,
};
use std::alloc::Global;
use std::hash::RandomState;
use std::io;

/// The changes that are reported, and their form.
#[derive(Clone, Copy, Debug, PartialEq, Eq)]
pub struct ChangeFilter {
    /// The one network whose changes are reported, or `None` if all changes are.
    pub only: Option<Prefix>,
    /// The form of the lines.
    pub format: Format,
}

/// The options of a report.
#[derive(Clone, Copy, Debug, PartialEq, Eq)]
pub struct ChangeOptions {
    pub wanted: ChangeFilter,
    /// True if lookups, and refused events and rolls, are reported too. The report of each line is
    /// then written before the next line is read.
    pub answers: bool,
    /// True if a line with a fault after the preamble is reported and skipped. If not, it ends the
    /// run. A last line without a line feed always does.
    pub skips_faults: bool,
    /// The progress that is shown: the number of lines done, and the number of all lines, if known.
    pub progress: Progress,
}

/// Reads the input line by line as a recording, runs it on one thread, and writes what each of its
/// events changed.
///
/// First the base is reported, at the number of its last line: its routing table, and the
/// summary-LSAs that are due (RFC 2328, 16 and 12.4.3). Then each event that was taken is reported
/// at the number of its line. A report names the networks whose item changed, and the summary-LSAs
/// that became due, are no longer due, or have another metric.
///
/// Once the preamble is read, only one line of the input is held at a time, and a long journal is
/// rolled. The writer should pass on at once what it gets. The progress is shown on `faults`.
///
/// # Errors
///
/// - `Read` if the input cannot be read. Nothing is written, or the report of the lines before.
/// - `Line` if a line has a fault, or memory runs out at a line of the preamble. At a line of the
///   preamble nothing is written, or else the report of the lines before it.
/// - `Closed` if a write fails with an error of the kind `BrokenPipe`, and `Write` if it fails
///   otherwise. A beginning of the report may be written, but not all of it.
/// - `Memory` if memory runs out, or an event leaves the core behind. A beginning of the report may
///   be written, which has no cut line.
pub fn print_changes<R: io::Read, W: io::Write, F: io::Write>(
    alloc: Global,
    hashing: RandomState,
    telling: ChangeOptions,
    input: &mut R,
    out: &mut W,
    faults: &mut F,
) -> Result<(), ReplayFault>
    ensures ok { OnOk result (TellsAll telling (R.remaining input.old) (R.remaining input.new)
        (W.contents out.old) (W.contents out.new)) }
    ensures read { result ≡ Err replay_fault.Read → (out.new ≡ out.old) ⊎ ((bytes : List ℕ)
        × TellsThese telling (R.remaining input.old) (R.remaining input.new) bytes
        (W.contents out.old) (W.contents out.new)) }
    ensures line { (f : LineFault) → result ≡ Err (replay_fault.Line f)
        → ((out.new ≡ out.old) × FailsAtFront (R.remaining input.old) (R.remaining input.new) f)
        ⊎ FailsBehind telling (R.remaining input.old) (R.remaining input.new) f
        (W.contents out.old) (W.contents out.new) }
    ensures write { result ≡ Err replay_fault.Write
        → TellsPart stop.Write telling (R.remaining input.old) (R.remaining input.new)
        (W.contents out.old) (W.contents out.new) }
    ensures closed { result ≡ Err replay_fault.Closed
        → TellsPart stop.Closed telling (R.remaining input.old) (R.remaining input.new)
        (W.contents out.old) (W.contents out.new) }
    ensures memory { result ≡ Err replay_fault.Memory → (out.new ≡ out.old)
        ⊎ TellsPart stop.Memory telling (R.remaining input.old) (R.remaining input.new)
        (W.contents out.old) (W.contents out.new) }
    ensures progress { IsProgress telling.progress (F.contents faults.old)
        (F.contents faults.new) }
{
    let Ok(mut lines) = LineReader::new(alloc) else {
        return Err(ReplayFault::Memory);
    };
    let opening = match read_opening(alloc, &mut lines, input) {
        Ok(opening) => opening,
        Err(ReadFault::Read) => return Err(ReplayFault::Read),
        Err(ReadFault::Memory) => return Err(ReplayFault::Memory),
    };
    let recording = opening.recording(alloc)?;
    let Ok(opened) = OpenedRecording::open(alloc, hashing, recording) else {
        return Err(ReplayFault::Memory);
    };
    let Opening { line, end, .. } = opening;
    let mut run = match begin(alloc, opened, line, out, telling) {
        Ok(run) => run,
        Err(stop) => return Err(fault_of(stop)),
    };
    match run.go_on(end, &mut lines, input, out, faults) {
        Ok(end) => run.close(end, out),
        Err(stop) => Err(fault_of(stop)),
    }
}

// Prints the report of the base, and of the lines of the recording. `line` is the line that was
// read after them.
fn begin<W: io::Write>(
    alloc: Global,
    opened: OpenedRecording,
    line: Vec<u8>,
    out: &mut W,
    telling: ChangeOptions,
) -> Result<Run, PrintError>
    requires { IsOpened opened.core.base opened.core }
    ensures ok { IfOk result (λ run. IsRunBegun telling (recording_of opened.version opened.core.base
        opened.lines.items) run (W.contents out.old) (W.contents out.new)) }
    ensures line { IfOk result (λ run. run.line ≡ line) }
    ensures progress { IfOk result (λ run. run.progress ≡ telling.progress) }
    ensures err { IfErr result (λ why. StopsAtBase why telling (recording_of opened.version
        opened.core.base opened.lines.items) (W.contents out.old) (W.contents out.new)) }
{
    let OpenedRecording {
        version,
        mut core,
        lines,
    } = opened;
    let mut buffer = new_buffer(alloc)?;
    let number = first_event_line(version, core.base());
    let mut at = LineContext {
        number: number - 1,
        wanted: telling.wanted,
        answers: telling.answers,
    };
    show_all(&core, &at, out, &mut buffer)?;
    at.number = number;
    let next = number + lines.len();
    print_line_changes(&mut core, at, lines, out, &mut buffer)?;
    at.number = next;
    Ok(Run {
        alloc,
        version,
        core,
        at,
        skips_faults: telling.skips_faults,
        progress: telling.progress,
        buffer,
        line,
        room: Vec::new(alloc),
    })
}
