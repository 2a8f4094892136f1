//! The replay of a recording, and the answer to a question about its end.
ghost use Rattle.std.specs.Prelude.{◌≡◌, ◌⊎◌, ℕ, List, IfErr, IfOk, OnErr, OnOk, string_bytes};
ghost use Rattle.std.specs.Io.KnownBytes.{Appends};
ghost use Rattle.recording.specs.Faults.{IsFaultOf};
ghost use Rattle.recording.specs.declared.fault.LineFault.{LineFault};
ghost use Rattle.replay.specs.declared.fault.ReplayFault.TheVariants as replay_fault;
ghost use Rattle.replay.specs.Advance.{ShowsProgress};
ghost use Rattle.replay.specs.Inputs.{ReadsAll};
ghost use Rattle.replay.specs.Writing.{AppendsPart};
ghost use Rattle.explained_replay.specs.declared.question.Question.TheVariants as question;
ghost use Rattle.explained_replay.specs.Outputs.{Explains, ExplainsPart, IsCoreAnswer};

use crate::question::{Explaining, Question};
use crate::{Explained, put_explanation};
use due_explanation::{ExplainedDue, explain_due, put_due_explanation};
use event_core::Core;
use explanation::explain;
use ospf_types::key::Dest;
use ospf_types::memory::Memory;
use output_lines::Format;
use replay::{OpenedRecording, ReplayFault, WriteError, read_recording, write_whole};
use std::alloc::Global;
use std::hash::RandomState;
use std::io;

/// Reads the whole input as a recording, replays it on one thread, and writes the answer to the
/// question about the core that it leaves.
///
/// If `explaining.progress` is set, the number of lines done is shown on `faults`. Failed writes
/// there are ignored. The caller has to end the line that shows the progress.
///
/// # Errors
///
/// - `Read` if the input cannot be read, and `Line` if it is not a valid recording. Nothing is
///   written then.
/// - `Memory` if memory runs out, also during an event. Nothing is written then.
/// - `Closed` if a write fails with an error of the kind `BrokenPipe`, and `Write` if it fails
///   otherwise. A beginning of the answer may be written then.
pub fn explain_one<R: io::Read, W: io::Write, F: io::Write>(
    alloc: Global,
    hashing: RandomState,
    explaining: Explaining,
    input: &mut R,
    out: &mut W,
    faults: &mut F,
) -> Result<(), ReplayFault>
    ensures ok { OnOk result (Explains explaining (R.remaining input.old) (R.remaining input.new)
        (W.contents out.old) (W.contents out.new)) }
    ensures read { result ≡ Err replay_fault.Read → out.new ≡ out.old }
    ensures line { (f : LineFault) → result ≡ Err (replay_fault.Line f) → (out.new ≡ out.old)
        × ((bytes : List ℕ) × ReadsAll (R.remaining input.old) (R.remaining input.new) bytes × IsFaultOf bytes f) }
    ensures write { result ≡ Err replay_fault.Write → ExplainsPart explaining
        (R.remaining input.old) (R.remaining input.new) (W.contents out.old) (W.contents out.new) }
    ensures closed { result ≡ Err replay_fault.Closed → ExplainsPart explaining
        (R.remaining input.old) (R.remaining input.new) (W.contents out.old) (W.contents out.new) }
    ensures memory { result ≡ Err replay_fault.Memory → out.new ≡ out.old }
    ensures progress { ShowsProgress explaining.progress (F.contents faults.old)
        (F.contents faults.new) }
{
    let recording = read_recording(alloc, input)?;
    let Ok(opened) = OpenedRecording::open(alloc, hashing, recording) else {
        return Err(ReplayFault::Memory);
    };
    let Ok(core) = opened.run_silently(alloc, explaining.progress, faults) else {
        return Err(ReplayFault::Memory);
    };
    match answer(alloc, explaining.format, explaining.question, &core) {
        Ok(text) => write_answer(&text, out),
        Err(_) => Err(ReplayFault::Memory),
    }
}

// Returns the answer to the question about the core.
fn answer(alloc: Global, format: Format, question: Question, core: &Core) -> Result<String, Memory>
    ensures { IfOk result (λ text. IsCoreAnswer question format core.now (string_bytes text)) }
{
    match question {
        Question::Address(address) => answer_address(alloc, format, address, core),
        Question::Due(area, dest) => answer_due(alloc, format, area, &dest, core),
    }
}

// Returns the explanation of the table's items for the address. The core is behind only if memory
// ran out.
fn answer_address(
    alloc: Global,
    format: Format,
    address: u32,
    core: &Core,
) -> Result<String, Memory>
    ensures { IfOk result (λ text. IsCoreAnswer (question.Address address) format core.now
        (string_bytes text)) }
{
    let Some(candidates) = explain(alloc, core, address)? else {
        return Err(Memory);
    };
    let explained = Explained {
        address,
        table: core.table(),
        candidates: &candidates,
    };
    let mut text = String::new(alloc);
    put_explanation(format, explained, &mut text)?;
    Ok(text)
}

// Returns the explanation of the summary in the area. The core is behind only if memory ran out.
fn answer_due(
    alloc: Global,
    format: Format,
    area: u32,
    dest: &Dest,
    core: &Core,
) -> Result<String, Memory>
    ensures { IfOk result (λ text. IsCoreAnswer (question.Due area dest.now) format core.now
        (string_bytes text)) }
{
    let Some(due) = explain_due(alloc, core, area, *dest)? else {
        return Err(Memory);
    };
    let explained = ExplainedDue {
        area,
        dest: *dest,
        due: &due,
    };
    let mut text = String::new(alloc);
    put_due_explanation(format, explained, &mut text)?;
    Ok(text)
}

// Writes the answer.
fn write_answer<W: io::Write>(text: &str, out: &mut W) -> Result<(), ReplayFault>
    ensures ok { OnOk result (Appends (W.contents out.old) (W.contents out.new) text.now) }
    ensures err { OnErr result (AppendsPart (W.contents out.old) (W.contents out.new) text.now) }
    ensures fault { IfErr result (λ e. (e ≡ replay_fault.Write) ⊎ (e ≡ replay_fault.Closed)) }
{
    match write_whole(out, text.as_bytes()) {
        Ok(()) => Ok(()),
        Err(WriteError::Failed) => Err(ReplayFault::Write),
        Err(WriteError::Closed) => Err(ReplayFault::Closed),
    }
}
