//! The run of lines, with a report of what each line changed.
ghost use Rattle.std.specs.Prelude.{◌+◌, ◌++◌, ◌≡◌, ◌^◌, ◌<◌, ℕ, false, length, map, take, IsTrue};
ghost use Rattle.std.specs.Prelude.{OnOk, IfErr, string_bytes};
ghost use Rattle.event_core.specs.Cores.{IsCore, IsCurrent};
ghost use Rattle.event_state.specs.declared.refusal.Refusal.TheVariants as refusal_value;
ghost use Rattle.recording.specs.declared.line.Line.TheVariants as line_is;
ghost use Rattle.replay.specs.Pages.{AddsLines, AddsPart};
ghost use Rattle.replay.specs.Stops.{AreWholeLines};
ghost use Rattle.change_log.specs.Changes.{all_of};
ghost use Rattle.change_log.specs.Lines as told;
ghost use Rattle.change_log.specs.Lines.{lines_of};
ghost use Rattle.change_log.specs.Runs.{MayPass, Says, StopsAtLine, LinesTaken, ToldLine, ToldPart};
ghost use Rattle.change_log.specs.Runs.{answered};

use crate::lines::{LineContext, put_refused};
use crate::showing::show_changes;
use event_core::{Core, Event, Refusal, Status};
use recording::Line;
use replay::{PrintError, flush_if_full, put_lookup};
use std::io;

/// Runs the lines, and prints the report of each. `from.number` is the number of the first one.
///
/// If answers are wanted, an event that was refused with 30 Memory is reported as other refusals
/// are.
///
/// # Errors
///
/// Returns the reason why printing stopped. It is `Memory` also if an event leaves the core behind,
/// or is refused with 30 Memory while no answers are wanted. A beginning of the report may be
/// written then. After `Memory` it has no cut line, if the buffer had none.
pub fn print_line_changes<W: io::Write>(
    core: &mut Core,
    from: LineContext,
    lines: Vec<Line>,
    out: &mut W,
    buffer: &mut String,
) -> Result<(), PrintError>
    requires kept { IsCore core.old }
    requires current { IsCurrent core.old }
    requires few { from.number + length lines.items < 2 ^ 64 }
    ensures ok { OnOk result (LinesTaken from.wanted from.answers core.old from.number
        (map Says lines.items) (all_of core.old) core.new (W.contents out.old) (W.contents out.new)
        (string_bytes buffer.old) (string_bytes buffer.new)) }
    ensures kept { OnOk result (IsCore core.new) }
    ensures current { OnOk result (IsCurrent core.new) }
    ensures err { AreWholeLines (string_bytes buffer.old) → IfErr result (λ why. (count : ℕ)
        × ToldPart why from.wanted from.answers core.old from.number
        (map Says (take count lines.items)) (all_of core.old) (W.contents out.old)
        (W.contents out.new) (string_bytes buffer.old)) }
{
    let mut at = from;
    for line in lines {
        tell_line(core, &at, line, out, buffer)?;
        at.number += 1;
    }
    Ok(())
}

/// Runs a line, and prints its report.
pub(crate) fn tell_line<W: io::Write>(
    core: &mut Core,
    at: &LineContext,
    line: Line,
    out: &mut W,
    buffer: &mut String,
) -> Result<(), PrintError>
    requires current { IsCurrent core.old }
    ensures ok { OnOk result (ToldLine at.now.wanted at.now.answers core.old at.now.number line
        core.new (W.contents out.old) (W.contents out.new) (string_bytes buffer.old)
        (string_bytes buffer.new)) }
    ensures kept { OnOk result (IsCore core.new) }
    ensures err { AreWholeLines (string_bytes buffer.old) → IfErr result (λ why.
        StopsAtLine why at.now.wanted at.now.answers core.old at.now.number line core.new
        (W.contents out.old) (W.contents out.new) (string_bytes buffer.old)) }
{
    match line {
        Line::Event(event) => tell_event(core, at, event, out, buffer)?,
        Line::Lookup(address) => tell_lookup(core, at, address, out, buffer)?,
        Line::Roll => tell_roll(core, at, out, buffer)?,
    }
    // proof: this read of the core gives what holds of every core.
    let _ = core.table();
    Ok(())
}

// Applies the event, and prints its changes, or that it was refused.
fn tell_event<W: io::Write>(
    core: &mut Core,
    at: &LineContext,
    event: Event,
    out: &mut W,
    buffer: &mut String,
) -> Result<(), PrintError>
    requires current { IsCurrent core.old }
    ensures ok { OnOk result (ToldLine at.now.wanted at.now.answers core.old at.now.number
        (line_is.Event event) core.new (W.contents out.old) (W.contents out.new)
        (string_bytes buffer.old) (string_bytes buffer.new)) }
    ensures err { AreWholeLines (string_bytes buffer.old) → IfErr result (λ why.
        StopsAtLine why at.now.wanted at.now.answers core.old at.now.number (line_is.Event event)
        core.new (W.contents out.old) (W.contents out.new) (string_bytes buffer.old)) }
{
    let reply = match core.apply(event) {
        Ok(reply) => reply,
        Err(refusal) => {
            if is_missed(at.answers, refusal) {
                return Err(PrintError::Memory);
            }
            return tell_refused(at, refusal, out, buffer);
        }
    };
    match reply.state {
        Status::Current => {}
        Status::Behind => return Err(PrintError::Memory),
    }
    show_changes(core, at, out, buffer)?;
    Ok(())
}

// Returns true if memory ran out over an event, and no line would say that it is missing.
fn is_missed(answers: bool, refusal: Refusal) -> bool
    ensures missed { IsTrue result → (answers ≡ false) × (refusal ≡ refusal_value.Memory) }
    ensures passed { (result ≡ false) → MayPass answers refusal }
{
    !answers && refusal == Refusal::Memory
}

// Prints the match of the address in the table, if answers are wanted.
fn tell_lookup<W: io::Write>(
    core: &Core,
    at: &LineContext,
    address: u32,
    out: &mut W,
    buffer: &mut String,
) -> Result<(), PrintError>
    ensures ok { OnOk result (ToldLine at.now.wanted at.now.answers core.now at.now.number
        (line_is.Lookup address) core.now (W.contents out.old) (W.contents out.new)
        (string_bytes buffer.old) (string_bytes buffer.new)) }
    ensures err { AreWholeLines (string_bytes buffer.old) → IfErr result (λ why.
        StopsAtLine why at.now.wanted at.now.answers core.now at.now.number (line_is.Lookup address)
        core.now (W.contents out.old) (W.contents out.new) (string_bytes buffer.old)) }
{
    if !at.answers {
        return Ok(());
    }
    put_lookup(at.wanted.format, at.number, address, core.table(), buffer)?;
    flush_if_full(out, buffer)?;
    Ok(())
}

// Rolls the core, and prints a refusal, if answers are wanted.
fn tell_roll<W: io::Write>(
    core: &mut Core,
    at: &LineContext,
    out: &mut W,
    buffer: &mut String,
) -> Result<(), PrintError>
    ensures ok { OnOk result (ToldLine at.now.wanted at.now.answers core.old at.now.number
        line_is.Roll core.new (W.contents out.old) (W.contents out.new) (string_bytes buffer.old)
        (string_bytes buffer.new)) }
    ensures err { AreWholeLines (string_bytes buffer.old) → IfErr result (λ why.
        StopsAtLine why at.now.wanted at.now.answers core.old at.now.number line_is.Roll core.new
        (W.contents out.old) (W.contents out.new) (string_bytes buffer.old)) }
{
    match core.roll() {
        Ok(_) => Ok(()),
        Err(refusal) => tell_refused(at, refusal, out, buffer),
    }
}

// Prints that the event or roll was refused, if answers are wanted.
fn tell_refused<W: io::Write>(
    at: &LineContext,
    refusal: Refusal,
    out: &mut W,
    buffer: &mut String,
) -> Result<(), PrintError>
    ensures ok { OnOk result (AddsLines (W.contents out.old) (W.contents out.new) (string_bytes buffer.old)
        (string_bytes buffer.new)
        (lines_of at.now.number at.now.wanted (answered at.now.answers (told.Refused refusal)))) }
    ensures err { AreWholeLines (string_bytes buffer.old) → IfErr result (λ why.
        AddsPart why (W.contents out.old) (W.contents out.new) (string_bytes buffer.old
        ++ lines_of at.now.number at.now.wanted (answered at.now.answers (told.Refused refusal)))) }
{
    if !at.answers {
        return Ok(());
    }
    put_refused(at, refusal, buffer)?;
    flush_if_full(out, buffer)?;
    Ok(())
}
