//! Lines that are run as they come.
ghost use Rattle.std.specs.Prelude.{◌++◌, ◌∷◌, List, [], OnOk, IfOk, IfErr, string_bytes};
ghost use Rattle.event_core.specs.Cores.{IsCore, IsCurrent};
ghost use Rattle.replay.specs.Pages.{AddsLines, AddsPart};
ghost use Rattle.replay.specs.Stops.{AreWholeLines, stop_of};
ghost use Rattle.change_log.specs.Changes.{Give};
ghost use Rattle.change_log.specs.Lines as told;
ghost use Rattle.change_log.specs.Lines.{Change, lines_of};
ghost use Rattle.change_log.specs.Runs.{Comes, Fails, KeepsShort, StopsAtTaken, ToldTaken};
ghost use Rattle.change_log.specs.Streams.{IsLineReadAs};
ghost use Rattle.change_log.specs.Begun.{Closes};
ghost use Rattle.change_log.specs.Following.{Ends, EndsBehind, StopsBehind, StopsIn, StopsTaking};
ghost use Rattle.change_log.specs.Following.{TakesOneLine, ReportsLine};
ghost use Rattle.replay.specs.Advance.{IsProgress};

use crate::lines::{LineContext, put_fault};
use crate::opening::PreambleEnd;
use crate::running::tell_line;
use event_core::{Core, Limits};
use input_reading::{LONGEST, LineReader, Next, ReadFault};
use ospf_types::memory::Memory;
use recording::{Fault, Line, LineFault, Version, read_line};
use replay::{
    PrintError, Progress, ReplayFault, WriteError, fault_of, flush_buffer, flush_if_full,
};
use std::alloc::Global;
use std::io;

// The number of events from which on a journal is long.
const LONG_JOURNAL: u64 = 65_536;

/// A recording whose preamble was read, and whose lines are run as they come.
pub(crate) struct Run {
    pub(crate) alloc: Global,
    pub(crate) version: Version,
    pub(crate) core: Core,
    /// The context of the next line.
    pub(crate) at: LineContext,
    /// True if a line with a fault is reported and skipped.
    pub(crate) skips_faults: bool,
    /// The progress that is shown.
    pub(crate) progress: Progress,
    /// The output that is not written yet.
    pub(crate) buffer: String,
    /// The line that was read last.
    pub(crate) line: Vec<u8>,
    /// The bytes of the LSA of that line.
    pub(crate) room: Vec<u8>,
}

// proof: a value is dropped by one call, not part by part at each exit of a function.
impl Drop for Run {
    fn drop(self) {
        let Run {
            alloc: _,
            version: _,
            core: _core,
            at: _,
            skips_faults: _,
            progress: _progress,
            buffer: _page,
            line: _line,
            room: _room,
        } = self;
    }
}

/// The reason why no more lines are run.
#[derive(Clone, Copy)]
pub(crate) enum End {
    /// The end of the input.
    Over,
    /// An input that could not be read.
    Unread,
    /// A fault of the next line.
    AtFault(Fault),
}

impl Run {
    /// Runs the line that ended the preamble, if there is one, and then each line of the input.
    /// Prints the report of each.
    pub(crate) fn go_on<R: io::Read, W: io::Write, F: io::Write>(
        &mut self,
        front: PreambleEnd,
        lines: &mut LineReader,
        input: &mut R,
        out: &mut W,
        faults: &mut F,
    ) -> Result<End, PrintError>
        requires kept { IsCore self.old.core }
        requires current { IsCurrent self.old.core }
        ensures ok { IfOk result (λ end. EndsBehind front end self.old self.new lines.old
            (R.remaining input.old) (R.remaining input.new) (W.contents out.old)
            (W.contents out.new)) }
        ensures err { AreWholeLines (string_bytes self.old.buffer) → IfErr result (λ why.
            StopsBehind front why self.old lines.old (R.remaining input.old)
            (R.remaining input.new) (W.contents out.old) (W.contents out.new)) }
        ensures progress { IsProgress self.old.progress (F.contents faults.old)
            (F.contents faults.new) }
    {
        match front {
            PreambleEnd::Line => {
                if let Some(fault) = self.take(out)? {
                    return Ok(End::AtFault(fault));
                }
                self.follow(lines, input, out, faults)
            }
            PreambleEnd::Cut => Ok(End::AtFault(Fault::Truncated)),
            PreambleEnd::Over | PreambleEnd::LongLine | PreambleEnd::AtFault(_) => Ok(End::Over),
        }
    }

    // Runs each line of the input as it comes, and prints its report.
    fn follow<R: io::Read, W: io::Write, F: io::Write>(
        &mut self,
        lines: &mut LineReader,
        input: &mut R,
        out: &mut W,
        faults: &mut F,
    ) -> Result<End, PrintError>
        requires kept { IsCore self.old.core }
        requires current { IsCurrent self.old.core }
        ensures ok { (before : List Change) → Give before self.old.core → IfOk result (λ end.
            Ends end before self.old self.new lines.old (R.remaining input.old)
            (R.remaining input.new) (W.contents out.old) (W.contents out.new)) }
        ensures err { (before : List Change) → Give before self.old.core
            → AreWholeLines (string_bytes self.old.buffer) → IfErr result (λ why.
            StopsIn why before self.old lines.old (R.remaining input.old)
            (R.remaining input.new) (W.contents out.old) (W.contents out.new)) }
        ensures progress { IsProgress self.old.progress (F.contents faults.old)
            (F.contents faults.new) }
    {
        for _ in 0..usize::MAX {
            let done = self.at.number.saturating_sub(1);
            self.progress.show(self.alloc, done, faults);
            match lines.next(input, &mut self.line) {
                Ok(Next::Line) => {}
                Ok(Next::Cut) => return Ok(End::AtFault(Fault::Truncated)),
                Ok(Next::End) => return Ok(End::Over),
                Err(ReadFault::Read) => return Ok(End::Unread),
                Err(ReadFault::Memory) => return Err(PrintError::Memory),
            }
            if let Some(fault) = self.take(out)? {
                return Ok(End::AtFault(fault));
            }
        }
        Err(PrintError::Memory)
    }

    // Runs the line that was read last, and prints its report. Returns a fault after which no line
    // is run.
    fn take<W: io::Write>(&mut self, out: &mut W) -> Result<Option<Fault>, PrintError>
        requires kept { IsCore self.old.core }
        requires current { IsCurrent self.old.core }
        ensures ok { IfOk result (λ fault.
            TakesOneLine fault self.old self.new (W.contents out.old) (W.contents out.new)) }
        ensures err { AreWholeLines (string_bytes self.old.buffer) → IfErr result (λ why.
            StopsTaking why self.old (W.contents out.old) (W.contents out.new)) }
    {
        if let Some(fault) = self.tell(out)? {
            return Ok(Some(fault));
        }
        hand_on(&self.at, out, &mut self.buffer)?;
        let Some(next) = self.at.number.checked_add(1) else {
            return Err(PrintError::Memory);
        };
        self.at.number = next;
        Ok(None)
    }

    // Runs the line that was read last, and prints its report, or its fault if that is skipped.
    // Returns a fault that is not skipped.
    fn tell<W: io::Write>(&mut self, out: &mut W) -> Result<Option<Fault>, PrintError>
        requires kept { IsCore self.old.core }
        requires current { IsCurrent self.old.core }
        ensures ok { IfOk result (λ fault.
            ReportsLine fault self.old self.new (W.contents out.old) (W.contents out.new)) }
        ensures err { AreWholeLines (string_bytes self.old.buffer) → IfErr result (λ why.
            StopsTaking why self.old (W.contents out.old) (W.contents out.new)) }
    {
        let line = match take_line(
            self.alloc,
            self.version,
            self.line.as_slice(),
            &mut self.room,
        ) {
            Ok(line) => line,
            Err(Fault::Memory) => return Err(PrintError::Memory),
            Err(fault) => {
                if !self.skips_faults {
                    return Ok(Some(fault));
                }
                tell_fault(&self.at, fault, out, &mut self.buffer)?;
                return Ok(None);
            }
        };
        tell_next(&mut self.core, &self.at, line, out, &mut self.buffer)?;
        Ok(None)
    }

    /// Writes the rest of the output, and returns how the run ended.
    pub(crate) fn close<W: io::Write>(&mut self, end: End, out: &mut W) -> Result<(), ReplayFault>
        ensures { Closes self.old end result (W.contents out.old) (W.contents out.new) }
    {
        if let Err(why) = flush_buffer(out, &mut self.buffer) {
            return Err(fault_of(PrintError::from(why)));
        }
        match end {
            End::Over => Ok(()),
            End::Unread => Err(ReplayFault::Read),
            End::AtFault(fault) => Err(ReplayFault::Line(LineFault {
                line: self.at.number,
                fault,
            })),
        }
    }
}

// Writes the output, if answers are wanted.
fn hand_on<W: io::Write>(
    at: &LineContext,
    out: &mut W,
    buffer: &mut String,
) -> Result<(), WriteError>
    ensures ok { OnOk result (AddsLines (W.contents out.old) (W.contents out.new) (string_bytes buffer.old)
        (string_bytes buffer.new) []) }
    ensures err { IfErr result (λ why. AddsPart (stop_of why) (W.contents out.old)
        (W.contents out.new) (string_bytes buffer.old)) }
{
    if !at.answers {
        return Ok(());
    }
    flush_buffer(out, buffer)
}

// Parses a line after the base. A line that is too long to be read whole has a fault.
fn take_line(
    alloc: Global,
    version: Version,
    line: &[u8],
    room: &mut Vec<u8>,
) -> Result<Line, Fault>
    ensures says { IfOk result (λ l. IsLineReadAs version line.now (Comes l)) }
    ensures fails { IfErr result (λ f. IsLineReadAs version line.now (Fails f)) }
{
    let read = read_line(alloc, version, line, room);
    if line.len() < LONGEST {
        return read;
    }
    match read {
        Ok(_) => Err(Fault::Line),
        Err(fault) => Err(fault),
    }
}

// Rolls a long journal, then runs the line and prints its report.
fn tell_next<W: io::Write>(
    core: &mut Core,
    at: &LineContext,
    line: Line,
    out: &mut W,
    buffer: &mut String,
) -> Result<(), PrintError>
    requires current { IsCurrent core.old }
    ensures ok { OnOk result (ToldTaken at.now.wanted at.now.answers core.old at.now.number (Comes line)
        core.new (W.contents out.old) (W.contents out.new) (string_bytes buffer.old)
        (string_bytes buffer.new)) }
    ensures kept { OnOk result (IsCore core.new) }
    ensures err { AreWholeLines (string_bytes buffer.old) → IfErr result (λ why.
        StopsAtTaken why at.now.wanted at.now.answers core.old at.now.number (Comes line) core.new
        (W.contents out.old) (W.contents out.new) (string_bytes buffer.old)) }
{
    shorten_journal(core)?;
    tell_line(core, at, line, out, buffer)
}

// Rolls a long journal. If memory runs out for the roll, a journal with room for an event stays
// long.
fn shorten_journal(core: &mut Core) -> Result<(), Memory>
    requires current { IsCurrent core.old }
    ensures short { OnOk result (KeepsShort core.old core.new) }
    ensures kept { IsCore core.new }
    ensures current { IsCurrent core.new }
{
    let count = core.journal().len() as u64;
    if count < LONG_JOURNAL {
        return Ok(());
    }
    let rolled = core.roll();
    // proof: this read of the core gives what holds of every core.
    let _ = core.table();
    match rolled {
        Ok(_) => Ok(()),
        Err(_) if count < Limits::STANDARD.events => Ok(()),
        Err(_) => Err(Memory),
    }
}

// Prints the fault of an invalid line.
fn tell_fault<W: io::Write>(
    at: &LineContext,
    fault: Fault,
    out: &mut W,
    buffer: &mut String,
) -> Result<(), PrintError>
    ensures ok { OnOk result (AddsLines (W.contents out.old) (W.contents out.new) (string_bytes buffer.old)
        (string_bytes buffer.new) (lines_of at.now.number at.now.wanted (told.AtFault fault ∷ []))) }
    ensures err { AreWholeLines (string_bytes buffer.old) → IfErr result (λ why.
        AddsPart why (W.contents out.old) (W.contents out.new) (string_bytes buffer.old
        ++ lines_of at.now.number at.now.wanted (told.AtFault fault ∷ []))) }
{
    put_fault(at, fault, buffer)?;
    flush_if_full(out, buffer)?;
    Ok(())
}
