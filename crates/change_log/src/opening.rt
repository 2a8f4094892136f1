//! The preamble of a recording, read line by line: its lines up to the first one of another kind.
ghost use Rattle.std.specs.Prelude.{◌≡◌, ◌↔◌, ◌++◌, ◌∷◌, [], IfErr, IfOk, IsTrue, OnOk};
ghost use Rattle.replay.specs.Parts.{IsParsed};
ghost use Rattle.change_log.specs.Openings.{HasOpeningFault, IsLineAdded, IsFaultWith, IsFrontFault, IsLooked};
ghost use Rattle.change_log.specs.Openings.{IsPreambleWhole, OpensPreamble, ends_after, last_line};
ghost use Rattle.change_log.specs.declared.opening.PreambleEnd.TheVariants as front_end;

use input_reading::{LONGEST, LineReader, Next, ReadFault};
use recording::{Fault, LineFault, Recording, is_preamble_line, parse};
use replay::{ReplayFault, parse_bytes};
use std::alloc::{AllocError, Global};
use std::io;

// The number of bytes from which on the preamble is searched for a fault, whenever it has doubled.
// So little more than twice the bytes up to a late fault are held.
const LONG_FRONT: usize = 1 << 20;

/// The end of the preamble.
#[derive(Clone, Copy)]
pub(crate) enum PreambleEnd {
    /// The end of the input, or nothing as long as the preamble is read.
    Over,
    /// A line that does not belong to the preamble.
    Line,
    /// A last line without a line feed, which does not belong to the preamble.
    Cut,
    /// A preamble line that is too long to be read whole. The preamble contains it, cut short.
    LongLine,
    /// A fault of a preamble line, whatever follows.
    AtFault(LineFault),
}

/// The preamble, and its end.
#[derive(Drop)]
pub(crate) struct Opening {
    /// The lines with their line feeds. A last line of the input may have none.
    pub(crate) front: Vec<u8>,
    /// The number of lines.
    lines: usize,
    /// The line that was read last.
    pub(crate) line: Vec<u8>,
    pub(crate) end: PreambleEnd,
}

/// Reads the preamble, and the line after it.
pub(crate) fn read_opening<R: io::Read>(
    alloc: Global,
    lines: &mut LineReader,
    input: &mut R,
) -> Result<Opening, ReadFault>
    ensures { IfOk result (λ opening. OpensPreamble opening.end opening.front.items opening.line.items
        lines.old (R.remaining input.old) lines.new (R.remaining input.new)) }
{
    let mut opening = Opening {
        front: Vec::new(alloc),
        lines: 0,
        line: Vec::new(alloc),
        end: PreambleEnd::Over,
    };
    let mut limit = LONG_FRONT;
    for _ in 0..usize::MAX {
        match lines.next(input, &mut opening.line) {
            Ok(Next::Line) => opening.add()?,
            Ok(Next::Cut) => {
                opening.add_cut()?;
                return Ok(opening);
            }
            Ok(Next::End) => return Ok(opening),
            Err(fault) => return Err(fault),
        }
        if !opening.is_over() {
            return Ok(opening);
        }
        opening.look(alloc, &mut limit);
        if !opening.is_over() {
            return Ok(opening);
        }
    }
    Err(ReadFault::Memory)
}

impl Opening {
    // Returns true if nothing has ended the preamble yet.
    fn is_over(&self) -> bool
        ensures { IsTrue result ↔ (self.now.end ≡ front_end.Over) }
    {
        matches!(self.end, PreambleEnd::Over)
    }

    // Adds the line that was read, if it belongs to the preamble.
    fn add(&mut self) -> Result<(), AllocError>
        ensures { OnOk result (IsLineAdded (ends_after self.old.line.items front_end.Line) (10 ∷ [])
            self.old self.new) }
    {
        self.end = end_after(self.line.as_slice(), PreambleEnd::Line);
        self.hold(b"\n")
    }

    // Adds a last line without a line feed, if it belongs to the preamble.
    fn add_cut(&mut self) -> Result<(), AllocError>
        ensures { OnOk result (IsLineAdded (ends_after self.old.line.items front_end.Cut) []
            self.old self.new) }
    {
        self.end = end_after(self.line.as_slice(), PreambleEnd::Cut);
        self.hold(b"")
    }

    // Adds the line that was read and this line feed, if the line belongs to the preamble.
    fn hold(&mut self, feed: &[u8]) -> Result<(), AllocError>
        ensures { OnOk result (IsLineAdded self.old.end feed.now self.old self.new) }
    {
        match self.end {
            PreambleEnd::Over | PreambleEnd::LongLine => {
                self.front.extend_from_slice(self.line.as_slice())?;
                self.front.extend_from_slice(feed)?;
                self.lines = self.lines.saturating_add(1);
            }
            PreambleEnd::Line | PreambleEnd::Cut | PreambleEnd::AtFault(_) => {}
        }
        Ok(())
    }

    // Searches a long preamble for a fault. Only the fault of a line with another line after it
    // counts: it stays whatever follows.
    fn look(&mut self, alloc: Global, limit: &mut usize)
        ensures front { self.new.front.items ≡ self.old.front.items }
        ensures end { IsLooked self.old.front.items self.old.end self.new.end }
    {
        if self.front.len() < *limit {
            return;
        }
        *limit = self.front.len().saturating_mul(2);
        if let Err(fault) = parse(alloc, self.front.as_slice()) {
            if fault.line < self.lines {
                self.end = PreambleEnd::AtFault(fault);
            }
        }
    }

    /// Parses the preamble as a recording.
    ///
    /// If one of the first lines is missing, the fault is at the line that was read instead.
    pub(crate) fn recording(&self, alloc: Global) -> Result<Recording, ReplayFault>
        ensures recording { IfOk result (IsParsed self.now.front.items) }
        ensures whole { OnOk result (IsPreambleWhole self.now.end) }
        ensures fault { IfErr result (IsFrontFault self.now) }
    {
        match self.end {
            PreambleEnd::Over => parse_bytes(alloc, self.front.as_slice()),
            PreambleEnd::Line => self.recording_before(alloc, b"\n"),
            PreambleEnd::Cut => self.recording_before(alloc, b""),
            PreambleEnd::LongLine => Err(ReplayFault::Line(self.fault_of_long_line(alloc))),
            PreambleEnd::AtFault(fault) => Err(ReplayFault::Line(fault)),
        }
    }

    // Parses the preamble as a recording. If it has a fault, returns the fault of the preamble with
    // the last line after it, if that has one too.
    fn recording_before(&self, alloc: Global, feed: &[u8]) -> Result<Recording, ReplayFault>
        ensures recording { IfOk result (IsParsed self.now.front.items) }
        ensures fault { IfErr result (λ e. IsFaultWith (self.now.line.items ++ feed.now)
            self.now.front.items e) }
    {
        let own = match parse_bytes(alloc, self.front.as_slice()) {
            Ok(recording) => return Ok(recording),
            Err(fault) => fault,
        };
        let Ok(whole) = self.with_line(alloc, feed) else {
            return Err(ReplayFault::Memory);
        };
        match parse(alloc, whole.as_slice()) {
            Ok(_) => Err(own),
            Err(fault) => Err(ReplayFault::Line(fault)),
        }
    }

    // Returns the preamble, followed by the line that was read last.
    fn with_line(&self, alloc: Global, feed: &[u8]) -> Result<Vec<u8>, AllocError>
        ensures { IfOk result (λ whole. whole.items
            ≡ self.now.front.items ++ (self.now.line.items ++ feed.now)) }
    {
        let mut whole = Vec::new(alloc);
        whole.extend_from_slice(self.front.as_slice())?;
        whole.extend_from_slice(self.line.as_slice())?;
        whole.extend_from_slice(feed)?;
        Ok(whole)
    }

    // Returns a fault of a preamble whose last line is too long to be read whole. If it has no
    // other fault, that line has one: no line of its length has a form.
    fn fault_of_long_line(&self, alloc: Global) -> LineFault
        ensures { HasOpeningFault front_end.LongLine self.now.front.items self.now.line.items result }
    {
        match parse(alloc, self.front.as_slice()) {
            Ok(_) => LineFault {
                line: number_of_last(self.front.as_slice()),
                fault: Fault::Line,
            },
            Err(fault) => fault,
        }
    }
}

// Returns the number of the last line, from 1.
fn number_of_last(text: &[u8]) -> usize
    ensures { result ≡ last_line text.now }
{
    let end = text.len().saturating_sub(1);
    text[..end].iter().filter(|byte| **byte == b'\n').count() + 1
}

// Returns the end of the preamble after this line: `other` if the line does not belong to it.
fn end_after(line: &[u8], other: PreambleEnd) -> PreambleEnd
    ensures { result ≡ ends_after line.now other }
{
    if !is_preamble_line(line) {
        other
    } else if line.len() < LONGEST {
        PreambleEnd::Over
    } else {
        PreambleEnd::LongLine
    }
}
