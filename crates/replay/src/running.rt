//! The run of the lines of a recording.
ghost use Rattle.std.specs.Prelude.{◌≡◌, ◌≢◌, [], ◌∷◌, ◌+◌, ◌^◌, ◌<◌, ◌≤◌, length, IfOk, OnOk};
ghost use Rattle.std.specs.Prelude.{IfErr, string_bytes};
ghost use Rattle.event_state.specs.declared.refusal.Refusal.TheVariants as refusal_value;
ghost use Rattle.recording.specs.Places.{first_lines};
ghost use Rattle.replay.specs.Advance.{ShowsProgress};
ghost use Rattle.replay.specs.Lines.{first_number};
ghost use Rattle.replay.specs.Pages.{Ran, RanPart, RanLine, IsRunTo, TakesEvent, TakesRoll};
ghost use Rattle.replay.specs.Runs.{RollsBy};
ghost use Rattle.replay.specs.Stops.{AreWholeLines};

use crate::buffer::{PrintError, flush_if_full};
use crate::lines::{put_answer, put_lookup, put_roll};
use crate::opened::OpenedRecording;
use crate::printing::PrintOptions;
use crate::progress::Progress;
use event_core::{Base, Core, Event, Refusal};
use ospf_types::memory::Memory;
use output_lines::Format;
use recording::{Line, Version};
use std::alloc::Global;
use std::io;

impl OpenedRecording {
    /// Runs the lines after the base, and prints their outcome. Returns the core after the last
    /// line.
    pub(crate) fn run_lines<W: io::Write, F: io::Write>(
        self,
        printing: PrintOptions,
        out: &mut W,
        buffer: &mut String,
        faults: &mut F,
    ) -> Result<Core, PrintError>
        ensures ok { IfOk result (λ core. Ran printing.format self.core
            (first_number self.version self.core.base) self.lines.items core (W.contents out.old)
            (W.contents out.new) (string_bytes buffer.old) (string_bytes buffer.new)) }
        ensures err { AreWholeLines (string_bytes buffer.old) → IfErr result (λ why.
            RanPart why printing.format self.core (first_number self.version self.core.base)
            self.lines.items (W.contents out.old) (W.contents out.new) (string_bytes buffer.old)) }
        ensures progress { ShowsProgress printing.progress (F.contents faults.old)
            (F.contents faults.new) }
    {
        let alloc = *buffer.allocator();
        let progress = self.progress(printing.progress);
        let OpenedRecording {
            version,
            mut core,
            lines,
        } = self;
        let mut number = first_event_line(version, core.base());
        for line in lines {
            run_line(printing.format, &mut core, number, line, buffer)?;
            flush_if_full(out, buffer)?;
            progress.show(alloc, number, faults);
            number += 1;
        }
        Ok(core)
    }

    /// Runs the lines after the base, and prints none of them. Returns the core after the last
    /// line.
    ///
    /// If `is_shown` is set, the number of lines done is shown on `faults`.
    ///
    /// # Errors
    ///
    /// Returns `Memory` if an event is refused with 30 Memory, or a roll is refused. The core is
    /// dropped then.
    pub fn run_silently<F: io::Write>(
        self,
        alloc: Global,
        is_shown: bool,
        faults: &mut F,
    ) -> Result<Core, Memory>
        ensures run { IfOk result (IsRunTo self.core self.lines.items) }
        ensures progress { ShowsProgress is_shown (F.contents faults.old) (F.contents faults.new) }
    {
        let progress = self.progress(is_shown);
        let OpenedRecording {
            version,
            mut core,
            lines,
        } = self;
        let mut number = first_event_line(version, core.base());
        for line in lines {
            take_line(&mut core, line)?;
            progress.show(alloc, number, faults);
            number += 1;
        }
        Ok(core)
    }

    // Returns the progress of the run, which counts all lines of the recording.
    fn progress(&self, is_shown: bool) -> Progress
        ensures { result.is_shown ≡ is_shown }
    {
        let before = first_event_line(self.version, self.core.base()) - 1;
        Progress {
            is_shown,
            all: Some(before + self.lines.len()),
        }
    }
}

/// Returns the number of the first line after the base.
///
/// The lines before it are the first lines of the version, and one for each area, range, interface
/// and LSA of the base.
pub fn first_event_line(version: Version, base: &Base) -> usize
    requires { first_number version base.now < 2 ^ 64 }
    ensures { result ≡ first_number version base.now }
{
    let mut number = first_lines(version) + 1;
    for area in base.config.areas.as_slice() {
        number += 1 + area.ranges.len();
    }
    number + (base.interfaces.len() + base.lsas.len())
}

// Returns the number of lines before the areas.
fn first_lines(version: Version) -> usize
    ensures value { result ≡ first_lines version }
    ensures few { result ≤ 4 }
{
    match version {
        Version::One => 2,
        Version::Two => 3,
        Version::Three => 4,
    }
}

// Runs a line, and appends its outcome.
fn run_line(
    format: Format,
    core: &mut Core,
    number: usize,
    line: Line,
    text: &mut String,
) -> Result<(), Memory>
    ensures { OnOk result (RanLine format core.old number line core.new (string_bytes text.old)
        (string_bytes text.new)) }
{
    match line {
        Line::Event(event) => put_answer(format, number, core.apply(event), text),
        Line::Lookup(address) => put_lookup(format, number, address, core.table(), text),
        Line::Roll => put_roll(format, number, roll(core), text),
    }
}

// Runs a line without printing it. A lookup is made all the same: its match is a part of the run.
fn take_line(core: &mut Core, line: Line) -> Result<(), Memory>
    ensures { OnOk result (IsRunTo core.old (line ∷ []) core.new) }
{
    match line {
        Line::Event(event) => take_event(core, event),
        Line::Lookup(address) => {
            let _ = core.table().lookup(address);
            Ok(())
        }
        Line::Roll => take_roll(core),
    }
}

// Applies an event. Returns an error if it was refused because memory ran out.
fn take_event(core: &mut Core, event: Event) -> Result<(), Memory>
    ensures { OnOk result (TakesEvent core.old event core.new) }
{
    match core.apply(event) {
        Ok(_) => Ok(()),
        Err(refusal) => unless_memory(refusal),
    }
}

// Returns an error if the refusal is 30 Memory.
fn unless_memory(refusal: Refusal) -> Result<(), Memory>
    ensures { OnOk result (refusal ≢ refusal_value.Memory) }
{
    if refusal == Refusal::Memory {
        return Err(Memory);
    }
    Ok(())
}

// Rolls the core. A roll is refused only if memory runs out, or if it ran out before: only then is
// a table behind.
fn take_roll(core: &mut Core) -> Result<(), Memory>
    ensures { OnOk result (TakesRoll core.old core.new) }
{
    match roll(core) {
        Ok(_) => Ok(()),
        Err(_) => Err(Memory),
    }
}

fn roll(core: &mut Core) -> Result<u64, Refusal>
    ensures { RollsBy core.old result core.new }
{
    core.roll()
}
