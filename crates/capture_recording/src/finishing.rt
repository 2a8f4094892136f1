//! The output after a capture was read.
ghost use Rattle.std.specs.Prelude.{◌≡◌, ◌++◌, ℕ, List, [], Option, Some, OnOk, IfOk, IfErr, length};
ghost use Rattle.std.specs.Prelude.{string_bytes};
ghost use Rattle.captured_config.specs.Facts.{facts_of};
ghost use Rattle.captured_config.specs.Fronts.{captured_recording};
ghost use Rattle.captured_config.specs.Lsas.{Captured};
ghost use Rattle.capture_recording.specs.Rules.{Rules};
ghost use Rattle.capture_recording.specs.Counts.{counts_line};
ghost use Rattle.recording.specs.Recordings.{IsText};
ghost use Rattle.capture_recording.specs.declared.capturing.Preamble.{Preamble};
ghost use Rattle.capture_recording.specs.declared.capturing.Preamble.TheVariants.{Router};
ghost use Rattle.capture_recording.specs.Going.{GoesThrough};
ghost use Rattle.capture_recording.specs.Finishing.{IsCaptureBegun, IsBehind, IsLacking, IsNoFront};
ghost use Rattle.capture_recording.specs.Finishing.{IsWhollyWritten, unknown_if};
ghost use Rattle.capture_recording.specs.Gathering.{AreFactsOf};
ghost use Rattle.capture_recording.specs.Outputs.{RuledOutcome};

use crate::fault::CapturingFault;
use crate::gathered::Gathered;
use crate::going::Ended;
use crate::put_counts;
use crate::writing::write_out;
use captured_config::PreambleFault;
use ospf_types::ConfigFault;
use ospf_types::memory::Memory;
use std::alloc::Global;
use std::io;

impl Ended {
    /// Writes the preamble that the capture shows for the router, and then the lines.
    pub(crate) fn finish_router<W: io::Write, F: io::Write>(
        self,
        alloc: Global,
        out: &mut W,
        faults: &mut F,
    ) -> Result<(), CapturingFault>
        ensures { (rules : Rules) (router : ℕ) (before after told : Option (List ℕ))
            → GoesThrough rules (Some router) before told after (F.contents faults.old) self []
            → RuledOutcome rules (Router router) before after
            (W.contents out.old) (W.contents out.new) told (F.contents faults.new) result }
    {
        match front_of(alloc, &self.session.gathered) {
            Ok(front) => self.finish_behind(&front, out, faults),
            Err(PreambleFault::Config(fault)) => self.finish_without(fault, faults),
            Err(PreambleFault::Memory) => Err(CapturingFault::Memory),
        }
    }

    // Writes the preamble, and then the lines.
    fn finish_behind<W: io::Write, F: io::Write>(
        self,
        front: &str,
        out: &mut W,
        faults: &mut F,
    ) -> Result<(), CapturingFault>
        ensures { (rules : Rules) (beginning : Preamble)
            (before after told : Option (List ℕ))
            → IsBehind rules beginning before after told (F.contents faults.old) self front.now
            → RuledOutcome rules beginning before after
            (W.contents out.old) (W.contents out.new) told (F.contents faults.new) result }
    {
        match write_out(front.as_bytes(), out) {
            Ok(()) => self.finish(out, faults),
            Err(fault) => Err(fault),
        }
    }

    /// Writes the lines that are left, and prints the notes and counts at the end.
    pub(crate) fn finish<W: io::Write, F: io::Write>(
        self,
        out: &mut W,
        faults: &mut F,
    ) -> Result<(), CapturingFault>
        ensures { (rules : Rules) (beginning : Preamble)
            (before after first told : Option (List ℕ))
            → IsCaptureBegun rules beginning before after first (W.contents out.old)
            told (F.contents faults.old) self
            → RuledOutcome rules beginning before after first (W.contents out.new)
            told (F.contents faults.new) result }
    {
        match self.session.write_waiting(out) {
            Ok(()) => self.say_end(faults),
            Err(fault) => Err(fault),
        }
    }

    // Prints what the capture does not show of the router, and the counts.
    fn say_end<F: io::Write>(mut self, faults: &mut F) -> Result<(), CapturingFault>
        ensures { (rules : Rules) (beginning : Preamble)
            (before after first new told : Option (List ℕ))
            → IsWhollyWritten rules beginning before after first new
            told (F.contents faults.old) self
            → RuledOutcome rules beginning before after first new
            told (F.contents faults.new) result }
    {
        match put_end(&self.session.gathered, &mut self.session.notes.text) {
            Ok(()) => {
                self.session.notes.say(faults);
                let answer = self.ending.result();
                self.session.notes.unless_silent(answer)
            }
            Err(_) => Err(CapturingFault::Memory),
        }
    }

    // Prints the counts if the configuration has a fault.
    fn finish_without<F: io::Write>(
        mut self,
        fault: ConfigFault,
        faults: &mut F,
    ) -> Result<(), CapturingFault>
        ensures { (rules : Rules) (router : ℕ)
            (before after old told : Option (List ℕ))
            → IsLacking rules router before after told (F.contents faults.old) self fault
            → RuledOutcome rules (Router router) before after old old
            told (F.contents faults.new) result }
    {
        match put_counted(&self.session.gathered, &mut self.session.notes.text) {
            Ok(()) => {
                self.session.notes.say(faults);
                let answer = Err(self.ending.fault_lacking(fault));
                self.session.notes.unless_silent(answer)
            }
            Err(_) => Err(CapturingFault::Memory),
        }
    }
}

// Returns the preamble that the capture shows for the router, or an empty text if it is not asked
// for.
fn front_of(alloc: Global, gathered: &Gathered) -> Result<String, PreambleFault>
    ensures ok { (known : Captured) → gathered.now.config ≡ Some (facts_of known)
        → IfOk result (λ front.
        IsText (string_bytes front) (captured_recording known gathered.now.areas)) }
    ensures fault { (known : Captured) → gathered.now.config ≡ Some (facts_of known)
        → IfErr result (IsNoFront known gathered.now.areas) }
{
    let mut front = String::new(alloc);
    let Some(config) = &gathered.config else {
        return Ok(front);
    };
    match config.put_preamble(alloc, &gathered.areas, &mut front) {
        Ok(()) => Ok(front),
        Err(fault) => Err(fault),
    }
}

// Appends the text that is printed at the end.
fn put_end(gathered: &Gathered, text: &mut String) -> Result<(), Memory>
    ensures { (known : Option Captured) → AreFactsOf known gathered.now.config
        → OnOk result (string_bytes text.new ≡ string_bytes text.old
        ++ (unknown_if known gathered.now.areas
        ++ counts_line gathered.now.counts (length gathered.now.areas))) }
{
    put_unknown_of(gathered, text)?;
    put_counted(gathered, text)
}

// Appends what the capture does not show of the router, if its preamble is asked for.
fn put_unknown_of(gathered: &Gathered, text: &mut String) -> Result<(), Memory>
    ensures { (known : Option Captured) → AreFactsOf known gathered.now.config
        → OnOk result (string_bytes text.new ≡ string_bytes text.old
        ++ unknown_if known gathered.now.areas) }
{
    match &gathered.config {
        Some(config) => config.put_unknown(&gathered.areas, text),
        None => Ok(()),
    }
}

// Appends the counts. The areas are those that packets without a fault name.
fn put_counted(gathered: &Gathered, text: &mut String) -> Result<(), Memory>
    ensures { OnOk result (string_bytes text.new ≡ string_bytes text.old
        ++ counts_line gathered.now.counts (length gathered.now.areas)) }
{
    put_counts(gathered.counts, gathered.areas.count(), text)
}
