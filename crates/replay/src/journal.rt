//! The journal after a run, printed as a recording.
ghost use Rattle.std.specs.Prelude.{◌++◌, OnOk, IfErr, List, string_bytes};
ghost use Rattle.std.specs.List.{flat_map};
ghost use Rattle.recording.specs.Forms.{Form};
ghost use Rattle.recording.specs.Recordings.{front_forms};
ghost use Rattle.replay.specs.Lines.{IsTextOf, event_line, forms_text, recorded_line};
ghost use Rattle.replay.specs.Lines.{recorded_text};
ghost use Rattle.replay.specs.Outputs.{journal_of};
ghost use Rattle.replay.specs.Pages.{AddsLines, AddsPart};
ghost use Rattle.replay.specs.Stops.{AreWholeLines};

use crate::buffer::{PrintError, flush_if_full};
use crate::json_lines::put_recorded;
use crate::lines::put_event;
use event_core::{Core, Event};
use output_lines::Format;
use recording::{Version, append_preamble};
use std::io;

/// The journal of a core after a run, to be printed as a recording of the version.
#[derive(Clone, Copy)]
pub struct Journal<'a> {
    pub version: Version,
    pub core: &'a Core,
}

impl Journal<'_> {
    /// Prints the lines of the base, and the events that were taken after it.
    ///
    /// # Errors
    ///
    /// Returns the reason why printing stopped. A beginning of the lines may be written then. After
    /// `Memory` it has no cut line, if the buffer had none.
    pub fn show<W: io::Write>(
        self,
        format: Format,
        out: &mut W,
        buffer: &mut String,
    ) -> Result<(), PrintError>
        ensures ok { OnOk result (AddsLines (W.contents out.old) (W.contents out.new)
            (string_bytes buffer.old) (string_bytes buffer.new)
            (recorded_text format (journal_of self.entry.version self.entry.core.now))) }
        ensures err { AreWholeLines (string_bytes buffer.old)
            → IfErr result (λ why. AddsPart why (W.contents out.old) (W.contents out.new)
            (string_bytes buffer.old
            ++ recorded_text format (journal_of self.entry.version self.entry.core.now))) }
    {
        self.show_front(format, out, buffer)?;
        show_events(format, self.core.journal(), out, buffer)?;
        Ok(())
    }

    // Prints the lines of the base.
    fn show_front<W: io::Write>(
        self,
        format: Format,
        out: &mut W,
        buffer: &mut String,
    ) -> Result<(), PrintError>
        ensures ok { OnOk result (AddsLines (W.contents out.old) (W.contents out.new)
            (string_bytes buffer.old) (string_bytes buffer.new)
            (forms_text format (front_forms self.entry.version self.entry.core.now.base))) }
        ensures err { AreWholeLines (string_bytes buffer.old)
            → IfErr result (λ why. AddsPart why (W.contents out.old) (W.contents out.new)
            (string_bytes buffer.old
            ++ forms_text format (front_forms self.entry.version self.entry.core.now.base))) }
    {
        let Journal { version, core } = self;
        let alloc = *buffer.allocator();
        match format {
            Format::Text => Ok(append_preamble(alloc, version, core.base(), buffer)?),
            Format::Json => {
                let mut front = String::new(alloc);
                append_preamble(alloc, version, core.base(), &mut front)?;
                show_recorded(front.as_str(), out, buffer)
            }
        }
    }
}

// Prints the lines of a recording as objects.
fn show_recorded<W: io::Write>(
    text: &str,
    out: &mut W,
    buffer: &mut String,
) -> Result<(), PrintError>
    ensures ok { (forms : List Form) → IsTextOf text.now forms
        → OnOk result (AddsLines (W.contents out.old) (W.contents out.new) (string_bytes buffer.old)
        (string_bytes buffer.new) (flat_map recorded_line forms)) }
    ensures err { (forms : List Form) → IsTextOf text.now forms → AreWholeLines (string_bytes buffer.old)
        → IfErr result (λ why. AddsPart why (W.contents out.old) (W.contents out.new)
        (string_bytes buffer.old ++ flat_map recorded_line forms)) }
{
    let mut left = text;
    while let Some((line, more)) = left.split_once('\n') {
        put_recorded(line, buffer)?;
        flush_if_full(out, buffer)?;
        left = more;
    }
    Ok(())
}

// Prints the events as lines of a recording.
fn show_events<W: io::Write>(
    format: Format,
    events: &[Event],
    out: &mut W,
    buffer: &mut String,
) -> Result<(), PrintError>
    ensures ok { OnOk result (AddsLines (W.contents out.old) (W.contents out.new) (string_bytes buffer.old)
        (string_bytes buffer.new) (flat_map (event_line format) events.now)) }
    ensures err { AreWholeLines (string_bytes buffer.old)
        → IfErr result (λ why. AddsPart why (W.contents out.old) (W.contents out.new)
        (string_bytes buffer.old ++ flat_map (event_line format) events.now)) }
{
    for event in events {
        put_event(format, event, buffer)?;
        flush_if_full(out, buffer)?;
    }
    Ok(())
}
