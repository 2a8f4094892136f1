//! A capture that is recorded, packet by packet.
ghost use Rattle.std.specs.Prelude.{◌≡◌, ◌++◌, ℕ, [], None, OnOk, IfErr, string_bytes};
ghost use Rattle.std.specs.Io.KnownBytes.{Appends};
ghost use Rattle.captures.specs.Positions.{shown_packet};
ghost use Rattle.capture_recording.specs.Events.{taken_events, AreAppended};
ghost use Rattle.capture_recording.specs.Gathering.{TakesPacket, TakesPayload, IsFirstSession};
ghost use Rattle.capture_recording.specs.Gathering.{waiting};
ghost use Rattle.capture_recording.specs.Kept.{kept_if};
ghost use Rattle.capture_recording.specs.Said.{WritesSaidPart};

use crate::fault::CapturingFault;
use crate::gathered::Gathered;
use crate::kept_events::KeptEvents;
use crate::kept_lines::write_kept;
use crate::notes::Notes;
use crate::start::Start;
use crate::writing::write_out;
use crate::{put_fault_note, put_notes, put_taken};
use captured_lsas::{Heard, Taken};
use captures::CapturedPacket;
use ospf_types::memory::Memory;
use std::alloc::Global;
use std::io;

/// The results of the packets so far.
pub(crate) struct Session {
    pub(crate) gathered: Gathered,
    /// The lines of the recording that are not written yet.
    pub(crate) lines: String,
    /// The events of the recording, if it is written at the end of the capture.
    pub(crate) kept: Option<KeptEvents>,
    pub(crate) notes: Notes,
}

// proof: a value is dropped by one call, not part by part at each exit of a function.
impl Drop for Session {
    fn drop(self) {
        let Session {
            gathered: _gathered,
            lines: _lines,
            kept: _kept,
            notes: _notes,
        } = self;
    }
}

impl Session {
    /// Creates a session that has taken no packet.
    pub(crate) fn new(alloc: Global, start: Start, router: Option<u32>) -> Session
        ensures { IsFirstSession start router result }
    {
        Session {
            gathered: Gathered::new(alloc, start, router),
            lines: String::new(alloc),
            kept: none_kept(alloc, router),
            notes: Notes::new(alloc),
        }
    }

    /// Takes a captured packet. Appends what is recorded of it to the lines or the
    /// events, and its faults to the notes.
    pub(crate) fn take(&mut self, alloc: Global, packet: &CapturedPacket<'_>) -> Result<(), Memory>
        ensures { OnOk result (TakesPacket self.old self.new (shown_packet packet.now)) }
    {
        let time = packet.time;
        match self.gathered.hear(alloc, packet)? {
            Heard::Other => Ok(()),
            Heard::Fault(fault) => put_fault_note(time, fault, &mut self.notes.text),
            Heard::Part => Ok(()),
            Heard::Whole { sender, payload } => {
                self.take_payload(alloc, time, sender, payload.bytes())
            }
        }
    }

    // Takes the payload of a datagram.
    fn take_payload(
        &mut self,
        alloc: Global,
        time: Option<u64>,
        sender: u32,
        payload: &[u8],
    ) -> Result<(), Memory>
        ensures { OnOk result (TakesPayload self.old self.new time sender payload.now) }
    {
        let taken = self.gathered.recorder.take(alloc, time, payload)?;
        self.gathered.counts.count_taken(&taken);
        self.gathered.note(alloc, &taken)?;
        put_notes(time, sender, &taken, &mut self.notes.text)?;
        put_or_keep(taken, &mut self.lines, &mut self.kept)
    }

    /// Writes the lines that wait.
    pub(crate) fn write_waiting<W: io::Write>(&self, out: &mut W) -> Result<(), CapturingFault>
        ensures ok { OnOk result (Appends (W.contents out.old) (W.contents out.new)
            (waiting self.now)) }
        ensures err { IfErr result (WritesSaidPart (W.contents out.old) (W.contents out.new)
            (waiting self.now)) }
    {
        match write_out(self.lines.as_bytes(), out) {
            Ok(()) => write_kept(&self.kept, out),
            Err(fault) => Err(fault),
        }
    }
}

// Returns an empty list of events, if the capture gives the configuration of a router.
fn none_kept(alloc: Global, router: Option<u32>) -> Option<KeptEvents>
    ensures none { kept_if result ≡ [] }
    ensures keeps { router ≡ None → result ≡ None }
{
    match router {
        Some(_) => Some(KeptEvents::new(alloc)),
        None => None,
    }
}

// Appends what is recorded to the events, or to the lines if no events are kept.
fn put_or_keep(
    taken: Taken,
    lines: &mut String,
    kept: &mut Option<KeptEvents>,
) -> Result<(), Memory>
    ensures appended { OnOk result (AreAppended (string_bytes lines.old ++ kept_if kept.old)
        (string_bytes lines.new ++ kept_if kept.new) (taken_events taken)) }
    ensures keeps { kept.old ≡ None → kept.new ≡ None }
{
    match kept {
        Some(kept) => kept.push_taken(&taken),
        None => put_taken(taken, lines),
    }
}
