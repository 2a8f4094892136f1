//! The events of a capture whose recording is written at its end: the bytes of each LSA, and the
//! number of seconds before it.

ghost use Rattle.std.specs.Prelude.{◌≡◌, ◌≤◌, [], OnOk, IfOk};
ghost use Rattle.std.specs.List.{flat_map};
ghost use Rattle.lsa_codec.specs.Spelling.{spelling};
ghost use Rattle.ospf_types.specs.Lsa.{MaxAge};
ghost use Rattle.recording.specs.Forms.{AreBytes};
ghost use Rattle.recording.specs.Recordings.{IsLsaOfBytes};
ghost use Rattle.capture_recording.specs.Events.{AreAppended, install_events, recorded_events};
ghost use Rattle.capture_recording.specs.Events.{second_events, taken_events};
ghost use Rattle.capture_recording.specs.Kept.{Gains, IsLsaAt};

use crate::seconds::recorded_seconds;
use captured_lsas::{Recorded, Taken};
use lsa_codec::Checked;
use ospf_types::key::Scope;
use ospf_types::memory::Memory;
use std::alloc::Global;
use std::marker::Model;

/// An event, or several: a number of seconds, or an LSA by the place of its bytes.
#[derive(Clone, Copy)]
pub(crate) enum KeptEvent {
    /// This number of seconds passes.
    Seconds(u16),
    /// The LSA is installed, and purged right after that if `purges` is true.
    Install {
        scope: Scope,
        /// The index of the LSA's first byte.
        start: u32,
        /// The number of its bytes.
        size: u16,
        purges: bool,
    },
}

/// Events of a recording, in order. They take about 20 bytes more than the bytes of each LSA, and
/// as many for a number of seconds.
pub(crate) struct KeptEvents {
    pub(crate) alloc: Global,
    /// The bytes of the LSAs, end to end.
    pub(crate) bytes: Vec<u8>,
    pub(crate) events: Vec<KeptEvent>,
}

// proof: a value is dropped by one call, not part by part at each exit of a function.
impl Drop for KeptEvents {
    fn drop(self) {
        let KeptEvents {
            alloc: _,
            bytes: _bytes,
            events: _events,
        } = self;
    }
}

/// Contracts see the lines of the events.
impl Model for KeptEvents {
    ghost use Rattle.std.specs.Prelude.{ℕ, List};
    ghost use Rattle.capture_recording.specs.Kept.{text_of, AreKeptWithin};

    ghost Value = { List ℕ };

    ghost view = { λ k. text_of k.bytes.items k.events.items };

    ghost invariant = { λ k. AreKeptWithin k.bytes.items k.events.items };
}

impl KeptEvents {
    /// Creates an empty list, which uses no memory yet.
    pub(crate) fn new(alloc: Global) -> KeptEvents
        ensures { result ≡ [] }
    {
        KeptEvents {
            alloc,
            bytes: Vec::new(alloc),
            events: Vec::new(alloc),
        }
    }

    /// Appends the events that are recorded for the payload of a datagram. If memory runs out, some
    /// of them may have been appended.
    pub(crate) fn push_taken(&mut self, taken: &Taken) -> Result<(), Memory>
        ensures { OnOk result (AreAppended self.old self.new (taken_events taken.now)) }
    {
        match taken {
            Taken::Packet {
                seconds,
                recorded,
                ..
            } => {
                self.push_seconds(recorded_seconds(*seconds))?;
                self.push_each(recorded.as_slice())
            }
            Taken::Fault(_) => Ok(()),
        }
    }

    fn push_seconds(&mut self, seconds: u64) -> Result<(), Memory>
        requires { seconds ≤ MaxAge }
        ensures { OnOk result (AreAppended self.old self.new (second_events seconds)) }
    {
        if seconds == 0 {
            return Ok(());
        }
        self.events.push(KeptEvent::Seconds(seconds as u16))?;
        Ok(())
    }

    fn push_each(&mut self, recorded: &[Recorded]) -> Result<(), Memory>
        ensures { OnOk result (AreAppended self.old self.new
            (flat_map recorded_events recorded.now)) }
    {
        for one in recorded {
            self.push_one(one)?;
        }
        Ok(())
    }

    // Appends the events for one place of a Link State Update.
    fn push_one(&mut self, recorded: &Recorded) -> Result<(), Memory>
        ensures { OnOk result (AreAppended self.old self.new (recorded_events recorded.now)) }
    {
        match recorded {
            Recorded::Install { scope, lsa, purges } => self.push_install(*scope, lsa, *purges),
            Recorded::Repeated => Ok(()),
            Recorded::OtherArea { .. } => Ok(()),
            Recorded::Fault(_) => Ok(()),
            Recorded::Cut(_) => Ok(()),
        }
    }

    // Appends the event that installs an LSA, and the one that purges it if `purges` is true.
    fn push_install(&mut self, scope: Scope, lsa: &Checked, purges: bool) -> Result<(), Memory>
        ensures { OnOk result (AreAppended self.old self.new (install_events scope lsa.now purges)) }
    {
        let (start, size) = append_lsa(lsa, &mut self.bytes)?;
        self.events.push(KeptEvent::Install {
            scope,
            start,
            size,
            purges,
        })?;
        Ok(())
    }
}

// Appends the bytes of an LSA, and returns the index of the first one and their number.
fn append_lsa(lsa: &Checked, bytes: &mut Vec<u8>) -> Result<(u32, u16), Memory>
    ensures gains { Gains bytes.old.items bytes.new.items }
    ensures place { IfOk result (λ place. IsLsaAt bytes.new.items place.0 place.1 lsa.now) }
    ensures sound { OnOk result (IsLsaOfBytes lsa.now) }
    ensures bytes { OnOk result (AreBytes (spelling lsa.now)) }
{
    let start = bytes.len();
    lsa_codec::write(lsa, bytes)?;
    match (u32::try_from(start), u16::try_from(bytes.len() - start)) {
        (Ok(start), Ok(size)) => Ok((start, size)),
        _ => Err(Memory),
    }
}
