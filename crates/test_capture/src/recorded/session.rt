//! The recording of packets, as text.

use crate::recorded::texts::put_taken;
use anyhow::Result;
use captured_lsas::{Heard, Listener, Options, Recorder};
use captures::CapturedPacket;
use std::alloc::Global;
use std::fmt::Write;
use std::hash::RandomState;

/// The lines so far: one for each event, and one for each packet without an event.
pub struct SessionLines {
    listener: Listener,
    recorder: Recorder,
    text: String,
}

// proof: a value is dropped by one call, not part by part at each exit of a function.
impl Drop for SessionLines {
    fn drop(self) {
        let SessionLines {
            listener: _listener,
            recorder: _recorder,
            text: _text,
        } = self;
    }
}

impl SessionLines {
    pub fn new(alloc: Global, hashing: RandomState, options: Options) -> SessionLines {
        SessionLines {
            listener: Listener::new(alloc),
            recorder: Recorder::new(alloc, hashing, options, None),
            text: String::new(alloc),
        }
    }

    pub fn text(&self) -> &str {
        &self.text
    }

    pub fn note(&mut self, words: &str) -> Result<()> {
        writeln!(self.text, "note: {words}")?;
        Ok(())
    }

    /// Hears a captured packet, and appends its events or a note.
    ///
    /// # Errors
    ///
    /// Returns an error if memory runs out.
    pub fn put(&mut self, alloc: Global, packet: &CapturedPacket<'_>) -> Result<()> {
        match self.listener.hear(alloc, packet)? {
            Heard::Other => self.note("no OSPF"),
            Heard::Fault(fault) => self.note(&format!(in alloc; "{fault}")?),
            Heard::Part => self.note("a part"),
            Heard::Whole { sender, payload } => {
                let taken = self.recorder.take(alloc, packet.time, payload.bytes())?;
                put_taken(alloc, sender, taken, &mut self.text)
            }
        }
    }
}
