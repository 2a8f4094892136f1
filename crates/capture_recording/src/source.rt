//! The source of the packets.
ghost use Rattle.std.specs.Prelude.{◌≡◌, IfOk, OnErr};
ghost use Rattle.capture_recording.specs.Ending.{first_position};
ghost use Rattle.capture_recording.specs.Going.{HandsNext, IsLineDue};

use crate::ending::Ending;
use crate::session::Session;
use captures::{CaptureError, CapturedPacket, PacketReader};
use ospf_types::memory::Memory;
use std::alloc::Global;
use std::io;

/// A capture that is read.
pub(crate) struct CaptureSource {
    pub(crate) reader: PacketReader,
    /// The bytes of the last packet.
    pub(crate) bytes: Vec<u8>,
}

// proof: a value is dropped by one call, not part by part at each exit of a function.
impl Drop for CaptureSource {
    fn drop(self) {
        let CaptureSource {
            reader: _reader,
            bytes: _bytes,
        } = self;
    }
}

impl CaptureSource {
    /// Creates a source of which nothing was read.
    pub(crate) fn new(alloc: Global) -> Result<CaptureSource, Memory>
        ensures { IfOk result (λ source. source.reader ≡ first_position) }
    {
        Ok(CaptureSource {
            reader: PacketReader::new(alloc)?,
            bytes: Vec::new(alloc),
        })
    }

    /// Reads the next packet, lets the session take it, and writes the notes about it. Returns how
    /// the capture has ended if there is no next packet.
    pub(crate) fn hand_next<R: io::Read, F: io::Write>(
        &mut self,
        alloc: Global,
        input: &mut R,
        session: &mut Session,
        faults: &mut F,
    ) -> Result<Option<Ending>, Memory>
        // No line is held back if the input has to be read for the next packet.
        requires due { IsLineDue self.old.reader session.old }
        ensures ok { IfOk result (HandsNext self.old.reader (R.remaining input.old)
            self.new.reader (R.remaining input.new)
            session.old session.new (F.contents faults.old) (F.contents faults.new)) }
        ensures err { OnErr result (F.contents faults.new ≡ F.contents faults.old) }
    {
        match self.reader.next(input, &mut self.bytes) {
            Ok(Some(head)) => {
                let packet = CapturedPacket {
                    time: head.time,
                    link: head.link,
                    wire_length: head.wire_length,
                    bytes: self.bytes.as_slice(),
                };
                session.take(alloc, &packet)?;
                session.notes.say(faults);
                Ok(None)
            }
            Ok(None) => Ok(Some(Ending::Whole)),
            Err(CaptureError::Fault { kind, place }) => Ok(Some(Ending::Fault { kind, place })),
            Err(CaptureError::Read) => Ok(Some(Ending::Unread)),
            Err(CaptureError::Memory) => Err(Memory),
        }
    }
}
