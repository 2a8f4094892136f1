//! The packets of a capture that is read from an input.
ghost use Rattle.std.specs.Prelude.{◌≡◌, ◌<◌, ◌==◌, ◌&&◌, ℕ, List, IfOk, length, not};
ghost use Rattle.captures.specs.Reading.{has_begun};
ghost use Rattle.captures.specs.Positions.{ReadsNext, beginning, further};
ghost use Rattle.captures.specs.declared.capture_error.CaptureError.TheVariants.{Fault};
ghost use Rattle.captures.specs.declared.fault.FaultKind.TheVariants as FaultKind;
ghost use Rattle.captures.specs.ReaderSteps.{Fills, IsShort, Passes, Steps};
ghost use Rattle.captures.specs.declared.window.TheConstants.{LARGEST};

use crate::capture_error::CaptureError;
use crate::window::Window;
use crate::{Capture, CapturedPacket, FaultKind, Part, ReadError};
use input_reading::ReadFault;
use std::alloc::{AllocError, Global};
use std::io;
use std::marker::Model;

/// A reader of the packets of a capture. Bytes that were read and not yet consumed are kept in a
/// window.
pub struct PacketReader {
    window: Window,
    capture: Capture,
    // The number of bytes to consume before the next part.
    ahead: usize,
    // The place of the first pending byte in the capture.
    place: u64,
}

// proof: a value is dropped by one call, not part by part at each exit of a function.
impl Drop for PacketReader {
    fn drop(self) {
        let PacketReader {
            window: _window,
            capture: _capture,
            ahead: _,
            place: _,
        } = self;
    }
}

/// A packet without its bytes.
#[derive(Clone, Copy, Debug, PartialEq, Eq)]
pub struct PacketHead {
    /// The time of the packet in nanoseconds since the beginning of 1970, UTC. `None` for a simple
    /// packet of a pcapng, which has no time.
    pub time: Option<u64>,
    /// The LINKTYPE_ number: the protocol that the bytes begin with, 1 for Ethernet.
    pub link: u16,
    /// The number of bytes that the packet had on the wire.
    pub wire_length: u32,
}

/// The outcome of a step.
#[derive(Clone, Copy)]
pub(crate) enum ReadStep {
    /// No packet yet.
    On,
    /// A packet.
    Packet(PacketHead),
    /// The end of the capture.
    End,
}

/// Contracts see how far the capture was read.
impl Model for PacketReader {
    ghost use Rattle.std.specs.Prelude.{◌<◌, ◌^◌};
    ghost use Rattle.captures.specs.Positions.{Position};
    ghost use Rattle.captures.specs.Window.{pending as pending_in};

    ghost Value = { Position };

    ghost view = { λ r. record {
      state = r.capture;
      ahead = r.ahead;
      pending = pending_in r.window;
      place = r.place;
    } };

    ghost invariant = { λ r. r.place < 2 ^ 64 };
}

impl PacketReader {
    /// Creates a reader that has read nothing.
    ///
    /// # Errors
    ///
    /// Returns `AllocError` if memory runs out.
    pub fn new(alloc: Global) -> Result<PacketReader, AllocError>
        ensures { IfOk result (λ reader. reader ≡ beginning) }
    {
        Ok(PacketReader {
            window: Window::new(alloc)?,
            capture: Capture::new(alloc),
            ahead: 0,
            place: 0,
        })
    }

    /// Reads the next packet, and replaces `bytes` by its bytes. Returns `None` at the end of the
    /// capture.
    ///
    /// The input is read as far as the packet needs, in large pieces. An interrupted read is
    /// repeated.
    ///
    /// # Errors
    ///
    /// Returns `Fault` if the bytes are not valid or the input ended within a part. Returns `Read`
    /// if the input could not be read; all packets in the bytes read before have then been
    /// returned. Returns `Memory` if memory runs out.
    ///
    /// No bytes are lost by an error. After `Read` or `Memory`, another call continues from there.
    /// After `Fault`, another call returns the same fault, unless an input that had ended has more
    /// bytes by then.
    pub fn next<R: io::Read>(
        &mut self,
        input: &mut R,
        bytes: &mut Vec<u8>,
    ) -> Result<Option<PacketHead>, CaptureError>
        ensures { ReadsNext self.old (R.remaining input.old) self.new (R.remaining input.new)
            bytes.new.items result }
    {
        for _ in 0..usize::MAX {
            match self.step(input, bytes)? {
                ReadStep::On => {}
                ReadStep::Packet(head) => return Ok(Some(head)),
                ReadStep::End => return Ok(None),
            }
        }
        // proof: the loop ends earlier, as no input has `usize::MAX` parts.
        Err(CaptureError::Memory)
    }

    /// Returns true if bytes of the input were read and not yet consumed. If not, the next call of
    /// `next` begins with a read of the input.
    pub fn has_pending(&self) -> bool
        ensures { result ≡ not (length self.now.pending == 0) }
    {
        !self.window.as_slice().is_empty()
    }

    // Takes a packet, consumes other bytes, or reads further.
    fn step<R: io::Read>(
        &mut self,
        input: &mut R,
        bytes: &mut Vec<u8>,
    ) -> Result<ReadStep, CaptureError>
        ensures { Steps self.old (R.remaining input.old) self.new (R.remaining input.new)
            bytes.new.items result }
    {
        if self.ahead > 0 {
            return self.pass_ahead(input);
        }
        match self.capture.read_part(self.window.as_slice()) {
            Ok(Part::More(_)) => self.read_further(input),
            Ok(Part::Skip(length)) => {
                self.ahead = length;
                Ok(ReadStep::On)
            }
            Ok(Part::Packet { packet, length }) => {
                bytes.clear();
                bytes.extend_from_slice(packet.bytes)?;
                let head = PacketHead {
                    time: packet.time,
                    link: packet.link,
                    wire_length: packet.wire_length,
                };
                self.ahead = length;
                self.pass_pending();
                Ok(ReadStep::Packet(head))
            }
            Err(ReadError::Fault(kind)) => Err(CaptureError::Fault {
                kind,
                place: self.place,
            }),
            Err(ReadError::Memory) => Err(CaptureError::Memory),
        }
    }

    // Consumes the pending bytes before the next part. Reads further if they are not all pending
    // yet.
    fn pass_ahead<R: io::Read>(&mut self, input: &mut R) -> Result<ReadStep, CaptureError>
        requires { 0 < self.old.ahead }
        ensures { (bytes : List ℕ) → Steps self.old (R.remaining input.old)
            self.new (R.remaining input.new) bytes result }
    {
        self.pass_pending();
        if self.ahead == 0 {
            return Ok(ReadStep::On);
        }
        if self.read_more(input)? == 0 {
            return Err(self.cut_off());
        }
        Ok(ReadStep::On)
    }

    // Consumes the pending bytes before the next part.
    fn pass_pending(&mut self)
        ensures { Passes self.old self.new }
    {
        let count = self.ahead.min(self.window.as_slice().len());
        self.window.pass(count);
        self.ahead -= count;
        self.place = self.place.saturating_add(count as u64);
    }

    // Reads further, as less than a whole part is pending.
    fn read_further<R: io::Read>(&mut self, input: &mut R) -> Result<ReadStep, CaptureError>
        requires short { IsShort self.old }
        requires room { length self.old.pending < LARGEST }
        ensures { (bytes : List ℕ) → Steps self.old (R.remaining input.old)
            self.new (R.remaining input.new) bytes result }
    {
        if self.read_more(input)? > 0 {
            return Ok(ReadStep::On);
        }
        if self.is_whole() {
            return Ok(ReadStep::End);
        }
        Err(self.cut_off())
    }

    // Returns true if a capture that ends here has ended after a part.
    fn is_whole(&self) -> bool
        ensures { result ≡ (has_begun self.now.state && (length self.now.pending == 0)) }
    {
        self.capture.has_begun() && self.window.as_slice().is_empty()
    }

    // Reads once, and returns the number of bytes read.
    fn read_more<R: io::Read>(&mut self, input: &mut R) -> Result<usize, ReadFault>
        requires { length self.old.pending < LARGEST }
        ensures { Fills self.old (R.remaining input.old) self.new (R.remaining input.new) result }
    {
        self.window.fill(input)
    }

    // Returns the fault of an input that has ended within a part.
    fn cut_off(&self) -> CaptureError
        ensures { result ≡ Fault FaultKind.CutOff
            (further self.now.place (length self.now.pending)) }
    {
        CaptureError::Fault {
            kind: FaultKind::CutOff,
            place: self
                .place
                .saturating_add(self.window.as_slice().len() as u64),
        }
    }
}
