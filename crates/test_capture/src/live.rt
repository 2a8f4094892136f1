//! Records a capture with one packet at each read. It prints how many bytes of the recording were
//! written before each read.

use crate::failures::samples::{CAPTURE, FIRST, FRONT, HEADER};
use anyhow::{Result, ensure};
use capture_recording::{Capturing, Options, Preamble, record_capture};
use std::cell::Cell;
use std::hash::RandomState;
use std::io;

/// The default options.
const OPTIONS: Options = Options {
    keeps_all: false,
    without_seconds: false,
};

/// An input that gives the header, and then one packet at each read.
#[derive(Drop)]
struct PacketInput<'a> {
    reads: usize,
    written: &'a Cell<usize>,
    /// The number of bytes written before each of the first reads.
    seen: [usize; 4],
}

impl io::Read for PacketInput<'_> {
    fn read(&mut self, buf: &mut [u8]) -> io::Result<usize> {
        if let Some(seen) = self.seen.get_mut(self.reads) {
            *seen = self.written.get();
        }
        let mut part = match self.reads {
            0 => &CAPTURE[..HEADER],
            1 => &CAPTURE[HEADER..FIRST],
            2 => &CAPTURE[FIRST..],
            _ => &CAPTURE[..0],
        };
        self.reads = self.reads.saturating_add(1);
        part.read(buf)
    }
}

/// An output that counts the bytes written.
#[derive(Drop)]
struct CountingOutput<'a> {
    written: &'a Cell<usize>,
}

impl io::Write for CountingOutput<'_> {
    fn write(&mut self, buf: &[u8]) -> io::Result<usize> {
        self.written
            .set(self.written.get().saturating_add(buf.len()));
        Ok(buf.len())
    }

    fn flush(&mut self) -> io::Result<()> {
        Ok(())
    }
}

/// Prints how many bytes were written before each read. The lines of a packet are written before
/// the next packet is read.
///
/// # Errors
///
/// Returns an error if the capture is not recorded, or if memory runs out.
pub fn run(rt: &HostRuntime) -> Result<()> {
    let written = Cell::new(0);
    let mut input = PacketInput {
        reads: 0,
        written: &written,
        seen: [0; 4],
    };
    let mut out = CountingOutput { written: &written };
    let mut said = Vec::new(rt.alloc());
    let capturing = Capturing {
        options: OPTIONS,
        beginning: Preamble::Given(FRONT),
    };
    let hashing = RandomState::new(rt)?;
    let answer = record_capture(
        rt.alloc(),
        hashing,
        capturing,
        &mut input,
        &mut out,
        &mut said,
    );
    ensure!(answer.is_ok(), "the capture is not recorded");
    println!(rt; "written at each read: {:?}", input.seen)?;
    Ok(())
}
