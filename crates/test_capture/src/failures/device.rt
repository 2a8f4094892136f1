//! An input and outputs that fail.

use std::alloc::Global;
use std::io;

/// An input that gives its bytes, and then the end or an error.
#[derive(Drop)]
pub struct InputDevice<'a> {
    left: &'a [u8],
    fails: bool,
}

impl<'a> InputDevice<'a> {
    pub fn new(bytes: &'a [u8], fails: bool) -> InputDevice<'a> {
        InputDevice { left: bytes, fails }
    }
}

impl io::Read for InputDevice<'_> {
    fn read(&mut self, buf: &mut [u8]) -> io::Result<usize> {
        if self.left.is_empty() && self.fails {
            return Err(io::Error::from(io::ErrorKind::ConnectionReset));
        }
        self.left.read(buf)
    }
}

/// An output that takes `room` bytes, after which a write fails.
#[derive(Drop)]
pub struct OutputDevice {
    taken: Vec<u8>,
    room: usize,
    failure: io::ErrorKind,
}

impl OutputDevice {
    pub fn new(alloc: Global, room: usize, failure: io::ErrorKind) -> OutputDevice {
        OutputDevice {
            taken: Vec::new(alloc),
            room,
            failure,
        }
    }

    /// Returns the bytes that it took.
    pub fn taken(&self) -> &[u8] {
        self.taken.as_slice()
    }
}

impl io::Write for OutputDevice {
    fn write(&mut self, buf: &[u8]) -> io::Result<usize> {
        if self.room == 0 {
            return Err(io::Error::from(self.failure));
        }
        let count = self.taken.write(&buf[..buf.len().min(self.room)])?;
        self.room = self.room.saturating_sub(count);
        Ok(count)
    }

    fn flush(&mut self) -> io::Result<()> {
        Ok(())
    }
}
