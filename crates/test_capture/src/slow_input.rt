//! A slow input.

use std::io;

/// An input that gives at most `step` bytes a read. It may interrupt every other read, and a read
/// may fail between its two parts.
#[derive(Drop)]
pub struct SlowInput<'a> {
    left: &'a [u8],
    step: usize,
    fault: Option<io::ErrorKind>,
    behind: &'a [u8],
    interrupts: bool,
    was_interrupted: bool,
}

impl<'a> SlowInput<'a> {
    /// Creates an input of one part.
    pub fn new(bytes: &'a [u8], step: usize) -> SlowInput<'a> {
        SlowInput {
            left: bytes,
            step,
            fault: None,
            behind: &[],
            interrupts: false,
            was_interrupted: false,
        }
    }

    /// Interrupts every other read of the input.
    pub fn with_interrupts(self) -> SlowInput<'a> {
        SlowInput {
            interrupts: true,
            ..self
        }
    }

    /// Adds this error and then more bytes after the bytes of the input.
    pub fn with_fault(self, fault: io::ErrorKind, behind: &'a [u8]) -> SlowInput<'a> {
        SlowInput {
            fault: Some(fault),
            behind,
            ..self
        }
    }
}

impl io::Read for SlowInput<'_> {
    fn read(&mut self, buf: &mut [u8]) -> io::Result<usize> {
        self.was_interrupted = self.interrupts && !self.was_interrupted;
        if self.was_interrupted {
            return Err(io::Error::from(io::ErrorKind::Interrupted));
        }
        if self.left.is_empty() {
            if let Some(fault) = self.fault.take() {
                self.left = self.behind;
                return Err(io::Error::from(fault));
            }
        }
        let count = self.step.min(self.left.len()).min(buf.len());
        buf[..count].copy_from_slice(&self.left[..count]);
        self.left = &self.left[count..];
        Ok(count)
    }
}
