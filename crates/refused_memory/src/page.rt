//! A device that allocates no memory.

use std::io;

/// A page of 1,024 bytes that is written from its start.
#[derive(Drop)]
pub struct OutputPage {
    bytes: [u8; 1024],
    count: usize,
}

impl OutputPage {
    pub fn empty() -> OutputPage {
        OutputPage {
            bytes: [0; 1024],
            count: 0,
        }
    }

    /// Returns the bytes that were written.
    pub fn written(&self) -> &[u8] {
        self.bytes.get(..self.count).unwrap_or(&[])
    }
}

impl io::Write for OutputPage {
    fn write(&mut self, buf: &[u8]) -> io::Result<usize> {
        let Some(left) = self.bytes.get_mut(self.count..) else {
            return Ok(0);
        };
        let count = left.len().min(buf.len());
        left[..count].copy_from_slice(&buf[..count]);
        self.count = self.count.saturating_add(count);
        Ok(count)
    }

    fn flush(&mut self) -> io::Result<()> {
        Ok(())
    }
}
