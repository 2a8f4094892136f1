//! The bytes of an input that were read and not yet consumed.
ghost use Rattle.std.specs.Prelude.{◌≡◌, ◌≤◌, ◌<◌, ◌+◌, ◌++◌, ℕ, List, [], OnErr, OnOk, IfOk};
ghost use Rattle.std.specs.Prelude.{length, drop, vec_len};
ghost use Rattle.std.specs.Io.KnownBytes.{Consumes, IsAtEnd, Keeps};
ghost use Rattle.captures.specs.declared.window.TheConstants.{LARGEST};

use input_reading::{ReadFault, read_once};
use std::alloc::{AllocError, Global};
use std::io;

/// The number of bytes of a new window.
const FIRST: usize = 65_536;

/// The greatest number of bytes of a window: the length of the longest part of a capture.
pub(crate) const LARGEST: usize = 1_048_576;

/// The pending bytes of an input, which were read and not yet consumed, from `start` to `end`, and
/// free space after them.
#[derive(Drop)]
pub(crate) struct Window {
    bytes: Vec<u8>,
    start: usize,
    end: usize,
    ghost ordered: { start ≤ end },
    ghost within: { end ≤ vec_len bytes },
    ghost some: { 0 < vec_len bytes },
    ghost bounded: { vec_len bytes ≤ LARGEST },
}

impl Window {
    ghost use Rattle.captures.specs.Window.{pending, room};

    /// Creates a window with no pending bytes.
    pub(crate) fn new(alloc: Global) -> Result<Window, AllocError>
        ensures { IfOk result (λ window. pending window ≡ []) }
    {
        let mut bytes = Vec::with_capacity(alloc, FIRST)?;
        bytes.resize(FIRST, 0)?;
        Ok(Window {
            bytes,
            start: 0,
            end: 0,
        })
    }

    /// Returns the pending bytes.
    pub(crate) fn as_slice(&self) -> &[u8]
        ensures { result.now ≡ pending self.now }
    {
        &self.bytes[self.start..self.end]
    }

    /// Consumes the first `count` pending bytes.
    pub(crate) fn pass(&mut self, count: usize)
        requires { count ≤ length (pending self.old) }
        ensures { pending self.new ≡ drop count (pending self.old) }
    {
        self.start += count;
    }

    /// Reads once, and appends to the pending bytes. Returns the number of bytes read, which is 0
    /// only at the end of the input. An error loses no bytes.
    pub(crate) fn fill<R: io::Read>(&mut self, input: &mut R) -> Result<usize, ReadFault>
        requires { length (pending self.old) < LARGEST }
        ensures bytes { IfOk result (λ n. (more : List ℕ) × (length more ≡ n)
            × (pending self.new ≡ pending self.old ++ more)
            × Consumes (R.remaining input.old) (R.remaining input.new) more) }
        ensures end { IfOk result (λ n. n ≡ 0 → IsAtEnd (R.remaining input.new)) }
        ensures kept { OnErr result ((pending self.new ≡ pending self.old)
            × Keeps (R.remaining input.old) (R.remaining input.new)) }
    {
        self.move_to_front();
        self.make_room()?;
        Ok(self.read_behind(input)?)
    }

    // Moves the pending bytes to the start of the window.
    fn move_to_front(&mut self)
        ensures same { pending self.new ≡ pending self.old }
        ensures front { self.new.end ≡ length (pending self.old) }
    {
        let (start, end) = (self.start, self.end);
        if start == 0 {
            return;
        }
        self.bytes.copy_within(start..end, 0);
        self.start = 0;
        self.end = end - start;
    }

    // Grows the window if it has no free space after the pending bytes.
    fn make_room(&mut self) -> Result<(), AllocError>
        requires { self.old.end < LARGEST }
        ensures same { pending self.new ≡ pending self.old }
        ensures some { OnOk result (0 < room self.new) }
    {
        let size = self.bytes.len();
        if self.end == size {
            self.bytes.resize(LARGEST.min(2 * size), 0)?;
        }
        Ok(())
    }

    // Reads once into the free space after the pending bytes.
    fn read_behind<R: io::Read>(&mut self, input: &mut R) -> io::Result<usize>
        requires { 0 < room self.old }
        ensures bytes { IfOk result (λ n. (more : List ℕ) × (length more ≡ n)
            × (pending self.new ≡ pending self.old ++ more)
            × Consumes (R.remaining input.old) (R.remaining input.new) more) }
        ensures end { IfOk result (λ n. n ≡ 0 → IsAtEnd (R.remaining input.new)) }
        ensures kept { OnErr result ((pending self.new ≡ pending self.old)
            × Keeps (R.remaining input.old) (R.remaining input.new)) }
    {
        let end = self.end;
        let count = read_once(input, &mut self.bytes[end..])?;
        self.end = end + count;
        Ok(count)
    }
}
