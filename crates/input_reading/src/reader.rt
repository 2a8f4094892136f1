//! The lines of an input.
ghost use Rattle.std.specs.Prelude.{◌≡◌, ◌≢◌, ◌≤◌, [], OnErr, IfOk, length, drop};
ghost use Rattle.std.specs.Io.KnownBytes.{IsAtEnd, Keeps, prepend_known};
ghost use Rattle.input_reading.specs.Taking.{EndsLine, TakesLine};
ghost use Rattle.input_reading.specs.Tails.{HasLineFeed};

use crate::line::{finish, gather_line};
use crate::tail::Tail;
use crate::{ReadFault, read_once};
use std::alloc::{AllocError, Global};
use std::io;
use std::marker::Model;

/// The size of the window, in bytes: the most that one read returns.
const WINDOW: usize = 65_536;

/// A reader of lines. Bytes that were read and not yet taken are kept in a window of fixed size.
pub struct LineReader {
    window: Vec<u8>,
    start: usize,
    end: usize,
}

// proof: a value is dropped by one call, not part by part at each exit of a function.
impl Drop for LineReader {
    fn drop(self) {
        let LineReader {
            window: _window,
            start: _,
            end: _,
        } = self;
    }
}

/// The outcome of `LineReader::next`.
#[derive(Clone, Copy, Debug, PartialEq, Eq)]
pub enum Next {
    /// A line, up to its line feed.
    Line,
    /// The last bytes of the input, which have no line feed after them.
    Cut,
    /// Nothing: the input has ended.
    End,
}

/// Contracts see the bytes that were read and not yet taken.
impl Model for LineReader {
    ghost use Rattle.std.specs.Prelude.{◌≡◌, ◌≤◌, ℕ, List, slice_range, vec_len};
    ghost use Rattle.input_reading.specs.declared.reader.TheConstants.{WINDOW};

    ghost Value = { List ℕ };

    ghost view = { λ r. slice_range r.window.items r.start r.end };

    ghost invariant = { λ r. (r.start ≤ r.end) × (r.end ≤ vec_len r.window) × (vec_len r.window ≡ WINDOW) };
}

impl LineReader {
    /// Creates a reader that has read nothing.
    ///
    /// # Errors
    ///
    /// Returns `AllocError` if memory runs out.
    pub fn new(alloc: Global) -> Result<LineReader, AllocError>
        ensures { IfOk result (λ reader. reader ≡ []) }
    {
        let mut window = Vec::with_capacity(alloc, WINDOW)?;
        window.resize(WINDOW, 0)?;
        Ok(LineReader {
            window,
            start: 0,
            end: 0,
        })
    }

    /// Replaces `line` by the next line of the input, without its line feed. The bytes after the
    /// last line feed of the input are taken as a line too.
    ///
    /// A line of up to `LONGEST` bytes is unchanged. A longer one is cut after `LONGEST` bytes.
    /// Then `?` is appended if one of the other bytes is not a lower-case hexadecimal digit. If all
    /// of them are, `0` is appended if their number is odd, and nothing if it is even. So a result
    /// shorter than `LONGEST` is an unchanged line of the input.
    ///
    /// The input is not read if a line feed was already read. An interrupted read is repeated.
    ///
    /// # Errors
    ///
    /// Returns `Read` if the input could not be read, or `Memory` if memory runs out. The bytes of
    /// the line that were read before are then lost.
    pub fn next<R: io::Read>(
        &mut self,
        input: &mut R,
        line: &mut Vec<u8>,
    ) -> Result<Next, ReadFault>
        ensures taken { TakesLine self.old (R.remaining input.old) self.new (R.remaining input.new)
            line.new.items result }
        ensures unread { HasLineFeed self.old → (input.new ≡ input.old) × (result ≢ Err ReadFault.Read) }
    {
        line.clear();
        let mut tail = Tail::empty();
        for _ in 0..usize::MAX {
            if let Some(place) = gather_line(line, &mut tail, self.pending())? {
                self.pass(place + 1);
                finish(line, tail)?;
                return Ok(Next::Line);
            }
            if self.refill(input)? == 0 {
                return end_line(line, tail);
            }
        }
        Err(ReadFault::Read)
    }

    // Returns the bytes that were read and not yet taken.
    fn pending(&self) -> &[u8]
        ensures { result.now ≡ self.now }
    {
        &self.window[self.start..self.end]
    }

    // Removes the first `count` pending bytes.
    fn pass(&mut self, count: usize)
        requires { count ≤ length self.old }
        ensures { self.new ≡ drop count self.old }
    {
        self.start += count;
    }

    // Reads once into the window, and drops its previous bytes. Returns the number of bytes read.
    fn refill<R: io::Read>(&mut self, input: &mut R) -> Result<usize, ReadFault>
        ensures bytes { Keeps (R.remaining input.old) (prepend_known self.new (R.remaining input.new)) }
        ensures count { IfOk result (λ n. length self.new ≡ n) }
        ensures end { IfOk result (λ n. n ≡ 0 → IsAtEnd (R.remaining input.new)) }
        ensures none { OnErr result (self.new ≡ []) }
    {
        self.start = 0;
        self.end = 0;
        let count = read_once(input, &mut self.window)?;
        self.end = count;
        Ok(count)
    }
}

// Completes the line at the end of the input.
fn end_line(line: &mut Vec<u8>, tail: Tail) -> Result<Next, ReadFault>
    ensures { IfOk result (EndsLine line.old.items tail line.new.items) }
{
    if line.is_empty() {
        return Ok(Next::End);
    }
    finish(line, tail)?;
    Ok(Next::Cut)
}
