//! The lines of a text, one by one.
ghost use Rattle.std.specs.Prelude.{◌≡◌, ◌≢◌, ◌≤◌, ◌+◌, [], ◌∷◌, length, IfSome, IsNone, OnOk};
ghost use Rattle.std.specs.Prelude.{OnErr, IfErr};

use crate::fault::{Fault, LineFault};
use memchr::memchr;

/// A text, and the number of its lines that were read.
#[derive(Clone, Copy)]
pub(crate) struct Lines<'a> {
    pub(crate) text: &'a [u8],
    /// The index at which the next line begins.
    pub(crate) start: usize,
    /// The number of lines that were read.
    pub(crate) taken: usize,
    ghost inside: { start ≤ length text.now },
    ghost counted: { taken ≤ start },
}

impl<'a> Lines<'a> {
    ghost use Rattle.recording.specs.Faults.{parts_of};
    ghost use Rattle.recording.specs.Left.{IsNextLine, fault_at, left_in, parts_left};

    pub(crate) fn of(text: &'a [u8]) -> Lines<'a>
        ensures text { result.text.now ≡ text.now }
        ensures taken { result.taken ≡ 0 }
        ensures left { parts_left result ≡ parts_of text.now }
    {
        Lines {
            text,
            start: 0,
            taken: 0,
        }
    }

    /// Returns the next line, without its line feed, and the lines after it, or `None` if no line
    /// feed is left.
    pub(crate) fn next(self) -> Option<(&'a [u8], Lines<'a>)>
        ensures line { IfSome result (λ found. IsNextLine self.entry found.0.now found.1) }
        ensures text { IfSome result (λ found. found.1.text.now ≡ self.entry.text.now) }
        ensures taken { IfSome result (λ found. found.1.taken ≡ self.entry.taken + 1) }
        ensures shorter { IfSome result (λ found. self.entry.start + 1 ≤ found.1.start) }
        ensures none { IsNone result → parts_left self.entry ≡ left_in self.entry ∷ [] }
    {
        let left = &self.text[self.start..];
        let end = memchr(b'\n', left)?;
        let after = Lines {
            text: self.text,
            start: self.start + end + 1,
            taken: self.taken + 1,
        };
        Some((&left[..end], after))
    }

    /// Checks that no bytes are left. Otherwise the last line has no line feed.
    pub(crate) fn end(self) -> Result<(), LineFault>
        ensures ok { OnOk result (left_in self.entry ≡ []) }
        ensures cut { OnErr result (left_in self.entry ≢ []) }
        ensures fault { IfErr result (λ e. e ≡ fault_at self.entry Fault.Truncated) }
    {
        if self.start == self.text.len() {
            Ok(())
        } else {
            Err(self.fault(Fault::Truncated))
        }
    }

    /// Returns a fault of the next line.
    pub(crate) fn fault(self, fault: Fault) -> LineFault
        ensures { result ≡ fault_at self.entry fault }
    {
        LineFault {
            line: self.taken + 1,
            fault,
        }
    }
}
