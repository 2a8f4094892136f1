//! Lines about as long as the longest line that is kept whole, and far longer ones.

use crate::slow_lines::trial::{ExpectedResult, STEPS, Trial};
use anyhow::Result;
use input_reading::LONGEST;
use std::alloc::{AllocError, Global};

const DIGITS: [u8; 16] = *b"0123456789abcdef";

/// The length above which a line is read with fewer of the steps.
const MEGABYTE: usize = 1_000_000;

/// A line of `length` hexadecimal digits.
#[derive(Clone, Copy)]
pub struct LongLine {
    pub name: &'static str,
    length: usize,
    /// An index, and the byte that replaces the digit there.
    other: Option<(usize, u8)>,
    /// The mark that replaces the bytes left out.
    mark: &'static [u8],
}

/// Returns the lines to test.
pub fn long_lines() -> [LongLine; 11] {
    [
        of_digits("one digit less than the longest", LONGEST - 1, b""),
        of_digits("the longest", LONGEST, b""),
        of_digits("one digit more", LONGEST + 1, b"0"),
        of_digits("two digits more", LONGEST + 2, b""),
        with_other("another byte last", LONGEST + 2, (LONGEST + 1, b'g'), b"?"),
        with_other("a capital digit", LONGEST + 2, (LONGEST, b'A'), b"?"),
        with_other("another byte early", LONGEST + 3, (LONGEST - 1, b' '), b"0"),
        of_digits("10,000,000 digits", 10_000_000, b""),
        of_digits("10,000,001 digits", 10_000_001, b"0"),
        with_other(
            "another byte far behind",
            10_000_000,
            (9_999_999, b'\r'),
            b"?",
        ),
        with_other(
            "another byte in the middle",
            10_000_001,
            (5_000_000, b'/'),
            b"?",
        ),
    ]
}

fn of_digits(name: &'static str, length: usize, mark: &'static [u8]) -> LongLine {
    LongLine {
        name,
        length,
        other: None,
        mark,
    }
}

fn with_other(
    name: &'static str,
    length: usize,
    other: (usize, u8),
    mark: &'static [u8],
) -> LongLine {
    LongLine {
        name,
        length,
        other: Some(other),
        mark,
    }
}

impl LongLine {
    /// Reads the line from an input that ends with it, and from an input with another line after
    /// it.
    ///
    /// # Errors
    ///
    /// Returns an error if another line is read, or if memory runs out.
    pub fn run(&self, alloc: Global) -> Result<()> {
        let mut text = self.bytes(alloc)?;
        let mut line = Vec::from_slice(alloc, &text[..LONGEST.min(text.len())])?;
        line.extend_from_slice(self.mark)?;
        let last = Trial {
            name: self.name,
            text: &text,
            wanted: &[ExpectedResult::Cut(&line), ExpectedResult::End],
        };
        last.run(alloc, &STEPS[4..])?;
        text.extend_from_slice(b"\n2 up\n")?;
        let inside = Trial {
            name: self.name,
            text: &text,
            wanted: &[
                ExpectedResult::Line(&line),
                ExpectedResult::Line(b"2 up"),
                ExpectedResult::End,
            ],
        };
        let first = if self.length > MEGABYTE { 3 } else { 0 };
        inside.run(alloc, &STEPS[first..])
    }

    fn bytes(&self, alloc: Global) -> Result<Vec<u8>, AllocError> {
        let mut bytes: Vec<u8> = (0..self.length).map(|at| DIGITS[at % 16]).collect(alloc)?;
        if let Some((place, byte)) = self.other {
            if let Some(at) = bytes.get_mut(place) {
                *at = byte;
            }
        }
        Ok(bytes)
    }
}
