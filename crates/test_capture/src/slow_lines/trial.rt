//! Expected lines, compared with the lines that are read.

use crate::slow_input::SlowInput;
use anyhow::{Result, ensure};
use input_reading::{LineReader, Next, ReadFault};
use std::alloc::{AllocError, Global};

/// The numbers of bytes a read. With the last one a read gives all that it can.
pub const STEPS: [usize; 5] = [1, 2, 3, 7, 1 << 30];

/// The expected result of a call.
#[derive(Clone, Copy)]
pub enum ExpectedResult<'a> {
    Line(&'a [u8]),
    Cut(&'a [u8]),
    End,
    Fault(ReadFault),
}

impl ExpectedResult<'_> {
    fn has_come(&self, answer: Result<Next, ReadFault>, line: &[u8]) -> bool {
        match (self, answer) {
            (ExpectedResult::Line(text), Ok(Next::Line)) => line == *text,
            (ExpectedResult::Cut(text), Ok(Next::Cut)) => line == *text,
            (ExpectedResult::End, Ok(Next::End)) => line.is_empty(),
            (ExpectedResult::Fault(fault), Err(found)) => *fault == found,
            _ => false,
        }
    }
}

/// An input, and its expected results.
#[derive(Clone, Copy)]
pub struct Trial<'a> {
    pub name: &'a str,
    pub text: &'a [u8],
    pub wanted: &'a [ExpectedResult<'a>],
}

impl Trial<'_> {
    /// Reads the lines with each of these numbers of bytes a read.
    ///
    /// # Errors
    ///
    /// Returns an error if a result is not the expected one, or if memory runs out.
    pub fn run(&self, alloc: Global, steps: &[usize]) -> Result<()> {
        let name = self.name;
        for step in steps {
            let mut input = SlowInput::new(self.text, *step).with_interrupts();
            let are_so = do_come(alloc, &mut input, self.wanted)?;
            ensure!(are_so, "{name}: something else comes by reads of {step}");
        }
        Ok(())
    }
}

/// Returns true if the input gives these results, in this order.
pub fn do_come(
    alloc: Global,
    input: &mut SlowInput<'_>,
    wanted: &[ExpectedResult<'_>],
) -> Result<bool, AllocError> {
    let mut reader = LineReader::new(alloc)?;
    let mut line = Vec::new(alloc);
    for one in wanted {
        let answer = reader.next(input, &mut line);
        if !one.has_come(answer, &line) {
            return Ok(false);
        }
    }
    Ok(true)
}
