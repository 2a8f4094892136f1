//! The rows of a file, and how they are read. Each line of the file begins with a mark:
//!
//! | Mark | The rest of the line |
//! |---|---|
//! | `$` | begins a row: the arguments after `abr`, one space apart; `""` is an empty argument |
//! | `<` | a line of the input, with its line feed |
//! | `<+` | a repeated line of the input: the number, and the line |
//! | `\|` | a part of the input without a line feed |
//! | `<*` | a repeated part of the input: the number, and the part |
//! | `<x` | a part of the input, in hexadecimal |
//! | `^` | the input of the row before |
//! | `x` | the input cannot be read |
//! | `b` | a line of the file of `--begin`; without one, it cannot be read |
//! | `>` | an expected line of the output |
//! | `>+` | a repeated expected line of the output |
//! | `>*` | a repeated expected part of the output |
//! | `!` | an expected line on standard error |
//! | `!~` | an expected line on standard error, with `~` for each carriage return |
//! | `?` | any text may be printed |
//! | `=` | the expected status, and the end of the row |
//! | `#` | a remark |

use std::alloc::{AllocError, AllocFailed, Global};
use thiserror::Error;

/// A command, and its expected results.
#[derive(Debug)]
pub struct TestRow<'a> {
    /// The line at which the row begins, counted from 1.
    pub line: usize,
    pub words: Vec<&'a str>,
    pub input: Vec<u8>,
    pub is_readable: bool,
    /// The file of `--begin`. `has_beginning` is true if it can be read.
    pub beginning: Vec<u8>,
    pub has_beginning: bool,
    pub output: Vec<u8>,
    pub faults: Vec<u8>,
    pub is_any_text: bool,
    pub status: u8,
}

// proof: a value is dropped by one call, not part by part at each exit of a function.
impl<'a> Drop for TestRow<'a> {
    fn drop(self) {
        let TestRow {
            line: _,
            words: _words,
            input: _input,
            is_readable: _,
            beginning: _beginning,
            has_beginning: _,
            output: _output,
            faults: _faults,
            is_any_text: _,
            status: _,
        } = self;
    }
}

/// The reason why rows cannot be read.
#[derive(Clone, Copy, Debug, Error)]
pub enum RowFault {
    /// The line has no mark, or the mark is not allowed there.
    #[error("line {0} is none of a row")]
    Line(usize),
    #[error("no memory")]
    Memory,
}

impl From<AllocError> for RowFault {
    fn from(_e: AllocError) -> RowFault {
        RowFault::Memory
    }
}

impl<T> From<AllocFailed<T>> for RowFault
where
    T: Drop,
{
    fn from(_e: AllocFailed<T>) -> RowFault {
        RowFault::Memory
    }
}

/// Returns the rows of a file, in order.
///
/// # Errors
///
/// Returns the first line that is not valid, or `Memory` if memory runs out.
pub fn read_rows<'a>(alloc: Global, text: &'a str) -> Result<Vec<TestRow<'a>>, RowFault> {
    let mut rows = Vec::new(alloc);
    let mut open = None;
    let mut number = 0usize;
    for line in text.lines() {
        number = number.saturating_add(1);
        open = match open {
            None => begin_row(alloc, number, line)?,
            Some(row) => match go_on(row, rows.last(), number, line)? {
                RowState::Open(row) => Some(row),
                RowState::Ended(row) => {
                    rows.push(row)?;
                    None
                }
            },
        };
    }
    Ok(rows)
}

// A row that is open, or that has ended.
#[derive(Drop)]
enum RowState<'a> {
    Open(TestRow<'a>),
    Ended(TestRow<'a>),
}

// Returns the row that the line begins, or `None` if the line is empty or a remark.
fn begin_row<'a>(
    alloc: Global,
    number: usize,
    line: &'a str,
) -> Result<Option<TestRow<'a>>, RowFault> {
    if line.is_empty() || line.starts_with('#') {
        return Ok(None);
    }
    let Some(rest) = line.strip_prefix('$') else {
        return Err(RowFault::Line(number));
    };
    Ok(Some(TestRow {
        line: number,
        words: words_of(alloc, rest)?,
        input: Vec::new(alloc),
        is_readable: true,
        beginning: Vec::new(alloc),
        has_beginning: false,
        output: Vec::new(alloc),
        faults: Vec::new(alloc),
        is_any_text: false,
        status: 0,
    }))
}

// Returns the arguments of a command, each of which follows a space.
fn words_of<'a>(alloc: Global, text: &'a str) -> Result<Vec<&'a str>, RowFault> {
    let mut words = Vec::new(alloc);
    words.push("abr")?;
    let mut is_first = true;
    for word in text.split(' ') {
        if is_first {
            is_first = false;
        } else if word == "\"\"" {
            words.push("")?;
        } else {
            words.push(word)?;
        }
    }
    Ok(words)
}

// Adds a line to the row. `before` is the row before it, if there is one.
fn go_on<'a>(
    mut row: TestRow<'a>,
    before: Option<&TestRow<'a>>,
    number: usize,
    line: &str,
) -> Result<RowState<'a>, RowFault> {
    if let Some(status) = line.strip_prefix("= ") {
        row.status = status.parse().map_err(|_| RowFault::Line(number))?;
        return Ok(RowState::Ended(row));
    }
    if add_input(&mut row.input, number, line)? || add_wanted(&mut row, number, line)? {
        return Ok(RowState::Open(row));
    }
    if let Some(text) = line.strip_prefix("b ") {
        add_line(&mut row.beginning, text)?;
        row.has_beginning = true;
    } else if line == "^" {
        let before = before.ok_or(RowFault::Line(number))?;
        row.input.extend_from_slice(&before.input)?;
    } else if line == "x" {
        row.is_readable = false;
    } else if line == "?" {
        row.is_any_text = true;
    } else {
        return Err(RowFault::Line(number));
    }
    Ok(RowState::Open(row))
}

// Adds the line's part of the input. Returns false if the line is not part of the input.
fn add_input(input: &mut Vec<u8>, number: usize, line: &str) -> Result<bool, RowFault> {
    if let Some(text) = line.strip_prefix("< ") {
        add_line(input, text)?;
    } else if let Some(text) = line.strip_prefix("<+ ") {
        add_often(input, number, text, "\n")?;
    } else if let Some(text) = line.strip_prefix("<* ") {
        add_often(input, number, text, "")?;
    } else if let Some(text) = line.strip_prefix("<x ") {
        add_bytes(input, number, text)?;
    } else if let Some(text) = line.strip_prefix("| ") {
        input.extend_from_slice(text.as_bytes())?;
    } else {
        return Ok(false);
    }
    Ok(true)
}

// Adds the line's expected output. Returns false if the line is not part of it.
fn add_wanted(row: &mut TestRow<'_>, number: usize, line: &str) -> Result<bool, RowFault> {
    if let Some(text) = line.strip_prefix(">* ") {
        add_often(&mut row.output, number, text, "")?;
    } else if let Some(text) = line.strip_prefix(">+ ") {
        add_often(&mut row.output, number, text, "\n")?;
    } else if let Some(text) = line.strip_prefix("> ") {
        add_line(&mut row.output, text)?;
    } else if let Some(text) = line.strip_prefix("! ") {
        add_line(&mut row.faults, text)?;
    } else if let Some(text) = line.strip_prefix("!~ ") {
        add_over(&mut row.faults, text)?;
    } else {
        return Ok(false);
    }
    Ok(true)
}

// Appends the text and a line feed.
fn add_line(to: &mut Vec<u8>, text: &str) -> Result<(), RowFault> {
    to.extend_from_slice(text.as_bytes())?;
    to.push(b'\n')?;
    Ok(())
}

// Appends a line in which each `~` is replaced by a carriage return.
fn add_over(to: &mut Vec<u8>, text: &str) -> Result<(), RowFault> {
    for byte in text.as_bytes() {
        to.push(if *byte == b'~' { b'\r' } else { *byte })?;
    }
    to.push(b'\n')?;
    Ok(())
}

// Appends a repeated part, each time with this end.
fn add_often(to: &mut Vec<u8>, number: usize, text: &str, end: &str) -> Result<(), RowFault> {
    let (times, part) = text.split_once(' ').ok_or(RowFault::Line(number))?;
    let times: u32 = times.parse().map_err(|_| RowFault::Line(number))?;
    for _ in 0..times {
        to.extend_from_slice(part.as_bytes())?;
        to.extend_from_slice(end.as_bytes())?;
    }
    Ok(())
}

// Appends the bytes of the hexadecimal text.
fn add_bytes(to: &mut Vec<u8>, number: usize, text: &str) -> Result<(), RowFault> {
    let bytes = hex::decode(*to.allocator(), text).map_err(|_| RowFault::Line(number))?;
    to.extend_from_slice(&bytes)?;
    Ok(())
}
