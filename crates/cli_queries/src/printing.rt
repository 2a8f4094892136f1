//! The output of the program.
ghost use Rattle.cli_queries.specs.Answers.{IsAnswerPrinted, IsSaid, IsUnwrittenSaid, value_of, printed};

use crate::answer::CommandAnswer;
use replay::{WriteError, write_whole};
use std::io;

/// The line for a lack of memory.
pub const NO_MEMORY: &str = "abr: 30 Memory\n";

const CANNOT_WRITE: &str = "abr: cannot write\n";

/// Writes the answer to its stream, `out` or `faults`. Returns the status of the program.
///
/// It is the status of the answer, or 1 if a writer fails. If `out` fails, a line on `faults` says
/// so. There is no such line if the error of `out` is of the kind `BrokenPipe`: the reading end of
/// its pipe was closed.
pub fn print_answer<W: io::Write, F: io::Write>(
    answer: &CommandAnswer,
    out: &mut W,
    faults: &mut F,
) -> u8
    ensures { IsAnswerPrinted (value_of answer.now) result (W.contents out.old) (W.contents out.new)
        (F.contents faults.old) (F.contents faults.new) }
{
    match answer {
        CommandAnswer::Printed(text) => print(text.as_str(), out, faults),
        CommandAnswer::Fault { status, line } => print_fault(line.as_str(), *status, faults),
        CommandAnswer::NoMemory => print_fault(NO_MEMORY, 1, faults),
    }
}

fn print<W: io::Write, F: io::Write>(text: &str, out: &mut W, faults: &mut F) -> u8
    ensures { IsAnswerPrinted (printed text.now) result (W.contents out.old) (W.contents out.new)
        (F.contents faults.old) (F.contents faults.new) }
{
    match write_whole(out, text.as_bytes()) {
        Ok(()) => 0,
        Err(why) => say_unwritten(why, faults),
    }
}

/// Writes that the output was not written whole, unless its pipe was closed. Returns the status, 1.
pub fn say_unwritten<F: io::Write>(why: WriteError, faults: &mut F) -> u8
    ensures { IsUnwrittenSaid why result (F.contents faults.old) (F.contents faults.new) }
{
    match why {
        WriteError::Failed => print_fault(CANNOT_WRITE, 1, faults),
        WriteError::Closed => 1,
    }
}

/// Writes the line of a fault with this status. Returns the status, or 1 if the writer fails.
pub fn print_fault<F: io::Write>(line: &str, status: u8, faults: &mut F) -> u8
    ensures { IsSaid line.now status result (F.contents faults.old) (F.contents faults.new) }
{
    match write_whole(faults, line.as_bytes()) {
        Ok(()) => status,
        Err(_) => 1,
    }
}
