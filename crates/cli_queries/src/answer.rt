//! The answer of a command as a value: a text, or the line of a fault with its status.
ghost use Rattle.std.specs.Prelude.{◌≡◌, ◌⊎◌, IfOk, string_bytes};
ghost use Rattle.cli_queries.specs.Faults.{command_fault_text, fault_line};
ghost use Rattle.cli_queries.specs.Answers.{faulty, value_of};

use crate::command_fault::CommandFault;
use std::alloc::{AllocError, Global};

/// The answer of a command, which `print_answer` writes.
#[derive(Debug, Drop)]
pub enum CommandAnswer {
    /// A text for standard output, with status 0.
    Printed(String),
    /// A line for standard error, with its status.
    Fault { status: u8, line: String },
    /// A lack of memory: the line `abr: 30 Memory`, with status 1.
    NoMemory,
}

/// Returns the answer with the line `abr: FAULT`, or `NoMemory` if there is no memory for the line.
pub fn answer_fault(alloc: Global, fault: CommandFault<'_>) -> CommandAnswer
    ensures { (value_of result ≡ faulty fault.entry)
        ⊎ (value_of result ≡ faulty CommandFault.Memory) }
{
    match line_of(alloc, fault) {
        Ok(line) => CommandAnswer::Fault {
            status: fault.status(),
            line,
        },
        Err(_) => CommandAnswer::NoMemory,
    }
}

/// Returns the line `abr: FAULT`.
pub fn line_of(alloc: Global, fault: CommandFault<'_>) -> Result<String, AllocError>
    ensures { IfOk result (λ line. string_bytes line
        ≡ fault_line (command_fault_text fault.entry)) }
{
    format!(in alloc; "abr: {fault}\n")
}
