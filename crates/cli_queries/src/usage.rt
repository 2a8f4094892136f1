//! The answer to words that name no command.
ghost use Rattle.cli_queries.specs.Answers.{value_of};
ghost use Rattle.cli_queries.specs.Usage.{IsErrorAnswer, IsUsageAnswer};
ghost use Rattle.std.specs.Prelude.{◌≡◌, ◌⊎◌};

use crate::answer::CommandAnswer;
use clap::Error;
use cli_args::Usage;
use std::alloc::Global;

/// Returns the text of help with status 0, or of a mistake with status 2. It is `NoMemory` if
/// memory runs out.
pub fn answer_usage(alloc: Global, usage: Usage) -> CommandAnswer
    ensures { IsUsageAnswer usage (value_of result) }
{
    match usage {
        Usage::Told(error) => answer_error(alloc, &error),
        Usage::Memory => CommandAnswer::NoMemory,
    }
}

fn answer_error(alloc: Global, error: &Error) -> CommandAnswer
    ensures { IsErrorAnswer error.now (value_of result) ⊎ (result ≡ CommandAnswer.NoMemory) }
{
    match format!(in alloc; "{error}") {
        Ok(text) if error.use_stderr() => CommandAnswer::Fault {
            status: 2,
            line: text,
        },
        Ok(text) => CommandAnswer::Printed(text),
        Err(_) => CommandAnswer::NoMemory,
    }
}
