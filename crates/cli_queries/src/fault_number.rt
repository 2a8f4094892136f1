//! The command `fault`.
ghost use Rattle.std.specs.Prelude.{◌≡◌, IfSome, IsNone, IfOk, IfErr, string_bytes};
ghost use Rattle.cli_queries.specs.Answers.{PrintsAnswer, value_of};
ghost use Rattle.cli_queries.specs.Number.{Advises, HasNoAdvice, IsNumberAnswer, IsNumberFault};

use crate::answer::{CommandAnswer, answer_fault};
use crate::argument_values::WordFault;
use crate::command_fault::CommandFault;
use crate::printing::print_answer;
use crate::{advice, number_of};
use std::alloc::Global;
use std::io;

/// Returns the answer of `fault`: a line that says what the number means and what to do.
///
/// It is a fault if the word is not the number of a fault or a refusal.
pub fn answer_number(alloc: Global, word: &str) -> CommandAnswer
    ensures { IsNumberAnswer word.now (value_of result) }
{
    match advised(alloc, word) {
        Ok(text) => CommandAnswer::Printed(text),
        Err(fault) => answer_fault(alloc, fault),
    }
}

/// Explains the number of a fault or a refusal: writes the answer to `out`, or its fault to
/// `faults`.
///
/// Returns the status: 0 with the line, 2 if the word is not such a number, and 1 if memory runs
/// out or a writer fails.
pub fn fault<W: io::Write, F: io::Write>(
    alloc: Global,
    word: &str,
    out: &mut W,
    faults: &mut F,
) -> u8
    ensures { PrintsAnswer (IsNumberAnswer word.now) result (W.contents out.old) (W.contents out.new)
        (F.contents faults.old) (F.contents faults.new) }
{
    print_answer(&answer_number(alloc, word), out, faults)
}

fn advised(alloc: Global, word: &str) -> Result<String, CommandFault<'static>>
    ensures text { IfOk result (λ text. Advises word.now (string_bytes text)) }
    ensures fault { IfErr result (IsNumberFault word.now) }
{
    match advice_for(word) {
        Some(text) => Ok(String::from_str(alloc, text)?),
        None => Err(CommandFault::Word(WordFault::NotANumber)),
    }
}

fn advice_for(word: &str) -> Option<&'static str>
    ensures some { IfSome result (λ text. Advises word.now text.now) }
    ensures none { IsNone result → HasNoAdvice word.now }
{
    advice(number_of(word)?)
}
