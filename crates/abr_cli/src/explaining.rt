//! The command `explain`.
ghost use Rattle.std.specs.Prelude.{◌≡◌, IfErr, IfOk, OnErr};
ghost use Rattle.cli_queries.specs.Words.{IsAddress, IsNoNetwork};
ghost use Rattle.abr_cli.specs.Explaining.{AsksToExplain, IsExplainTold, IsWordFault, WritesDest};

use crate::replaying::{say_end, say_fault};
use cli_queries::{CommandFault, WordFault, read_address, read_network};
use explained_replay::{Explaining, Question, explain_one};
use ospf_types::key::Dest;
use output_lines::Format;
use replay::Progress;
use std::alloc::Global;
use std::hash::RandomState;
use std::io;
use worker_replay::WorkerReplayFault;

/// The command `explain`, with its words.
#[derive(Clone, Copy)]
pub struct ExplainCommand<'a> {
    /// The name of the recording.
    pub file: &'a str,
    /// The word of the address. If an area is given, it is the word of a network, or of the Router
    /// ID of an AS boundary router.
    pub address: &'a str,
    /// The word of the area, if the question is about a due summary-LSA.
    pub due: Option<&'a str>,
    /// The form of the lines.
    pub format: Format,
    /// True if the progress is shown.
    pub progress: bool,
}

impl ExplainCommand<'_> {
    /// Runs the recording from `input`, and writes the explanation to `out`.
    ///
    /// The progress, and the reason if there is no explanation, are written to `faults`. Returns
    /// the status. It is 2 only if a word cannot be read: then nothing was read from `input`.
    pub fn run<R: io::Read, W: io::Write, F: io::Write>(
        self,
        alloc: Global,
        hashing: RandomState,
        input: &mut R,
        out: &mut W,
        faults: &mut F,
    ) -> u8
        ensures { IsExplainTold self.entry result (R.remaining input.old) (R.remaining input.new)
            (W.contents out.old) (W.contents out.new) (F.contents faults.old)
            (F.contents faults.new) }
    {
        let question = match question_of(self.address, self.due) {
            Ok(question) => question,
            Err(fault) => return say_fault(alloc, CommandFault::Word(fault), faults),
        };
        let explaining = Explaining {
            question,
            format: self.format,
            progress: self.progress,
        };
        let progress = Progress {
            is_shown: self.progress,
            all: None,
        };
        progress.show(alloc, 0, faults);
        let ended = explain_one(alloc, hashing, explaining, input, out, faults);
        progress.end(faults);
        match ended {
            Ok(()) => 0,
            Err(fault) => say_end(alloc, self.file, WorkerReplayFault::Replay(fault), faults),
        }
    }
}

// Returns the question that the words ask.
fn question_of(address: &str, due: Option<&str>) -> Result<Question, WordFault>
    ensures asks { IfOk result (AsksToExplain address.now due.entry) }
    ensures fault { IfErr result (IsWordFault address.now due.entry) }
{
    let Some(area) = due else {
        return Ok(Question::Address(read_address(address)?));
    };
    let area = read_address(area)?;
    let dest = dest_of(address)?;
    Ok(Question::Due(area, dest))
}

// Parses a network, or the Router ID of an AS boundary router.
fn dest_of(word: &str) -> Result<Dest, WordFault>
    ensures dest { IfOk result (WritesDest word.now) }
    ensures fault { OnErr result ((¬ IsAddress word.now) × IsNoNetwork word.now) }
    ensures err { OnErr result (result ≡ Err WordFault.NotANetwork) }
{
    match read_address(word) {
        Ok(router) => Ok(Dest::Router(router)),
        Err(_) => Ok(Dest::Net(read_network(word)?)),
    }
}
