//! The dispatch from the words of the program to its commands.
ghost use Rattle.std.specs.Prelude.{◌≡◌, IfOk, codes};
ghost use Rattle.cli_args.specs.Command.{AreWorkers, IsJobFit};
ghost use Rattle.abr_cli.specs.Jobs.{HasFitWorkers, IsAsked, IsJobTold, IsCommandDone, capture_asked};
ghost use Rattle.abr_cli.specs.Jobs.{changes_asked, explain_asked, follow_asked, page_asked};
ghost use Rattle.abr_cli.specs.Jobs.{replay_asked, shown_progress};

use crate::capturing::CaptureCommand;
use crate::changing::ChangesCommand;
use crate::explaining::ExplainCommand;
use crate::paging::PageCommand;
use crate::replaying::ReplayCommand;
use capture_recording::Options;
use cli_args::{CaptureWords, Job, OneWords, Usage};
use cli_queries::{answer_usage, decode, fault, one, print_answer};
use output_lines::{Format, Show};
use replay::{PrintOptions, Progress};
use std::alloc::Global;
use std::hash::RandomState;
use std::io;
use std::sync::Wait;
use std::thread::Threads;
use worker_replay::ReplayOptions;

/// A call of the program: its job by its words, and the keys of its hash maps.
pub struct Invocation<'a> {
    pub job: Result<Job<'a>, Usage>,
    pub hashing: RandomState,
    /// The progress that is shown if the words do not ask for it, and the number of lines of the
    /// file, if known.
    pub progress: Progress,
    /// The contents of the file that is named after `--begin`, if there is one and it could be
    /// read.
    pub beginning: Option<&'a [u8]>,
}

impl Invocation<'_> {
    /// Carries out the job, or writes why there is none. Returns the status of the program.
    ///
    /// A recording or a capture is read from `input`. Output is written to `out`, and progress,
    /// faults and mistakes are written to `faults`. A replay has 1 to 16 workers.
    pub fn run<S: Threads + Wait + Sync, R: io::Read, W: io::Write, F: io::Write>(
        self,
        rt: &S,
        alloc: Global,
        input: &mut R,
        out: &mut W,
        faults: &mut F,
    ) -> u8
        requires { IfOk self.job IsJobFit }
        ensures { IsJobTold self.entry.progress self.entry.beginning self.entry.job result
            (R.remaining input.old) (R.remaining input.new) (W.contents out.old)
            (W.contents out.new) (F.contents faults.old) (F.contents faults.new) }
    {
        let Invocation {
            job,
            hashing,
            progress: own,
            beginning,
        } = self;
        match job {
            Ok(job) => {
                let asked = asked_of(job, own, beginning);
                do_asked(rt, alloc, Doing { asked, hashing }, input, out, faults)
            }
            Err(usage) => print_answer(&answer_usage(alloc, usage), out, faults),
        }
    }
}

// A command with its words.
#[derive(Clone, Copy)]
pub(crate) enum AnyCommand<'a> {
    One(OneWords<'a>),
    Decode { word: &'a str, long: bool },
    Replay(ReplayCommand<'a>),
    Changes(ChangesCommand<'a>),
    Explain(ExplainCommand<'a>),
    Page(PageCommand<'a>),
    Capture(CaptureCommand<'a>),
    Fault(&'a str),
}

// Returns the command that the job asks for.
fn asked_of<'a>(job: Job<'a>, own: Progress, beginning: Option<&'a [u8]>) -> AnyCommand<'a>
    requires { IsJobFit job }
    ensures asked { IsAsked own beginning.entry job.entry result }
    ensures workers { HasFitWorkers result }
{
    match job {
        Job::One(words) => AnyCommand::One(words),
        Job::Decode { word, long } => AnyCommand::Decode { word, long },
        Job::Replay {
            file,
            workers,
            show,
            format,
            progress,
        } => AnyCommand::Replay(replay_of(file, workers, show, format, shown(progress, own))),
        Job::Changes {
            file,
            only,
            format,
            progress,
        } => AnyCommand::Changes(changes_of(file, only, format, shown(progress, own))),
        Job::Follow {
            only,
            strict,
            format,
        } => AnyCommand::Changes(follow_of(only, strict, format)),
        Job::Explain {
            file,
            address,
            due,
            format,
            progress,
        } => AnyCommand::Explain(explain_of(file, address, due, format, shown(progress, own))),
        Job::Page {
            file,
            output,
            progress,
        } => AnyCommand::Page(page_of(file, output, shown(progress, own))),
        Job::Capture(words) => AnyCommand::Capture(capture_of(words, beginning)),
        Job::Fault(word) => AnyCommand::Fault(word),
    }
}

// A command to carry out.
#[derive(Clone, Copy)]
struct Doing<'a> {
    asked: AnyCommand<'a>,
    hashing: RandomState,
}

// Carries out the command, and returns the status.
fn do_asked<S: Threads + Wait + Sync, R: io::Read, W: io::Write, F: io::Write>(
    rt: &S,
    alloc: Global,
    doing: Doing<'_>,
    input: &mut R,
    out: &mut W,
    faults: &mut F,
) -> u8
    requires { HasFitWorkers doing.asked }
    ensures { IsCommandDone doing.entry.asked result (R.remaining input.old) (R.remaining input.new)
        (W.contents out.old) (W.contents out.new) (F.contents faults.old)
        (F.contents faults.new) }
{
    let Doing { asked, hashing } = doing;
    match asked {
        AnyCommand::One(words) => one(rt, alloc, hashing, &words, out, faults),
        AnyCommand::Decode { word, long } => decode(alloc, word, long, out, faults),
        AnyCommand::Replay(replay) => replay.run(rt, alloc, hashing, input, out, faults),
        AnyCommand::Changes(changes) => changes.run(alloc, hashing, input, out, faults),
        AnyCommand::Explain(explain) => explain.run(alloc, hashing, input, out, faults),
        AnyCommand::Page(page) => page.run(alloc, hashing, input, out, faults),
        AnyCommand::Capture(capture) => capture.run(alloc, hashing, input, out, faults),
        AnyCommand::Fault(word) => fault(alloc, word, out, faults),
    }
}

// Returns the command `replay`.
fn replay_of(
    file: &str,
    workers: usize,
    show: Show,
    format: Format,
    progress: Progress,
) -> ReplayCommand<'_>
    requires { AreWorkers workers }
    ensures asked { result ≡ replay_asked file.entry workers show format progress.is_shown }
    ensures workers { AreWorkers result.options.workers }
{
    let printing = PrintOptions {
        show,
        format,
        progress: progress.is_shown,
    };
    let options = ReplayOptions { workers, printing };
    ReplayCommand { file, options }
}

// Returns the program's own progress, shown also if the words ask for it.
fn shown(asked: bool, own: Progress) -> Progress
    ensures { result ≡ shown_progress asked own }
{
    Progress {
        is_shown: asked || own.is_shown,
        all: own.all,
    }
}

// Returns the command `changes`: it reports changes only, and ends at the first fault.
fn changes_of<'a>(
    file: &'a str,
    only: Option<&'a str>,
    format: Format,
    progress: Progress,
) -> ChangesCommand<'a>
    ensures { result ≡ changes_asked file.entry only.entry format progress }
{
    ChangesCommand {
        file,
        only,
        format,
        answers: false,
        skips_faults: false,
        progress,
    }
}

// Returns the command `explain`. A recording that is read whole has a known number of lines.
fn explain_of<'a>(
    file: &'a str,
    address: &'a str,
    due: Option<&'a str>,
    format: Format,
    progress: Progress,
) -> ExplainCommand<'a>
    ensures { result ≡ explain_asked file.entry address.entry due.entry format progress }
{
    ExplainCommand {
        file,
        address,
        due,
        format,
        progress: progress.is_shown,
    }
}

// Returns the command `page`. A recording that is read whole has a known number of lines.
fn page_of<'a>(file: &'a str, output: Option<&'a str>, progress: Progress) -> PageCommand<'a>
    ensures { result ≡ page_asked file.entry output.entry progress }
{
    PageCommand {
        file,
        output,
        progress: progress.is_shown,
    }
}

// Returns the command `capture`.
fn capture_of<'a>(words: CaptureWords<'a>, beginning: Option<&'a [u8]>) -> CaptureCommand<'a>
    ensures { result ≡ capture_asked words.entry beginning.entry }
{
    let options = Options {
        keeps_all: words.keeps_all,
        without_seconds: words.without_seconds,
    };
    CaptureCommand {
        file: words.file,
        router: words.router,
        begin: words.begin,
        beginning,
        options,
    }
}

// Returns the command `follow`. It reads standard input, reports the outcome of each line, and
// skips faults unless it is strict.
fn follow_of<'a>(only: Option<&'a str>, strict: bool, format: Format) -> ChangesCommand<'a>
    ensures file { result.file.now ≡ codes "-" }
    ensures asked { result ≡ follow_asked result.file only.entry strict format }
{
    ChangesCommand {
        file: "-",
        only,
        format,
        answers: true,
        skips_faults: !strict,
        progress: Progress {
            is_shown: false,
            all: None,
        },
    }
}
