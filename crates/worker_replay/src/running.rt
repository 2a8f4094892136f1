//! The run of a recording over an engine.
ghost use Rattle.std.specs.Prelude.{◌≡◌, ◌<◌, ◌≤◌, ◌+◌, ◌^◌, length, IfOk, IfErr, IfSome, None};
ghost use Rattle.std.specs.Prelude.{MatchResult, is_some, string_bytes};
ghost use Rattle.event_state.specs.BaseFaults.{base_fault_of};
ghost use Rattle.event_state.specs.Steps.{standard_limits};
ghost use Rattle.engine.specs.Answers.{AreAnswered};
ghost use Rattle.engine.specs.Opens.{IsRolledSerial};
ghost use Rattle.replay.specs.Lines.{first_number};
ghost use Rattle.worker_replay.specs.Runs.{IsNotRolled};
ghost use Rattle.worker_replay.specs.Parts.{AreWorkers, HasRun, HasPrinted, HasAllReplies, LooksOnce};
ghost use Rattle.worker_replay.specs.Parts.{IsRunFault};

use crate::asking::{Apart, Ask, set_all_apart};
use crate::dealing::{Answers, collect, deal};
use crate::fault::WorkerReplayFault;
use crate::learning::{Replies, learn_all};
use crate::printing::{Outcome, Rolled};
use engine::{Base, ConfigFault, Core, Engine, Event, Forwarder, Open, OpenFault, Refusal};
use ospf_types::memory::Memory;
use output_lines::Format;
use recording::{Line, Recording};
use replay::first_event_line;
use std::alloc::Global;
use std::hash::RandomState;
use std::sync::Wait;
use std::thread::Threads;

/// Runs a recording over an engine with this number of workers. Returns the printed lines, and the
/// core that the engine leaves.
pub(crate) fn run_recording<S: Threads + Wait + Sync>(
    rt: &S,
    alloc: Global,
    hashing: RandomState,
    recording: Recording,
    workers: usize,
    format: Format,
) -> Result<(String, Core), WorkerReplayFault>
    requires workers { AreWorkers workers }
    requires few { first_number recording.version recording.base + length recording.lines < 2 ^ 64 }
    ensures run { IfOk result (λ r. HasRun format recording (string_bytes r.0) r.1) }
    ensures fault { IfErr result IsRunFault }
{
    let (version, base, lines) = recording.into_parts();
    let first = first_event_line(version, &base);
    let numbered = NumberedLines { first, lines };
    let (engine, forwarder) = open_engine(rt, alloc, base, hashing)?;
    let printed = numbered.run(rt, alloc, &engine, forwarder, workers, format);
    let core = engine.close(rt);
    Ok((printed?, core))
}

// Opens an engine with one forwarder. The base of a recording has no fault.
fn open_engine<S: Wait>(
    rt: &S,
    alloc: Global,
    base: Base,
    hashing: RandomState,
) -> Result<(Engine, Forwarder), WorkerReplayFault>
    requires { base_fault_of standard_limits base ≡ None }
    ensures base { IfOk result (λ r. r.0.base ≡ base) }
    ensures forwarder { IfOk result (λ r. r.1.name ≡ r.0) }
    ensures fault { IfErr result IsRunFault }
{
    match Engine::open_from(rt, alloc, base, 1, hashing) {
        Ok((engine, mut forwarders)) => {
            let Some(forwarder) = forwarders.pop() else {
                unreachable!()
            };
            Ok((engine, forwarder))
        }
        Err(OpenFault::Config(ConfigFault::Memory)) => Err(Memory.into()),
        Err(OpenFault::Place) => Err(WorkerReplayFault::Place),
        Err(_) => unreachable!(),
    }
}

// The lines of a recording after its base, numbered from `first` on.
#[derive(Drop)]
struct NumberedLines {
    first: usize,
    lines: Vec<Line>,
}

impl NumberedLines {
    // Submits the events of the lines, and rolls once after the last of them, if a line asks for
    // it. Then it enters the published table once for all lookups, and returns the printed lines.
    fn run<S: Threads + Wait + Sync>(
        self,
        rt: &S,
        alloc: Global,
        engine: &Engine,
        forwarder: Forwarder,
        workers: usize,
        format: Format,
    ) -> Result<String, WorkerReplayFault>
        requires workers { AreWorkers workers }
        requires named { forwarder.name ≡ engine.now }
        requires few { self.first + length self.lines.items < 2 ^ 64 }
        ensures printed { IfOk result (λ text. HasPrinted format engine.now self.lines.items self.first
            (string_bytes text)) }
        ensures fault { IfErr result IsRunFault }
    {
        let NumberedLines { first, lines } = self;
        let Apart {
            events,
            asks,
            rolls,
        } = set_all_apart(alloc, lines)?;
        let answers = submit(rt, alloc, engine, events, workers)?;
        let (forwarder, replies) = learn_all(alloc, forwarder, answers)?;
        let rolled = roll(rt, engine, rolls);
        let answered = AnsweredLines {
            first,
            asks,
            replies,
            rolled,
            format,
        };
        answered.look(alloc, forwarder)
    }
}

// Rolls the engine, if a line asks for it.
fn roll<S: Wait>(rt: &S, engine: &Engine, is_asked: bool) -> Rolled
    ensures asked { is_some result ≡ is_asked }
    ensures answer { IfSome result (λ answer. MatchResult answer (IsRolledSerial engine.now.base)
        IsNotRolled) }
{
    if is_asked {
        Some(engine.roll(rt))
    } else {
        None
    }
}

// Submits the events with this number of workers. Returns the answers in the order of the events.
fn submit<S: Threads + Wait + Sync>(
    rt: &S,
    alloc: Global,
    engine: &Engine,
    events: Vec<Event>,
    workers: usize,
) -> Result<Answers, WorkerReplayFault>
    requires { AreWorkers workers }
    ensures answered { IfOk result (λ answers. AreAnswered engine.now events.items answers.items) }
    ensures fault { IfErr result IsRunFault }
{
    let count = events.len();
    let lists = deal(alloc, events, workers)?;
    match engine.submit_all(rt, alloc, lists, &Open) {
        Ok(answers) => Ok(collect(alloc, answers, count)?),
        Err(Refusal::Memory) => Err(Memory.into()),
        Err(Refusal::Spawn) => Err(WorkerReplayFault::Spawn),
        Err(_) => unreachable!(),
    }
}

// The output that the lines ask for, numbered from `first` on, with the replies to the events and
// the answer to the roll.
struct AnsweredLines {
    first: usize,
    asks: Vec<Ask>,
    replies: Replies,
    rolled: Rolled,
    format: Format,
}

// proof: a value is dropped by one call, not part by part at each exit of a function.
impl Drop for AnsweredLines {
    fn drop(self) {
        let AnsweredLines {
            first: _,
            asks: _asks,
            replies: _replies,
            rolled: _rolled,
            format: _,
        } = self;
    }
}

impl AnsweredLines {
    // Enters the published table once, and prints the lines.
    fn look(self, alloc: Global, forwarder: Forwarder) -> Result<String, WorkerReplayFault>
        requires replies { HasAllReplies self.asks.items self.replies.items }
        requires few { self.first + length self.asks.items < 2 ^ 64 }
        ensures looks { IfOk result (λ text. LooksOnce self.format forwarder self.first self.asks.items
            self.replies.items self.rolled (string_bytes text)) }
        ensures fault { IfErr result IsRunFault }
    {
        let AnsweredLines {
            first,
            asks,
            replies,
            rolled,
            format,
        } = self;
        let mut text = String::new(alloc);
        let Ok(seen) = forwarder.lookup(0) else {
            return Err(WorkerReplayFault::NoEntry);
        };
        let outcome = Outcome {
            rolled,
            seen: &seen,
            format,
        };
        let put = outcome.put_lines(first, asks, replies.as_slice(), &mut text);
        drop(seen.leave());
        put?;
        Ok(text)
    }
}
