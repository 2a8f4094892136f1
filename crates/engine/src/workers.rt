//! Several workers on one engine, each with its own list of events.
ghost use Rattle.std.specs.Prelude.{◌≡◌, ◌<◌, ◌≤◌, ◌⊎◌, [], length, vec_len, vec_capacity, IfOk};
ghost use Rattle.std.specs.Prelude.{IfErr, IfSome, IsTrue};
ghost use Rattle.std.specs.List.{AllZip};
ghost use Rattle.engine.specs.Answers.{AreAnswered};
ghost use Rattle.engine.specs.Gates.{HavePassed};
ghost use Rattle.event_state.specs.declared.refusal.Refusal.TheVariants.{Memory, Spawn, Workers};

use crate::engine::Engine;
use crate::{Answer, Gate, Refused};
use event_core::{Event, Refusal};
use std::alloc::{AllocError, Global};
use std::snapshot::Snapshot;
use std::sync::Wait;
use std::thread;
use std::thread::{Promise, PromisedHandle, Scope, Threads};

const MOST_WORKERS: usize = 16;

/// The answers to the events of one list, in order.
pub type Answers = Vec<Result<Answer, Refused>>;

/// The events of a worker, and a list with room for their answers.
#[derive(Drop)]
pub struct WorkerJob {
    pub events: Vec<Event>,
    pub answers: Answers,
    ghost empty: { answers.items ≡ [] },
    ghost room: { vec_len events ≤ vec_capacity answers },
}

// Creates the job of a list, with room for the answers.
fn prepared(alloc: Global, events: Vec<Event>) -> Result<WorkerJob, AllocError>
    ensures { IfOk result (λ j. j.events ≡ events) }
{
    let answers = Vec::with_capacity(alloc, events.len())?;
    Ok(WorkerJob { events, answers })
}

// Submits the events of a worker in order, each through the gate.
fn work<R: Wait, G: Gate>(
    rt: &R,
    engine: &Engine,
    gate: &G,
    worker: usize,
    job: WorkerJob,
) -> Answers
    ensures answered { AreAnswered engine.now job.events.items result.items }
    ensures gate { HavePassed (G.came gate.now) (G.passed gate.now) (G.left gate.now)
        worker 0 result.items }
{
    let WorkerJob {
        events,
        mut answers,
    } = job;
    let mut place = 0;
    for event in events {
        let answer = engine.submit_gated(rt, event, gate, worker, place);
        let Ok(()) = answers.push(answer) else {
            unreachable!()
        };
        place += 1;
    }
    answers
}

/// The promise of a worker's thread: it returns the answers to its events.
#[derive(Drop)]
struct Answering<'a> {
    engine: &'a Engine,
    events: Snapshot<Vec<Event>>,
}

impl<'a> Promise<Answers> for Answering<'a> {
    ghost use Rattle.engine.specs.Answers.{AreAnswered};

    ghost kept_by = { λ p r. AreAnswered p.engine.now p.events.value.items r.items };
}

type Child<'s> = PromisedHandle<Answers, Answering<'s>>;

// Starts a thread for the job.
fn start<'s, E, R: Threads + Wait + Sync, G: Gate>(
    scope: &'s Scope<'s, E>,
    rt: &'s R,
    engine: &'s Engine,
    gate: &'s G,
    worker: usize,
    job: WorkerJob,
) -> Option<Child<'s>>
    ensures { IfSome result (λ h. (h.promise.engine.now ≡ engine.now)
        × (h.promise.events.value.items ≡ job.events.items)) }
{
    let promise = Answering {
        engine,
        events: Snapshot::of(&job.events),
    };
    scope
        .spawn_with(promise, move || work(rt, engine, gate, worker, job))
        .ok()
}

// Starts a thread for each job. Returns false if a thread could not be started.
fn start_all<'s, E, R: Threads + Wait + Sync, G: Gate>(
    scope: &'s Scope<'s, E>,
    rt: &'s R,
    engine: &'s Engine,
    gate: &'s G,
    jobs: Vec<WorkerJob>,
    children: &mut Vec<Child<'s>>,
) -> bool
    requires empty { children.old.items ≡ [] }
    requires room { vec_len jobs ≤ vec_capacity children.old }
    ensures count { vec_len children.new ≤ vec_len jobs }
    ensures children { IsTrue result → AllZip
        (λ job h. (h.promise.engine.now ≡ engine.now)
        × (h.promise.events.value.items ≡ job.events.items))
        jobs.items children.new.items }
{
    let mut worker = 0;
    for job in jobs {
        let Some(child) = start(scope, rt, engine, gate, worker, job) else {
            return false;
        };
        let Ok(()) = children.push(child) else {
            return false;
        };
        worker += 1;
    }
    true
}

// Joins all threads.
fn join_all<'s, R: Threads>(rt: &R, children: Vec<Child<'s>>, all: Vec<Answers>) -> Vec<Answers>
    requires empty { all.items ≡ [] }
    requires room { vec_len children ≤ vec_capacity all }
    ensures { AllZip
        (λ h answers.
        AreAnswered h.promise.engine.now h.promise.events.value.items answers.items)
        children.entry.items result.items }
{
    let mut all = all;
    for child in children {
        let Ok(()) = all.push(child.join(rt)) else {
            unreachable!()
        };
    }
    all
}

/// Lists with room for the threads of the jobs, and for the answers of each.
#[derive(Drop)]
struct Room<'s> {
    children: Vec<Child<'s>>,
    all: Vec<Answers>,
}

// Creates lists with room for the threads of `count` jobs.
fn room_for<'s>(alloc: Global, count: usize) -> Result<Room<'s>, AllocError>
    ensures empty { IfOk result (λ room. (room.children.items ≡ []) × (room.all.items ≡ [])) }
    ensures room { IfOk result (λ room. (count ≤ vec_capacity room.children)
        × (count ≤ vec_capacity room.all)) }
{
    let all = Vec::with_capacity(alloc, count)?;
    let children = Vec::with_capacity(alloc, count)?;
    Ok(Room { children, all })
}

// Runs each job on its own thread, and joins all threads that were started. Memory was reserved
// before, so the only refusal is 31 Spawn.
fn run_all<'s, E, R: Threads + Wait + Sync, G: Gate>(
    scope: &'s Scope<'s, E>,
    rt: &'s R,
    engine: &'s Engine,
    gate: &'s G,
    jobs: Vec<WorkerJob>,
    room: Room<'s>,
) -> Result<Vec<Answers>, Refusal>
    requires empty { (room.children.items ≡ []) × (room.all.items ≡ []) }
    requires room { (vec_len jobs ≤ vec_capacity room.children)
        × (vec_len jobs ≤ vec_capacity room.all) }
    ensures answers { IfOk result (λ all. AllZip
        (λ job answers. AreAnswered engine.now job.events.items answers.items)
        jobs.items all.items) }
    ensures cause { IfErr result (λ e. e ≡ Spawn) }
{
    let Room { mut children, all } = room;
    let started = start_all(scope, rt, engine, gate, jobs, &mut children);
    let all = join_all(rt, children, all);
    if started {
        Ok(all)
    } else {
        Err(Refusal::Spawn)
    }
}

// Reserves memory for the threads before any of them starts, and then runs each job on a thread.
fn run_with_room<'s, E, R: Threads + Wait + Sync, G: Gate>(
    scope: &'s Scope<'s, E>,
    rt: &'s R,
    alloc: Global,
    engine: &'s Engine,
    gate: &'s G,
    jobs: Vec<WorkerJob>,
) -> Result<Vec<Answers>, Refusal>
    ensures answers { IfOk result (λ all. AllZip
        (λ job answers. AreAnswered engine.now job.events.items answers.items)
        jobs.items all.items) }
    ensures causes { IfErr result (λ e. (e ≡ Spawn) ⊎ (e ≡ Memory)) }
{
    match room_for(alloc, jobs.len()) {
        Ok(room) => run_all(scope, rt, engine, gate, jobs, room),
        Err(_) => Err(Refusal::Memory),
    }
}

// Creates the jobs of the lists, with room for their answers.
fn all_prepared(alloc: Global, lists: Vec<Vec<Event>>) -> Result<Vec<WorkerJob>, AllocError>
    ensures { IfOk result (λ jobs.
        AllZip (λ events job. job.events ≡ events) lists.items jobs.items) }
{
    let mut jobs = Vec::new(alloc);
    for events in lists {
        jobs.push(prepared(alloc, events)?).map_err(|_| AllocError)?;
    }
    Ok(jobs)
}

// Opens a scope for the threads, and runs each job on one of them.
fn run<R: Threads + Wait + Sync, G: Gate>(
    rt: &R,
    alloc: Global,
    engine: &Engine,
    gate: &G,
    jobs: Vec<WorkerJob>,
) -> Result<Vec<Answers>, Refusal>
    ensures answers { IfOk result (λ all. AllZip
        (λ job answers. AreAnswered engine.now job.events.items answers.items)
        jobs.items all.items) }
    ensures causes { IfErr result (λ e. (e ≡ Spawn) ⊎ (e ≡ Memory)) }
{
    thread::scope(
        thread::scope_env(),
        rt,
        move |scope| -> Result<Vec<Answers>, Refusal>
            ensures { IfOk result (λ all. AllZip
                (λ job answers. AreAnswered engine.entry.now job.events.items answers.items)
                jobs.items all.items)
                × IfErr result (λ e. (e ≡ Spawn) ⊎ (e ≡ Memory)) }
        { run_with_room(scope, rt, alloc, engine, gate, jobs) },
    )
}

impl Engine {
    /// Submits the events of each list in order, on a thread for each list. Returns the answers
    /// list by list.
    ///
    /// # Errors
    ///
    /// Returns 32 Workers if there are more than 16 lists, or 30 Memory if there is no memory for
    /// the answers. Both come before any thread starts, so no event is taken.
    ///
    /// Returns 31 Spawn if a thread could not be started. Some events may have been taken then; the
    /// journal has them.
    pub fn submit_all<R: Threads + Wait + Sync, G: Gate>(
        &self,
        rt: &R,
        alloc: Global,
        lists: Vec<Vec<Event>>,
        gate: &G,
    ) -> Result<Vec<Answers>, Refusal>
        ensures answers { IfOk result (λ all. AllZip
            (λ events answers. AreAnswered self.now events.items answers.items)
            lists.items all.items) }
        ensures few { IfOk result (λ _. length lists.items ≤ 16) }
        ensures workers { IfErr result (λ e. (e ≡ Workers → 16 < length lists.items)
            × (16 < length lists.items → e ≡ Workers)) }
        ensures causes { IfErr result (λ e. (e ≡ Workers)
            ⊎ ((e ≡ Spawn) ⊎ (e ≡ Memory))) }
    {
        if lists.len() > MOST_WORKERS {
            return Err(Refusal::Workers);
        }
        let Ok(jobs) = all_prepared(alloc, lists) else {
            return Err(Refusal::Memory);
        };
        run(rt, alloc, self, gate, jobs)
    }
}
