//! Gates. Lists run side by side, neither lookups nor the reading of bytes wait for the lock, and
//! each event passes its gate once.

use crate::trial::{BACKBONE, ROOT, SUMMARY, install_of, look, opened, taken};
use engine::{BytesFault, Engine, Event, Forwarder, Gate, Open, Refusal};
use lsa_codec::WireFault;
use std::alloc::Global;
use std::sync::Wait;
use std::sync::atomic::{AtomicBool, AtomicU64, Ordering};
use std::test::Fail;
use std::thread;
use std::thread::{Threads, join};
use std::time::{Clock, Duration};

// The place of an event that waits under the lock. The lists are shorter.
const UNDER_THE_LOCK: usize = 99;

// Two flags, and the number of threads that raised one and saw the other in time.
#[derive(Drop)]
struct Flags {
    one: AtomicBool,
    two: AtomicBool,
    met: AtomicU64,
}

impl Flags {
    fn new() -> Flags {
        Flags {
            one: AtomicBool::new(false),
            two: AtomicBool::new(false),
            met: AtomicU64::new(0),
        }
    }

    // Raises one flag, and waits for the other.
    fn meet<R: Clock>(&self, rt: &R, mine: &AtomicBool, other: &AtomicBool) {
        mine.store(true, Ordering::SeqCst);
        if waits(rt, other) {
            self.met.fetch_add(1, Ordering::SeqCst);
        }
    }

    fn have_met(&self) -> bool {
        self.met.load(Ordering::SeqCst) == 2
    }
}

// Waits until the flag is raised, for at most 10,000 times one millisecond. Returns true if it is
// raised.
fn waits<R: Clock>(rt: &R, flag: &AtomicBool) -> bool {
    for _ in 0..10_000u32 {
        if flag.load(Ordering::SeqCst) {
            return true;
        }
        thread::sleep(rt, Duration::from_millis(1));
    }
    false
}

// A gate at which each of the first two workers waits for the other before its first event. At the
// place `UNDER_THE_LOCK` a worker waits under the lock.
#[derive(Drop)]
struct Meeting<'a, R: Clock> {
    rt: &'a R,
    flags: &'a Flags,
}

impl<'a, R: Clock + Sync> Gate for Meeting<'a, R> {
    ghost came = { λ gate worker place. Unit {0} };

    ghost passed = { λ gate worker place. Unit {0} };

    ghost left = { λ gate worker place. Unit {0} };

    fn before(&self, worker: usize, place: usize) {
        let flags = self.flags;
        match (worker, place) {
            (0, 0) => flags.meet(self.rt, &flags.one, &flags.two),
            (1, 0) => flags.meet(self.rt, &flags.two, &flags.one),
            _ => {}
        }
    }

    fn inside(&self, _worker: usize, place: usize) {
        let flags = self.flags;
        if place == UNDER_THE_LOCK {
            flags.meet(self.rt, &flags.one, &flags.two);
        }
    }

    fn after(&self, _worker: usize, _place: usize) {}
}

fn list_of(alloc: Global, worker: u8, count: u8) -> Option<Vec<Event>> {
    let mut list = Vec::new(alloc);
    for number in 0..count {
        list.push(install_of(alloc, worker, number)?).ok()?;
    }
    Some(list)
}

// Returns a list of `count` installs for each worker.
fn lists_of(alloc: Global, workers: u8, count: u8) -> Option<Vec<Vec<Event>>> {
    let mut lists = Vec::new(alloc);
    for worker in 0..workers {
        lists.push(list_of(alloc, worker, count)?).ok()?;
    }
    Some(lists)
}

// Submits a list of `count` installs for each worker, and returns the refusal.
fn refusal_of<R: Threads + Wait + Sync + AllocGlobal, G: Gate>(
    rt: &R,
    engine: &Engine,
    workers: u8,
    count: u8,
    gate: &G,
) -> Option<Refusal> {
    match lists_of(rt.alloc(), workers, count) {
        Some(lists) => engine.submit_all(rt, rt.alloc(), lists, gate).err(),
        None => Some(Refusal::Memory),
    }
}

#[test]
fn lists_run_side_by_side(rt: HostRuntime) -> Result<(), Fail> {
    let flags = Flags::new();
    let gate = Meeting {
        rt: &rt,
        flags: &flags,
    };
    let (engine, _one, _two) = opened(&rt, ROOT)?;
    let refusal = refusal_of(&rt, &engine, 4, 25, &gate);
    let count = taken(&rt, engine);
    assert!(rt; flags.have_met() && refusal.is_none() && count == 100);
    Ok(())
}

#[test]
fn seventeen_lists_are_too_many(rt: HostRuntime) -> Result<(), Fail> {
    let (engine, _one, _two) = opened(&rt, ROOT)?;
    let refusal = refusal_of(&rt, &engine, 17, 1, &Open);
    let count = taken(&rt, engine);
    assert!(rt; refusal == Some(Refusal::Workers) && count == 0);
    Ok(())
}

// Returns true if the summary-LSA with another metric and the old checksum has a wrong checksum.
fn is_unsound<R: Wait>(rt: &R, engine: &Engine) -> bool {
    let mut bytes = SUMMARY;
    bytes[27] = 11;
    match engine.submit_bytes(rt, BACKBONE, &bytes) {
        Err(BytesFault::Wire(fault)) => fault == WireFault::Checksum,
        _ => false,
    }
}

// Returns true if a lookup and unsound bytes are answered while another thread has the lock.
fn is_answered<R: Wait + Clock>(
    rt: &R,
    engine: &Engine,
    flags: &Flags,
    forwarder: Forwarder,
) -> bool {
    let is_locked = waits(rt, &flags.one);
    let (_forwarder, seen) = look(forwarder);
    let is_refused = is_unsound(rt, engine);
    flags.meet(rt, &flags.two, &flags.one);
    is_locked && seen == Some(0) && is_refused
}

// Submits an install, which waits under the lock. Returns true if it is taken.
fn is_taken<R: Wait + Clock + Sync + AllocGlobal>(rt: &R, engine: &Engine, flags: &Flags) -> bool {
    let gate = Meeting { rt, flags };
    match install_of(rt.alloc(), 1, 0) {
        Some(event) => engine
            .submit_gated(rt, event, &gate, 0, UNDER_THE_LOCK)
            .is_ok(),
        None => false,
    }
}

fn beside<R: Threads + Wait + Clock + Sync + AllocGlobal>(
    rt: &R,
    engine: &Engine,
    flags: &Flags,
    forwarder: Forwarder,
) -> (bool, bool) {
    join(
        rt,
        move || is_taken(rt, engine, flags),
        move || is_answered(rt, engine, flags, forwarder),
    )
}

#[test]
fn looks_and_readings_wait_for_no_lock(rt: HostRuntime) -> Result<(), Fail> {
    let flags = Flags::new();
    let (engine, one, _two) = opened(&rt, ROOT)?;
    let answers = beside(&rt, &engine, &flags, one);
    let count = taken(&rt, engine);
    assert!(rt; answers == (true, true) && flags.have_met() && count == 1);
    Ok(())
}

// A gate that counts the calls of `before`, `inside` and `after`, with a digit for each event. It
// also notes a call of `inside` or `after` out of turn.
#[derive(Drop)]
struct Passing {
    before: AtomicU64,
    inside: AtomicU64,
    after: AtomicU64,
    is_astray: AtomicBool,
}

// Returns one in the digit of the event, in base 8.
fn digit(worker: usize, place: usize) -> u64 {
    match (worker, place) {
        (0, 0) => 0o1,
        (0, 1) => 0o10,
        (0, 2) => 0o100,
        (1, 0) => 0o1000,
        (1, 1) => 0o10000,
        (1, 2) => 0o100000,
        _ => 0o1000000,
    }
}

impl Passing {
    fn new() -> Passing {
        Passing {
            before: AtomicU64::new(0),
            inside: AtomicU64::new(0),
            after: AtomicU64::new(0),
            is_astray: AtomicBool::new(false),
        }
    }

    // Returns true if `before` was called for the event, and `after` was not called yet.
    fn is_between(&self, digit: u64) -> bool {
        let (before, after) = (&self.before, &self.after);
        before.load(Ordering::SeqCst) & digit != 0 && after.load(Ordering::SeqCst) & digit == 0
    }

    fn pass(&self, count: &AtomicU64, digit: u64) {
        if !self.is_between(digit) {
            self.is_astray.store(true, Ordering::SeqCst);
        }
        count.fetch_add(digit, Ordering::SeqCst);
    }

    // Returns true if `before` and `after` were called once for each event, in turn with `inside`.
    // `inside` has to be called once for each event but the last of the first worker.
    fn is_right(&self) -> bool {
        self.before.load(Ordering::SeqCst) == 0o111111
            && self.inside.load(Ordering::SeqCst) == 0o111011
            && self.after.load(Ordering::SeqCst) == 0o111111
            && !self.is_astray.load(Ordering::SeqCst)
    }
}

impl Gate for Passing {
    ghost came = { λ gate worker place. Unit {0} };

    ghost passed = { λ gate worker place. Unit {0} };

    ghost left = { λ gate worker place. Unit {0} };

    fn before(&self, worker: usize, place: usize) {
        self.before
            .fetch_add(digit(worker, place), Ordering::SeqCst);
    }

    fn inside(&self, worker: usize, place: usize) {
        self.pass(&self.inside, digit(worker, place));
    }

    fn after(&self, worker: usize, place: usize) {
        self.pass(&self.after, digit(worker, place));
    }
}

// Returns three installs for each of two workers. The last install of the first worker repeats its
// second.
fn with_a_refused_one(alloc: Global) -> Option<Vec<Vec<Event>>> {
    let mut lists = Vec::new(alloc);
    let mut first = list_of(alloc, 0, 2)?;
    first.push(install_of(alloc, 0, 1)?).ok()?;
    lists.push(first).ok()?;
    lists.push(list_of(alloc, 1, 3)?).ok()?;
    Some(lists)
}

#[test]
fn each_event_passes_the_gate_once(rt: HostRuntime) -> Result<(), Fail> {
    let gate = Passing::new();
    let lists = with_a_refused_one(rt.alloc()).ok_or("the lists")?;
    let (engine, _one, _two) = opened(&rt, ROOT)?;
    let is_run = engine.submit_all(&rt, rt.alloc(), lists, &gate).is_ok();
    let count = taken(&rt, engine);
    assert!(rt; is_run && gate.is_right() && count == 5);
    Ok(())
}
