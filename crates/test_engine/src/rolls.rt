//! Engines that are rolled: their answers, alone and while workers submit events, and an engine
//! that is opened from the base that a roll makes.
ghost use Rattle.std.specs.Prelude.{◌≡◌};

use crate::trial::{BACKBONE, BORDER, ROOT, SUMMARY, is_told, look, opened};
use crate::workers::{Watch, are_told_all, two_watch};
use engine::{Base, Engine, Forwarder};
use std::hash::RandomState;
use std::random::RandomSource;
use std::sync::Wait;
use std::test::Fail;
use std::thread::{Threads, join};

// Returns true if the engine, which took four events, is rolled at once, and twice after one more
// event. That event has serial 5, and the due list reflects it.
fn is_rolled<R: Wait>(rt: &R, engine: &Engine) -> bool {
    let first = engine.roll(rt) == Ok(4);
    let is_taken = match engine.submit_bytes(rt, BACKBONE, &SUMMARY) {
        Ok(answer) => answer.reply.serial == 5 && is_told(answer.told, 5),
        Err(_) => false,
    };
    let is_due = match engine.due(rt, 1) {
        Ok(due) => due.serial == 5 && due.list.len() == 1 && is_told(due.told, 5),
        Err(_) => false,
    };
    first && is_taken && is_due && engine.roll(rt) == Ok(5) && engine.roll(rt) == Ok(5)
}

// Returns the serial that the forwarder of an engine from this base sees. Returns `None` unless the
// engine's core has the serial 5 and three LSAs.
fn opened_serial<R: Wait + RandomSource + AllocGlobal>(
    rt: &R,
    base: Base,
) -> Result<Option<u64>, Fail> {
    let hashing = RandomState::new(rt)?;
    let (engine, mut all) = Engine::open_from(rt, rt.alloc(), base, 1, hashing)?;
    let forwarder = all.pop();
    let seen = forwarder.and_then(|forwarder| look(forwarder).1);
    let core = engine.close(rt);
    let lsas = core.lsas()?;
    if core.serial() != 5 || lsas.len() != 3 {
        return Ok(None);
    }
    Ok(seen)
}

#[test]
fn an_engine_is_rolled_and_opened_again(rt: HostRuntime) -> Result<(), Fail> {
    let (engine, one, _two) = opened(&rt, BORDER)?;
    let right = is_rolled(&rt, &engine);
    let (_one, seen) = look(one);
    let core = engine.close(&rt);
    let is_empty = core.journal().is_empty() && core.base().serial == 5;
    let base = core.base().copy(rt.alloc())?;
    assert!(rt; right && seen == Some(5) && is_empty && opened_serial(&rt, base)? == Some(5));
    Ok(())
}

// Rolls 50 times. Returns true if each roll succeeds, and no serial is less than the one before.
fn rolls<R: Wait>(rt: &R, engine: &Engine) -> bool {
    let (mut last, mut all) = (0, true);
    for _ in 0..50u32 {
        match engine.roll(rt) {
            Ok(serial) => {
                all &= last <= serial;
                last = serial;
            }
            Err(_) => all = false,
        }
    }
    all
}

// Runs two workers with a forwarder each, and at the same time a thread that rolls.
fn beside<R: Threads + Wait + Sync + AllocGlobal>(
    rt: &R,
    engine: &Engine,
    one: Forwarder,
    two: Forwarder,
) -> ((Option<Watch>, Option<Watch>), bool)
    requires { (one.name ≡ engine.now) × (two.name ≡ engine.now) }
{
    join(
        rt,
        move ||
            requires { (one.name ≡ engine.now) × (two.name ≡ engine.now) }
        { two_watch(rt, engine, one, two, 100) },
        move || rolls(rt, engine),
    )
}

#[test]
fn rolls_stop_neither_workers_nor_looks(rt: HostRuntime) -> Result<(), Fail> {
    let (engine, one, two) = opened(&rt, ROOT)?;
    let ((one, two), right) = beside(&rt, &engine, one, two);
    let core = engine.close(&rt);
    let are_told = match (one, two) {
        (Some(one), Some(two)) => are_told_all(one, two),
        _ => false,
    };
    assert!(rt; right && are_told && core.serial() == 200);
    Ok(())
}
