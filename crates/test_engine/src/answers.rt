//! The answers of an engine to one thread.

use crate::trial::{BACKBONE, BORDER, OWN, ROOT, SUMMARY, is_told, look, opened, taken};
use engine::{
    Answer, BytesFault, ConfigFault, DueList, DueSummary, Engine, Open, OpenFault, Refusal,
    Refused, Status,
};
use ospf_types::config::{Areas, Config};
use ospf_types::key::Dest;
use ospf_types::prefix::Prefix;
use std::hash::RandomState;
use std::random::RandomSource;
use std::sync::Wait;
use std::test::Fail;
use test_core::events_of;

// Returns true if the reply is `Current`, and it and the token have this serial.
fn is_current<E: Drop>(answer: Result<Answer, E>, serial: u64) -> bool {
    match answer {
        Ok(Answer { reply, told }) => {
            reply.state == Status::Current && reply.serial == serial && is_told(told, serial)
        }
        Err(_) => false,
    }
}

#[test]
fn bytes_and_a_gated_event_are_current(rt: HostRuntime) -> Result<(), Fail> {
    let (_, mut events) = events_of(rt.alloc(), BORDER)?;
    let event = events.pop().ok_or("the border router's LSA")?;
    let (engine, _one, _two) = opened(&rt, ROOT)?;
    let bytes = is_current(engine.submit_bytes(&rt, BACKBONE, &OWN), 1);
    let gated = is_current(engine.submit_gated(&rt, event, &Open, 0, 0), 2);
    let count = taken(&rt, engine);
    assert!(rt; bytes && gated && count == 2);
    Ok(())
}

// Returns true if this list was due after five events.
fn was_due(answer: Result<DueList, Refusal>, wanted: &[DueSummary]) -> bool {
    match answer {
        Ok(DueList { serial, list, told }) => {
            serial == 5 && list.as_slice() == wanted && is_told(told, 5)
        }
        Err(_) => false,
    }
}

// Returns true if five events were taken, and this one was refused with 23 Same.
fn is_same(answer: Result<Answer, BytesFault>) -> bool {
    match answer {
        Err(BytesFault::Refused(Refused { refusal, told })) => {
            refusal == Refusal::Same && is_told(told, 5)
        }
        _ => false,
    }
}

// Returns true if the summary for 10.1.0.0/16 is due in the other area alone. Its metric is 10 to
// the border router plus 10 from there.
fn summaries_follow<R: Wait>(rt: &R, engine: &Engine) -> bool {
    let (kind, metric) = (3, 20);
    let dest = Dest::Net(Prefix::from_mask(0x0a01_0000, 0xffff_0000));
    let is_taken = is_current(engine.submit_bytes(rt, BACKBONE, &SUMMARY), 5);
    let is_due = was_due(engine.due(rt, 1), &[DueSummary { kind, dest, metric }]);
    let is_again = is_same(engine.submit_bytes(rt, BACKBONE, &SUMMARY));
    is_taken && is_due && is_again && was_due(engine.due(rt, 0), &[])
}

#[test]
fn due_summaries_are_those_of_the_last_reply(rt: HostRuntime) -> Result<(), Fail> {
    let (engine, _one, _two) = opened(&rt, BORDER)?;
    let right = summaries_follow(&rt, &engine);
    let refusal = engine.due(&rt, 7).err();
    let count = taken(&rt, engine);
    assert!(rt; right && refusal == Some(Refusal::NoArea) && count == 5);
    Ok(())
}

// Returns the fault of opening an engine for this configuration with this number of forwarders.
fn fault_of<R: Wait + RandomSource + AllocGlobal>(
    rt: &R,
    config: Config,
    readers: usize,
) -> Result<Option<OpenFault>, Fail> {
    match Engine::open(rt, rt.alloc(), config, readers, RandomState::new(rt)?) {
        Ok((engine, _all)) => {
            drop(engine.close(rt));
            Ok(None)
        }
        Err(fault) => Ok(Some(fault)),
    }
}

#[test]
fn readers_are_1_to_64_and_the_configuration_comes_first(rt: HostRuntime) -> Result<(), Fail> {
    let config = Config {
        router: 1,
        compat: false,
        areas: Areas::new(rt.alloc()),
    };
    let found = fault_of(&rt, config, 0)?;
    assert!(rt; found == Some(OpenFault::Config(ConfigFault::Areas)));
    let fault = Some(OpenFault::Readers);
    for (readers, wanted) in [(0, fault), (1, None), (64, None), (65, fault)] {
        let (config, _) = events_of(rt.alloc(), ROOT)?;
        assert!(rt; fault_of(&rt, config, readers)? == wanted, "{readers}");
    }
    Ok(())
}

#[test]
fn a_closed_engine_leaves_no_entry(rt: HostRuntime) -> Result<(), Fail> {
    let (engine, one, _two) = opened(&rt, BORDER)?;
    let (one, before) = look(one);
    let count = taken(&rt, engine);
    let (_one, after) = look(one);
    assert!(rt; before == Some(4) && count == 4 && after.is_none());
    Ok(())
}
