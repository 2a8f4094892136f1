//! Answers and lookups of an engine for which one request for memory may be refused.

use crate::trial::{BACKBONE, BORDER, SUMMARY, look, taken};
use engine::{Engine, Event, Forwarder, Refusal, Status};
use lsa_codec::read;
use ospf_types::key::Key;
use std::hash::RandomState;
use std::sync::Wait;
use std::test::Fail;
use test_core::events_of;

// The known state of an engine with one worker: the number of events taken and of events refused
// for memory, if the table of all taken events is published, and the serial seen last.
#[derive(Drop)]
struct Known {
    forwarder: Option<Forwarder>,
    taken: u64,
    refused: u64,
    is_published: bool,
    seen: u64,
}

impl Known {
    // Submits the event. Returns true if the answer fits, with a token exactly if the table is
    // published.
    fn submits<R: Wait>(&mut self, rt: &R, engine: &Engine, event: Event) -> bool {
        match engine.submit(rt, event) {
            Ok(answer) => {
                self.taken = self.taken.saturating_add(1);
                self.is_published = answer.told.is_some();
                answer.reply.serial == self.taken
                    && (answer.reply.state == Status::Current) == self.is_published
            }
            Err(refused) => {
                self.refused = self.refused.saturating_add(1);
                refused.refusal == Refusal::Memory && refused.told.is_some() == self.is_published
            }
        }
    }

    // Returns true if a flush of an LSA that is not in the database is refused, with a token
    // exactly if the table is published.
    fn is_refused<R: Wait>(&self, rt: &R, engine: &Engine) -> bool {
        let (kind, id, router) = (1, 7, 7);
        let (scope, key) = (BACKBONE, Key { kind, id, router });
        match engine.submit(rt, Event::Flush { scope, key }) {
            Ok(_) => false,
            Err(refused) => {
                refused.refusal == Refusal::NoLsa && refused.told.is_some() == self.is_published
            }
        }
    }

    // Returns true if a lookup sees the table of all taken events exactly if it is published, and
    // no older table than before.
    fn sees(&mut self) -> bool {
        let Some(forwarder) = self.forwarder.take() else {
            return false;
        };
        let (forwarder, seen) = look(forwarder);
        self.forwarder = Some(forwarder);
        let Some(seen) = seen else {
            return false;
        };
        let fits = self.seen <= seen && seen <= self.taken;
        self.seen = seen;
        fits && (seen == self.taken) == self.is_published
    }

    // Returns true if the due list has a token exactly if its serial is the one seen last, or if
    // memory runs out. The serial is at most the number of taken events.
    fn is_due<R: Wait>(&self, rt: &R, engine: &Engine) -> bool {
        match engine.due(rt, 1) {
            Ok(due) => due.serial <= self.taken && due.told.is_some() == (due.serial == self.seen),
            Err(refusal) => refusal == Refusal::Memory,
        }
    }

    // Returns true if a roll is refused with 37 NotCurrent exactly if the table of all taken events
    // is not published. Otherwise it returns the last serial, or runs out of memory.
    fn rolls<R: Wait>(&self, rt: &R, engine: &Engine) -> bool {
        match engine.roll(rt) {
            Ok(serial) => self.is_published && serial == self.taken,
            Err(Refusal::NotCurrent) => !self.is_published,
            Err(refusal) => self.is_published && refusal == Refusal::Memory,
        }
    }

    fn stands<R: Wait>(&mut self, rt: &R, engine: &Engine) -> bool {
        self.is_refused(rt, engine)
            && self.sees()
            && self.is_due(rt, engine)
            && self.rolls(rt, engine)
    }

    // Catches up in at most two calls, because at most one request for memory is refused. Returns
    // true if the token has the last serial.
    fn catches_up<R: Wait>(&mut self, rt: &R, engine: &Engine) -> bool {
        for _ in 0..2u8 {
            if let Some(told) = engine.catch_up(rt) {
                self.is_published = true;
                return told.serial() == self.taken;
            }
        }
        false
    }
}

// Submits the events, and catches up. Returns true if all answers and lookups fit.
fn withstands<R: Wait>(rt: &R, engine: &Engine, known: Known, events: Vec<Event>) -> bool {
    let (mut known, mut all) = (known, true);
    for event in events {
        all &= known.submits(rt, engine, event) && known.stands(rt, engine);
    }
    all &= known.catches_up(rt, engine) && known.stands(rt, engine);
    all && known.taken.saturating_add(known.refused) == 5
}

#[test]
fn where_memory_may_be_refused(rt: HostRuntime) -> Result<(), Fail> {
    let (config, mut events) = events_of(rt.alloc(), BORDER)?;
    let (scope, lsa) = (BACKBONE, read(rt.alloc(), &SUMMARY)?);
    events.push(Event::Install { scope, lsa })?;
    let (engine, mut all) = Engine::open(&rt, rt.alloc(), config, 1, RandomState::new(&rt)?)?;
    let known = Known {
        forwarder: all.pop(),
        taken: 0,
        refused: 0,
        is_published: true,
        seen: 0,
    };
    let right = withstands(&rt, &engine, known, events);
    let count = taken(&rt, engine);
    assert!(rt; right && count <= 5);
    Ok(())
}
