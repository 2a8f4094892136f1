//! An engine for which one request for memory may be refused.
ghost use Rattle.std.specs.Prelude.{◌≡◌};

use engine::{Engine, Event, Forwarder, Refusal, Reply, Status, Told};
use recording::{Line, parse};
use std::hash::RandomState;
use std::random::RandomSource;
use std::sync::Wait;

// A recording of a root with a border router at 10, which advertises a summary at 10.
const RECORDING: &str = "abr 1\n\
router 10.0.0.1\n\
area 0.0.0.0 normal\n\
interface 1 0.0.0.0 198.51.100.1 198.51.100.2 up\n\
install 0.0.0.0 000102010a0000010a00000180000001e6e20024000000010a000002c63364010100000a\n\
install 0.0.0.0 000102010a0000020a00000280000001dde80024010000010a000001c63364020100000a\n\
install 0.0.0.0 000102030a0100000a00000280000001da61001cffff00000000000a\n";

// The known state of the engine: the number of events taken, and the serial of the published table.
#[derive(Clone, Copy)]
struct EventCounts {
    taken: u64,
    published: u64,
}

/// Returns true if each event is taken or refused as memory allows, and lookups and a catch-up
/// agree. Returns true as well if memory runs out before the engine is open.
pub fn is_right<R: Wait + AllocGlobal + RandomSource>(rt: &R) -> bool {
    let Ok(hashing) = RandomState::new(rt) else {
        return true;
    };
    let Ok(recording) = parse(rt.alloc(), RECORDING.as_bytes()) else {
        return true;
    };
    let Ok(config) = recording.config().copy(rt.alloc()) else {
        return true;
    };
    let (_, _, lines) = recording.into_parts();
    let Ok((engine, mut forwarders)) = Engine::open(rt, rt.alloc(), config, 1, hashing) else {
        return true;
    };
    let right = match forwarders.pop() {
        Some(forwarder) => follows(rt, &engine, forwarder, lines),
        None => false,
    };
    drop(engine.close(rt));
    right
}

// Returns true if each lookup sees the table published last, and a lookup after a catch-up sees the
// table of all taken events.
fn follows<R: Wait>(rt: &R, engine: &Engine, forwarder: Forwarder, lines: Vec<Line>) -> bool {
    let mut known = EventCounts {
        taken: 0,
        published: 0,
    };
    let (mut forwarder, mut all) = (forwarder, true);
    for line in lines {
        let Line::Event(event) = line else {
            continue;
        };
        let (next, is_right) = submit(rt, engine, known, event);
        let (then, seen) = look(forwarder);
        (known, forwarder) = (next, then);
        all &= is_right && seen == Some(known.published);
    }
    all &= catches_up(rt, engine, known);
    let (_forwarder, seen) = look(forwarder);
    all && seen == Some(known.taken)
}

// An event is taken and published, or taken with the reply `Behind`, or refused because memory ran
// out.
fn submit<R: Wait>(
    rt: &R,
    engine: &Engine,
    known: EventCounts,
    event: Event,
) -> (EventCounts, bool) {
    match engine.submit(rt, event) {
        Ok(answer) => took(known, answer.reply, serial_of(answer.told)),
        Err(refused) => (known, refused.refusal == Refusal::Memory),
    }
}

fn serial_of(told: Option<Told>) -> Option<u64> {
    match told {
        Some(told) => Some(told.serial()),
        None => None,
    }
}

// The token of an event has the event's serial, which is the next one.
fn took(known: EventCounts, reply: Reply, told: Option<u64>) -> (EventCounts, bool) {
    let taken = known.taken.saturating_add(1);
    let published = told.unwrap_or(known.published);
    let is_told = told == Some(taken) && reply.state == Status::Current;
    let is_behind = told.is_none() && reply.state == Status::Behind;
    let is_right = reply.serial == taken && (is_told || is_behind);
    (EventCounts { taken, published }, is_right)
}

// Looks an address up, and returns the serial of the table that is seen.
fn look(forwarder: Forwarder) -> (Forwarder, Option<u64>)
    ensures { result.0.name ≡ forwarder.name }
{
    match forwarder.lookup(0x0a01_0203) {
        Ok(seen) => {
            let serial = seen.serial();
            (seen.leave(), Some(serial))
        }
        Err(unseen) => (unseen.into_forwarder(), None),
    }
}

// At most one request is refused, so a second catch-up has all memory.
fn catches_up<R: Wait>(rt: &R, engine: &Engine, known: EventCounts) -> bool {
    let told = match engine.catch_up(rt) {
        Some(told) => Some(told),
        None => engine.catch_up(rt),
    };
    match told {
        Some(told) => told.serial() == known.taken,
        None => false,
    }
}
