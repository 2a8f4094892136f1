//! Engines, events and lookups for the tests.
ghost use Rattle.std.specs.Prelude.{◌≡◌, IfOk, IfSome};

use engine::{Engine, Event, Forwarder, Told};
use lsa_codec::{read, sum_of};
use ospf_types::key::Scope;
use std::alloc::Global;
use std::hash::RandomState;
use std::random::RandomSource;
use std::sync::Wait;
use std::test::Fail;
use test_core::events_of;

pub const BACKBONE: Scope = Scope::Area(0);

/// A recording of a root with one area.
pub const ROOT: &str = "abr 1\nrouter 10.0.0.1\narea 0.0.0.0 normal\n";

/// A recording of a root with two areas, with four events. The backbone has a point-to-point link
/// at 10 to the border router 10.0.0.2.
pub const BORDER: &str = "abr 1\n\
router 10.0.0.1\n\
area 0.0.0.0 normal\n\
area 0.0.0.1 normal\n\
interface 1 0.0.0.0 198.51.100.1 198.51.100.2 up\n\
interface 2 0.0.0.1 203.0.113.1 0.0.0.0 up\n\
install 0.0.0.0 000102010a0000010a00000180000001e6e20024000000010a000002c63364010100000a\n\
install 0.0.0.0 000102010a0000020a00000280000001dde80024010000010a000001c63364020100000a\n";

/// The root's own router-LSA, with that link (RFC 2328, A.4.2).
pub const OWN: [u8; 36] = [
    0, 1, 2, 1, 10, 0, 0, 1, 10, 0, 0, 1, 0x80, 0, 0, 1, 0xe6, 0xe2, 0, 36, 0, 0, 0, 1, 10, 0, 0,
    2, 198, 51, 100, 1, 1, 0, 0, 10,
];

/// The border router's summary-LSA for 10.1.0.0/16 at 10 (A.4.4).
pub const SUMMARY: [u8; 28] = [
    0, 1, 2, 3, 10, 1, 0, 0, 10, 0, 0, 2, 0x80, 0, 0, 1, 0xda, 0x61, 0, 28, 255, 255, 0, 0, 0, 0,
    0, 10,
];

/// Opens an engine with two forwarders for a recording's configuration, and submits the recording's
/// events.
///
/// # Errors
///
/// Returns an error if the text is not a valid recording, or if the engine cannot be opened.
pub fn opened<R: Wait + RandomSource + AllocGlobal>(
    rt: &R,
    text: &str,
) -> Result<(Engine, Forwarder, Forwarder), Fail>
    ensures { IfOk result (λ r. (r.1.name ≡ r.0) × (r.2.name ≡ r.0)) }
{
    let (config, events) = events_of(rt.alloc(), text)?;
    let copy = config.copy(rt.alloc())?;
    let (engine, mut all) = Engine::open(rt, rt.alloc(), copy, 2, RandomState::new(rt)?)?;
    for event in events {
        drop(published(rt, &engine, event));
    }
    match (all.pop(), all.pop()) {
        (Some(one), Some(two)) => Ok((engine, one, two)),
        _ => unreachable!(),
    }
}

/// Submits the event, and returns its token if it was taken and published.
pub fn published<R: Wait>(rt: &R, engine: &Engine, event: Event) -> Option<Told>
    ensures { IfSome result (λ t. t.name ≡ engine.now) }
{
    match engine.submit(rt, event) {
        Ok(answer) => answer.told,
        Err(_) => None,
    }
}

/// Looks an address up, and returns the serial of the table that is seen.
pub fn look(forwarder: Forwarder) -> (Forwarder, Option<u64>)
    ensures { result.0.name ≡ forwarder.name }
{
    match forwarder.lookup(0x0a01_0001) {
        Ok(seen) => {
            let serial = seen.serial();
            (seen.leave(), Some(serial))
        }
        Err(unseen) => (unseen.into_forwarder(), None),
    }
}

/// Closes the engine, and returns the number of events that it took, before its rolls and after
/// them.
pub fn taken<R: Wait>(rt: &R, engine: Engine) -> u64 {
    engine.close(rt).serial()
}

pub fn is_told(told: Option<Told>, serial: u64) -> bool {
    match told {
        Some(told) => told.serial() == serial,
        None => false,
    }
}

/// Returns an install of a worker. Worker 0 installs the root's own router-LSA, whose link costs
/// more for each hundred numbers. Another worker installs the border router's summary-LSA for
/// 20.WORKER.NUMBER.0/24.
pub fn install_of(alloc: Global, worker: u8, number: u8) -> Option<Event> {
    if worker == 0 {
        let mut bytes = OWN;
        bytes[14] = 1;
        bytes[15] = number;
        bytes[35] = 11 + number / 100;
        return install(alloc, &mut bytes);
    }
    let mut bytes = SUMMARY;
    bytes[4] = 20;
    bytes[5] = worker;
    bytes[6] = number;
    bytes[22] = 255;
    install(alloc, &mut bytes)
}

// Returns the install of these bytes, with their checksum.
fn install(alloc: Global, bytes: &mut [u8]) -> Option<Event> {
    let [high, low] = sum_of(bytes)?.to_be_bytes();
    *bytes.get_mut(16)? = high;
    *bytes.get_mut(17)? = low;
    let (scope, lsa) = (BACKBONE, read(alloc, bytes).ok()?);
    Some(Event::Install { scope, lsa })
}
