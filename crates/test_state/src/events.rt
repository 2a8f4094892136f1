//! The state of a router through events that are taken, and events that are refused.
ghost use Rattle.std.specs.Prelude.{◌≡◌};

use event_state::{Event, Limits, Refusal, State};
use lsa_codec::{read, sum_of};
use lsdb::Database;
use ospf_types::config::{AreaConfig, Areas, Config, Ranges};
use ospf_types::key::{Key, Scope};
use std::alloc::Global;
use std::hash::RandomState;
use std::test::*;

pub(crate) const ROOT: u32 = 0x0a00_0001;

pub(crate) const OTHER: u32 = 0x0a00_0002;

pub(crate) const BACKBONE: Scope = Scope::Area(0);

// LSAs: two router-LSAs with one link, a network-LSA, a summary-LSA and an AS-external-LSA (RFC
// 2328, A.4.2 to A.4.5). The links are of type 3 to a stub network and of type 1 to another router.
pub(crate) const STUB: [u8; 36] = [
    0, 0, 2, 1, 0, 0, 0, 0, 0, 0, 0, 0, 0, 0, 0, 0, 0, 0, 0, 36, 0, 0, 0, 1, 192, 0, 2, 0, 255,
    255, 255, 0, 3, 0, 0, 10,
];

const LINK: [u8; 36] = [
    0, 0, 2, 1, 0, 0, 0, 0, 0, 0, 0, 0, 0, 0, 0, 0, 0, 0, 0, 36, 0, 0, 0, 1, 10, 0, 0, 9, 192, 0,
    2, 1, 1, 0, 0, 10,
];

const NETWORK: [u8; 32] = [
    0, 0, 2, 2, 0, 0, 0, 0, 0, 0, 0, 0, 0, 0, 0, 0, 0, 0, 0, 32, 255, 255, 255, 0, 10, 0, 0, 1, 10,
    0, 0, 2,
];

const SUMMARY: [u8; 28] = [
    0, 0, 2, 3, 0, 0, 0, 0, 0, 0, 0, 0, 0, 0, 0, 0, 0, 0, 0, 28, 255, 255, 255, 0, 0, 0, 0, 10,
];

pub(crate) const EXTERNAL: [u8; 36] = [
    0, 0, 2, 5, 0, 0, 0, 0, 0, 0, 0, 0, 0, 0, 0, 0, 0, 0, 0, 36, 255, 255, 255, 255, 0, 0, 0, 10,
    0, 0, 0, 0, 0, 0, 0, 0,
];

fn put(bytes: &mut [u8], place: usize, new: &[u8]) -> Result<(), Fail> {
    for (n, byte) in new.iter().enumerate() {
        *bytes.get_mut(place.wrapping_add(n)).ok_or("a byte")? = *byte;
    }
    Ok(())
}

// Returns the event that installs the router's LSA of these bytes, at this age and instance, into
// the backbone.
pub(crate) fn install(
    alloc: Global,
    lsa: &[u8],
    router: u32,
    age: u16,
    instance: u8,
) -> Result<Event, Fail> {
    let mut bytes = Vec::from_slice(alloc, lsa)?;
    put(&mut bytes, 0, &age.to_be_bytes())?;
    put(&mut bytes, 4, &router.to_be_bytes())?;
    put(&mut bytes, 8, &router.to_be_bytes())?;
    put(&mut bytes, 12, &[0x80, 0, 0, instance])?;
    let sum = sum_of(&bytes).ok_or("20 bytes")?;
    put(&mut bytes, 16, &sum.to_be_bytes())?;
    let (scope, lsa) = (BACKBONE, read(alloc, &bytes)?);
    Ok(Event::Install { scope, lsa })
}

// Returns the same event in another scope, if it is an install.
fn moved(event: Event, scope: Scope) -> Event {
    match event {
        Event::Install { lsa, .. } => Event::Install { scope, lsa },
        other => other,
    }
}

fn key(kind: u8, id: u32) -> Key {
    let router = id;
    Key { kind, id, router }
}

fn flush(kind: u8, id: u32) -> Event {
    let (scope, key) = (BACKBONE, key(kind, id));
    Event::Flush { scope, key }
}

fn purge(kind: u8, id: u32) -> Event {
    let (scope, key) = (BACKBONE, key(kind, id));
    Event::Purge { scope, key }
}

fn up(id: u8, area: u32, address: u32) -> Event {
    Event::Interface {
        id,
        area,
        address,
        peer: 0,
        up: true,
    }
}

fn area(alloc: Global, id: u32) -> AreaConfig
    ensures { result.id ≡ id }
{
    AreaConfig {
        id,
        stub: None,
        ranges: Ranges::new(alloc),
    }
}

// Returns the configuration of a router with a backbone and an area 1.
pub(crate) fn configured(alloc: Global) -> Result<Config, Fail> {
    let mut areas = Areas::new(alloc);
    areas.push(area(alloc, 0))?;
    areas.push(area(alloc, 1))?;
    Ok(Config {
        router: ROOT,
        compat: false,
        areas,
    })
}

// Opens a state for that configuration, with the standard limits if none are given.
pub(crate) fn opened(rt: &HostRuntime, limits: Option<Limits>) -> Result<State, Fail> {
    let config = configured(rt.alloc())?;
    let (alloc, hashing) = (rt.alloc(), RandomState::new(rt)?);
    Ok(match limits {
        None => State::new(alloc, config, hashing)?,
        Some(limits) => State::with_limits(alloc, config, limits, hashing)?,
    })
}

// Returns the numbers of events taken, of LSAs in the backbone, and of interfaces.
pub(crate) fn sizes(state: &State) -> (usize, usize, usize) {
    let lsas = state.database(BACKBONE).map_or(0, Database::len);
    (state.journal().len(), lsas, state.interfaces().count())
}

// Returns true if the event gets this refusal, and all counts are unchanged.
fn refuses(state: &mut State, event: Event, refusal: Refusal) -> bool {
    let before = sizes(state);
    state.step(event) == Err(refusal) && sizes(state) == before
}

// Returns a state with no room for another LSA, and with room for one more event. It has LSAs of
// the root and of another router, and an interface that is up.
fn nearly_full(rt: &HostRuntime) -> Result<State, Fail> {
    let limits = Limits {
        area_lsas: 2,
        externals: 1,
        events: 4,
    };
    let mut state = opened(rt, Some(limits))?;
    state.step(install(rt.alloc(), &STUB, ROOT, 7, 2)?)?;
    state.step(install(rt.alloc(), &STUB, OTHER, 7, 1)?)?;
    state.step(up(1, 0, 0xc000_0201))?;
    Ok(state)
}

#[test]
fn a_refused_lsa_leaves_all_as_it_was(rt: HostRuntime) -> Result<(), Fail> {
    let mut state = nearly_full(&rt)?;
    let external = install(rt.alloc(), &EXTERNAL, OTHER, 7, 1)?;
    let older = install(rt.alloc(), &STUB, ROOT, 7, 1)?;
    let same = install(rt.alloc(), &STUB, ROOT, 8, 2)?;
    let third = install(rt.alloc(), &STUB, 7, 7, 1)?;
    assert!(rt;
        refuses(&mut state, external, Refusal::Scope)
            && refuses(&mut state, older, Refusal::Older)
            && refuses(&mut state, same, Refusal::Same)
            && refuses(&mut state, third, Refusal::Full)
    );
    Ok(())
}

#[test]
fn a_refusal_leaves_all_as_it_was(rt: HostRuntime) -> Result<(), Fail> {
    let mut state = nearly_full(&rt)?;
    let refused = refuses(&mut state, up(1, 7, 0), Refusal::NoArea)
        && refuses(&mut state, flush(5, 7), Refusal::Scope)
        && refuses(&mut state, purge(5, 7), Refusal::Scope)
        && refuses(&mut state, up(2, 0, 0xc000_0201), Refusal::AddressTaken);
    let last = state.step(Event::Second)? == (4, false);
    let full = refuses(&mut state, up(2, 0, 0xc000_0201), Refusal::JournalFull);
    assert!(rt; refused && last && full);
    Ok(())
}

// Returns true if a copy of the event prints as the event does.
pub(crate) fn copies(alloc: Global, event: &Event) -> Result<bool, Fail> {
    let copy = event.copy(alloc)?;
    let text = format!(in alloc; "{copy:?}")?;
    Ok(text == format!(in alloc; "{event:?}")?)
}

#[test]
fn copies_are_equal(rt: HostRuntime) -> Result<(), Fail> {
    let installed = copies(rt.alloc(), &install(rt.alloc(), &STUB, OTHER, 7, 1)?)?;
    let removed = copies(rt.alloc(), &flush(1, OTHER))? && copies(rt.alloc(), &purge(1, OTHER))?;
    let other = copies(rt.alloc(), &up(2, 0, 7))? && copies(rt.alloc(), &Event::Second)?;
    assert!(rt; installed && removed && other);
    Ok(())
}

#[test]
fn takes_events_in_turn(rt: HostRuntime) -> Result<(), Fail> {
    let mut state = opened(&rt, None)?;
    let mut taken = 0u64;
    let mut in_turn = true;
    for n in 1..51u8 {
        let (scope, bytes) = match n % 5 {
            0 => (BACKBONE, STUB.as_slice()),
            1 => (BACKBONE, LINK.as_slice()),
            2 => (BACKBONE, NETWORK.as_slice()),
            3 => (BACKBONE, SUMMARY.as_slice()),
            _ => (Scope::As, EXTERNAL.as_slice()),
        };
        let lsa = moved(install(rt.alloc(), bytes, n as u32, 7, 1)?, scope);
        for event in [lsa, up(n, 0, n as u32), Event::Second] {
            taken = taken.wrapping_add(1);
            in_turn &= state.step(event)? == (taken, taken % 3 != 0);
        }
    }
    assert!(rt; in_turn && sizes(&state) == (150, 40, 50));
    Ok(())
}

#[test]
fn a_second_names_what_comes_to_max_age(rt: HostRuntime) -> Result<(), Fail> {
    let mut state = opened(&rt, None)?;
    let inside = Scope::Area(1);
    state.step(install(rt.alloc(), &STUB, ROOT, 3599, 1)?)?;
    state.step(install(rt.alloc(), &STUB, OTHER, 3598, 1)?)?;
    state.step(moved(install(rt.alloc(), &STUB, OTHER, 3599, 1)?, inside))?;
    let named = state.affected_lsas(rt.alloc(), &Event::Second)?;
    let all = [(BACKBONE, key(1, ROOT)), (inside, key(1, OTHER))];
    assert!(rt; named.as_slice() == all.as_slice());
    Ok(())
}
