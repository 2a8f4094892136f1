//! Area address ranges through events: set, replaced, dropped, and refused (RFC 2328, 3.5 and C.2).
ghost use Rattle.std.specs.Prelude.{◌≤◌};

use crate::events::{copies, opened, sizes};
use event_state::{Event, Limits, Refusal, State};
use ospf_types::config::Range;
use ospf_types::prefix::Prefix;
use std::test::*;

// Returns the network of this length that contains 10.N.0.0.
fn network(n: u8, length: u8) -> Prefix
    requires { length ≤ 32 }
{
    Prefix::around(u32::from_be_bytes([10, n, 0, 0]), length)
}

fn set_in(area: u32, prefix: Prefix, advertise: bool) -> Event {
    Event::RangeSet {
        area,
        prefix,
        advertise,
    }
}

// Returns the event that sets a range of area 1.
fn set(n: u8, length: u8, advertise: bool) -> Event
    requires { length ≤ 32 }
{
    set_in(1, network(n, length), advertise)
}

fn dropped(n: u8, length: u8) -> Event
    requires { length ≤ 32 }
{
    let (area, prefix) = (1, network(n, length));
    Event::RangeDrop { area, prefix }
}

// Returns true if area 1 has ranges for these networks of 16 bits, in this order, and no other area
// has a range.
fn has(state: &State, networks: &[(u8, bool)]) -> bool {
    let mut right = true;
    for area in state.config().areas.as_slice() {
        let ranges = area.ranges.as_slice();
        right &= match area.id {
            1 => are(ranges, networks),
            _ => ranges.is_empty(),
        };
    }
    right
}

fn are(ranges: &[Range], networks: &[(u8, bool)]) -> bool {
    let mut same = ranges.len() == networks.len();
    for (range, (n, advertise)) in ranges.iter().zip(networks) {
        same &= range.prefix == network(*n, 16);
        same &= range.advertise == *advertise;
    }
    same
}

// Returns the number of ranges.
fn count(state: &State) -> usize {
    let mut count = 0usize;
    for area in state.config().areas.as_slice() {
        count = count.wrapping_add(area.ranges.len());
    }
    count
}

// Returns true if the event is taken, and its reply has this `changed`.
fn takes(state: &mut State, event: Event, changed: bool) -> bool {
    let next = state.serial().wrapping_add(1);
    state.step(event) == Ok((next, changed))
}

// Returns true if the event gets this refusal, and all counts are unchanged.
fn refuses(state: &mut State, event: Event, refusal: Refusal) -> bool {
    let (before, ranges) = (sizes(state), count(state));
    let refused = state.step(event) == Err(refusal);
    refused && sizes(state) == before && count(state) == ranges
}

// Returns a state whose area 1 has `count` ranges: 10.0.0.0/16, 10.2.0.0/16 and so on.
fn with_ranges(rt: &HostRuntime, count: u8, limits: Option<Limits>) -> Result<State, Fail> {
    let mut state = opened(rt, limits)?;
    for n in 0..count {
        state.step(set(n.wrapping_mul(2), 16, true))?;
    }
    Ok(state)
}

#[test]
fn ranges_stand_in_order(rt: HostRuntime) -> Result<(), Fail> {
    let mut state = opened(&rt, None)?;
    let mut right = takes(&mut state, set(4, 16, true), true);
    right &= takes(&mut state, set(4, 16, true), false);
    right &= has(&state, &[(4, true)]);
    right &= takes(&mut state, set(2, 16, false), true);
    right &= takes(&mut state, set(8, 16, true), true);
    right &= takes(&mut state, set(6, 16, true), true);
    right &= has(&state, &[(2, false), (4, true), (6, true), (8, true)]);
    right &= takes(&mut state, set(4, 16, false), true);
    right &= takes(&mut state, dropped(6, 16), true);
    right &= has(&state, &[(2, false), (4, false), (8, true)]);
    assert!(rt; right);
    Ok(())
}

#[test]
fn a_refused_range_leaves_all_as_it_was(rt: HostRuntime) -> Result<(), Fail> {
    let mut state = with_ranges(&rt, 2, None)?;
    let mut right = refuses(&mut state, set(0, 24, true), Refusal::RangeOverlaps);
    right &= refuses(&mut state, set(2, 15, true), Refusal::RangeOverlaps);
    right &= refuses(&mut state, dropped(1, 16), Refusal::NoRange);
    right &= refuses(&mut state, dropped(0, 24), Refusal::NoRange);
    right &= has(&state, &[(0, true), (2, true)]);
    right &= takes(&mut state, set_in(0, network(0, 8), true), true);
    assert!(rt; right);
    Ok(())
}

#[test]
fn an_area_has_at_most_32_ranges(rt: HostRuntime) -> Result<(), Fail> {
    let mut state = with_ranges(&rt, 32, None)?;
    let mut right = refuses(&mut state, set(1, 16, true), Refusal::RangeFull);
    right &= refuses(&mut state, set(0, 24, true), Refusal::RangeOverlaps);
    right &= takes(&mut state, set(0, 16, false), true);
    right &= takes(&mut state, dropped(62, 16), true);
    right &= takes(&mut state, set(1, 16, true), true);
    assert!(rt; right && count(&state) == 32);
    Ok(())
}

// The area is checked first, then room in the journal, and then the ranges.
#[test]
fn refusals_of_ranges_come_in_order(rt: HostRuntime) -> Result<(), Fail> {
    let events = 32;
    let limits = Limits {
        events,
        ..Limits::STANDARD
    };
    let mut state = with_ranges(&rt, 32, Some(limits))?;
    let (area, prefix) = (7, network(0, 24));
    let mut right = refuses(&mut state, set_in(area, prefix, true), Refusal::NoArea);
    right &= refuses(
        &mut state,
        Event::RangeDrop { area, prefix },
        Refusal::NoArea,
    );
    right &= refuses(&mut state, set(0, 24, true), Refusal::JournalFull);
    right &= refuses(&mut state, dropped(1, 16), Refusal::JournalFull);
    right &= refuses(&mut state, set(1, 16, true), Refusal::JournalFull);
    assert!(rt; right);
    Ok(())
}

// Returns true if the event is taken. If memory is refused first, the state has to be unchanged,
// and the event has to be taken afterwards.
fn withstands(rt: &HostRuntime, event: Event) -> Result<bool, Fail> {
    let mut state = with_ranges(rt, 3, None)?;
    let again = event.copy(rt.alloc())?;
    let Err(refusal) = state.step(event) else {
        return Ok(state.serial() == 4);
    };
    let mut right = refusal == Refusal::Memory;
    right &= sizes(&state) == (3, 0, 0);
    right &= has(&state, &[(0, true), (2, true), (4, true)]);
    right &= takes(&mut state, again, true);
    Ok(right)
}

#[test]
fn a_new_range_where_memory_may_be_refused(rt: HostRuntime) -> Result<(), Fail> {
    assert!(rt; withstands(&rt, set(3, 16, true))?);
    Ok(())
}

#[test]
fn a_replaced_range_where_memory_may_be_refused(rt: HostRuntime) -> Result<(), Fail> {
    assert!(rt; withstands(&rt, set(2, 16, false))?);
    Ok(())
}

#[test]
fn a_dropped_range_where_memory_may_be_refused(rt: HostRuntime) -> Result<(), Fail> {
    assert!(rt; withstands(&rt, dropped(2, 16))?);
    Ok(())
}

#[test]
fn copies_of_range_events_are_equal(rt: HostRuntime) -> Result<(), Fail> {
    let set = copies(rt.alloc(), &set(1, 16, false))?;
    let dropped = copies(rt.alloc(), &dropped(1, 16))?;
    assert!(rt; set && dropped);
    Ok(())
}
