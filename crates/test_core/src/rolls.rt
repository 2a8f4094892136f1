//! Cores that are rolled. They agree with a core that is never rolled, and with a core that is
//! opened from their base.
use crate::{events_of, items};
use event_core::{Core, Event, Status};
use lsa_codec::Checked;
use ospf_types::key::Scope;
use ospf_types::prefix::Prefix;
use std::alloc::Global;
use std::hash::RandomState;
use std::test::Fail;

// Returns the range that is set, hidden and dropped.
fn range() -> Prefix {
    Prefix::from_mask(0x0a00_0000, 0xff00_0000)
}

// A core that is rolled after each third event, a core that is never rolled, and the number of
// events taken.
struct Pair {
    rolled: Core,
    other: Core,
    taken: u64,
}

impl Drop for Pair {
    fn drop(self) {
        let Pair {
            rolled: _rolled,
            other: _other,
            taken: _,
        } = self;
    }
}

fn opened(rt: &HostRuntime, text: &str) -> Result<(Pair, Vec<Event>), Fail> {
    let (config, events) = events_of(rt.alloc(), text)?;
    let copy = config.copy(rt.alloc())?;
    let rolled = Core::open(rt.alloc(), copy, RandomState::new(rt)?)?;
    let other = Core::open(rt.alloc(), config, RandomState::new(rt)?)?;
    let taken = 0;
    Ok((
        Pair {
            rolled,
            other,
            taken,
        },
        events,
    ))
}

// Returns true if both lists have LSAs of the same scopes, keys and ages.
fn are_same(lsas: &[(Scope, Checked)], others: &[(Scope, Checked)]) -> bool {
    lsas.len() == others.len()
        && lsas.iter().zip(others).all(|(one, other)| {
            one.0 == other.0
                && one.1.header().age == other.1.header().age
                && one.1.key() == other.1.key()
        })
}

// Returns true if both cores have the same table, due summaries, LSAs and serials, and `one` is
// current.
fn agree(rt: &HostRuntime, one: &Core, other: &Core) -> Result<bool, Fail> {
    let here = items(rt.alloc(), one)?;
    let there = items(rt.alloc(), other)?;
    let lsas = one.lsas()?;
    let others = other.lsas()?;
    Ok(
        here.as_str() == there.as_str()
            && are_same(lsas.as_slice(), others.as_slice())
            && one.serial() == other.serial()
            && one.built() == other.built()
            && one.is_current(),
    )
}

// Opens a core from the base of this one, and applies the events of its journal.
fn opened_again(rt: &HostRuntime, core: &Core) -> Result<Core, Fail> {
    let base = core.base().copy(rt.alloc())?;
    let mut again = Core::open_from(rt.alloc(), base, RandomState::new(rt)?)?;
    for event in core.journal() {
        again.apply(event.copy(rt.alloc())?)?;
    }
    Ok(again)
}

impl Pair {
    // Applies the event to both cores, and rolls one after each third event. Returns true if these
    // cores and one that is opened again agree.
    fn takes(&mut self, rt: &HostRuntime, event: Event) -> Result<bool, Fail> {
        let copy = event.copy(rt.alloc())?;
        let one = self.rolled.apply(event)?;
        let other = self.other.apply(copy)?;
        let are_alike = one == other && one.state == Status::Current;
        self.taken = self.taken.saturating_add(1);
        if self.taken % 3 == 0 && !self.rolls()? {
            return Ok(false);
        }
        let again = opened_again(rt, &self.rolled)?;
        Ok(are_alike && agree(rt, &self.rolled, &self.other)? && agree(rt, &again, &self.other)?)
    }

    fn rolls(&mut self) -> Result<bool, Fail> {
        let serial = self.rolled.roll()?;
        Ok(
            serial == self.taken
                && self.rolled.journal().is_empty()
                && self.rolled.base().serial == serial,
        )
    }
}

fn range_set(advertise: bool) -> Event {
    let (area, prefix) = (0, range());
    Event::RangeSet {
        area,
        prefix,
        advertise,
    }
}

fn range_drop() -> Event {
    let (area, prefix) = (0, range());
    Event::RangeDrop { area, prefix }
}

// Events of each kind, and 300 seconds in which a range is set, hidden and dropped.
#[test]
fn a_core_that_is_rolled_goes_on(rt: HostRuntime) -> Result<(), Fail> {
    let (mut pair, events) = opened(&rt, crate::answers::ALL)?;
    let mut right = true;
    for event in events {
        right &= pair.takes(&rt, event)?;
    }
    for second in 0..300u32 {
        let event = match second % 100 {
            10 => range_set(true),
            40 => range_set(false),
            70 => range_drop(),
            _ => Event::Second,
        };
        right &= pair.takes(&rt, event)?;
    }
    assert!(rt; right && pair.taken == 323);
    Ok(())
}
