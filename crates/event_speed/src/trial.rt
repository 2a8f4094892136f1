//! Compares the routes and the due summaries of a core that follows events with those of a core
//! that opens its base.

use crate::area::Area;
use crate::bytes::{HeaderFields, external, lsa, summary};
use crate::choices::{below, one_in};
use crate::routers::{BORDER, BOUNDARY, NETWORKS, ROUTERS, member, point, router_id, stub};
use anyhow::Result;
use event_core::table::{Item, Table};
use event_core::{Core, DueSummaries, Event};
use ospf_types::config::{AreaConfig, Areas, Config, Ranges};
use ospf_types::key::Scope;
use ospf_types::memory::Memory;
use ospf_types::prefix::Prefix;
use rand_core::SeedableRng;
use rand_xoshiro::Xoshiro256PlusPlus;
use recording::{Recording, Version, parse, print};
use std::alloc::Global;
use std::hash::RandomState;
use std::io;
use std::io::Print;
use std::random::RandomSource;

// The number of events.
const EVENTS: u32 = 500;
// The number of changed items that has to be exceeded, or the events would test little.
const ENOUGH: u64 = 250;
// The number of interfaces of the calculating router in an area.
const PLACES: u32 = ROUTERS + NETWORKS;
// LSInfinity (RFC 2328, B).
const INFINITY: u32 = 0x00ff_ffff;

/// A core, the areas of its events, and the results.
#[derive(Drop)]
pub struct Trial {
    core: Core,
    areas: Vec<Area>,
    random: Xoshiro256PlusPlus,
    // The number of table items that changed.
    changes: u64,
    // The number of events after which routes or due summaries differ.
    differ: u64,
}

impl Trial {
    /// Changes `areas` areas at random, and compares after each event.
    ///
    /// # Errors
    ///
    /// Returns an error if memory runs out, or if an event or roll is refused that has to be taken.
    pub fn run<R: AllocGlobal + RandomSource>(rt: &R, areas: u32) -> Result<Trial> {
        let mut trial = Trial::new(rt, areas)?;
        trial.raise_interfaces()?;
        trial.install_all(rt.alloc())?;
        for instance in 1..=EVENTS {
            let event = trial.event(rt.alloc(), instance)?;
            trial.take(event);
            trial.compare(rt)?;
        }
        Ok(trial)
    }

    pub fn print(&self, rt: &impl Print) -> io::Result<()> {
        let areas = self.areas.len();
        let changed = if self.changes > ENOUGH {
            "more"
        } else {
            "no more"
        };
        println!(rt; "areas {areas}: events {EVENTS}, {changed} than {ENOUGH} items changed")?;
        println!(rt; "events after which something differs: {}", self.differ)
    }

    // Creates random areas, and a core with no interfaces and no LSAs.
    fn new<R: AllocGlobal + RandomSource>(rt: &R, count: u32) -> Result<Trial> {
        let alloc = rt.alloc();
        let mut random = Xoshiro256PlusPlus::seed_from_u64(1);
        let mut areas = Vec::new(alloc);
        for number in 0..count {
            areas.push(Area::new(alloc, &mut random, number)?)?;
        }
        let core = Core::open(alloc, config(alloc, count)?, RandomState::new(rt)?)?;
        Ok(Trial {
            core,
            areas,
            random,
            changes: 0,
            differ: 0,
        })
    }

    // Brings up all interfaces of the calculating router.
    fn raise_interfaces(&mut self) -> Result<()> {
        for area in 0..self.count() {
            for place in 0..PLACES {
                self.core.apply(interface(area, place, true))?;
            }
        }
        Ok(())
    }

    // Installs the router-LSAs of all routers.
    fn install_all(&mut self, alloc: Global) -> Result<()> {
        for area in &self.areas {
            for place in 0..ROUTERS {
                self.core.apply(area.install(alloc, place, 0)?)?;
            }
        }
        Ok(())
    }

    fn count(&self) -> u32 {
        u32::try_from(self.areas.len()).unwrap_or(0)
    }

    // Returns a random event.
    fn event(&mut self, alloc: Global, instance: u32) -> Result<Event> {
        let count = self.count();
        let area = below(&mut self.random, count);
        match below(&mut self.random, 16) {
            0 => Ok(Event::Second),
            1 => {
                let place = below(&mut self.random, PLACES);
                let up = !one_in(&mut self.random, 3);
                Ok(interface(area, place, up))
            }
            2 => Ok(range(&mut self.random, area)),
            3 | 4 => summary_event(alloc, &mut self.random, area, instance),
            5 | 6 => external_event(alloc, &mut self.random, area, instance),
            kind => self.change(alloc, area, kind, instance),
        }
    }

    // Returns a random event of one area's own LSAs.
    fn change(&mut self, alloc: Global, area: u32, kind: u32, instance: u32) -> Result<Event> {
        let random = &mut self.random;
        match self.areas.get_mut(area as usize) {
            Some(area) if kind == 7 => Ok(area.removal(random)),
            Some(area) => area.change(alloc, random, instance),
            None => Ok(Event::Second),
        }
    }

    // Applies the event, which may be refused.
    fn take(&mut self, event: Event) {
        if self.core.apply(event).is_ok() {
            let changes = self.core.changes().len() as u64;
            self.changes = self.changes.saturating_add(changes);
        }
    }

    // Rolls the core, and compares it with a core that is opened from the printed base.
    fn compare<R: AllocGlobal + RandomSource>(&mut self, rt: &R) -> Result<()> {
        self.core.roll()?;
        let text = printed(rt.alloc(), &self.core)?;
        let rebuilt = opened(rt, text.as_slice())?;
        if !are_same(&self.core, &rebuilt) {
            self.differ = self.differ.saturating_add(1);
        }
        Ok(())
    }
}

// Returns the recording of the core's base.
fn printed(alloc: Global, core: &Core) -> Result<Vec<u8>> {
    let base = core.base().copy(alloc)?;
    let recording = Recording::of(Version::Three, base, Vec::new(alloc));
    let mut text = Vec::new(alloc);
    if let Some(recording) = recording {
        print(alloc, &recording, &mut text)?;
    }
    Ok(text)
}

// Opens a core from the base of a recording.
fn opened<R: AllocGlobal + RandomSource>(rt: &R, text: &[u8]) -> Result<Core> {
    let recording = parse(rt.alloc(), text)?;
    let (_, base, _) = recording.into_parts();
    Ok(Core::open_from(rt.alloc(), base, RandomState::new(rt)?)?)
}

// Returns true if both cores have the same routes and the same due summaries.
fn are_same(one: &Core, other: &Core) -> bool {
    have_same_routes(one.table(), other.table())
        && have_same_summaries(one.summaries(), other.summaries())
}

fn have_same_routes(one: &Table, other: &Table) -> bool {
    let mut others = other.items();
    for (network, item) in one.items() {
        match others.next() {
            Some((next, other)) if next == network && is_same(item, other) => {}
            _ => return false,
        }
    }
    others.next().is_none()
}

fn is_same(one: &Item, other: &Item) -> bool {
    match (one, other) {
        (Item::Route(one), Item::Route(other)) => one.is_same(other),
        (Item::Discard, Item::Discard) => true,
        _ => false,
    }
}

fn have_same_summaries(one: &DueSummaries, other: &DueSummaries) -> bool {
    let (ones, others) = (one.areas(), other.areas());
    ones.len() == others.len()
        && ones.iter().zip(others).all(|(one, other)| {
            one.area() == other.area() && one.as_slice() == other.as_slice()
        })
}

// Returns the configuration of a router with `count` areas and no ranges (RFC 2328, C.1, C.2).
fn config(alloc: Global, count: u32) -> Result<Config, Memory> {
    let mut areas = Areas::new(alloc);
    for id in 0..count {
        areas.push(AreaConfig {
            id,
            stub: None,
            ranges: Ranges::new(alloc),
        })?;
    }
    Ok(Config {
        router: router_id(0, 0),
        compat: false,
        areas,
    })
}

// Returns the event for an interface of the calculating router. The first `ROUTERS` interfaces lead
// to neighbours, and the others to transit networks.
fn interface(area: u32, place: u32, up: bool) -> Event {
    let id = u8::try_from(area.wrapping_mul(PLACES).wrapping_add(place)).unwrap_or(0);
    let (address, peer) = match place.checked_sub(ROUTERS) {
        Some(network) => (member(area, network, 0), 0),
        None => (point(area, 0, place), point(area, place, 0)),
    };
    Event::Interface {
        id,
        area,
        address,
        peer,
        up,
    }
}

// Returns an event that sets or drops a range over the stub networks of some routers.
fn range(random: &mut Xoshiro256PlusPlus, area: u32) -> Event {
    let mask = 0xffff_fc00;
    let prefix = Prefix::from_mask(stub(area, below(random, ROUTERS)) & mask, mask);
    if one_in(random, 3) {
        return Event::RangeDrop { area, prefix };
    }
    let advertise = !one_in(random, 3);
    Event::RangeSet {
        area,
        prefix,
        advertise,
    }
}

// Returns the install of a border router's summary-LSA, for a network outside the area or an AS
// boundary router (RFC 2328, A.4.4).
fn summary_event(
    alloc: Global,
    random: &mut Xoshiro256PlusPlus,
    area: u32,
    instance: u32,
) -> Result<Event> {
    let metric = if one_in(random, 6) {
        INFINITY
    } else {
        below(random, 20)
    };
    let number = below(random, 6);
    let (kind, id, mask) = if one_in(random, 3) {
        (4, 0x0b00_0001u32.wrapping_add(number), 0)
    } else {
        (3, 0x1e00_0000u32.wrapping_add(number << 16), 0xffff_0000)
    };
    let head = HeaderFields {
        age: 1,
        kind,
        id,
        router: router_id(area, BORDER),
        instance,
    };
    let lsa = lsa(alloc, head, &summary(mask, metric))?;
    let scope = Scope::Area(area);
    Ok(Event::Install { scope, lsa })
}

// Returns the install of an AS-external-LSA, of an AS boundary router in the area or outside it
// (RFC 2328, A.4.5).
fn external_event(
    alloc: Global,
    random: &mut Xoshiro256PlusPlus,
    area: u32,
    instance: u32,
) -> Result<Event> {
    let router = match below(random, 3) {
        0 => 0x0b00_0001,
        1 => router_id(area, 3),
        _ => router_id(area, BOUNDARY),
    };
    let forward = if one_in(random, 3) {
        stub(area, below(random, ROUTERS)).wrapping_add(1)
    } else {
        0
    };
    let metric = if one_in(random, 8) {
        INFINITY
    } else {
        below(random, 5)
    };
    let body = external(0xffff_ff00, one_in(random, 2), metric, forward);
    let head = HeaderFields {
        age: 1,
        kind: 5,
        id: 0x3000_0000u32.wrapping_add(below(random, 8) << 8),
        router,
        instance,
    };
    let lsa = lsa(alloc, head, &body)?;
    let scope = Scope::As;
    Ok(Event::Install { scope, lsa })
}
