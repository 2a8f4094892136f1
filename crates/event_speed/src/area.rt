//! A small area that changes at random, and the LSAs of its routers.

use crate::bytes::{HeaderFields, MAX_AGE, link, lsa};
use crate::choices::{below, metric_below, one_in};
use crate::routers::{BORDER, BOUNDARY, NETWORKS, ROUTERS, member, point, router_id, stub};
use anyhow::Result;
use event_core::Event;
use lsa_codec::Checked;
use ospf_types::key::{Key, Scope};
use ospf_types::memory::Memory;
use rand_xoshiro::Xoshiro256PlusPlus;
use std::alloc::Global;

const MASK: u32 = 0xffff_ff00;

/// The links of an area's routers.
#[derive(Drop)]
pub struct Area {
    number: u32,
    // The metrics by router and neighbour, or 0 if there is no link.
    metrics: Vec<u16>,
    // The metrics of stub links by router, or 0 if there is no stub link.
    stubs: Vec<u16>,
    // True if the router is attached, by transit network and router.
    members: Vec<bool>,
}

impl Area {
    /// Creates an area with random links.
    ///
    /// # Errors
    ///
    /// Returns `Memory` if memory runs out.
    pub fn new(
        alloc: Global,
        random: &mut Xoshiro256PlusPlus,
        number: u32,
    ) -> Result<Area, Memory> {
        let mut area = Area {
            number,
            metrics: Vec::new(alloc),
            stubs: Vec::new(alloc),
            members: Vec::new(alloc),
        };
        for _ in 0..ROUTERS * ROUTERS {
            area.metrics.push(some_metric(random))?;
        }
        for _ in 0..ROUTERS {
            area.stubs.push(metric_below(random, 6))?;
        }
        for _ in 0..NETWORKS * ROUTERS {
            area.members.push(one_in(random, 4))?;
        }
        Ok(area)
    }

    /// Returns the event that installs the router-LSA of a router.
    ///
    /// # Errors
    ///
    /// Returns an error if memory runs out.
    pub fn install(&self, alloc: Global, place: u32, instance: u32) -> Result<Event> {
        let lsa = self.router_lsa(alloc, place, 1, instance)?;
        let scope = Scope::Area(self.number);
        Ok(Event::Install { scope, lsa })
    }

    /// Returns a random event: an LSA is installed, often after a change of the area, and sometimes
    /// at MaxAge.
    ///
    /// # Errors
    ///
    /// Returns an error if memory runs out.
    pub fn change(
        &mut self,
        alloc: Global,
        random: &mut Xoshiro256PlusPlus,
        instance: u32,
    ) -> Result<Event> {
        let place = below(random, ROUTERS);
        let age = if one_in(random, 12) { MAX_AGE } else { 1 };
        let lsa = match below(random, 8) {
            0 => self.network_lsa(alloc, below(random, NETWORKS), age, instance)?,
            1 => {
                let network = below(random, NETWORKS);
                self.attach(network, place);
                self.network_lsa(alloc, network, age, instance)?
            }
            2 => {
                self.set_stub(place, metric_below(random, 6));
                self.router_lsa(alloc, place, age, instance)?
            }
            3 => self.router_lsa(alloc, place, age, instance)?,
            _ => {
                let metric = some_metric(random);
                self.set_metric(place, below(random, ROUTERS), metric);
                self.router_lsa(alloc, place, age, instance)?
            }
        };
        let scope = Scope::Area(self.number);
        Ok(Event::Install { scope, lsa })
    }

    /// Returns an event that removes a random router-LSA: a flush of the router's own, or else a
    /// purge.
    pub fn removal(&self, random: &mut Xoshiro256PlusPlus) -> Event {
        let scope = Scope::Area(self.number);
        let place = below(random, ROUTERS);
        let router = router_id(self.number, place);
        let key = Key {
            kind: 1,
            id: router,
            router,
        };
        if place == 0 {
            Event::Flush { scope, key }
        } else {
            Event::Purge { scope, key }
        }
    }

    fn metric(&self, place: u32, neighbour: u32) -> u16 {
        let index = place.wrapping_mul(ROUTERS).wrapping_add(neighbour);
        self.metrics.get(index as usize).copied().unwrap_or(0)
    }

    fn set_metric(&mut self, place: u32, neighbour: u32, metric: u16) {
        let index = place.wrapping_mul(ROUTERS).wrapping_add(neighbour);
        if let Some(kept) = self.metrics.get_mut(index as usize) {
            *kept = metric;
        }
    }

    fn set_stub(&mut self, place: u32, metric: u16) {
        if let Some(kept) = self.stubs.get_mut(place as usize) {
            *kept = metric;
        }
    }

    // Attaches the router to the network, or detaches it.
    fn attach(&mut self, network: u32, place: u32) {
        let index = network.wrapping_mul(ROUTERS).wrapping_add(place);
        if let Some(kept) = self.members.get_mut(index as usize) {
            *kept = !*kept;
        }
    }

    fn is_attached(&self, network: u32, place: u32) -> bool {
        let index = network.wrapping_mul(ROUTERS).wrapping_add(place);
        self.members.get(index as usize).copied().unwrap_or(false)
    }

    // Returns the number of the Designated Router: the first router that is attached, or 0.
    fn designated(&self, network: u32) -> u32 {
        for place in 0..ROUTERS {
            if self.is_attached(network, place) {
                return place;
            }
        }
        0
    }

    fn router_lsa(&self, alloc: Global, place: u32, age: u16, instance: u32) -> Result<Checked> {
        let mut links = Vec::new(alloc);
        self.push_points(place, &mut links)?;
        self.push_transits(place, &mut links)?;
        self.push_stub(place, &mut links)?;
        let count = u16::try_from(links.len() / 12)?;
        let [high, low] = count.to_be_bytes();
        let mut body = Vec::from_slice(alloc, &[flags(place), 0, high, low])?;
        body.extend_from_slice(&links)?;
        let router = router_id(self.number, place);
        let head = HeaderFields {
            age,
            kind: 1,
            id: router,
            router,
            instance,
        };
        lsa(alloc, head, &body)
    }

    // Appends the point-to-point links of the router.
    fn push_points(&self, place: u32, links: &mut Vec<u8>) -> Result<(), Memory> {
        for neighbour in 0..ROUTERS {
            let metric = self.metric(place, neighbour);
            if metric > 0 && neighbour != place {
                let id = router_id(self.number, neighbour);
                let data = point(self.number, place, neighbour);
                links.extend_from_slice(&link(id, data, 1, metric))?;
            }
        }
        Ok(())
    }

    // Appends the links of the router to transit networks.
    fn push_transits(&self, place: u32, links: &mut Vec<u8>) -> Result<(), Memory> {
        for network in 0..NETWORKS {
            if self.is_attached(network, place) {
                let id = member(self.number, network, self.designated(network));
                let data = member(self.number, network, place);
                links.extend_from_slice(&link(id, data, 2, 2))?;
            }
        }
        Ok(())
    }

    // Appends the stub link of the router, if it has one.
    fn push_stub(&self, place: u32, links: &mut Vec<u8>) -> Result<(), Memory> {
        let metric = self.stubs.get(place as usize).copied().unwrap_or(0);
        if metric > 0 {
            let network = stub(self.number, place);
            links.extend_from_slice(&link(network, MASK, 3, metric))?;
        }
        Ok(())
    }

    fn network_lsa(&self, alloc: Global, network: u32, age: u16, instance: u32) -> Result<Checked> {
        let mut body = Vec::from_slice(alloc, &MASK.to_be_bytes())?;
        for place in 0..ROUTERS {
            if self.is_attached(network, place) {
                body.extend_from_slice(&router_id(self.number, place).to_be_bytes())?;
            }
        }
        let designated = self.designated(network);
        let head = HeaderFields {
            age,
            kind: 2,
            id: member(self.number, network, designated),
            router: router_id(self.number, designated),
            instance,
        };
        lsa(alloc, head, &body)
    }
}

// Returns the metric of a link, or 0 for no link in half of the cases.
fn some_metric(random: &mut Xoshiro256PlusPlus) -> u16 {
    metric_below(random, 8).saturating_sub(3)
}

// Returns the bits B and E of a router-LSA (RFC 2328, A.4.2).
fn flags(place: u32) -> u8 {
    match place {
        BORDER => 1,
        BOUNDARY => 2,
        3 => 3,
        _ => 0,
    }
}
