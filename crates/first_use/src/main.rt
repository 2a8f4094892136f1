//! A border router of two areas on one thread.
//!
//! It applies two interface events and an LSA, looks an address up, and prints the route and the
//! summaries due in the backbone. README quotes `main`.
#![tactic(auto)]

mod engine_sample;

use abr_router::{
    Address, AreaConfig, Areas, Config, Core, Dest, DueSummary, Event, Memory, Ranges, Scope, read,
};
use anyhow::Result;
use engine_sample::run_sample;
use std::alloc::Global;
use std::hash::RandomState;
use std::io;
use std::io::Print;

/// The router-LSA of 10.0.0.1, with a stub link to 203.0.113.128/25 at metric 10 (RFC 2328, A.4.2).
const OWN: [u8; 36] = [
    0, 1, 2, 1, 10, 0, 0, 1, 10, 0, 0, 1, 0x80, 0, 0, 1, 0x31, 0xc2, 0, 36, 1, 0, 0, 1, 203, 0,
    113, 128, 255, 255, 255, 128, 3, 0, 0, 10,
];

fn main(rt: HostRuntime) -> Result<()> {
    let (alloc, hashing) = (rt.alloc(), RandomState::new(&rt)?);
    let mut core = Core::open(alloc, two_areas(alloc)?, hashing)?;
    core.apply(up(1, 0, [192, 0, 2, 1]))?;
    core.apply(up(2, 1, [203, 0, 113, 129]))?;
    let (scope, lsa) = (Scope::Area(1), read(alloc, &OWN)?);
    core.apply(Event::Install { scope, lsa })?;
    let address = u32::from_be_bytes([203, 0, 113, 200]);
    println!(rt; "{}", core.table().lookup(address))?;
    for due in core.due(0).unwrap_or(&[]) {
        print_due(&rt, due)?;
    }
    run_sample(&rt)
}

// Returns the configuration of a router with the backbone and the area 0.0.0.1 (C.1, C.2).
fn two_areas(alloc: Global) -> Result<Config, Memory> {
    let mut areas = Areas::new(alloc);
    for id in 0..2 {
        areas.push(AreaConfig {
            id,
            stub: None,
            ranges: Ranges::new(alloc),
        })?;
    }
    Ok(Config {
        router: u32::from_be_bytes([10, 0, 0, 1]),
        compat: false,
        areas,
    })
}

// Returns the event that an interface to a network comes up.
fn up(id: u8, area: u32, address: [u8; 4]) -> Event {
    Event::Interface {
        id,
        area,
        address: u32::from_be_bytes(address),
        peer: 0,
        up: true,
    }
}

// Prints the LS type, the destination and the metric of a due summary-LSA (12.4.3).
fn print_due(rt: &impl Print, due: &DueSummary) -> io::Result<()> {
    let (kind, metric) = (due.kind, due.metric);
    match due.dest {
        Dest::Net(network) => println!(rt; "due {kind} {network} {metric}"),
        Dest::Router(router) => println!(rt; "due {kind} {} {metric}", Address(router)),
    }
}
