//! An engine with two threads that submit events, and one forwarder.
//!
//! Each thread submits a router-LSA. Then the forwarder looks an address up in a table that
//! reflects both. docs/LIBRARY.md quotes `run`.
ghost use Rattle.std.specs.Prelude.{◌≡◌, IfOk, IfSome};

use abr_router::{
    Answer, AreaConfig, Areas, BytesFault, Config, Engine, Event, Forwarder, Memory, Ranges, Scope,
    Seen,
};
use anyhow::Result;
use std::alloc::Global;
use std::hash::RandomState;
use std::io;
use std::io::Print;
use std::random::RandomSource;
use std::sync::Wait;
use std::thread::{Threads, join};

const BACKBONE: Scope = Scope::Area(0);

/// The router-LSA of 10.0.0.1, with a point-to-point link to 10.0.0.2 at metric 10 (RFC 2328,
/// A.4.2).
const OWN: [u8; 36] = [
    0, 1, 2, 1, 10, 0, 0, 1, 10, 0, 0, 1, 0x80, 0, 0, 1, 0xe6, 0xe2, 0, 36, 0, 0, 0, 1, 10, 0, 0,
    2, 198, 51, 100, 1, 1, 0, 0, 10,
];

/// The router-LSA of 10.0.0.2, with the other end of the link, and a stub link to 203.0.113.0/24 at
/// metric 1.
const PEER: [u8; 48] = [
    0, 1, 2, 1, 10, 0, 0, 2, 10, 0, 0, 2, 0x80, 0, 0, 1, 0xd6, 0xa2, 0, 48, 0, 0, 0, 2, 10, 0, 0,
    1, 198, 51, 100, 2, 1, 0, 0, 10, 203, 0, 113, 0, 255, 255, 255, 0, 3, 0, 0, 1,
];

/// Runs the sample.
pub fn run_sample<R: AllocGlobal + RandomSource + Threads + Wait + Sync + Print>(
    rt: &R,
) -> Result<()> {
    let (alloc, hashing) = (rt.alloc(), RandomState::new(rt)?);
    let (engine, mut forwarders) = Engine::open(rt, alloc, one_area(alloc)?, 1, hashing)?;
    let ran = match forwarders.pop() {
        Some(forwarder) => run(rt, &engine, forwarder),
        None => Ok(()),
    };
    // The engine is closed even if `run` failed.
    drop(engine.close(rt));
    ran
}

// Submits an LSA on each of two threads. If both answers have tokens, the forwarder then reads a
// table that reflects both LSAs.
fn run<R: Threads + Wait + Sync + Print>(
    rt: &R,
    engine: &Engine,
    forwarder: Forwarder,
) -> Result<()>
    requires { forwarder.name ≡ engine.now }
{
    engine.submit(rt, link_up())?;
    let (one, two) = join(
        rt,
        move || engine.submit_bytes(rt, BACKBONE, &OWN),
        move || engine.submit_bytes(rt, BACKBONE, &PEER),
    );
    let forwarder = learn(learn(forwarder, one?), two?);
    print_route(rt, forwarder, u32::from_be_bytes([203, 0, 113, 9]))?;
    Ok(())
}

// Makes the forwarder learn the answer's token, if it has one. Every later lookup then uses a table
// that contains the event.
fn learn(forwarder: Forwarder, answer: Answer) -> Forwarder
    requires { IfSome answer.told (λ told. told.name ≡ forwarder.name) }
    ensures { result.name ≡ forwarder.name }
{
    match answer.told {
        Some(told) => forwarder.learn(told),
        None => forwarder,
    }
}

// Prints the match of the address, and ends the access, because a publication may wait for it.
fn print_route(rt: &impl Print, forwarder: Forwarder, address: u32) -> io::Result<()> {
    match forwarder.lookup(address) {
        Ok(seen) => {
            let printed = print_found(rt, &seen);
            drop(seen.leave());
            printed
        }
        Err(_) => println!(rt; "no entry to the table"),
    }
}

fn print_found(rt: &impl Print, seen: &Seen) -> io::Result<()> {
    println!(rt; "after {} events: {}", seen.serial(), seen.found())
}

// Returns the event that the interface of the link to 198.51.100.2 comes up.
fn link_up() -> Event {
    Event::Interface {
        id: 1,
        area: 0,
        address: u32::from_be_bytes([198, 51, 100, 1]),
        peer: u32::from_be_bytes([198, 51, 100, 2]),
        up: true,
    }
}

// Returns the configuration of a router with the backbone only.
fn one_area(alloc: Global) -> Result<Config, Memory> {
    let mut areas = Areas::new(alloc);
    areas.push(AreaConfig {
        id: 0,
        stub: None,
        ranges: Ranges::new(alloc),
    })?;
    Ok(Config {
        router: u32::from_be_bytes([10, 0, 0, 1]),
        compat: false,
        areas,
    })
}
