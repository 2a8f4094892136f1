//! Prints the preambles of recordings that are made of LSAs.
mod bytes;
mod many_links;
mod samples;
mod trial;

use anyhow::Result;
use bytes::{Fields, HeaderFields, router_lsa, summary_lsa};
use many_links::{NEIGHBOUR, links_back, own_links};
use ospf_types::address::Address;
use samples::{AREAS, ROUTERS, SUMMARIES};
use std::alloc::Global;
use std::hash::RandomState;
use trial::Trial;

/// The Router ID of the router whose configuration is wanted.
const ROUTER: u32 = 0x0a00_0009;

pub fn run(rt: &HostRuntime) -> Result<()> {
    println!(rt; "a border router")?;
    put_border_router(rt)?;
    println!(rt; "300 networks")?;
    put_many_networks(rt)?;
    println!(rt; "5400 links")?;
    put_many_links(rt)?;
    println!(rt; "17 areas")?;
    put_areas(rt, 17)?;
    println!(rt; "no area")?;
    put_areas(rt, 0)
}

fn put_border_router(rt: &HostRuntime) -> Result<()> {
    let mut trial = Trial::new(rt.alloc(), RandomState::new(rt)?, ROUTER);
    for area in AREAS {
        trial.see(area)?;
    }
    note_routers(rt, &mut trial)?;
    note_summaries(rt, &mut trial)?;
    trial.put(rt.alloc())?;
    print!(rt; "{}", trial.text())?;
    Ok(())
}

fn note_routers(rt: &HostRuntime, trial: &mut Trial) -> Result<()> {
    for sample in ROUTERS {
        let head = HeaderFields {
            options: sample.options,
            id: sample.router,
            router: sample.router,
        };
        let lsa = router_lsa(rt.alloc(), head, sample.links)?;
        trial.note(rt.alloc(), sample.area, &lsa)?;
    }
    Ok(())
}

fn note_summaries(rt: &HostRuntime, trial: &mut Trial) -> Result<()> {
    for sample in SUMMARIES {
        let head = HeaderFields {
            options: 2,
            id: sample.id,
            router: sample.router,
        };
        let lsa = summary_lsa(rt.alloc(), head, sample.mask, sample.metric)?;
        trial.note(rt.alloc(), sample.area, &lsa)?;
    }
    Ok(())
}

// Prints the preamble for a router with 300 stub networks, from 10.1.0.0/24 up.
fn put_many_networks(rt: &HostRuntime) -> Result<()> {
    let mut trial = Trial::new(rt.alloc(), RandomState::new(rt)?, ROUTER);
    trial.see(0)?;
    let mut links = Vec::new(rt.alloc());
    for number in 0..300u32 {
        links.push((0x0a01_0000 + 256 * number, 0xffff_ff00, 3))?;
    }
    let head = HeaderFields {
        options: 2,
        id: ROUTER,
        router: ROUTER,
    };
    let lsa = router_lsa(rt.alloc(), head, &links)?;
    trial.note(rt.alloc(), 0, &lsa)?;
    trial.put(rt.alloc())?;
    print!(rt; "{}", trial.text())?;
    Ok(())
}

// Prints the last lines for two routers, each with nearly as many links as a router-LSA holds. They
// show if the last link was found.
fn put_many_links(rt: &HostRuntime) -> Result<()> {
    let alloc = rt.alloc();
    let mut trial = Trial::new(alloc, RandomState::new(rt)?, ROUTER);
    trial.see(0)?;
    note_links(alloc, &mut trial, ROUTER, &own_links(alloc)?)?;
    note_links(alloc, &mut trial, NEIGHBOUR, &links_back(alloc, ROUTER)?)?;
    trial.put(alloc)?;
    for line in trial.text().lines().skip(256) {
        println!(rt; "{line}")?;
    }
    Ok(())
}

fn note_links(alloc: Global, trial: &mut Trial, router: u32, links: &[Fields]) -> Result<()> {
    let head = HeaderFields {
        options: 2,
        id: router,
        router,
    };
    let lsa = router_lsa(alloc, head, links)?;
    trial.note(alloc, 0, &lsa)
}

// Prints the fault for a router of which only the areas are known.
fn put_areas(rt: &HostRuntime, count: u32) -> Result<()> {
    let mut trial = Trial::new(rt.alloc(), RandomState::new(rt)?, ROUTER);
    for area in 0..count {
        trial.see(area)?;
    }
    trial.put_fault(rt.alloc())?;
    println!(rt; "{}: {}", Address(ROUTER), trial.text())?;
    Ok(())
}
