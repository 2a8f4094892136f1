//! Prints the recordings that are made of captures.
mod many;
mod reading;
mod samples;
mod session;
mod texts;

use crate::FILES;
use anyhow::Result;
use captured_lsas::Options;
use captures::Capture;
use many::ensure_known_again;
use reading::put_capture;
use samples::{FLUSHED_TWICE, PACKETS, captured};
use session::SessionLines;
use std::fs;
use std::hash::RandomState;

pub fn run(rt: &HostRuntime) -> Result<()> {
    for name in FILES {
        println!(rt; "{name}")?;
        put_file(rt, name, false)?;
    }
    println!(rt; "all LSAs and no seconds")?;
    put_file(rt, "small.pcap", true)?;
    println!(rt; "fragments")?;
    put_packets(rt, &PACKETS, true)?;
    println!(rt; "flushed twice")?;
    put_packets(rt, &FLUSHED_TWICE, false)?;
    ensure_known_again(rt.alloc(), RandomState::new(rt)?)
}

// Prints the recording of a file. A bare recording has all LSAs and no seconds.
fn put_file(rt: &HostRuntime, name: &str, is_bare: bool) -> Result<()> {
    let options = Options {
        keeps_all: is_bare,
        without_seconds: is_bare,
    };
    let bytes = fs::read(rt, name)?;
    let mut capture = Capture::new(rt.alloc());
    let mut session = SessionLines::new(rt.alloc(), RandomState::new(rt)?, options);
    put_capture(rt.alloc(), &mut capture, &mut session, &bytes)?;
    print!(rt; "{}", session.text())?;
    Ok(())
}

// Prints the recording of packets that were written by hand.
fn put_packets(rt: &HostRuntime, packets: &[&[u8]], keeps_all: bool) -> Result<()> {
    let options = Options {
        keeps_all,
        without_seconds: false,
    };
    let mut session = SessionLines::new(rt.alloc(), RandomState::new(rt)?, options);
    for bytes in packets {
        session.put(rt.alloc(), &captured(bytes))?;
    }
    print!(rt; "{}", session.text())?;
    Ok(())
}
