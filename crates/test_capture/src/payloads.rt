//! Tests of frames, headers and fragments that were written by hand.
//!
//! Each is compared with the expected result. The name of each test is printed, and the first
//! difference ends the run with an error.
mod frames;
mod headers;
mod parts;

use anyhow::{Result, ensure};
use frames::{are_unknown, ethernet_frames, other_frames};
use headers::{HEADERS, is_read, is_read_behind_options};
use packets::DatagramFault;
use parts::{PARTS, first_is_forgotten};

pub fn run(rt: &HostRuntime) -> Result<()> {
    let alloc = rt.alloc();
    for frame in ethernet_frames() {
        frame.run(alloc)?;
        println!(rt; "{}", frame.name)?;
    }
    for frame in other_frames() {
        frame.run(alloc)?;
        println!(rt; "{}", frame.name)?;
    }
    ensure!(are_unknown(), "9 or 277 is a known link type");
    println!(rt; "link types that are not known")?;
    ensure!(is_read(), "the datagram is read otherwise");
    println!(rt; "a datagram, and padding behind it")?;
    ensure!(is_read_behind_options(), "the fragment is read otherwise");
    println!(rt; "a fragment with options")?;
    for header in HEADERS {
        header.run(alloc)?;
        println!(rt; "{}", header.name)?;
    }
    println!(rt;
        "{}, {}, {}",
        DatagramFault::Header,
        DatagramFault::Length,
        DatagramFault::Fragment
    )?;
    for parts in PARTS {
        parts.run(alloc)?;
        println!(rt; "{}", parts.name)?;
    }
    ensure!(first_is_forgotten(alloc)?, "others are forgotten, or kept");
    println!(rt; "parts of 65 datagrams")?;
    Ok(())
}
