//! Prints the packets and faults of captures, each read whole and few bytes at a time. It ends with
//! an error if the two readings differ.
mod reading;
mod samples;

use crate::FILES;
use anyhow::{Result, ensure};
use reading::read_all;
use samples::*;
use std::alloc::Global;
use std::fs;

/// The numbers of bytes at a time.
const STEPS: [usize; 3] = [1, 7, 64];

pub fn run(rt: &HostRuntime) -> Result<()> {
    let captures: [(&str, &[u8]); 21] = [
        ("a pcap with microseconds", &MICROSECONDS),
        ("a pcap with nanoseconds", &NANOSECONDS),
        ("a pcapng of two sections", &SECTIONS),
        ("nothing", &[]),
        ("a picture", &NO_MAGIC),
        ("no byte order", &NO_BYTE_ORDER),
        ("a pcap of version 3", &FILE_VERSION),
        ("a section of version 2", &SECTION_VERSION),
        ("a block of 14 bytes", &UNEVEN_BLOCK),
        ("a block that is too short", &SHORT_BLOCK),
        ("a block that is too long", &LONG_BLOCK),
        ("a length that is not repeated", &OTHER_END),
        ("a packet that is too long", &LONG_PACKET),
        ("a packet past its block", &PAST_BLOCK),
        ("an interface that is not declared", &NO_INTERFACE),
        ("an interface of another section", &FORGOTTEN),
        ("an option past its block", &LONG_OPTION),
        ("a resolution of 2 bytes", &WIDE_RESOLUTION),
        ("a time before 1970", &BEFORE_1970),
        ("a header that is cut off", &CUT_HEADER),
        ("a block that is cut off", &CUT_BLOCK),
    ];
    for (name, bytes) in captures {
        println!(rt; "{name}")?;
        print!(rt; "{}", shown(rt.alloc(), name, bytes)?)?;
    }
    for name in FILES {
        let bytes = fs::read(rt, name)?;
        println!(rt; "{name}")?;
        print!(rt; "{}", shown(rt.alloc(), name, &bytes)?)?;
    }
    Ok(())
}

// Returns the text of a capture, which is the same however its bytes come.
fn shown(alloc: Global, name: &str, bytes: &[u8]) -> Result<String> {
    let whole = read_all(alloc, bytes, bytes.len())?;
    for step in STEPS {
        let text = read_all(alloc, bytes, step)?;
        ensure!(
            text == whole,
            "{name}: something else comes by {step} bytes"
        );
    }
    Ok(whole)
}
