//! Reads captures from slow, interrupted or failing inputs, and prints their packets. It ends with
//! an error if the packets depend on the number of bytes a read.
mod reading;
mod samples;

use crate::slow_input::SlowInput;
use anyhow::{Result, ensure};
use reading::{count_all, pending_of, read_all};
use samples::*;
use std::alloc::Global;
use std::io;

/// The greatest numbers of bytes a read.
const STEPS: [usize; 3] = [1, 7, 1_000];

/// Reads that fail after 50 bytes of the pcap, which end within its second packet.
const FAULTS: [(&str, io::ErrorKind); 2] = [
    ("a read that fails", io::ErrorKind::ConnectionReset),
    (
        "a read for which memory runs out",
        io::ErrorKind::OutOfMemory,
    ),
];

pub fn run(rt: &HostRuntime) -> Result<()> {
    for (name, bytes) in captures() {
        println!(rt; "{name}")?;
        print!(rt; "{}", shown(rt.alloc(), name, bytes)?)?;
    }
    let name = "a packet that is longer than the first window";
    let bytes = long_packet(rt.alloc())?;
    println!(rt; "{name}")?;
    print!(rt; "{}", shown(rt.alloc(), name, &bytes)?)?;
    for (name, kind) in FAULTS {
        println!(rt; "{name}")?;
        print!(rt; "{}", shown_with_fault(rt.alloc(), name, kind)?)?;
    }
    println!(rt; "many packets")?;
    let bytes = many_packets(rt.alloc())?;
    print!(rt;
        "{}",
        count_all(rt.alloc(), &mut SlowInput::new(&bytes, 1_000))?
    )?;
    println!(rt; "what is pending, by 1, 60 and 1,000 bytes a read")?;
    for step in [1, 60, 1_000] {
        print!(rt;
            "{}",
            pending_of(rt.alloc(), &mut SlowInput::new(&PCAP, step))?
        )?;
    }
    Ok(())
}

fn captures() -> [(&'static str, &'static [u8]); 9] {
    [
        ("a pcap", &PCAP),
        ("a pcapng", &PCAPNG),
        ("a pcap that ends within its last packet", &PCAP[..77]),
        ("a pcapng that ends within its statistics", &PCAPNG[..100]),
        ("a pcap of a header and no packet", &PCAP[..24]),
        ("a pcap that ends within its header", &PCAP[..23]),
        ("a packet that is too long", &LONG_PACKET),
        ("a picture", &PICTURE),
        ("nothing", &[]),
    ]
}

// Returns the text of a capture, which is the same however its bytes come.
fn shown(alloc: Global, name: &str, bytes: &[u8]) -> Result<String> {
    let whole = read_all(alloc, &mut SlowInput::new(bytes, bytes.len()))?;
    for step in STEPS {
        ensure!(
            read_all(alloc, &mut SlowInput::new(bytes, step))? == whole,
            "{name}: something else comes by reads of {step}"
        );
        let mut input = SlowInput::new(bytes, step).with_interrupts();
        ensure!(
            read_all(alloc, &mut input)? == whole,
            "{name}: something else comes by reads of {step} with interrupts"
        );
    }
    Ok(whole)
}

// Returns the text of the pcap with a read that fails, which is the same however its bytes come.
fn shown_with_fault(alloc: Global, name: &str, kind: io::ErrorKind) -> Result<String> {
    let (front, behind) = PCAP.split_at(50);
    let whole = read_all(
        alloc,
        &mut SlowInput::new(front, 50).with_fault(kind, behind),
    )?;
    for step in STEPS {
        let mut input = SlowInput::new(front, step).with_fault(kind, behind);
        ensure!(
            read_all(alloc, &mut input)? == whole,
            "{name}: something else comes by reads of {step}"
        );
    }
    Ok(whole)
}
