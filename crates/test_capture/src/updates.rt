//! Reads packets and their LSAs, and prints them or their faults.
mod samples;
mod texts;

use anyhow::Result;
use packets::internet_checksum;
use samples::{CARRIES, CHANGES, EXAMPLE, HELLO, ODD, SIGNED, UPDATE, UPDATE_CHANGES};
use texts::{changed_text, changed_update_text, kind_text, packet_text, update_text};

pub fn run(rt: &HostRuntime) -> Result<()> {
    let alloc = rt.alloc();
    let example = internet_checksum(&EXAMPLE);
    let carries = internet_checksum(&CARRIES);
    let nothing = internet_checksum(&[]);
    println!(rt; "{example:04x} {carries:04x} {nothing:04x}")?;
    for number in 0..7 {
        println!(rt; "{}", kind_text(alloc, number)?)?;
    }
    for bytes in [&HELLO[..], &UPDATE[..], &SIGNED[..], &ODD[..], &HELLO[..23]] {
        println!(rt; "{}", packet_text(alloc, bytes)?)?;
    }
    for (place, byte) in CHANGES {
        println!(rt; "{}", changed_text(alloc, place, byte)?)?;
    }
    println!(rt; "{}", update_text(alloc, &UPDATE[24..])?)?;
    println!(rt; "{}", update_text(alloc, &UPDATE[24..95])?)?;
    println!(rt; "{}", update_text(alloc, &UPDATE[24..27])?)?;
    for (place, byte) in UPDATE_CHANGES {
        println!(rt; "{}", changed_update_text(alloc, place, byte)?)?;
    }
    Ok(())
}
