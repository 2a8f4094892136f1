//! Prints lines of each kind: lines of a recording, faults, seconds that are not recorded, and
//! counts.
mod samples;

use anyhow::Result;
use capture_recording::{Counts, put_counts, put_fault_note, put_notes, put_taken};
use captured_lsas::{Heard, Payload, Taken};
use packets::{DatagramFault, PacketFault, PacketKind};
use samples::{one_each, two_each, without_lsas};

/// The address 192.0.2.2.
const SENDER: u32 = 0xc000_0202;

/// A time 300 milliseconds after a second of the year 2023, in nanoseconds.
const TIME: u64 = 1_700_000_002_300_000_000;

/// A time at a whole second, in nanoseconds.
const LATER: u64 = 1_700_009_000_000_000_000;

pub fn run(rt: &HostRuntime) -> Result<()> {
    let mut text = String::new(rt.alloc());
    put_counts(Counts::default(), 0, &mut text)?;
    put_one(rt, &mut text)?;
    put_several(rt, &mut text)?;
    put_gaps(rt, &mut text)?;
    print!(rt; "{text}")?;
    Ok(())
}

// Prints one of each.
fn put_one(rt: &HostRuntime, text: &mut String) -> Result<()> {
    let mut counts = Counts::default();
    counts.count_heard(&Heard::Part);
    put_packet(Some(TIME), one_each(rt.alloc())?, &mut counts, text)?;
    put_counts(counts, 1, text)?;
    Ok(())
}

// Prints several of each, and faults of each kind.
fn put_several(rt: &HostRuntime, text: &mut String) -> Result<()> {
    let mut counts = Counts::default();
    hear(&mut counts);
    put_fault_note(Some(7), DatagramFault::Length, text)?;
    put_fault_note(None, DatagramFault::Header, text)?;
    let fault = Taken::Fault(PacketFault::Checksum);
    put_packet(None, fault, &mut counts, text)?;
    let update = without_lsas(rt.alloc(), PacketKind::LinkStateUpdate, 0);
    put_packet(None, update, &mut counts, text)?;
    put_packet(Some(TIME), two_each(rt.alloc())?, &mut counts, text)?;
    put_counts(counts, 2, text)?;
    Ok(())
}

// Prints a gap of 3600 seconds, all of which are recorded, and a longer one.
fn put_gaps(rt: &HostRuntime, text: &mut String) -> Result<()> {
    let mut counts = Counts::default();
    let mut lines = String::new(rt.alloc());
    for seconds in [3600, 9000] {
        let taken = without_lsas(rt.alloc(), PacketKind::Hello, seconds);
        counts.count_taken(&taken);
        put_notes(Some(LATER), SENDER, &taken, text)?;
        put_taken(taken, &mut lines)?;
    }
    writeln!(text, "{} bytes", lines.len())?;
    put_counts(counts, 1, text)?;
    Ok(())
}

// Counts a packet, and prints its notes and lines.
fn put_packet(
    when: Option<u64>,
    taken: Taken,
    counts: &mut Counts,
    text: &mut String,
) -> Result<()> {
    counts.count_taken(&taken);
    put_notes(when, SENDER, &taken, text)?;
    put_taken(taken, text)?;
    Ok(())
}

// Counts a packet of each kind.
fn hear(counts: &mut Counts) {
    counts.count_heard(&Heard::Other);
    counts.count_heard(&Heard::Fault(DatagramFault::Length));
    counts.count_heard(&Heard::Part);
    counts.count_heard(&Heard::Whole {
        sender: SENDER,
        payload: Payload::Lent(b""),
    });
}
