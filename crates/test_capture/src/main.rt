//! Reads frames, fragments, packets and captures, also from inputs that are slow, interrupted or
//! failing, and makes recordings of captures. It prints the results, and ends with an error if one
//! is not as expected.
#![tactic(auto)]

mod beginnings;
mod decoding;
mod failures;
mod kept;
mod live;
mod payloads;
mod recorded;
mod slow_input;
mod slow_lines;
mod slow_packets;
mod texts;
mod updates;

use anyhow::Result;

/// Captures of the same packets in each format, the third of them cut off within its last packet.
const FILES: [&str; 4] = [
    "small.pcap",
    "small-be-nano.pcap",
    "small-cut.pcap",
    "small.pcapng",
];

fn main(rt: HostRuntime) -> Result<()> {
    payloads::run(&rt)?;
    updates::run(&rt)?;
    slow_packets::run(&rt)?;
    slow_lines::run(&rt)?;
    decoding::run(&rt)?;
    recorded::run(&rt)?;
    texts::run(&rt)?;
    beginnings::run(&rt)?;
    failures::run(&rt)?;
    kept::run(&rt)?;
    live::run(&rt)
}
