//! A capture that is read to its end, and its text.

use anyhow::Result;
use captures::{Capture, CapturedPacket, FaultKind, Part};
use std::alloc::Global;
use std::fmt::Write;

/// Returns a line for each part of a capture that gets `step` bytes at a time.
///
/// # Errors
///
/// Returns an error if memory runs out. A fault of the capture is the last line.
pub fn read_all(alloc: Global, bytes: &[u8], step: usize) -> Result<String> {
    let mut text = String::new(alloc);
    let mut capture = Capture::new(alloc);
    let mut rest = bytes;
    let mut given = step;
    for _ in 0..u64::MAX {
        let length = match capture.read_part(&rest[..given.min(rest.len())]) {
            Ok(Part::More(needed)) if needed <= rest.len() => {
                given = needed;
                continue;
            }
            Ok(Part::More(_)) => {
                put_end(&mut text, &capture, rest)?;
                return Ok(text);
            }
            Ok(Part::Skip(length)) => {
                writeln!(text, "  {length} bytes without a packet")?;
                length
            }
            Ok(Part::Packet { packet, length }) => {
                put_packet(alloc, &mut text, packet, length)?;
                length
            }
            Err(error) => {
                writeln!(text, "  {error}")?;
                return Ok(text);
            }
        };
        if length > rest.len() {
            writeln!(text, "  {}", FaultKind::CutOff)?;
            return Ok(text);
        }
        rest = &rest[length..];
        given = step;
    }
    Ok(text)
}

// Appends the last line: the capture has ended, or it is cut off.
fn put_end(text: &mut String, capture: &Capture, rest: &[u8]) -> Result<()> {
    if rest.is_empty() && capture.has_begun() {
        writeln!(text, "  end")?;
    } else {
        writeln!(text, "  {}", FaultKind::CutOff)?;
    }
    Ok(())
}

fn put_packet(
    alloc: Global,
    text: &mut String,
    packet: CapturedPacket<'_>,
    length: usize,
) -> Result<()> {
    write!(
        text,
        "  {length} bytes with a packet of {} ",
        packet.wire_length
    )?;
    write!(text, "on link type {}", packet.link)?;
    if let Some(time) = packet.time {
        write!(text, " at {time} ns")?;
    }
    writeln!(text, ": {}", hex::encode(alloc, packet.bytes)?)?;
    Ok(())
}
