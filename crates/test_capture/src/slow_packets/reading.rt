//! Captures that are read to their end, and their texts.

use crate::slow_input::SlowInput;
use anyhow::{Result, bail, ensure};
use captures::{CaptureError, PacketHead, PacketReader};
use std::alloc::Global;
use std::fmt::Write;

/// The greatest number of calls of `next`.
const MOST: u32 = 20_000;

/// The greatest length of a packet whose bytes are shown. A longer packet is shown by its length
/// and the sum of its bytes.
const SHOWN: usize = 16;

/// Returns a line for each packet, for each read that fails, and for the end or the fault.
///
/// # Errors
///
/// Returns an error if a further call gives another end, or if memory runs out.
pub fn read_all(alloc: Global, input: &mut SlowInput<'_>) -> Result<String> {
    let mut text = String::new(alloc);
    PacketReading::new(alloc)?.put_all(alloc, input, &mut text)?;
    Ok(text)
}

/// Returns one line: the number of packets, their bytes, the sum of these, and the time of the last
/// packet.
///
/// # Errors
///
/// Returns an error if the capture has a fault or cannot be read, or if memory runs out.
pub fn count_all(alloc: Global, input: &mut SlowInput<'_>) -> Result<String> {
    let counts = PacketReading::new(alloc)?.counts(input)?;
    let mut text = String::new(alloc);
    counts.put(&mut text)?;
    Ok(text)
}

/// Returns one line: if bytes are pending before each call of `next`, and after the last one.
///
/// # Errors
///
/// Returns an error if the capture has a fault or cannot be read, or if memory runs out.
pub fn pending_of(alloc: Global, input: &mut SlowInput<'_>) -> Result<String> {
    let mut text = String::new(alloc);
    PacketReading::new(alloc)?.put_pending(input, &mut text)?;
    Ok(text)
}

// A reader, and the bytes of its last packet.
#[derive(Drop)]
struct PacketReading {
    reader: PacketReader,
    bytes: Vec<u8>,
}

impl PacketReading {
    fn new(alloc: Global) -> Result<PacketReading> {
        Ok(PacketReading {
            reader: PacketReader::new(alloc)?,
            bytes: Vec::new(alloc),
        })
    }

    fn put_all(
        &mut self,
        alloc: Global,
        input: &mut SlowInput<'_>,
        text: &mut String,
    ) -> Result<()> {
        for _ in 0..MOST {
            match self.reader.next(input, &mut self.bytes) {
                Ok(Some(head)) => put_packet(alloc, text, &head, &self.bytes)?,
                Err(CaptureError::Read) => text.push_str("  cannot read\n")?,
                Err(CaptureError::Memory) => text.push_str("  out of memory\n")?,
                last => return self.put_last(input, last, text),
            }
        }
        Ok(())
    }

    fn put_last(
        &mut self,
        input: &mut SlowInput<'_>,
        last: Result<Option<PacketHead>, CaptureError>,
        text: &mut String,
    ) -> Result<()> {
        let again = self.reader.next(input, &mut self.bytes);
        ensure!(again == last, "something else comes last by a further call");
        put_last(text, last)
    }

    fn counts(&mut self, input: &mut SlowInput<'_>) -> Result<ReadCounts> {
        let mut counts = ReadCounts::default();
        for _ in 0..MOST {
            let Some(head) = self.read_one(input)? else {
                break;
            };
            counts.count(&head, &self.bytes);
        }
        Ok(counts)
    }

    fn put_pending(&mut self, input: &mut SlowInput<'_>, text: &mut String) -> Result<()> {
        write!(text, "  {}", word(self.reader.has_pending()))?;
        for _ in 0..MOST {
            let found = self.read_one(input)?;
            write!(text, " {}", word(self.reader.has_pending()))?;
            if found.is_none() {
                break;
            }
        }
        text.push_str("\n")?;
        Ok(())
    }

    fn read_one(&mut self, input: &mut SlowInput<'_>) -> Result<Option<PacketHead>> {
        match self.reader.next(input, &mut self.bytes) {
            Ok(found) => Ok(found),
            Err(error) => bail!("{error:?}"),
        }
    }
}

// Counts of packets and bytes.
#[derive(Clone, Copy, Default)]
struct ReadCounts {
    packets: u32,
    bytes: usize,
    sum: u64,
    // The time of the last packet, in nanoseconds.
    time: u64,
}

impl ReadCounts {
    fn count(&mut self, head: &PacketHead, bytes: &[u8]) {
        self.packets = self.packets.saturating_add(1);
        self.bytes = self.bytes.saturating_add(bytes.len());
        self.sum = self.sum.saturating_add(sum_of(bytes));
        self.time = head.time.unwrap_or(0);
    }

    fn put(&self, text: &mut String) -> Result<()> {
        let (packets, bytes) = (self.packets, self.bytes);
        write!(text, "  {packets} packets, {bytes} bytes, ")?;
        let (sum, time) = (self.sum, self.time);
        writeln!(text, "sum {sum}, the last at {time} ns")?;
        Ok(())
    }
}

fn word(is_pending: bool) -> &'static str {
    if is_pending { "some" } else { "none" }
}

fn put_packet(alloc: Global, text: &mut String, head: &PacketHead, bytes: &[u8]) -> Result<()> {
    write!(text, "  {} on link type {}", head.wire_length, head.link)?;
    if let Some(time) = head.time {
        write!(text, " at {time} ns")?;
    }
    if bytes.len() > SHOWN {
        writeln!(text, ": {} bytes, sum {}", bytes.len(), sum_of(bytes))?;
    } else {
        writeln!(text, ": {}", hex::encode(alloc, bytes)?)?;
    }
    Ok(())
}

fn put_last(text: &mut String, last: Result<Option<PacketHead>, CaptureError>) -> Result<()> {
    match last {
        Err(CaptureError::Fault { kind, place }) => writeln!(text, "  {kind} at {place}")?,
        _ => writeln!(text, "  end")?,
    }
    Ok(())
}

fn sum_of(bytes: &[u8]) -> u64 {
    let mut sum = 0_u64;
    for byte in bytes {
        sum = sum.saturating_add(u64::from(*byte));
    }
    sum
}
