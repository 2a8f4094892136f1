//! A capture that is read to its end and recorded.

use crate::recorded::session::SessionLines;
use anyhow::Result;
use captures::{Capture, CapturedPacket, Part};
use std::alloc::Global;

/// Records a capture, with a line for each event.
///
/// # Errors
///
/// Returns an error if the capture has a fault, or if memory runs out.
pub fn put_capture(
    alloc: Global,
    capture: &mut Capture,
    session: &mut SessionLines,
    bytes: &[u8],
) -> Result<()> {
    let mut rest = bytes;
    for _ in 0..u64::MAX {
        let Some((packet, length)) = next_part(capture, rest)? else {
            return Ok(());
        };
        if length > rest.len() {
            return session.note("cut off");
        }
        if let Some(packet) = packet {
            session.put(alloc, &packet)?;
        }
        rest = &rest[length..];
    }
    Ok(())
}

// Returns the next packet, if there is one, and the length of the bytes read. Returns `None` if
// more bytes are needed.
fn next_part<'a>(
    capture: &mut Capture,
    rest: &'a [u8],
) -> Result<Option<(Option<CapturedPacket<'a>>, usize)>> {
    match capture.read_part(rest)? {
        Part::More(_) => Ok(None),
        Part::Skip(length) => Ok(Some((None, length))),
        Part::Packet { packet, length } => Ok(Some((Some(packet), length))),
    }
}
