//! A line that is read piece by piece.
ghost use Rattle.std.specs.Prelude.{◌≡◌, ℕ, List, IfOk, OnOk};
ghost use Rattle.input_reading.specs.Shortened.{shortened};
ghost use Rattle.input_reading.specs.Tails.{Gathers, GathersUpTo, IsGathered};

use crate::tail::Tail;
use memchr::memchr;
use std::alloc::AllocError;

/// The number of bytes of a line that are kept, its line feed not counted.
pub const LONGEST: usize = 262_144;

/// Appends the bytes before the first line feed to the line, or all bytes if they contain none.
/// Returns the index of the line feed.
pub(crate) fn gather_line(
    line: &mut Vec<u8>,
    tail: &mut Tail,
    bytes: &[u8],
) -> Result<Option<usize>, AllocError>
    ensures { IfOk result (λ place. GathersUpTo place bytes.now
        line.old.items tail.old line.new.items tail.new) }
{
    let place = memchr(b'\n', bytes);
    gather(line, tail, &bytes[..place.unwrap_or(bytes.len())])?;
    Ok(place)
}

// Appends bytes to the line. Those that do not fit into its first `LONGEST` bytes go into the tail.
fn gather(line: &mut Vec<u8>, tail: &mut Tail, bytes: &[u8]) -> Result<(), AllocError>
    ensures { OnOk result (Gathers bytes.now line.old.items tail.old line.new.items tail.new) }
{
    let room = LONGEST.saturating_sub(line.len()).min(bytes.len());
    line.extend_from_slice(&bytes[..room])?;
    *tail = tail.with(&bytes[room..]);
    Ok(())
}

/// Completes the line: appends the mark of its tail, if it has one.
pub(crate) fn finish(line: &mut Vec<u8>, tail: Tail) -> Result<(), AllocError>
    ensures { OnOk result ((raw : List ℕ) → IsGathered raw line.old.items tail
        → line.new.items ≡ shortened raw) }
{
    if let Some(mark) = tail.mark() {
        line.push(mark)?;
    }
    Ok(())
}
