//! Reading a capture from its first packet to its last.
ghost use Rattle.std.specs.Prelude.{ℕ, List, [], Some, None, IfOk, IfErr, OnErr};
ghost use Rattle.std.specs.Io.KnownBytes.{Appends};
ghost use Rattle.capture_recording.specs.Going.{GoesThrough};
ghost use Rattle.capture_recording.specs.Streaming.{IsGatheredUpTo, StreamsPart};

use crate::ending::Ending;
use crate::fault::CapturingFault;
use crate::session::Session;
use crate::source::CaptureSource;
use crate::start::Start;
use crate::writing::write_due;
use ospf_types::memory::Memory;
use std::alloc::Global;
use std::io;

/// A capture that was read, and how it ended.
#[derive(Drop)]
pub(crate) struct Ended {
    pub(crate) session: Session,
    pub(crate) ending: Ending,
}

/// Reads a capture, and keeps the events of its packets.
pub(crate) fn gather<R: io::Read, F: io::Write>(
    alloc: Global,
    start: Start,
    router: u32,
    input: &mut R,
    faults: &mut F,
) -> Result<Ended, Memory>
    ensures ok { IfOk result (λ ended. GoesThrough start (Some router)
        (R.remaining input.old) (F.contents faults.old)
        (R.remaining input.new) (F.contents faults.new) ended []) }
    ensures err { OnErr result (IsGatheredUpTo start (R.remaining input.old)
        (F.contents faults.old) (F.contents faults.new)) }
{
    let mut session = Session::new(alloc, start, Some(router));
    let mut source = CaptureSource::new(alloc)?;
    for _ in 0..u64::MAX {
        match source.hand_next(alloc, input, &mut session, faults)? {
            None => {}
            Some(ending) => return Ok(Ended { session, ending }),
        }
    }
    // proof: the loop ends earlier, as no input has `u64::MAX` packets.
    Err(Memory)
}

/// Reads a capture, and writes the lines of its packets: after each packet, or in large pieces
/// while the next one is at hand. Lines may be left at the end.
pub(crate) fn stream<R: io::Read, W: io::Write, F: io::Write>(
    alloc: Global,
    start: Start,
    input: &mut R,
    out: &mut W,
    faults: &mut F,
) -> Result<Ended, CapturingFault>
    ensures ok { IfOk result (λ ended. (written : List ℕ)
        × Appends (W.contents out.old) (W.contents out.new) written
        × GoesThrough start None (R.remaining input.old) (F.contents faults.old)
        (R.remaining input.new) (F.contents faults.new) ended written) }
    ensures err { IfErr result (StreamsPart start
        (R.remaining input.old) (R.remaining input.new) (W.contents out.old) (W.contents out.new)
        (F.contents faults.old) (F.contents faults.new)) }
{
    let mut session = Session::new(alloc, start, None);
    let mut source = CaptureSource::new(alloc)?;
    for _ in 0..u64::MAX {
        match source.hand_next(alloc, input, &mut session, faults)? {
            None => write_due(&mut session.lines, source.reader.has_pending(), out)?,
            Some(ending) => return Ok(Ended { session, ending }),
        }
    }
    // proof: the loop ends earlier, as no input has `u64::MAX` packets.
    Err(CapturingFault::Memory)
}
