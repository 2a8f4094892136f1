//! The recording of a capture.
ghost use Rattle.std.specs.Prelude.{◌≡◌, IfOk};
ghost use Rattle.recording.specs.Recordings.{IsText};
ghost use Rattle.capture_recording.specs.declared.capturing.Preamble.TheVariants.{Given, Router};
ghost use Rattle.capture_recording.specs.Outputs.{areas_in, IsOnlyText, IsRecordingText, CaptureOutcome};
ghost use Rattle.capture_recording.specs.Outputs.{RuledOutcome};

use crate::fault::CapturingFault;
use crate::going::{gather, stream};
use crate::start::Start;
use crate::writing::write_out;
use captured_lsas::Options;
use ospf_types::memory::Memory;
use recording::{Recording, parse};
use std::alloc::Global;
use std::hash::RandomState;
use std::io;

/// How to record a capture: the options, and the preamble of the recording.
#[derive(Clone, Copy)]
pub struct Capturing<'a> {
    pub options: Options,
    pub beginning: Preamble<'a>,
}

/// The preamble of a recording.
#[derive(Clone, Copy)]
pub enum Preamble<'a> {
    /// These bytes, which have to be a recording. They may have lines after the preamble.
    Given(&'a [u8]),
    /// The preamble that the capture shows for the router with this Router ID, in host order.
    Router(u32),
}

/// Reads a capture, a pcap or a pcapng, and writes the recording of its OSPF LSAs.
///
/// If the preamble is given, LSAs of areas that it does not have are left out. The lines of a
/// packet are then written as soon as it is taken, or in large pieces while more bytes of the
/// capture are at hand. A preamble that the capture shows is written at the end of the capture, and
/// all lines after it.
///
/// Faults in packets, what the capture does not show of the router, and at last the counts are
/// printed to `faults`. If that cannot be written, no more is printed, and the capture is still
/// recorded.
///
/// # Errors
///
/// Returns `Line` if the given preamble is not a valid recording, or memory runs out while it is
/// parsed. Nothing is then read or written.
///
/// Returns `Capture` or `Read` if the capture has a fault or cannot be read further. The packets
/// before that are recorded, unless the configuration of the router has a fault.
///
/// Returns `Config` if only the configuration of the router has a fault. Nothing is then recorded.
///
/// Returns `Unsaid` in place of these three faults, or of success, if `faults` could not be
/// written.
///
/// Returns `Write` or `Closed` if `out` cannot be written, or `Memory` if memory runs out. A part
/// of the recording may then have been written.
pub fn record_capture<R: io::Read, W: io::Write, F: io::Write>(
    alloc: Global,
    hashing: RandomState,
    capturing: Capturing<'_>,
    input: &mut R,
    out: &mut W,
    faults: &mut F,
) -> Result<(), CapturingFault>
    ensures { CaptureOutcome capturing.entry.options capturing.entry.beginning
        (R.remaining input.old) (R.remaining input.new) (W.contents out.old) (W.contents out.new)
        (F.contents faults.old) (F.contents faults.new) result }
{
    let start = Start {
        hashing,
        options: capturing.options,
        areas: None,
    };
    match capturing.beginning {
        Preamble::Given(bytes) => record_given(alloc, start, bytes, input, out, faults),
        Preamble::Router(router) => record_router(alloc, start, router, input, out, faults),
    }
}

// Records a capture after these bytes, if they are a recording.
fn record_given<R: io::Read, W: io::Write, F: io::Write>(
    alloc: Global,
    start: Start,
    front: &[u8],
    input: &mut R,
    out: &mut W,
    faults: &mut F,
) -> Result<(), CapturingFault>
    ensures { CaptureOutcome start.options (Given front.entry)
        (R.remaining input.old) (R.remaining input.new) (W.contents out.old) (W.contents out.new)
        (F.contents faults.old) (F.contents faults.new) result }
{
    match parse(alloc, front) {
        Ok(recording) => record_known(alloc, start, front, &recording, input, out, faults),
        Err(fault) => Err(CapturingFault::Line(fault)),
    }
}

// Records a capture after these bytes, which are this recording.
fn record_known<R: io::Read, W: io::Write, F: io::Write>(
    alloc: Global,
    start: Start,
    front: &[u8],
    recording: &Recording,
    input: &mut R,
    out: &mut W,
    faults: &mut F,
) -> Result<(), CapturingFault>
    ensures { IsText front.now recording.now → IsOnlyText front.now recording.now
        → CaptureOutcome start.options (Given front.entry)
        (R.remaining input.old) (R.remaining input.new) (W.contents out.old) (W.contents out.new)
        (F.contents faults.old) (F.contents faults.new) result }
{
    match ids_of(alloc, recording) {
        Ok(ids) => record_behind(alloc, start.with_areas(ids), front, input, out, faults),
        Err(_) => Err(CapturingFault::Memory),
    }
}

// Returns the Area IDs of the recording's configuration.
fn ids_of(alloc: Global, recording: &Recording) -> Result<Vec<u32>, Memory>
    ensures { IfOk result (λ ids. ids.items ≡ areas_in recording.now) }
{
    let areas = recording.config().areas.as_slice();
    Ok(areas.iter().map(|area| area.id).collect(alloc)?)
}

// Records a capture after these bytes, which are a recording.
fn record_behind<R: io::Read, W: io::Write, F: io::Write>(
    alloc: Global,
    start: Start,
    front: &[u8],
    input: &mut R,
    out: &mut W,
    faults: &mut F,
) -> Result<(), CapturingFault>
    ensures { IsRecordingText front.now → RuledOutcome start (Given front.entry)
        (R.remaining input.old) (R.remaining input.new) (W.contents out.old) (W.contents out.new)
        (F.contents faults.old) (F.contents faults.new) result }
{
    match write_out(front, out) {
        Ok(()) => {}
        Err(fault) => return Err(fault),
    }
    match stream(alloc, start, input, out, faults) {
        Ok(ended) => ended.finish(out, faults),
        Err(fault) => Err(fault),
    }
}

// Records a capture after the preamble that it shows for the router.
fn record_router<R: io::Read, W: io::Write, F: io::Write>(
    alloc: Global,
    start: Start,
    router: u32,
    input: &mut R,
    out: &mut W,
    faults: &mut F,
) -> Result<(), CapturingFault>
    ensures { RuledOutcome start (Router router)
        (R.remaining input.old) (R.remaining input.new) (W.contents out.old) (W.contents out.new)
        (F.contents faults.old) (F.contents faults.new) result }
{
    match gather(alloc, start, router, input, faults) {
        Ok(ended) => ended.finish_router(alloc, out, faults),
        Err(_) => Err(CapturingFault::Memory),
    }
}
