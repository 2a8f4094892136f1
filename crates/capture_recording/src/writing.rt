//! The output of the recording.
ghost use Rattle.std.specs.Prelude.{◌≡◌, ◌⊎◌, [], false, OnOk, OnErr, IfErr, string_bytes};
ghost use Rattle.std.specs.Io.KnownBytes.{Appends};
ghost use Rattle.replay.specs.Writing.{AppendsPart};
ghost use Rattle.capture_recording.specs.Said.{WritesSome};
ghost use Rattle.capture_recording.specs.declared.fault.CapturingFault.TheVariants as capturing_fault;

use crate::fault::CapturingFault;
use replay::{WriteError, write_whole};
use std::io;

/// The number of bytes of lines that are written even if the next packet is at hand.
const MANY: usize = 65_536;

/// Writes the bytes.
pub(crate) fn write_out<W: io::Write>(bytes: &[u8], out: &mut W) -> Result<(), CapturingFault>
    ensures ok { OnOk result (Appends (W.contents out.old) (W.contents out.new) bytes.now) }
    ensures err { OnErr result (AppendsPart (W.contents out.old) (W.contents out.new) bytes.now) }
    ensures fault { IfErr result (λ e. (e ≡ capturing_fault.Write)
        ⊎ (e ≡ capturing_fault.Closed)) }
{
    match write_whole(out, bytes) {
        Ok(()) => Ok(()),
        Err(WriteError::Failed) => Err(CapturingFault::Write),
        Err(WriteError::Closed) => Err(CapturingFault::Closed),
    }
}

/// Writes the lines and clears them, unless the next packet is at hand and they have fewer than
/// `MANY` bytes.
pub(crate) fn write_due<W: io::Write>(
    lines: &mut String,
    is_at_hand: bool,
    out: &mut W,
) -> Result<(), CapturingFault>
    ensures ok { OnOk result (WritesSome (W.contents out.old) (W.contents out.new)
        (string_bytes lines.old) (string_bytes lines.new)) }
    // If no packet is at hand, no line is held back.
    ensures due { OnOk result (is_at_hand ≡ false → string_bytes lines.new ≡ []) }
    ensures err { OnErr result (AppendsPart (W.contents out.old) (W.contents out.new)
        (string_bytes lines.old)) }
    ensures fault { IfErr result (λ e. (e ≡ capturing_fault.Write)
        ⊎ (e ≡ capturing_fault.Closed)) }
{
    if is_at_hand && lines.len() < MANY {
        return Ok(());
    }
    match write_out(lines.as_bytes(), out) {
        Ok(()) => {
            lines.clear();
            Ok(())
        }
        Err(fault) => Err(fault),
    }
}
