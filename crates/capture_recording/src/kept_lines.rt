//! The output of lines that wait until a capture ends.
ghost use Rattle.std.specs.Prelude.{◌≡◌, OnOk, IfOk, IfErr};
ghost use Rattle.std.specs.Io.KnownBytes.{Appends};
ghost use Rattle.lsa_codec.specs.Decoding.{lsa_of};
ghost use Rattle.capture_recording.specs.Events.{GainsEvents};
ghost use Rattle.capture_recording.specs.Kept.{kept_events, kept_if, text_of, AreOfLsa};
ghost use Rattle.capture_recording.specs.Kept.{AreKeptWithin, IsKeptWithin};
ghost use Rattle.capture_recording.specs.Said.{WritesSaidPart};

use crate::events::{put_install, put_seconds};
use crate::fault::CapturingFault;
use crate::kept_events::{KeptEvent, KeptEvents};
use crate::writing::{write_due, write_out};
use lsa_codec::{Checked, read};
use ospf_types::memory::Memory;
use std::alloc::Global;
use std::io;

/// Writes the lines of the events in large pieces, if there are any.
pub(crate) fn write_kept<W: io::Write>(
    kept: &Option<KeptEvents>,
    out: &mut W,
) -> Result<(), CapturingFault>
    ensures ok { OnOk result (Appends (W.contents out.old) (W.contents out.new)
        (kept_if kept.now)) }
    ensures err { IfErr result (WritesSaidPart (W.contents out.old) (W.contents out.new)
        (kept_if kept.now)) }
{
    match kept {
        Some(kept) => kept.write_to(out),
        None => Ok(()),
    }
}

impl KeptEvents {
    fn write_to<W: io::Write>(&self, out: &mut W) -> Result<(), CapturingFault>
        ensures ok { OnOk result (Appends (W.contents out.old) (W.contents out.new) self.now) }
        ensures err { IfErr result (WritesSaidPart (W.contents out.old) (W.contents out.new)
            self.now) }
    {
        write_events(
            self.alloc,
            self.bytes.as_slice(),
            self.events.as_slice(),
            out,
        )
    }
}

fn write_events<W: io::Write>(
    alloc: Global,
    bytes: &[u8],
    events: &[KeptEvent],
    out: &mut W,
) -> Result<(), CapturingFault>
    requires { AreKeptWithin bytes.now events.now }
    ensures ok { OnOk result (Appends (W.contents out.old) (W.contents out.new)
        (text_of bytes.now events.now)) }
    ensures err { IfErr result (WritesSaidPart (W.contents out.old) (W.contents out.new)
        (text_of bytes.now events.now)) }
{
    let mut text = String::new(alloc);
    for place in 0..events.len() {
        match put_kept(alloc, bytes, &events[place], &mut text) {
            Ok(()) => {}
            Err(_) => return Err(CapturingFault::Memory),
        }
        match write_due(&mut text, true, out) {
            Ok(()) => {}
            Err(fault) => return Err(fault),
        }
    }
    write_out(text.as_bytes(), out)
}

fn put_kept(alloc: Global, bytes: &[u8], kept: &KeptEvent, text: &mut String) -> Result<(), Memory>
    requires { IsKeptWithin bytes.now kept.now }
    ensures { OnOk result (GainsEvents text.old text.new (kept_events bytes.now kept.now)) }
{
    match kept {
        KeptEvent::Seconds(seconds) => put_seconds(u64::from(*seconds), text),
        KeptEvent::Install {
            scope,
            start,
            size,
            purges,
        } => {
            let start = *start as usize;
            let lsa = read_again(alloc, &bytes[start..start + *size as usize])?;
            put_install(*scope, lsa, *purges, text)
        }
    }
}

// Reads the bytes of an LSA.
fn read_again(alloc: Global, bytes: &[u8]) -> Result<Checked, Memory>
    requires { AreOfLsa bytes.now }
    ensures { IfOk result (λ lsa. lsa ≡ lsa_of bytes.now) }
{
    match read(alloc, bytes) {
        Ok(lsa) => Ok(lsa),
        Err(_) => Err(Memory),
    }
}
