//! The lines after the base.
ghost use Rattle.std.specs.Prelude.{◌≡◌, ◌≤◌, length, IsTrue, OnOk, IfOk, IfErr};
ghost use Rattle.hex.specs.Hex.{decode_of};
ghost use Rattle.lsa_codec.specs.Spelling.{spelling};
ghost use Rattle.event_state.specs.declared.event.Event.TheVariants as event;
ghost use Rattle.recording.specs.declared.line.Line.TheVariants as line;
ghost use Rattle.recording.specs.Progress.{AddsLine, IsLineOf, IsFaultBehind, IsFaultOfBytes};
ghost use Rattle.recording.specs.Reading.{bytes_of};
ghost use Rattle.recording.specs.Recordings.{IsLsaOfBytes};

use crate::decoding::decode;
use crate::fault::Fault;
use crate::form::{LineForm, read_form};
use crate::line::Line;
use crate::version::Version;
use event_state::Event;
use lsa_codec::{Checked, WireFault};
use ospf_types::config::{Interface, Range};
use std::alloc::Global;

/// Reads a line, and appends it to the lines. `room` is a buffer for the bytes of its LSA.
pub(crate) fn add_line(
    alloc: Global,
    version: Version,
    line: &[u8],
    room: &mut Vec<u8>,
    lines: &mut Vec<Line>,
) -> Result<(), Fault>
    ensures added { OnOk result (AddsLine version line.now lines.old.items lines.new.items) }
    ensures fault { IfErr result (IsFaultBehind version line.now) }
{
    match read_line(alloc, version, line, room) {
        Ok(read) => match lines.push(read) {
            Ok(()) => Ok(()),
            Err(_) => Err(Fault::Memory),
        },
        Err(fault) => Err(fault),
    }
}

/// Reads a line after the base, without its line feed. `room` is a buffer for the bytes of its LSA,
/// and can be used again.
///
/// # Errors
///
/// Returns 52 Line if the line has no form of the version, and 53 Order if it belongs to the
/// preamble. Returns 54 Wire if the bytes of its LSA are not valid, or 30 Memory.
pub fn read_line(
    alloc: Global,
    version: Version,
    line: &[u8],
    room: &mut Vec<u8>,
) -> Result<Line, Fault>
    ensures read { IfOk result (IsLineOf version line.now) }
    ensures fault { IfErr result (IsFaultBehind version line.now) }
{
    let Some(form) = read_form(version, line) else {
        return Err(Fault::Line);
    };
    match form {
        LineForm::Version(_) | LineForm::Router(_) | LineForm::Compat(_) => Err(Fault::Order),
        LineForm::Serial(_) | LineForm::Area { .. } | LineForm::Range { .. } => Err(Fault::Order),
        LineForm::HasInterface { .. } | LineForm::HasLsa { .. } => Err(Fault::Order),
        LineForm::Interface { id, interface } => Ok(interface_event(id, interface)),
        LineForm::Install { scope, digits } => match read_lsa(alloc, digits, room) {
            Ok(lsa) => Ok(Line::Event(Event::Install { scope, lsa })),
            Err(fault) => Err(fault),
        },
        LineForm::Flush { scope, key } => Ok(Line::Event(Event::Flush { scope, key })),
        LineForm::Purge { scope, key } => Ok(Line::Event(Event::Purge { scope, key })),
        LineForm::RangeSet { area, range } => Ok(range_set(area, range)),
        LineForm::RangeDrop { area, prefix } => Ok(Line::Event(Event::RangeDrop { area, prefix })),
        LineForm::Second => Ok(Line::Event(Event::Second)),
        LineForm::Lookup(address) => Ok(Line::Lookup(address)),
        LineForm::Roll => Ok(Line::Roll),
    }
}

// Returns the line of an event that sets an interface.
fn interface_event(id: u8, interface: Interface) -> Line
    ensures { result ≡ line.Event (event.Interface id
        interface.area interface.address interface.peer interface.up) }
{
    Line::Event(Event::Interface {
        id,
        area: interface.area,
        address: interface.address,
        peer: interface.peer,
        up: interface.up,
    })
}

// Returns the line of an event that sets a range of an area.
fn range_set(area: u32, range: Range) -> Line
    ensures { result ≡ line.Event (event.RangeSet area range.prefix range.advertise) }
{
    Line::Event(Event::RangeSet {
        area,
        prefix: range.prefix,
        advertise: range.advertise,
    })
}

/// Reads the LSA whose bytes are these hexadecimal digits. `room` is a buffer for the bytes.
pub(crate) fn read_lsa(alloc: Global, digits: &[u8], room: &mut Vec<u8>) -> Result<Checked, Fault>
    requires { decode_of digits.now ≡ Ok (bytes_of digits.now) }
    ensures spelled { IfOk result (λ lsa. spelling lsa ≡ bytes_of digits.now) }
    ensures whole { IfOk result IsLsaOfBytes }
    ensures fault { IfErr result (IsFaultOfBytes (bytes_of digits.now)) }
{
    let count = digits.len() / 2;
    if !has_room(room, count) {
        return Err(Fault::Memory);
    }
    let bytes = &mut room[..count];
    decode(digits, bytes);
    match lsa_codec::read(alloc, bytes) {
        Ok(lsa) => Ok(lsa),
        Err(WireFault::Memory) => Err(Fault::Memory),
        Err(fault) => Err(Fault::Wire(fault)),
    }
}

// Extends the buffer to `count` bytes if it is shorter, and returns false if memory runs out. It is
// kept for the LSAs that follow.
fn has_room(room: &mut Vec<u8>, count: usize) -> bool
    ensures { IsTrue result → count ≤ length room.new.items }
{
    count <= room.len() || room.resize(count, 0).is_ok()
}
