//! The lines about faults in a capture, about time that goes back, about seconds that are not
//! recorded, and about areas whose LSAs are left out.
ghost use Rattle.std.specs.Prelude.{◌≡◌, ◌++◌, Some, OnOk, string_bytes};
ghost use Rattle.std.specs.List.{flat_map};
ghost use Rattle.capture_recording.specs.Notes.{area_line, area_text, back_line, back_text};
ghost use Rattle.capture_recording.specs.Notes.{datagram_note, note_line, recorded_text};
ghost use Rattle.capture_recording.specs.Notes.{seconds_line, seconds_text, taken_text, time_notes};

use crate::capture_fault::CaptureFault;
use crate::place::Place;
use crate::seconds::recorded_seconds;
use captured_lsas::{Recorded, Taken};
use ospf_types::address::Address;
use ospf_types::memory::Memory;
use packets::DatagramFault;

/// Appends a line for each fault in the payload of a datagram, as `abr: 1700000002.300000000
/// 192.0.2.2: 2 Checksum`. `when` is in nanoseconds since the beginning of 1970, UTC. It is printed
/// in seconds, or as a dash if it is `None`. `sender` is an address in host order.
///
/// Other lines are, in this order:
///
/// - If time goes back: `abr: 1700000000.000000000 192.0.2.2: the time is 9000 s before that of the
///   last packet, and goes on from there`.
/// - If not all of the seconds are recorded: `abr: 1700009000.000000000 192.0.2.2: 9000 seconds
///   pass, 3600 are recorded`.
/// - Among the lines of faults, for the first LSA of each area that the recording does not have:
///   `abr: 1700000002.300000000 192.0.2.2: area 0.0.0.5 is not in the beginning: its LSAs are left
///   out`.
///
/// # Errors
///
/// Returns `Memory` if memory runs out. The text may then have some of the lines.
pub fn put_notes(
    when: Option<u64>,
    sender: u32,
    taken: &Taken,
    text: &mut String,
) -> Result<(), Memory>
    ensures { OnOk result (string_bytes text.new ≡ string_bytes text.old
        ++ taken_text when (Some sender) taken.now) }
{
    let sender = Some(sender);
    let place = Place { when, sender };
    match taken {
        Taken::Packet {
            back,
            seconds,
            recorded,
            ..
        } => {
            put_time_notes(place, *back, *seconds, text)?;
            put_each(place, recorded.as_slice(), text)
        }
        Taken::Fault(fault) => put_note(place, CaptureFault::Packet(*fault), text),
    }
}

/// Appends a line for the fault of a datagram, as `abr: 1700000002.300000000 -: 81 Length`. The
/// dash is for the sender, which is not known. `when` is as for `put_notes`.
///
/// # Errors
///
/// Returns `Memory` if memory runs out. The text may then have a part of the line.
pub fn put_fault_note(
    when: Option<u64>,
    fault: DatagramFault,
    text: &mut String,
) -> Result<(), Memory>
    ensures { OnOk result (string_bytes text.new ≡ string_bytes text.old
        ++ datagram_note when fault) }
{
    let sender = None;
    put_note(Place { when, sender }, CaptureFault::Datagram(fault), text)
}

// Appends a line if time goes back, and one if more seconds pass than are recorded.
fn put_time_notes(place: Place, back: u64, seconds: u64, text: &mut String) -> Result<(), Memory>
    ensures { OnOk result (string_bytes text.new ≡ string_bytes text.old
        ++ time_notes place.when place.sender back seconds) }
{
    put_back_note(place, back, text)?;
    put_seconds_note(place, seconds, text)
}

// Appends a line if time goes back.
fn put_back_note(place: Place, back: u64, text: &mut String) -> Result<(), Memory>
    ensures { OnOk result (string_bytes text.new ≡ string_bytes text.old
        ++ back_text place.when place.sender back) }
{
    if back == 0 {
        return Ok(());
    }
    put_back_line(place, back, text)
}

fn put_back_line(place: Place, back: u64, text: &mut String) -> Result<(), Memory>
    ensures { OnOk result (string_bytes text.new ≡ string_bytes text.old
        ++ back_line place.when place.sender back) }
{
    writeln!(
        text,
        "abr: {place}: the time is {back} s before that of the last packet, and goes on from there"
    )?;
    Ok(())
}

// Appends a line if more seconds pass than are recorded.
fn put_seconds_note(place: Place, seconds: u64, text: &mut String) -> Result<(), Memory>
    ensures { OnOk result (string_bytes text.new ≡ string_bytes text.old
        ++ seconds_text place.when place.sender seconds) }
{
    let recorded = recorded_seconds(seconds);
    if recorded == seconds {
        return Ok(());
    }
    put_seconds_line(place, seconds, recorded, text)
}

fn put_seconds_line(
    place: Place,
    seconds: u64,
    recorded: u64,
    text: &mut String,
) -> Result<(), Memory>
    ensures { OnOk result (string_bytes text.new ≡ string_bytes text.old
        ++ seconds_line place.when place.sender seconds recorded) }
{
    writeln!(
        text,
        "abr: {place}: {seconds} seconds pass, {recorded} are recorded"
    )?;
    Ok(())
}

// Appends the lines for the places of an update.
fn put_each(place: Place, recorded: &[Recorded], text: &mut String) -> Result<(), Memory>
    ensures { OnOk result (string_bytes text.new ≡ string_bytes text.old
        ++ flat_map (recorded_text place.when place.sender) recorded.now) }
{
    for one in recorded {
        put_one(place, one, text)?;
    }
    Ok(())
}

// Appends a line for the fault at a place of an update, or for its area, if there is one.
fn put_one(place: Place, recorded: &Recorded, text: &mut String) -> Result<(), Memory>
    ensures { OnOk result (string_bytes text.new ≡ string_bytes text.old
        ++ recorded_text place.when place.sender recorded.now) }
{
    match recorded {
        Recorded::Install { .. } => Ok(()),
        Recorded::Repeated => Ok(()),
        Recorded::OtherArea { area, is_first } => put_area_note(place, *area, *is_first, text),
        Recorded::Fault(fault) => put_note(place, CaptureFault::Lsa(*fault), text),
        Recorded::Cut(fault) => put_note(place, CaptureFault::Update(*fault), text),
    }
}

// Appends a line for an area, if it is for its first LSA.
fn put_area_note(place: Place, area: u32, is_first: bool, text: &mut String) -> Result<(), Memory>
    ensures { OnOk result (string_bytes text.new ≡ string_bytes text.old
        ++ area_text place.when place.sender area is_first) }
{
    if !is_first {
        return Ok(());
    }
    put_area_line(place, Address(area), text)
}

fn put_area_line(place: Place, area: Address, text: &mut String) -> Result<(), Memory>
    ensures { OnOk result (string_bytes text.new ≡ string_bytes text.old
        ++ area_line place.when place.sender area.0) }
{
    writeln!(
        text,
        "abr: {place}: area {area} is not in the beginning: its LSAs are left out"
    )?;
    Ok(())
}

fn put_note(place: Place, fault: CaptureFault, text: &mut String) -> Result<(), Memory>
    ensures { OnOk result (string_bytes text.new ≡ string_bytes text.old
        ++ note_line place.when place.sender fault) }
{
    writeln!(text, "abr: {place}: {fault}")?;
    Ok(())
}
