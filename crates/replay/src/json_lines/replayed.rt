//! The outcome of a line of a recording, with the number of that line.
ghost use Rattle.std.specs.Prelude.{◌≡◌, ◌++◌, OnOk, string_bytes};
ghost use Rattle.output_lines.specs.Members.{json_line};
ghost use Rattle.replay.specs.JsonLines.{lookup_data, refused_data, behind_data, fault_data};

use event_state::Refusal;
use ospf_types::memory::Memory;
use output_lines::Object;
use recording::LineFault;
use route_table::Match;

/// A lookup of an address in a table.
#[derive(Clone, Copy, Debug, PartialEq, Eq)]
pub struct Lookup {
    /// The number of the lookup's line in the recording, from 1.
    pub line: usize,
    /// The address, in host order.
    pub address: u32,
    /// The serial of the table.
    pub serial: u64,
}

/// Appends a line `lookup`: the longest match of the address in the table (RFC 2328, 11.1).
///
/// # Errors
///
/// Returns `Memory` if memory runs out. The text may then have a part of the line.
pub fn put_lookup(lookup: Lookup, found: &Match, text: &mut String) -> Result<(), Memory>
    ensures { OnOk result (string_bytes text.new ≡ string_bytes text.old
        ++ json_line (lookup_data lookup found.now)) }
{
    let mut object = Object::of_line(*text.allocator(), lookup.line, "lookup")?;
    object.put_address("address", lookup.address)?;
    object.put_number("serial", lookup.serial)?;
    match found {
        Match::Route(network, entry) => {
            object.put_text("match", "route")?;
            object.put_network("network", *network)?;
            object.put_route(entry)?;
        }
        Match::Discard(network) => {
            object.put_text("match", "discard")?;
            object.put_network("network", *network)?;
        }
        Match::None => object.put_text("match", "none")?,
    }
    object.append_to(text)
}

/// Appends a line `refused`: the event or roll was refused, and changed nothing.
///
/// # Errors
///
/// Returns `Memory` if memory runs out. The text may then have a part of the line.
pub fn put_refused(line: usize, refusal: Refusal, text: &mut String) -> Result<(), Memory>
    ensures { OnOk result (string_bytes text.new ≡ string_bytes text.old
        ++ json_line (refused_data line refusal)) }
{
    let alloc = *text.allocator();
    let mut object = Object::of_line(alloc, line, "refused")?;
    object.put_string("refusal", refusal.to_string(alloc)?)?;
    object.append_to(text)
}

/// Appends a line `behind`: the event was taken, but memory ran out, and the table does not reflect
/// the event yet.
///
/// # Errors
///
/// Returns `Memory` if memory runs out. The text may then have a part of the line.
pub fn put_behind(line: usize, text: &mut String) -> Result<(), Memory>
    ensures { OnOk result (string_bytes text.new ≡ string_bytes text.old
        ++ json_line (behind_data line)) }
{
    let object = Object::of_line(*text.allocator(), line, "behind")?;
    object.append_to(text)
}

/// Appends a line `fault`: the fault of the line.
///
/// # Errors
///
/// Returns `Memory` if memory runs out. The text may then have a part of the line.
pub fn put_fault(fault: LineFault, text: &mut String) -> Result<(), Memory>
    ensures { OnOk result (string_bytes text.new ≡ string_bytes text.old
        ++ json_line (fault_data fault)) }
{
    let alloc = *text.allocator();
    let mut object = Object::of_line(alloc, fault.line, "fault")?;
    object.put_string("fault", fault.fault.to_string(alloc)?)?;
    object.append_to(text)
}
