//! The changes that an event made, with the number of its line in the recording.
ghost use Rattle.std.specs.Prelude.{◌≡◌, ◌++◌, OnOk, string_bytes};
ghost use Rattle.output_lines.specs.Members.{json_line};
ghost use Rattle.replay.specs.JsonLines.{set_data, drop_data, due_data, undue_data};

use ospf_types::key::Dest;
use ospf_types::memory::Memory;
use ospf_types::prefix::Prefix;
use output_lines::Object;
use route_table::Item;
use serde_json::Value;
use summary_lists::DueSummary;

/// Appends a line `set`: the network has this item now, a route or a discard (RFC 2328, 11.1).
///
/// # Errors
///
/// Returns `Memory` if memory runs out. The text may then have a part of the line.
pub fn put_set(line: usize, network: Prefix, item: &Item, text: &mut String) -> Result<(), Memory>
    ensures { OnOk result (string_bytes text.new ≡ string_bytes text.old
        ++ json_line (set_data line network item.now)) }
{
    let mut object = Object::of_line(*text.allocator(), line, "set")?;
    object.put_network("network", network)?;
    match item {
        Item::Route(entry) => object.put_route(entry)?,
        Item::Discard => object.put("discard", Value::from(true))?,
    }
    object.append_to(text)
}

/// Appends a line `drop`: the table has nothing for the network any more.
///
/// # Errors
///
/// Returns `Memory` if memory runs out. The text may then have a part of the line.
pub fn put_drop(line: usize, network: Prefix, text: &mut String) -> Result<(), Memory>
    ensures { OnOk result (string_bytes text.new ≡ string_bytes text.old
        ++ json_line (drop_data line network)) }
{
    let mut object = Object::of_line(*text.allocator(), line, "drop")?;
    object.put_network("network", network)?;
    object.append_to(text)
}

/// Appends a line `due`: the summary-LSA is due in the area (in host order) at this metric now
/// (RFC 2328, 12.4.3).
///
/// # Errors
///
/// Returns `Memory` if memory runs out. The text may then have a part of the line.
pub fn put_due(line: usize, area: u32, due: DueSummary, text: &mut String) -> Result<(), Memory>
    ensures { OnOk result (string_bytes text.new ≡ string_bytes text.old
        ++ json_line (due_data line area due)) }
{
    let mut object = Object::of_line(*text.allocator(), line, "due")?;
    object.put_address("area", area)?;
    object.put_number("kind", u64::from(due.kind))?;
    object.put_dest(due.dest)?;
    object.put_number("metric", u64::from(due.metric))?;
    object.append_to(text)
}

/// Appends a line `undue`: the summary-LSA for the destination is no longer due in the area (in
/// host order), and is to be flushed (RFC 2328, 14.1).
///
/// # Errors
///
/// Returns `Memory` if memory runs out. The text may then have a part of the line.
pub fn put_undue(line: usize, area: u32, dest: Dest, text: &mut String) -> Result<(), Memory>
    ensures { OnOk result (string_bytes text.new ≡ string_bytes text.old
        ++ json_line (undue_data line area dest)) }
{
    // The line has no metric, so any will do here.
    let due = DueSummary::of(dest, 0);
    let mut object = Object::of_line(*text.allocator(), line, "undue")?;
    object.put_address("area", area)?;
    object.put_number("kind", u64::from(due.kind))?;
    object.put_dest(due.dest)?;
    object.append_to(text)
}
