//! The state that is shown at the end of a replay.
ghost use Rattle.std.specs.Prelude.{◌≡◌, ◌++◌, OnOk, string_bytes};
ghost use Rattle.output_lines.specs.Members.{json_line};
ghost use Rattle.replay.specs.JsonLines.{serial_data, item_data, shown_due_data, lsa_data};

use ospf_types::key::Scope;
use ospf_types::lsa::Header;
use ospf_types::memory::Memory;
use ospf_types::prefix::Prefix;
use output_lines::Object;
use route_table::Item;
use summary_lists::DueSummary;

/// Appends a line `serial`: the serial, and the serial of the last event that the table reflects.
///
/// # Errors
///
/// Returns `Memory` if memory runs out. The text may then have a part of the line.
pub fn put_serial(serial: u64, built: u64, text: &mut String) -> Result<(), Memory>
    ensures { OnOk result (string_bytes text.new ≡ string_bytes text.old
        ++ json_line (serial_data serial built)) }
{
    let mut object = Object::of_type(*text.allocator(), "serial")?;
    object.put_number("serial", serial)?;
    object.put_number("built", built)?;
    object.append_to(text)
}

/// Appends a line `route` or `discard`: a network with its route or discard (RFC 2328, 11.1).
///
/// # Errors
///
/// Returns `Memory` if memory runs out. The text may then have a part of the line.
pub fn put_item(network: Prefix, item: &Item, text: &mut String) -> Result<(), Memory>
    ensures { OnOk result (string_bytes text.new ≡ string_bytes text.old
        ++ json_line (item_data network item.now)) }
{
    match item {
        Item::Route(entry) => {
            let mut object = Object::of_type(*text.allocator(), "route")?;
            object.put_network("network", network)?;
            object.put_route(entry)?;
            object.append_to(text)
        }
        Item::Discard => {
            let mut object = Object::of_type(*text.allocator(), "discard")?;
            object.put_network("network", network)?;
            object.append_to(text)
        }
    }
}

/// Appends a line `due`: a summary-LSA that is due in the area (RFC 2328, 12.4.3). The Area ID is
/// in host order.
///
/// # Errors
///
/// Returns `Memory` if memory runs out. The text may then have a part of the line.
pub fn put_shown_due(area: u32, due: DueSummary, text: &mut String) -> Result<(), Memory>
    ensures { OnOk result (string_bytes text.new ≡ string_bytes text.old
        ++ json_line (shown_due_data area due)) }
{
    let mut object = Object::of_type(*text.allocator(), "due")?;
    object.put_address("area", area)?;
    object.put_number("kind", u64::from(due.kind))?;
    object.put_dest(due.dest)?;
    object.put_number("metric", u64::from(due.metric))?;
    object.append_to(text)
}

/// Appends a line `lsa`: the key, the sequence number, the checksum and the age of an LSA
/// (RFC 2328, 12.1).
///
/// The sequence number and the checksum are in hexadecimal, and the age is in seconds.
///
/// # Errors
///
/// Returns `Memory` if memory runs out. The text may then have a part of the line.
pub fn put_lsa(scope: Scope, header: &Header, text: &mut String) -> Result<(), Memory>
    ensures { OnOk result (string_bytes text.new ≡ string_bytes text.old
        ++ json_line (lsa_data scope header.now)) }
{
    let mut object = Object::of_type(*text.allocator(), "lsa")?;
    object.put_scope(scope)?;
    object.put_number("kind", u64::from(header.kind))?;
    object.put_address("id", header.id)?;
    object.put_address("router", header.router)?;
    object.put_hexadecimal("sequence", &header.seq.to_be_bytes())?;
    object.put_hexadecimal("checksum", &header.sum.to_be_bytes())?;
    object.put_number("age", u64::from(header.age))?;
    object.append_to(text)
}
