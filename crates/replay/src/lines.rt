//! The lines that a replay prints, each appended to a text.
//!
//! If memory runs out, the text may have a part of the line. `number` is the number of a line in
//! its recording, from 1.
ghost use Rattle.std.specs.Prelude.{◌≡◌, ◌++◌, OnOk, codes, string_bytes};
ghost use Rattle.output_lines.specs.declared.format.Format.TheVariants as format_value;
ghost use Rattle.recording.specs.Forms.{scope_text};
ghost use Rattle.route_table.specs.declared.table.Match.{Match};
ghost use Rattle.route_table.specs.Tables.{IsMatch};
ghost use Rattle.replay.specs.Lines.{lookup_line, behind_line, refused_line, answer_line};
ghost use Rattle.replay.specs.Lines.{roll_line, counts_line, serial_line, item_line, due_line};
ghost use Rattle.replay.specs.Lines.{dest_text, header_text, lsa_line, event_line};

use crate::json_lines;
use crate::json_lines::{Lookup, put_recorded};
use event_core::{Core, DueSummary, Event, Refusal, Reply, Status};
use lsa_codec::{Checked, Header};
use ospf_types::address::Address;
use ospf_types::key::{Dest, Scope};
use ospf_types::memory::Memory;
use ospf_types::prefix::Prefix;
use output_lines::{Format, put_hexadecimal};
use recording::append_event;
use route_table::{Item, Match, Table};

/// Appends the line of a lookup: the longest match of the address (in host order) in the table.
///
/// # Errors
///
/// Returns `Memory` if memory runs out. The text may then have a part of the line.
pub fn put_lookup(
    format: Format,
    number: usize,
    address: u32,
    table: &Table,
    text: &mut String,
) -> Result<(), Memory>
    ensures { OnOk result ((found : Match) × IsMatch table.now.items address found
        × (string_bytes text.new ≡ string_bytes text.old ++ lookup_line format number address table.now.serial found)) }
{
    let lookup = Lookup {
        line: number,
        address,
        serial: table.serial(),
    };
    // proof: the borrow checker would not see that a match kept in a variable may borrow a route.
    match table.lookup(address) {
        Match::Route(network, entry) => {
            let found = Match::Route(network, entry);
            put_found(format, lookup, &found, text)
        }
        Match::Discard(network) => put_found(format, lookup, &Match::Discard(network), text),
        Match::None => put_found(format, lookup, &Match::None, text),
    }
}

/// Appends the line of a lookup with its match.
///
/// # Errors
///
/// Returns `Memory` if memory runs out. The text may then have a part of the line.
pub fn put_found(
    format: Format,
    lookup: Lookup,
    found: &Match,
    text: &mut String,
) -> Result<(), Memory>
    ensures { OnOk result (string_bytes text.new ≡ string_bytes text.old
        ++ lookup_line format lookup.line lookup.address lookup.serial found.now) }
{
    match format {
        Format::Text => put_found_words(lookup, found, text),
        Format::Json => json_lines::put_lookup(lookup, found, text),
    }
}

fn put_found_words(lookup: Lookup, found: &Match, text: &mut String) -> Result<(), Memory>
    ensures { OnOk result (string_bytes text.new ≡ string_bytes text.old
        ++ lookup_line format_value.Text lookup.line lookup.address lookup.serial found.now) }
{
    let (number, serial) = (lookup.line, lookup.serial);
    let address = Address(lookup.address);
    writeln!(text, "{number} lookup {address} {serial} {found}")?;
    Ok(())
}

/// Appends the line of an event that was refused, or that left the core behind. Other events have
/// no line.
///
/// # Errors
///
/// Returns `Memory` if memory runs out. The text may then have a part of the line.
pub fn put_answer(
    format: Format,
    number: usize,
    answer: Result<Reply, Refusal>,
    text: &mut String,
) -> Result<(), Memory>
    ensures { OnOk result (string_bytes text.new ≡ string_bytes text.old
        ++ answer_line format number answer) }
{
    match answer {
        Ok(reply) => match reply.state {
            Status::Current => Ok(()),
            Status::Behind => put_behind(format, number, text),
        },
        Err(refusal) => put_refused(format, number, refusal, text),
    }
}

/// Appends the line of a roll that was refused. Other rolls have no line.
///
/// # Errors
///
/// Returns `Memory` if memory runs out. The text may then have a part of the line.
pub fn put_roll(
    format: Format,
    number: usize,
    answer: Result<u64, Refusal>,
    text: &mut String,
) -> Result<(), Memory>
    ensures { OnOk result (string_bytes text.new ≡ string_bytes text.old
        ++ roll_line format number answer) }
{
    match answer {
        Ok(_) => Ok(()),
        Err(refusal) => put_refused(format, number, refusal, text),
    }
}

/// Appends the line of an event that was taken, but that the table does not reflect yet.
///
/// # Errors
///
/// Returns `Memory` if memory runs out. The text may then have a part of the line.
pub fn put_behind(format: Format, number: usize, text: &mut String) -> Result<(), Memory>
    ensures { OnOk result (string_bytes text.new ≡ string_bytes text.old
        ++ behind_line format number) }
{
    match format {
        Format::Text => Ok(writeln!(text, "{number} behind")?),
        Format::Json => json_lines::put_behind(number, text),
    }
}

/// Appends the line of a refused event or roll.
///
/// # Errors
///
/// Returns `Memory` if memory runs out. The text may then have a part of the line.
pub fn put_refused(
    format: Format,
    number: usize,
    refusal: Refusal,
    text: &mut String,
) -> Result<(), Memory>
    ensures { OnOk result (string_bytes text.new ≡ string_bytes text.old
        ++ refused_line format number refusal) }
{
    match format {
        Format::Text => Ok(writeln!(text, "{number} refused {refusal}")?),
        Format::Json => json_lines::put_refused(number, refusal, text),
    }
}

/// Appends the line with the serial of the core, and the serial of the last event that its table
/// reflects.
///
/// # Errors
///
/// Returns `Memory` if memory runs out. The text may then have a part of the line.
pub fn put_serial(format: Format, core: &Core, text: &mut String) -> Result<(), Memory>
    ensures { OnOk result (string_bytes text.new ≡ string_bytes text.old
        ++ serial_line format core.now) }
{
    put_counts(format, core.serial(), core.built(), text)
}

// Appends the line with the two serials.
fn put_counts(format: Format, serial: u64, built: u64, text: &mut String) -> Result<(), Memory>
    ensures { OnOk result (string_bytes text.new ≡ string_bytes text.old
        ++ counts_line format serial built) }
{
    match format {
        Format::Text => Ok(writeln!(text, "serial {serial} built {built}")?),
        Format::Json => json_lines::put_serial(serial, built, text),
    }
}

/// Appends the line of a network with its route, or with a discard.
pub(crate) fn put_item(
    format: Format,
    prefix: Prefix,
    item: &Item,
    text: &mut String,
) -> Result<(), Memory>
    ensures { OnOk result (string_bytes text.new ≡ string_bytes text.old
        ++ item_line format (prefix, item.now)) }
{
    match format {
        Format::Text => put_item_words(prefix, item, text),
        Format::Json => json_lines::put_item(prefix, item, text),
    }
}

fn put_item_words(prefix: Prefix, item: &Item, text: &mut String) -> Result<(), Memory>
    ensures { OnOk result (string_bytes text.new ≡ string_bytes text.old
        ++ item_line format_value.Text (prefix, item.now)) }
{
    match item {
        Item::Route(entry) => writeln!(text, "route {prefix} {entry}")?,
        Item::Discard => writeln!(text, "discard {prefix}")?,
    }
    Ok(())
}

/// Appends the line of a summary-LSA that is due in the area (in host order).
pub(crate) fn put_due(
    format: Format,
    area: u32,
    due: DueSummary,
    text: &mut String,
) -> Result<(), Memory>
    ensures { OnOk result (string_bytes text.new ≡ string_bytes text.old
        ++ due_line format area due) }
{
    match format {
        Format::Text => put_due_words(area, due, text),
        Format::Json => json_lines::put_shown_due(area, due, text),
    }
}

fn put_due_words(area: u32, due: DueSummary, text: &mut String) -> Result<(), Memory>
    ensures { OnOk result (string_bytes text.new ≡ string_bytes text.old
        ++ due_line format_value.Text area due) }
{
    let (area, kind, metric) = (Address(area), due.kind, due.metric);
    write!(text, "due {area} {kind} ")?;
    put_dest(due.dest, text)?;
    writeln!(text, " {metric}")?;
    Ok(())
}

/// Appends a network, or the Router ID of an AS boundary router.
///
/// # Errors
///
/// Returns `Memory` if memory runs out. The text may then have a part of the destination.
pub fn put_dest(dest: Dest, text: &mut String) -> Result<(), Memory>
    ensures { OnOk result (string_bytes text.new ≡ string_bytes text.old ++ dest_text dest) }
{
    match dest {
        Dest::Net(network) => write!(text, "{network}")?,
        Dest::Router(router) => {
            let router = Address(router);
            write!(text, "{router}")?;
        }
    }
    Ok(())
}

/// Appends the line of an LSA: its key, sequence number, checksum and age.
pub(crate) fn put_lsa(
    format: Format,
    scope: Scope,
    lsa: &Checked,
    text: &mut String,
) -> Result<(), Memory>
    ensures { OnOk result (string_bytes text.new ≡ string_bytes text.old
        ++ lsa_line format (scope, lsa.now)) }
{
    match format {
        Format::Text => put_lsa_words(scope, lsa, text),
        Format::Json => json_lines::put_lsa(scope, &lsa.header(), text),
    }
}

fn put_lsa_words(scope: Scope, lsa: &Checked, text: &mut String) -> Result<(), Memory>
    ensures { OnOk result (string_bytes text.new ≡ string_bytes text.old
        ++ lsa_line format_value.Text (scope, lsa.now)) }
{
    put_scope(scope, text)?;
    put_header(&lsa.header(), text)?;
    text.push_str("\n")?;
    Ok(())
}

fn put_scope(scope: Scope, text: &mut String) -> Result<(), Memory>
    ensures { OnOk result (string_bytes text.new ≡ string_bytes text.old
        ++ (codes "lsa " ++ (scope_text scope ++ codes " "))) }
{
    match scope {
        Scope::Area(id) => {
            let area = Address(id);
            write!(text, "lsa {area} ")?;
        }
        Scope::As => text.push_str("lsa as ")?,
    }
    Ok(())
}

fn put_header(header: &Header, text: &mut String) -> Result<(), Memory>
    ensures { OnOk result (string_bytes text.new ≡ string_bytes text.old
        ++ header_text header.now) }
{
    let (kind, age) = (header.kind, header.age);
    let (id, router) = (Address(header.id), Address(header.router));
    write!(text, "{kind} {id} {router} ")?;
    put_hexadecimal(&header.seq.to_be_bytes(), text)?;
    text.push_str(" ")?;
    put_hexadecimal(&header.sum.to_be_bytes(), text)?;
    write!(text, " {age}")?;
    Ok(())
}

/// Appends the event as a line of a recording.
pub(crate) fn put_event(format: Format, event: &Event, text: &mut String) -> Result<(), Memory>
    ensures { OnOk result (string_bytes text.new ≡ string_bytes text.old
        ++ event_line format event.now) }
{
    let alloc = *text.allocator();
    match format {
        Format::Text => append_event(alloc, event, text),
        Format::Json => {
            let mut ended = String::new(alloc);
            append_event(alloc, event, &mut ended)?;
            let Some(line) = ended.strip_suffix('\n') else {
                unreachable!()
            };
            put_recorded(line, text)
        }
    }
}
