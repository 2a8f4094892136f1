//! The state that is shown after a run.
ghost use Rattle.std.specs.Prelude.{◌++◌, OnOk, IfErr, string_bytes};
ghost use Rattle.std.specs.List.{flat_map};
ghost use Rattle.std.specs.FinMap.{entries};
ghost use Rattle.event_core.specs.DueSummaries.{lists_of};
ghost use Rattle.replay.specs.Lines.{area_lines, due_line, item_line, lsa_line};
ghost use Rattle.replay.specs.Pages.{AddsLines, AddsPart};
ghost use Rattle.replay.specs.Stops.{AreWholeLines};

use crate::buffer::{PrintError, flush_if_full};
use crate::lines::{put_due, put_item, put_lsa};
use event_core::{DueSummaries, DueSummary};
use lsa_codec::Checked;
use ospf_types::key::Scope;
use output_lines::Format;
use route_table::Table;
use std::io;

/// Prints the items of the table.
///
/// # Errors
///
/// Returns the reason why printing stopped. A beginning of the lines may be written then. After
/// `Memory` it has no cut line, if the buffer had none.
pub fn show_items<W: io::Write>(
    format: Format,
    table: &Table,
    out: &mut W,
    buffer: &mut String,
) -> Result<(), PrintError>
    ensures ok { OnOk result (AddsLines (W.contents out.old) (W.contents out.new) (string_bytes buffer.old)
        (string_bytes buffer.new) (flat_map (item_line format) (entries table.now.items))) }
    ensures err { AreWholeLines (string_bytes buffer.old)
        → IfErr result (λ why. AddsPart why (W.contents out.old) (W.contents out.new)
        (string_bytes buffer.old ++ flat_map (item_line format) (entries table.now.items))) }
{
    for (prefix, item) in table.items() {
        put_item(format, prefix, item, buffer)?;
        flush_if_full(out, buffer)?;
    }
    Ok(())
}

/// Prints the summary-LSAs that are due in each area.
///
/// # Errors
///
/// Returns the reason why printing stopped. A beginning of the lines may be written then. After
/// `Memory` it has no cut line, if the buffer had none.
pub fn show_summaries<W: io::Write>(
    format: Format,
    summaries: &DueSummaries,
    out: &mut W,
    buffer: &mut String,
) -> Result<(), PrintError>
    ensures ok { OnOk result (AddsLines (W.contents out.old) (W.contents out.new) (string_bytes buffer.old)
        (string_bytes buffer.new) (flat_map (area_lines format) (lists_of summaries.now))) }
    ensures err { AreWholeLines (string_bytes buffer.old)
        → IfErr result (λ why. AddsPart why (W.contents out.old) (W.contents out.new)
        (string_bytes buffer.old ++ flat_map (area_lines format) (lists_of summaries.now))) }
{
    for area in summaries.areas() {
        show_area(format, area.area(), area.as_slice(), out, buffer)?;
    }
    Ok(())
}

// Prints the summary-LSAs that are due in an area.
fn show_area<W: io::Write>(
    format: Format,
    area: u32,
    list: &[DueSummary],
    out: &mut W,
    buffer: &mut String,
) -> Result<(), PrintError>
    ensures ok { OnOk result (AddsLines (W.contents out.old) (W.contents out.new) (string_bytes buffer.old)
        (string_bytes buffer.new) (area_lines format (area, list.now))) }
    ensures err { AreWholeLines (string_bytes buffer.old)
        → IfErr result (λ why. AddsPart why (W.contents out.old) (W.contents out.new)
        (string_bytes buffer.old ++ area_lines format (area, list.now))) }
{
    for due in list {
        put_due(format, area, *due, buffer)?;
        flush_if_full(out, buffer)?;
    }
    Ok(())
}

/// Prints the LSAs with their scopes.
///
/// # Errors
///
/// Returns the reason why printing stopped. A beginning of the lines may be written then. After
/// `Memory` it has no cut line, if the buffer had none.
pub fn show_lsas<W: io::Write>(
    format: Format,
    lsas: Vec<(Scope, Checked)>,
    out: &mut W,
    buffer: &mut String,
) -> Result<(), PrintError>
    ensures ok { OnOk result (AddsLines (W.contents out.old) (W.contents out.new) (string_bytes buffer.old)
        (string_bytes buffer.new) (flat_map (lsa_line format) lsas.items)) }
    ensures err { AreWholeLines (string_bytes buffer.old)
        → IfErr result (λ why. AddsPart why (W.contents out.old) (W.contents out.new)
        (string_bytes buffer.old ++ flat_map (lsa_line format) lsas.items)) }
{
    for (scope, lsa) in lsas {
        put_lsa(format, scope, &lsa, buffer)?;
        flush_if_full(out, buffer)?;
    }
    Ok(())
}
