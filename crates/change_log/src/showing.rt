//! Changes, printed.
ghost use Rattle.std.specs.Prelude.{◌++◌, OnOk, IfErr, map, string_bytes};
ghost use Rattle.std.specs.List.{flat_map};
ghost use Rattle.std.specs.FinMap.{entries};
ghost use Rattle.event_core.specs.DueSummaries.{lists_of};
ghost use Rattle.replay.specs.Pages.{AddsLines, AddsPart};
ghost use Rattle.replay.specs.Stops.{AreWholeLines};
ghost use Rattle.change_log.specs.Lines.{lines_of};
ghost use Rattle.change_log.specs.Changes.{all_of, area_changes, area_due, item_set, network_change};

use crate::lines::{LineContext, put_network, put_summary};
use event_core::{Core, DueChanges, DueSummaries, DueSummary};
use ospf_types::key::Dest;
use ospf_types::prefix::Prefix;
use replay::{PrintError, flush_if_full};
use route_table::Table;
use std::io;

/// Prints the whole table, and all summary-LSAs that are due.
pub(crate) fn show_all<W: io::Write>(
    core: &Core,
    at: &LineContext,
    out: &mut W,
    buffer: &mut String,
) -> Result<(), PrintError>
    ensures ok { OnOk result (AddsLines (W.contents out.old) (W.contents out.new) (string_bytes buffer.old)
        (string_bytes buffer.new) (lines_of at.now.number at.now.wanted (all_of core.now))) }
    ensures err { AreWholeLines (string_bytes buffer.old) → IfErr result (λ why.
        AddsPart why (W.contents out.old) (W.contents out.new)
        (string_bytes buffer.old ++ lines_of at.now.number at.now.wanted (all_of core.now))) }
{
    show_items(core.table(), at, out, buffer)?;
    show_summaries(core.summaries(), at, out, buffer)?;
    Ok(())
}

// Prints the items of the table.
fn show_items<W: io::Write>(
    table: &Table,
    at: &LineContext,
    out: &mut W,
    buffer: &mut String,
) -> Result<(), PrintError>
    ensures ok { OnOk result (AddsLines (W.contents out.old) (W.contents out.new) (string_bytes buffer.old)
        (string_bytes buffer.new)
        (lines_of at.now.number at.now.wanted (map item_set (entries table.now.items)))) }
    ensures err { AreWholeLines (string_bytes buffer.old) → IfErr result (λ why.
        AddsPart why (W.contents out.old) (W.contents out.new) (string_bytes buffer.old
        ++ lines_of at.now.number at.now.wanted (map item_set (entries table.now.items)))) }
{
    for (prefix, item) in table.items() {
        put_network(at, prefix, Some(item), buffer)?;
        flush_if_full(out, buffer)?;
    }
    Ok(())
}

// Prints the summary-LSAs that are due in each area.
fn show_summaries<W: io::Write>(
    summaries: &DueSummaries,
    at: &LineContext,
    out: &mut W,
    buffer: &mut String,
) -> Result<(), PrintError>
    ensures ok { OnOk result (AddsLines (W.contents out.old) (W.contents out.new) (string_bytes buffer.old)
        (string_bytes buffer.new)
        (lines_of at.now.number at.now.wanted (flat_map area_due (lists_of summaries.now)))) }
    ensures err { AreWholeLines (string_bytes buffer.old) → IfErr result (λ why.
        AddsPart why (W.contents out.old) (W.contents out.new) (string_bytes buffer.old
        ++ lines_of at.now.number at.now.wanted (flat_map area_due (lists_of summaries.now)))) }
{
    for area in summaries.areas() {
        show_area(area.area(), area.as_slice(), at, out, buffer)?;
    }
    Ok(())
}

// Prints the summary-LSAs that are due in an area.
fn show_area<W: io::Write>(
    area: u32,
    list: &[DueSummary],
    at: &LineContext,
    out: &mut W,
    buffer: &mut String,
) -> Result<(), PrintError>
    ensures ok { OnOk result (AddsLines (W.contents out.old) (W.contents out.new) (string_bytes buffer.old)
        (string_bytes buffer.new) (lines_of at.now.number at.now.wanted (area_due (area, list.now)))) }
    ensures err { AreWholeLines (string_bytes buffer.old) → IfErr result (λ why.
        AddsPart why (W.contents out.old) (W.contents out.new)
        (string_bytes buffer.old ++ lines_of at.now.number at.now.wanted (area_due (area, list.now)))) }
{
    for &due in list {
        put_summary(at, area, (due.dest, Some(due.metric)), buffer)?;
        flush_if_full(out, buffer)?;
    }
    Ok(())
}

/// Prints the changes of the last event.
pub(crate) fn show_changes<W: io::Write>(
    core: &Core,
    at: &LineContext,
    out: &mut W,
    buffer: &mut String,
) -> Result<(), PrintError>
    ensures ok { OnOk result (AddsLines (W.contents out.old) (W.contents out.new) (string_bytes buffer.old)
        (string_bytes buffer.new) (lines_of at.now.number at.now.wanted
        (map (network_change core.now.table.items) core.now.changes
        ++ flat_map area_changes core.now.due_changes))) }
    ensures err { AreWholeLines (string_bytes buffer.old) → IfErr result (λ why.
        AddsPart why (W.contents out.old) (W.contents out.new) (string_bytes buffer.old
        ++ lines_of at.now.number at.now.wanted (map (network_change core.now.table.items) core.now.changes
        ++ flat_map area_changes core.now.due_changes))) }
{
    show_networks(core.changes(), core.table(), at, out, buffer)?;
    show_due_changes(core.due_changes(), at, out, buffer)?;
    Ok(())
}

// Prints the items that these networks have now.
fn show_networks<W: io::Write>(
    networks: &[Prefix],
    table: &Table,
    at: &LineContext,
    out: &mut W,
    buffer: &mut String,
) -> Result<(), PrintError>
    ensures ok { OnOk result (AddsLines (W.contents out.old) (W.contents out.new) (string_bytes buffer.old)
        (string_bytes buffer.new)
        (lines_of at.now.number at.now.wanted (map (network_change table.now.items) networks.now))) }
    ensures err { AreWholeLines (string_bytes buffer.old) → IfErr result (λ why.
        AddsPart why (W.contents out.old) (W.contents out.new) (string_bytes buffer.old
        ++ lines_of at.now.number at.now.wanted (map (network_change table.now.items) networks.now))) }
{
    for &prefix in networks {
        put_network(at, prefix, table.get(prefix), buffer)?;
        flush_if_full(out, buffer)?;
    }
    Ok(())
}

// Prints the changes of due summary-LSAs in each area.
fn show_due_changes<W: io::Write>(
    changes: &DueChanges,
    at: &LineContext,
    out: &mut W,
    buffer: &mut String,
) -> Result<(), PrintError>
    ensures ok { OnOk result (AddsLines (W.contents out.old) (W.contents out.new) (string_bytes buffer.old)
        (string_bytes buffer.new)
        (lines_of at.now.number at.now.wanted (flat_map area_changes changes.now))) }
    ensures err { AreWholeLines (string_bytes buffer.old) → IfErr result (λ why.
        AddsPart why (W.contents out.old) (W.contents out.new) (string_bytes buffer.old
        ++ lines_of at.now.number at.now.wanted (flat_map area_changes changes.now))) }
{
    for place in 0..changes.areas() {
        let Some((area, metrics)) = changes.at(place) else {
            unreachable!()
        };
        show_metrics(area, metrics, at, out, buffer)?;
    }
    Ok(())
}

// Prints the changes of due summary-LSAs in an area.
fn show_metrics<W: io::Write>(
    area: u32,
    metrics: &[(Dest, Option<u32>)],
    at: &LineContext,
    out: &mut W,
    buffer: &mut String,
) -> Result<(), PrintError>
    ensures ok { OnOk result (AddsLines (W.contents out.old) (W.contents out.new) (string_bytes buffer.old)
        (string_bytes buffer.new) (lines_of at.now.number at.now.wanted (area_changes (area, metrics.now)))) }
    ensures err { AreWholeLines (string_bytes buffer.old) → IfErr result (λ why.
        AddsPart why (W.contents out.old) (W.contents out.new)
        (string_bytes buffer.old ++ lines_of at.now.number at.now.wanted (area_changes (area, metrics.now)))) }
{
    for &change in metrics {
        put_summary(at, area, change, buffer)?;
        flush_if_full(out, buffer)?;
    }
    Ok(())
}
