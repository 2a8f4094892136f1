//! The lines that report changes, or the outcome of a line that changed nothing, in words or as
//! JSON.
//!
//! Each is appended to a text. If memory runs out, the text may have a part of the line.
ghost use Rattle.std.specs.Prelude.{◌≡◌, ◌++◌, OnOk, option_map, string_bytes};
ghost use Rattle.change_log.specs.Lines as told;
ghost use Rattle.change_log.specs.Lines.{change_line, line_of};
ghost use Rattle.change_log.specs.Changes.{change_to, due_change};

use crate::printing::ChangeFilter;
use crate::text_lines;
use event_core::{DueSummary, Refusal};
use ospf_types::key::Dest;
use ospf_types::memory::Memory;
use ospf_types::prefix::Prefix;
use output_lines::Format;
use recording::{Fault, LineFault};
use replay::json_lines;
use route_table::Item;

/// The number of a line in its recording, and what is reported of the line.
#[derive(Clone, Copy)]
pub struct LineContext {
    pub number: usize,
    pub wanted: ChangeFilter,
    /// True if the outcome of a line that changed nothing is reported: a lookup, or a refusal.
    pub answers: bool,
}

/// Appends the item that the network has now, or that it has none. Nothing is appended if only
/// another network is wanted.
pub(crate) fn put_network(
    at: &LineContext,
    prefix: Prefix,
    item: Option<&Item>,
    text: &mut String,
) -> Result<(), Memory>
    ensures { OnOk result (string_bytes text.new ≡ string_bytes text.old
        ++ line_of at.now.number at.now.wanted (change_to prefix (option_map (λ i. i.now) item.entry))) }
{
    if !is_asked(at.wanted.only, prefix) {
        return Ok(());
    }
    match item {
        Some(item) => put_set(at, prefix, item, text),
        None => put_drop(at, prefix, text),
    }
}

fn put_set(at: &LineContext, prefix: Prefix, item: &Item, text: &mut String) -> Result<(), Memory>
    ensures { OnOk result (string_bytes text.new ≡ string_bytes text.old
        ++ change_line at.now.wanted.format at.now.number (told.Set prefix item.now)) }
{
    match at.wanted.format {
        Format::Text => text_lines::put_set(at.number, prefix, item, text),
        Format::Json => json_lines::put_set(at.number, prefix, item, text),
    }
}

fn put_drop(at: &LineContext, prefix: Prefix, text: &mut String) -> Result<(), Memory>
    ensures { OnOk result (string_bytes text.new ≡ string_bytes text.old
        ++ change_line at.now.wanted.format at.now.number (told.Drop prefix)) }
{
    match at.wanted.format {
        Format::Text => text_lines::put_drop(at.number, prefix, text),
        Format::Json => json_lines::put_drop(at.number, prefix, text),
    }
}

/// Appends the metric at which the destination is due in the area (in host order) now, or that it
/// is no longer due. Nothing is appended if only another network is wanted.
pub(crate) fn put_summary(
    at: &LineContext,
    area: u32,
    change: (Dest, Option<u32>),
    text: &mut String,
) -> Result<(), Memory>
    ensures { OnOk result (string_bytes text.new ≡ string_bytes text.old
        ++ line_of at.now.number at.now.wanted (due_change area change)) }
{
    if !is_dest_asked(at.wanted.only, &change.0) {
        return Ok(());
    }
    match change.1 {
        Some(metric) => put_due(at, area, change.0, metric, text),
        None => put_undue(at, area, change.0, text),
    }
}

fn put_due(
    at: &LineContext,
    area: u32,
    dest: Dest,
    metric: u32,
    text: &mut String,
) -> Result<(), Memory>
    ensures { OnOk result (string_bytes text.new ≡ string_bytes text.old
        ++ change_line at.now.wanted.format at.now.number (told.Due area dest metric)) }
{
    let due = DueSummary::of(dest, metric);
    match at.wanted.format {
        Format::Text => text_lines::put_due(at.number, area, due, text),
        Format::Json => json_lines::put_due(at.number, area, due, text),
    }
}

fn put_undue(at: &LineContext, area: u32, dest: Dest, text: &mut String) -> Result<(), Memory>
    ensures { OnOk result (string_bytes text.new ≡ string_bytes text.old
        ++ change_line at.now.wanted.format at.now.number (told.Undue area dest)) }
{
    match at.wanted.format {
        Format::Text => text_lines::put_undue(at.number, area, DueSummary::of(dest, 0), text),
        Format::Json => json_lines::put_undue(at.number, area, dest, text),
    }
}

/// Appends that the event or roll was refused.
pub(crate) fn put_refused(
    at: &LineContext,
    refusal: Refusal,
    text: &mut String,
) -> Result<(), Memory>
    ensures { OnOk result (string_bytes text.new ≡ string_bytes text.old
        ++ change_line at.now.wanted.format at.now.number (told.Refused refusal)) }
{
    replay::put_refused(at.wanted.format, at.number, refusal, text)
}

/// Appends the fault of the line.
pub(crate) fn put_fault(at: &LineContext, fault: Fault, text: &mut String) -> Result<(), Memory>
    ensures { OnOk result (string_bytes text.new ≡ string_bytes text.old
        ++ change_line at.now.wanted.format at.now.number (told.AtFault fault)) }
{
    match at.wanted.format {
        Format::Text => text_lines::put_fault(at.number, fault, text),
        Format::Json => {
            let line = at.number;
            json_lines::put_fault(LineFault { line, fault }, text)
        }
    }
}

// Returns true if the changes of the network are wanted.
fn is_asked(only: Option<Prefix>, prefix: Prefix) -> bool
    ensures { result ≡ told.is_asked only prefix }
{
    match only {
        Some(network) => prefix == network,
        None => true,
    }
}

fn is_dest_asked(only: Option<Prefix>, dest: &Dest) -> bool
    ensures { result ≡ told.is_dest_asked only dest.now }
{
    match dest {
        Dest::Net(prefix) => is_asked(only, *prefix),
        Dest::Router(_) => only.is_none(),
    }
}
