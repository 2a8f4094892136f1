//! The lines of an explanation of a summary as text.
ghost use Rattle.std.specs.Prelude.{◌≡◌, ◌++◌, OnOk, Some, codes, option_copied, string_bytes};
ghost use Rattle.output_lines.specs.declared.format.Format.TheVariants as format_value;
ghost use Rattle.due_explanation.specs.Words.{at_text, cost_text, dest_text, due_source_text};
ghost use Rattle.due_explanation.specs.Words.{metric_text, place_text, source_kind_text};
ghost use Rattle.due_explanation.specs.Lines.{due_line, due_source_line};

use crate::reason_lines::{FateField, STEP, due_reason_of, is_taken, kind_of};
use crate::{DueExplained, DueSource, SourceKind};
use ospf_types::address::Address;
use ospf_types::key::Dest;
use ospf_types::memory::Memory;
use std::fmt;

pub(crate) fn put_due(
    area: u32,
    dest: Dest,
    due: &DueExplained,
    text: &mut String,
) -> Result<(), Memory>
    ensures { OnOk result (string_bytes text.new ≡ string_bytes text.old
        ++ due_line format_value.Text area dest due.now) }
{
    put_metric(area, dest, due.metric, text)?;
    put_reason(due_reason_of(&due.reason), text)
}

// Appends the summary, and its metric if it is due.
fn put_metric(area: u32, dest: Dest, metric: Option<u32>, text: &mut String) -> Result<(), Memory>
    ensures { OnOk result (string_bytes text.new ≡ string_bytes text.old
        ++ metric_text area dest metric) }
{
    let place = PlaceField { area, dest };
    match metric {
        Some(metric) => write!(text, "due {place} {metric}")?,
        None => write!(text, "undue {place}")?,
    }
    Ok(())
}

// Appends the section that decides and the reason, if there is one, and a line feed.
fn put_reason(reason: Option<&str>, text: &mut String) -> Result<(), Memory>
    ensures { OnOk result (string_bytes text.new ≡ string_bytes text.old
        ++ (at_text (option_copied reason.entry) ++ codes "\n")) }
{
    match reason {
        Some(reason) => writeln!(text, " at {STEP}: {reason}")?,
        None => text.push_str("\n")?,
    }
    Ok(())
}

pub(crate) fn put_due_source(source: &DueSource, text: &mut String) -> Result<(), Memory>
    ensures { OnOk result (string_bytes text.new ≡ string_bytes text.old
        ++ due_source_line format_value.Text source.now) }
{
    let (told, verdict) = (SourceField(*source), FateField(source.verdict));
    if is_taken(source.verdict) {
        writeln!(text, "taken {told}")?;
    } else {
        writeln!(text, "lost {told} at {STEP}: {verdict}")?;
    }
    Ok(())
}

// Prints an area, and a destination with the LS type of its summaries.
#[derive(Clone, Copy)]
struct PlaceField {
    area: u32,
    dest: Dest,
}

impl fmt::Display for PlaceField {
    ghost output = { λ place. Some (place_text place.area place.dest) };

    fn fmt<W: fmt::Write>(&self, f: &mut fmt::Formatter<W>) -> fmt::Result {
        let (area, kind, dest) = (
            Address(self.area),
            kind_of(&self.dest),
            DestField(self.dest),
        );
        write!(f, "{area} {kind} {dest}")
    }
}

// Prints the cost of a source, its kind and its area.
#[derive(Clone, Copy)]
struct SourceField(DueSource);

impl fmt::Display for SourceField {
    ghost output = { λ source. Some (due_source_text source.0) };

    fn fmt<W: fmt::Write>(&self, f: &mut fmt::Formatter<W>) -> fmt::Result {
        let (cost, kind, area) = (
            CostField(self.0.cost),
            source_kind(self.0.kind),
            Address(self.0.area),
        );
        write!(f, "{cost} {kind} {area}")
    }
}

// Prints the cost, or a dash for a range that has none.
#[derive(Clone, Copy)]
struct CostField(Option<u32>);

impl fmt::Display for CostField {
    ghost output = { λ cost. Some (cost_text cost.0) };

    fn fmt<W: fmt::Write>(&self, f: &mut fmt::Formatter<W>) -> fmt::Result {
        match self.0 {
            Some(cost) => cost.fmt(f),
            None => f.write_str("-"),
        }
    }
}

// Prints a network, or the Router ID of an AS boundary router.
#[derive(Clone, Copy)]
struct DestField(Dest);

impl fmt::Display for DestField {
    ghost output = { λ dest. Some (dest_text dest.0) };

    fn fmt<W: fmt::Write>(&self, f: &mut fmt::Formatter<W>) -> fmt::Result {
        match self.0 {
            Dest::Net(network) => network.fmt(f),
            Dest::Router(router) => Address(router).fmt(f),
        }
    }
}

/// Returns the kind of a source in one word.
pub(crate) fn source_kind(kind: SourceKind) -> &'static str
    ensures { result.now ≡ source_kind_text kind }
{
    match kind {
        SourceKind::IntraArea => "intra",
        SourceKind::InterArea => "inter",
        SourceKind::Range => "range",
        SourceKind::Preferred => "preferred",
    }
}
