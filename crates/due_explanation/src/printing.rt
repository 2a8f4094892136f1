//! The explanation of a summary in an area, line by line.
ghost use Rattle.std.specs.Prelude.{◌≡◌, ◌++◌, OnOk, string_bytes};
ghost use Rattle.std.specs.List.{flat_map};
ghost use Rattle.due_explanation.specs.Lines.{due_explanation_text, due_source_line};
ghost use Rattle.due_explanation.specs.ReasonLines.{sources_of};

use crate::{DueExplained, DueReason, DueSource, objects, text_lines};
use ospf_types::key::Dest;
use ospf_types::memory::Memory;
use output_lines::Format;

/// An area and a destination, with the explanation of the destination's summary in the area.
#[derive(Clone, Copy)]
pub struct ExplainedDue<'a> {
    /// The Area ID.
    pub area: u32,
    /// The destination.
    pub dest: Dest,
    /// The explanation.
    pub due: &'a DueExplained,
}

/// Appends the explanation of the summary in the area (RFC 2328, 12.4.3): its metric if it is due,
/// and then each source with its cost and its verdict. Costs are metrics.
///
/// # Errors
///
/// Returns `Memory` if memory runs out. The text may then have a part of the explanation.
pub fn put_due_explanation(
    format: Format,
    explained: ExplainedDue<'_>,
    text: &mut String,
) -> Result<(), Memory>
    ensures { OnOk result (string_bytes text.new ≡ string_bytes text.old
        ++ due_explanation_text format explained.entry.area explained.entry.dest
        explained.entry.due.now) }
{
    let ExplainedDue { area, dest, due } = explained;
    match format {
        Format::Text => text_lines::put_due(area, dest, due, text)?,
        Format::Json => objects::put_due(area, dest, due, text)?,
    }
    put_sources(format, sources_in(&due.reason), text)
}

// Returns the sources of the summary. The list is empty if there is another reason.
fn sources_in(reason: &DueReason) -> &[DueSource]
    ensures { result.now ≡ sources_of reason.now }
{
    match reason {
        DueReason::Sources(sources) => sources.as_slice(),
        _ => &[],
    }
}

fn put_sources(format: Format, sources: &[DueSource], text: &mut String) -> Result<(), Memory>
    ensures { OnOk result (string_bytes text.new ≡ string_bytes text.old
        ++ flat_map (due_source_line format) sources.now) }
{
    for source in sources {
        put_due_source(format, source, text)?;
    }
    Ok(())
}

fn put_due_source(format: Format, source: &DueSource, text: &mut String) -> Result<(), Memory>
    ensures { OnOk result (string_bytes text.new ≡ string_bytes text.old
        ++ due_source_line format source.now) }
{
    match format {
        Format::Text => text_lines::put_due_source(source, text),
        Format::Json => objects::put_due_source(source, text),
    }
}
