//! The summary-LSAs that are due.
ghost use Rattle.std.specs.Prelude.{◌≡◌, ◌++◌, OnOk, string_bytes};
ghost use Rattle.std.specs.List.{flat_map};
ghost use Rattle.page_sections.specs.Summaries.{areas_text, dest_text, due_text, list_text, listed};
ghost use Rattle.page_sections.specs.Summaries.{listed_text, row_text, summaries_text, table_text};

use ospf_types::address::Address;
use ospf_types::key::Dest;
use ospf_types::memory::Memory;
use summary_lists::{AreaSummaries, DueSummary};

// The head of the table of an area.
const HEAD: &str = "<table class=\"due\">
<thead>
<tr><th>LS type<th>Destination<th>Metric
</thead>
<tbody>
";

/// Appends the summary-LSAs that are due in each area (RFC 2328, 12.4.3).
///
/// # Errors
///
/// Returns `Memory` if memory runs out. The text may then have a part of this.
pub fn put_summaries(areas: &[AreaSummaries], text: &mut String) -> Result<(), Memory>
    ensures { OnOk result (string_bytes text.new ≡ string_bytes text.old
        ++ summaries_text (listed areas.now)) }
{
    text.push_str("<h2 id=\"summaries\">Summary-LSAs that are due</h2>\n")?;
    put_areas(areas, text)?;
    Ok(())
}

// Appends each area, or a note that no area is configured.
fn put_areas(areas: &[AreaSummaries], text: &mut String) -> Result<(), Memory>
    ensures { OnOk result (string_bytes text.new ≡ string_bytes text.old
        ++ areas_text (listed areas.now)) }
{
    if areas.is_empty() {
        text.push_str("<p>No area is configured.</p>\n")?;
        return Ok(());
    }
    put_each(areas, text)
}

// Appends each area.
fn put_each(areas: &[AreaSummaries], text: &mut String) -> Result<(), Memory>
    ensures { OnOk result (string_bytes text.new ≡ string_bytes text.old
        ++ flat_map listed_text areas.now) }
{
    for area in areas {
        put_area(area, text)?;
    }
    Ok(())
}

// Appends the due summaries of an area.
fn put_area(area: &AreaSummaries, text: &mut String) -> Result<(), Memory>
    ensures { OnOk result (string_bytes text.new ≡ string_bytes text.old ++ listed_text area.now) }
{
    put_due(area.area(), area.as_slice(), text)
}

// Appends the due summaries of the area with this Area ID.
fn put_due(area: u32, list: &[DueSummary], text: &mut String) -> Result<(), Memory>
    ensures { OnOk result (string_bytes text.new ≡ string_bytes text.old
        ++ due_text area list.now) }
{
    let area = Address(area);
    writeln!(text, "<h3>Area {area}</h3>")?;
    put_list(list, text)?;
    Ok(())
}

// Appends a table of the list, or a note that it is empty.
fn put_list(list: &[DueSummary], text: &mut String) -> Result<(), Memory>
    ensures { OnOk result (string_bytes text.new ≡ string_bytes text.old ++ list_text list.now) }
{
    if list.is_empty() {
        text.push_str("<p>No summary-LSA is due in this area.</p>\n")?;
        return Ok(());
    }
    put_table(list, text)
}

// Appends a table of the list.
fn put_table(list: &[DueSummary], text: &mut String) -> Result<(), Memory>
    ensures { OnOk result (string_bytes text.new ≡ string_bytes text.old ++ table_text list.now) }
{
    text.push_str(HEAD)?;
    put_rows(list, text)?;
    text.push_str("</tbody>\n</table>\n")?;
    Ok(())
}

// Appends a row for each summary.
fn put_rows(list: &[DueSummary], text: &mut String) -> Result<(), Memory>
    ensures { OnOk result (string_bytes text.new ≡ string_bytes text.old
        ++ flat_map row_text list.now) }
{
    for due in list {
        put_row(due, text)?;
    }
    Ok(())
}

// Appends a row with the LS type, the destination and the metric.
fn put_row(due: &DueSummary, text: &mut String) -> Result<(), Memory>
    ensures { OnOk result (string_bytes text.new ≡ string_bytes text.old ++ row_text due.now) }
{
    let (kind, metric) = (due.kind, due.metric);
    write!(text, "<tr><td>{kind}<td>")?;
    put_dest(&due.dest, text)?;
    writeln!(text, "<td>{metric}")?;
    Ok(())
}

// Appends a network, or the Router ID of an AS boundary router.
fn put_dest(dest: &Dest, text: &mut String) -> Result<(), Memory>
    ensures { OnOk result (string_bytes text.new ≡ string_bytes text.old ++ dest_text dest.now) }
{
    match *dest {
        Dest::Net(network) => write!(text, "{network}")?,
        Dest::Router(router) => {
            let router = Address(router);
            write!(text, "{router}")?;
        }
    }
    Ok(())
}
