//! The text of a page.
ghost use Rattle.std.specs.Prelude.{◌≡◌, ◌++◌, IfOk, OnOk, string_bytes};
ghost use Rattle.calculation.specs.Calculations.{IsCalculationOf};
ghost use Rattle.event_core.specs.Cores.{state_of};
ghost use Rattle.page_sections.specs.Frame.{changes_text, end_text};
ghost use Rattle.page_replay.specs.Sections.{AddsAreas, AddsFront, IsPage, tables_text};

use crate::ending::LastState;
use crate::pictures::{pictures_of, put_areas};
use event_core::{Calculated, Core};
use ospf_types::memory::Memory;
use page_sections::{
    put_areas_heading, put_beginning, put_changes_beginning, put_changes_end, put_end, put_ranges,
    put_routes, put_summaries,
};
use route_layers::area_inputs;
use std::alloc::Global;

/// Returns the page that shows a core and the last changes.
pub(crate) fn page_of(alloc: Global, ended: &LastState) -> Result<Vec<u8>, Memory>
    ensures { IfOk result (λ page. IsPage ended.now.core ended.now.told.items page.items) }
{
    let mut text = String::new(alloc);
    put_front(alloc, &ended.core, &mut text)?;
    let told = ended.told.as_slice();
    let nothing = told.is_empty();
    put_changes_beginning(nothing, &mut text)?;
    let mut end = String::new(alloc);
    put_changes_end(nothing, &mut end)?;
    put_end(&mut end)?;
    let mut page = text.into_bytes();
    page.extend_from_slice(told)?;
    page.extend_from_slice(end.as_bytes())?;
    Ok(page)
}

// Appends everything before the last changes.
fn put_front(alloc: Global, core: &Core, text: &mut String) -> Result<(), Memory>
    ensures { OnOk result (AddsFront core.now (string_bytes text.old) (string_bytes text.new)) }
{
    put_beginning(core.config().router, core.serial(), text)?;
    put_areas_heading(text)?;
    put_pictures(alloc, core, text)?;
    put_tables(core, text)
}

// Appends the areas with their pictures. The core is behind only if memory ran out.
fn put_pictures(alloc: Global, core: &Core, text: &mut String) -> Result<(), Memory>
    ensures { OnOk result (AddsAreas (state_of core.now) (string_bytes text.old)
        (string_bytes text.new)) }
{
    match core.calculated() {
        Some(found) => put_pictures_by(alloc, found, text),
        None => Err(Memory),
    }
}

// Appends the areas by a state and the results calculated from it.
fn put_pictures_by(alloc: Global, found: Calculated<'_>, text: &mut String) -> Result<(), Memory>
    requires { IsCalculationOf found.state.now found.calculation.now }
    ensures { OnOk result (AddsAreas found.entry.state.now (string_bytes text.old)
        (string_bytes text.new)) }
{
    let areas = area_inputs(alloc, found.state, found.calculation.trees())?;
    let config = found.state.config();
    let pictures = pictures_of(alloc, config.router, &areas)?;
    put_areas(config.areas.as_slice(), &pictures, text)
}

// Appends the address ranges, the routing table and the due summaries.
fn put_tables(core: &Core, text: &mut String) -> Result<(), Memory>
    ensures { OnOk result (string_bytes text.new ≡ string_bytes text.old ++ tables_text core.now) }
{
    put_ranges(core.config().areas.as_slice(), core.table(), text)?;
    put_routes(core.table(), text)?;
    put_summaries(core.summaries().areas(), text)
}
