//! The address ranges of the areas, with the networks in them.
ghost use Rattle.std.specs.Prelude.{List, ◌≡◌, ◌++◌, IfOk, OnOk, length, string_bytes};
ghost use Rattle.std.specs.List.{cons_option, filter_map, flat_map, list_any};
ghost use Rattle.std.specs.FinMap.{entries};
ghost use Rattle.page_sections.specs.declared.ranges.RangeNetwork.{RangeNetwork};
ghost use Rattle.page_sections.specs.Ranges.{advertised_text, area_text, areas_text, count_text};
ghost use Rattle.page_sections.specs.Ranges.{counted_in, has_range, intra_cost_of, is_inside};
ghost use Rattle.page_sections.specs.Ranges.{is_intra_area, list_text, network_row, networks_text};
ghost use Rattle.page_sections.specs.Ranges.{range_heading_text, range_text, ranges_text};
ghost use Rattle.page_sections.specs.Ranges.{some_text};

use ospf_types::address::Address;
use ospf_types::config::{AreaConfig, Range};
use ospf_types::entry::PathType;
use ospf_types::memory::Memory;
use ospf_types::prefix::Prefix;
use route_table::{Item, Table};
use std::alloc::Global;

/// A network in a range, and its cost.
#[derive(Clone, Copy)]
struct RangeNetwork {
    network: Prefix,
    cost: u32,
}

// The heading and the introduction of the section.
const HEAD: &str = "<h2 id=\"ranges\">Address ranges</h2>
<p class=\"quiet\">Each range with the networks in it that the area's own routes lead to, and the cost of each.</p>
";

/// Appends the address ranges of each area that has any (RFC 2328, 3.5). Each range is listed with
/// the networks in it that intra-area routes of its area lead to.
///
/// # Errors
///
/// Returns `Memory` if memory runs out. The text may then have a part of this.
pub fn put_ranges(areas: &[AreaConfig], table: &Table, text: &mut String) -> Result<(), Memory>
    ensures { OnOk result (string_bytes text.new ≡ string_bytes text.old
        ++ ranges_text (entries table.now.items) areas.now) }
{
    text.push_str(HEAD)?;
    put_areas(areas, table, text)?;
    Ok(())
}

// Appends the areas that have ranges, or a note that no area has any.
fn put_areas(areas: &[AreaConfig], table: &Table, text: &mut String) -> Result<(), Memory>
    ensures { OnOk result (string_bytes text.new ≡ string_bytes text.old
        ++ areas_text (entries table.now.items) areas.now) }
{
    if !is_any(areas) {
        text.push_str("<p>No area has an address range.</p>\n")?;
        return Ok(());
    }
    put_all(areas, table, text)
}

// Appends each area.
fn put_all(areas: &[AreaConfig], table: &Table, text: &mut String) -> Result<(), Memory>
    ensures { OnOk result (string_bytes text.new ≡ string_bytes text.old
        ++ flat_map (area_text (entries table.now.items)) areas.now) }
{
    for area in areas {
        put_area(area, table, text)?;
    }
    Ok(())
}

// Returns true if some area has ranges.
fn is_any(areas: &[AreaConfig]) -> bool
    ensures { result ≡ list_any has_range areas.now }
{
    areas.iter().any(|area| has_ranges(area))
}

// Returns true if the area has ranges.
fn has_ranges(area: &AreaConfig) -> bool
    ensures { result ≡ has_range area.now }
{
    match area.ranges.as_slice() {
        [] => false,
        _ => true,
    }
}

// Appends an area with its ranges, if it has any.
fn put_area(area: &AreaConfig, table: &Table, text: &mut String) -> Result<(), Memory>
    ensures { OnOk result (string_bytes text.new ≡ string_bytes text.old
        ++ area_text (entries table.now.items) area.now) }
{
    if !has_ranges(area) {
        return Ok(());
    }
    let id = Address(area.id);
    writeln!(text, "<h3>Area {id}</h3>")?;
    put_each(area.id, area.ranges.as_slice(), table, text)?;
    Ok(())
}

// Appends the ranges of an area.
fn put_each(area: u32, ranges: &[Range], table: &Table, text: &mut String) -> Result<(), Memory>
    ensures { OnOk result (string_bytes text.new ≡ string_bytes text.old
        ++ flat_map (range_text (entries table.now.items) area) ranges.now) }
{
    for range in ranges {
        put_range(area, range, table, text)?;
    }
    Ok(())
}

// Appends a range, and the networks in it.
fn put_range(area: u32, range: &Range, table: &Table, text: &mut String) -> Result<(), Memory>
    ensures { OnOk result (string_bytes text.new ≡ string_bytes text.old
        ++ range_text (entries table.now.items) area range.now) }
{
    let networks = networks_in(*text.allocator(), area, range.prefix, table)?;
    put_range_and(range, networks.as_slice(), text)
}

// Appends a range, and these networks.
fn put_range_and(range: &Range, networks: &[RangeNetwork], text: &mut String) -> Result<(), Memory>
    ensures { OnOk result (string_bytes text.new ≡ string_bytes text.old
        ++ (range_heading_text range.now ++ networks_text networks.now)) }
{
    put_range_heading(range, text)?;
    put_networks(networks, text)?;
    Ok(())
}

// Appends the prefix of the range, and if it is advertised.
fn put_range_heading(range: &Range, text: &mut String) -> Result<(), Memory>
    ensures { OnOk result (string_bytes text.new ≡ string_bytes text.old
        ++ range_heading_text range.now) }
{
    let prefix = range.prefix;
    write!(text, "<h4>{prefix}")?;
    text.push_str(advertised(range.advertise))?;
    Ok(())
}

// Returns the words for a range that is advertised to other areas, or that is not.
fn advertised(advertise: bool) -> &'static str
    ensures { result.now ≡ advertised_text advertise }
{
    if advertise {
        ", advertised"
    } else {
        ", not advertised"
    }
}

// Appends the number of networks, and each of them.
fn put_networks(networks: &[RangeNetwork], text: &mut String) -> Result<(), Memory>
    ensures { OnOk result (string_bytes text.new ≡ string_bytes text.old
        ++ networks_text networks.now) }
{
    put_count(networks.len(), text)?;
    put_list(networks, text)?;
    Ok(())
}

// Appends the number of networks.
fn put_count(count: usize, text: &mut String) -> Result<(), Memory>
    ensures { OnOk result (string_bytes text.new ≡ string_bytes text.old ++ count_text count) }
{
    match count {
        0 => text.push_str(": no network</h4>\n")?,
        1 => text.push_str(": 1 network</h4>\n")?,
        _ => writeln!(text, ": {count} networks</h4>")?,
    }
    Ok(())
}

// Appends the networks as a list, if there are any.
fn put_list(networks: &[RangeNetwork], text: &mut String) -> Result<(), Memory>
    ensures { OnOk result (string_bytes text.new ≡ string_bytes text.old
        ++ list_text networks.now) }
{
    if networks.is_empty() {
        return Ok(());
    }
    put_some(networks, text)
}

// Appends a list of the networks.
fn put_some(networks: &[RangeNetwork], text: &mut String) -> Result<(), Memory>
    ensures { OnOk result (string_bytes text.new ≡ string_bytes text.old
        ++ some_text networks.now) }
{
    text.push_str("<ul class=\"nets\">\n")?;
    put_rows(networks, text)?;
    text.push_str("</ul>\n")?;
    Ok(())
}

// Appends each of the networks.
fn put_rows(networks: &[RangeNetwork], text: &mut String) -> Result<(), Memory>
    ensures { OnOk result (string_bytes text.new ≡ string_bytes text.old
        ++ flat_map network_row networks.now) }
{
    for network in networks {
        put_row(network, text)?;
    }
    Ok(())
}

// Appends a network and its cost.
fn put_row(row: &RangeNetwork, text: &mut String) -> Result<(), Memory>
    ensures { OnOk result (string_bytes text.new ≡ string_bytes text.old
        ++ network_row row.now) }
{
    let (network, cost) = (row.network, row.cost);
    writeln!(text, "<li>{network} <b>{cost}</b>")?;
    Ok(())
}

// Returns the networks of the table that the range covers and that the area has an intra-area route
// to.
fn networks_in(
    alloc: Global,
    area: u32,
    range: Prefix,
    table: &Table,
) -> Result<Vec<RangeNetwork>, Memory>
    ensures { IfOk result (λ networks.
        networks.items ≡ filter_map (counted_in area range) (entries table.now.items)) }
{
    let mut networks = Vec::new(alloc);
    for (network, item) in table.items() {
        push_if(look_at(area, range, network, item), &mut networks)?;
    }
    Ok(networks)
}

// Appends the network, if there is one.
fn push_if(network: Option<RangeNetwork>, networks: &mut Vec<RangeNetwork>) -> Result<(), Memory>
    ensures { OnOk result ((rest : List RangeNetwork)
        → networks.new.items ++ rest ≡ networks.old.items ++ cons_option network rest) }
{
    if let Some(network) = network {
        networks.push(network)?;
    }
    Ok(())
}

// Returns the network with its cost, if the range covers it and the area has an intra-area route to
// it.
fn look_at(area: u32, range: Prefix, network: Prefix, item: &Item) -> Option<RangeNetwork>
    ensures { result ≡ counted_in area range (network, item.now) }
{
    if !covers(range, network) {
        return None;
    }
    match intra_cost(area, item) {
        Some(cost) => Some(RangeNetwork { network, cost }),
        None => None,
    }
}

// Returns true if the range covers the network.
fn covers(range: Prefix, network: Prefix) -> bool
    ensures { result ≡ is_inside range network }
{
    range.covers(network)
}

// Returns the cost of the item, if it is an intra-area route of the area.
fn intra_cost(area: u32, item: &Item) -> Option<u32>
    ensures { result ≡ intra_cost_of area item.now }
{
    match item {
        Item::Route(entry) if is_intra(entry.kind) && entry.area == Some(area) => Some(entry.cost),
        _ => None,
    }
}

// Returns true if routes of this path type are intra-area.
fn is_intra(kind: PathType) -> bool
    ensures { result ≡ is_intra_area kind }
{
    matches!(kind, PathType::Intra)
}
