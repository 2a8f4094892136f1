//! The routing table, with a box to search it.
ghost use Rattle.std.specs.Prelude.{◌≡◌, ◌++◌, OnOk, if◌then◌else◌, filter, length, string_bytes};
ghost use Rattle.std.specs.List.{flat_map};
ghost use Rattle.std.specs.FinMap.{entries};
ghost use Rattle.page_sections.specs.Routes.{area_cell, costs_text, count_text, counts_text, is_of};
ghost use Rattle.page_sections.specs.Routes.{kind_of_item, kind_of_route, kind_text, path_line};
ghost use Rattle.page_sections.specs.Routes.{paths_text, route_text, routes_text, row_text};
ghost use Rattle.page_sections.specs.Routes.{same_kind};

use ospf_types::address::Address;
use ospf_types::entry::{Entry, PathType};
use ospf_types::hop::Path;
use ospf_types::memory::Memory;
use ospf_types::prefix::Prefix;
use route_table::{Item, Table};

/// The kind of a network's item.
#[derive(Clone, Copy)]
enum Kind {
    Intra,
    Inter,
    External1,
    External2,
    Discard,
}

// The search box, and the head of the table.
const HEAD: &str = "</p>
<p class=\"quiet\">A path is a way and an interface (direct:1, peer:1, or router:1 with the address of the next router); \
behind @ stands the router that advertised the destination. Packets to a network of type discard are dropped: it is an \
active address range of this router.</p>
<p><label>Search <input id=\"search\" type=\"search\" placeholder=\"an IPv4 address, or words\" \
autocomplete=\"off\" spellcheck=\"false\"></label> <output id=\"found\"></output></p>
<table id=\"table\">
<thead>
<tr><th>Network<th>Type<th>Area<th>Cost<th>Type 2 metric<th>Paths
</thead>
<tbody>
";

/// Appends the routing table (RFC 2328, 11): the number of networks of each kind, a search box, and
/// a row for each network. Packets to a network of the kind discard are discarded: it is an active
/// range of the router itself (11.1).
///
/// # Errors
///
/// Returns `Memory` if memory runs out. The text may then have a part of this.
pub fn put_routes(table: &Table, text: &mut String) -> Result<(), Memory>
    ensures { OnOk result (string_bytes text.new ≡ string_bytes text.old
        ++ routes_text (entries table.now.items)) }
{
    text.push_str("<h2 id=\"routes\">Routing table</h2>\n<p class=\"counts\">\n")?;
    put_counts(table, text)?;
    text.push_str(HEAD)?;
    put_rows(table, text)?;
    text.push_str("</tbody>\n</table>\n")?;
    Ok(())
}

// Appends the number of networks of each kind.
fn put_counts(table: &Table, text: &mut String) -> Result<(), Memory>
    ensures { OnOk result (string_bytes text.new ≡ string_bytes text.old
        ++ counts_text (entries table.now.items)) }
{
    put_count(Kind::Intra, table, text)?;
    put_count(Kind::Inter, table, text)?;
    put_count(Kind::External1, table, text)?;
    put_count(Kind::External2, table, text)?;
    put_count(Kind::Discard, table, text)?;
    Ok(())
}

// Appends the number of networks of a kind.
fn put_count(kind: Kind, table: &Table, text: &mut String) -> Result<(), Memory>
    ensures { OnOk result (string_bytes text.new ≡ string_bytes text.old
        ++ count_text (entries table.now.items) kind) }
{
    let count = count_of(kind, table);
    write!(text, "<span>{count} ")?;
    text.push_str(word_of(kind))?;
    text.push_str("</span>\n")?;
    Ok(())
}

// Returns the number of networks that have an item of the kind.
fn count_of(kind: Kind, table: &Table) -> usize
    ensures { result ≡ length (filter (is_of kind) (entries table.now.items)) }
{
    let mut count = 0;
    for (_, item) in table.items() {
        count += one_if(is_same(kind, kind_of(item)));
    }
    count
}

fn one_if(yes: bool) -> usize
    ensures { result ≡ if yes then 1 else 0 }
{
    if yes { 1 } else { 0 }
}

// Returns true if the two kinds are equal.
fn is_same(one: Kind, other: Kind) -> bool
    ensures { result ≡ same_kind one other }
{
    match one {
        Kind::Intra => matches!(other, Kind::Intra),
        Kind::Inter => matches!(other, Kind::Inter),
        Kind::External1 => matches!(other, Kind::External1),
        Kind::External2 => matches!(other, Kind::External2),
        Kind::Discard => matches!(other, Kind::Discard),
    }
}

// Returns the kind of an item.
fn kind_of(item: &Item) -> Kind
    ensures { result ≡ kind_of_item item.now }
{
    match item {
        Item::Route(entry) => route_kind(entry.kind),
        Item::Discard => Kind::Discard,
    }
}

// Returns the kind of a route.
fn route_kind(kind: PathType) -> Kind
    ensures { result ≡ kind_of_route kind }
{
    match kind {
        PathType::Intra => Kind::Intra,
        PathType::Inter => Kind::Inter,
        PathType::External1 => Kind::External1,
        PathType::External2 => Kind::External2,
    }
}

// Returns the words for a kind.
fn word_of(kind: Kind) -> &'static str
    ensures { result.now ≡ kind_text kind }
{
    match kind {
        Kind::Intra => "intra-area",
        Kind::Inter => "inter-area",
        Kind::External1 => "type 1 external",
        Kind::External2 => "type 2 external",
        Kind::Discard => "discard",
    }
}

// Appends a row for each network.
fn put_rows(table: &Table, text: &mut String) -> Result<(), Memory>
    ensures { OnOk result (string_bytes text.new ≡ string_bytes text.old
        ++ flat_map row_text (entries table.now.items)) }
{
    for (network, item) in table.items() {
        put_row(network, item, text)?;
    }
    Ok(())
}

// Appends the row of a network.
fn put_row(network: Prefix, item: &Item, text: &mut String) -> Result<(), Memory>
    ensures { OnOk result (string_bytes text.new ≡ string_bytes text.old
        ++ row_text (network, item.now)) }
{
    match item {
        Item::Route(entry) => put_route(network, entry, text),
        Item::Discard => Ok(writeln!(text, "<tr><td>{network}<td>discard<td>-<td>-<td>-<td>-")?),
    }
}

// Appends the row of a network that has a route.
fn put_route(network: Prefix, entry: &Entry, text: &mut String) -> Result<(), Memory>
    ensures { OnOk result (string_bytes text.new ≡ string_bytes text.old
        ++ route_text network entry.now) }
{
    write!(text, "<tr><td>{network}<td>")?;
    put_type(entry.kind, text)?;
    put_area(entry.area, text)?;
    put_costs(entry, text)?;
    put_paths(entry.paths.as_slice(), text)?;
    Ok(())
}

// Appends the path type of a route.
fn put_type(kind: PathType, text: &mut String) -> Result<(), Memory>
    ensures { OnOk result (string_bytes text.new ≡ string_bytes text.old
        ++ kind_text (kind_of_route kind)) }
{
    text.push_str(word_of(route_kind(kind)))?;
    Ok(())
}

// Appends the Area ID, or a dash for an external route.
fn put_area(area: Option<u32>, text: &mut String) -> Result<(), Memory>
    ensures { OnOk result (string_bytes text.new ≡ string_bytes text.old ++ area_cell area) }
{
    match area {
        Some(area) => {
            let area = Address(area);
            write!(text, "<td>{area}")?;
        }
        None => text.push_str("<td>-")?,
    }
    Ok(())
}

// Appends the cost, and the metric of a type 2 external route.
fn put_costs(entry: &Entry, text: &mut String) -> Result<(), Memory>
    ensures { OnOk result (string_bytes text.new ≡ string_bytes text.old
        ++ costs_text entry.now.kind entry.now.cost entry.now.cost2) }
{
    let (cost, cost2) = (entry.cost, entry.cost2);
    match entry.kind {
        PathType::External2 => write!(text, "<td>{cost}<td>{cost2}")?,
        _ => write!(text, "<td>{cost}<td>-")?,
    }
    Ok(())
}

// Appends the paths, one line each.
fn put_paths(paths: &[Path], text: &mut String) -> Result<(), Memory>
    ensures { OnOk result (string_bytes text.new ≡ string_bytes text.old ++ paths_text paths.now) }
{
    text.push_str("<td>")?;
    put_each(paths, text)?;
    Ok(())
}

fn put_each(paths: &[Path], text: &mut String) -> Result<(), Memory>
    ensures { OnOk result (string_bytes text.new ≡ string_bytes text.old
        ++ flat_map path_line paths.now) }
{
    for path in paths {
        put_path(path, text)?;
    }
    Ok(())
}

fn put_path(path: &Path, text: &mut String) -> Result<(), Memory>
    ensures { OnOk result (string_bytes text.new ≡ string_bytes text.old ++ path_line path.now) }
{
    writeln!(text, "{path}")?;
    Ok(())
}
