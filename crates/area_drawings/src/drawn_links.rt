//! The links of a picture: a curve for each, and the costs of the links on the tree.
ghost use Rattle.std.specs.Prelude.{◌≡◌, ◌++◌, OnOk, string_bytes};
ghost use Rattle.std.specs.List.{flat_map};
ghost use Rattle.area_drawings.specs.DrawnLinks as link_words;

use crate::drawing::{DrawnLink, GridCell};
use crate::drawn_vertices::id_of;
use crate::layout::{Pixels, Point, bend_x, lift, point_of, put_text_start, y_of};
use ospf_types::address::Address;
use ospf_types::memory::Memory;

/// Appends the links that are not on the tree, and then those on the tree, which are thus drawn on
/// top.
pub(crate) fn put_links(links: &[DrawnLink], text: &mut String) -> Result<(), Memory>
    ensures { OnOk result (string_bytes text.new ≡ string_bytes text.old
        ++ link_words.links_text links.now) }
{
    put_others(links, text)?;
    put_tree(links, text)
}

// Appends the links that are not on the tree.
fn put_others(links: &[DrawnLink], text: &mut String) -> Result<(), Memory>
    ensures { OnOk result (string_bytes text.new ≡ string_bytes text.old
        ++ flat_map link_words.link_off_tree links.now) }
{
    for link in links {
        put_off_tree(link, text)?;
    }
    Ok(())
}

// Appends the links that are on the tree.
fn put_tree(links: &[DrawnLink], text: &mut String) -> Result<(), Memory>
    ensures { OnOk result (string_bytes text.new ≡ string_bytes text.old
        ++ flat_map link_words.link_on_tree links.now) }
{
    for link in links {
        put_on_tree(link, text)?;
    }
    Ok(())
}

// Appends a link if it is not on the tree.
fn put_off_tree(link: &DrawnLink, text: &mut String) -> Result<(), Memory>
    ensures { OnOk result (string_bytes text.new ≡ string_bytes text.old
        ++ link_words.link_off_tree link.now) }
{
    if link.on_tree {
        return Ok(());
    }
    put_link("link", link, text)
}

// Appends a link with its cost if it is on the tree.
fn put_on_tree(link: &DrawnLink, text: &mut String) -> Result<(), Memory>
    ensures { OnOk result (string_bytes text.new ≡ string_bytes text.old
        ++ link_words.link_on_tree link.now) }
{
    if !link.on_tree {
        return Ok(());
    }
    put_link("tree", link, text)?;
    put_cost(link.from.place, link.to.place, link.cost, text)
}

fn put_link(class: &str, link: &DrawnLink, text: &mut String) -> Result<(), Memory>
    ensures { OnOk result (string_bytes text.new ≡ string_bytes text.old
        ++ link_words.drawn_link class.now link.now) }
{
    write!(text, "<path class=\"{class}\" d=\"")?;
    put_curve(link.from.place, link.to.place, text)?;
    text.push_str("\">")?;
    put_title(link, text)?;
    text.push_str("</path>\n")?;
    Ok(())
}

// Appends a Bezier curve. `bend_x` and `lift` give its control points.
fn put_curve(from: GridCell, to: GridCell, text: &mut String) -> Result<(), Memory>
    ensures { OnOk result (string_bytes text.new ≡ string_bytes text.old
        ++ link_words.curve_text from to) }
{
    let (start, end) = (point_of(from), point_of(to));
    let (x, up) = (bend_x(from, to), lift(from, to));
    let first = Point { x, y: start.y - up };
    let last = Point { x, y: end.y - up };
    write!(text, "M{start}C{first}")?;
    write!(text, " {last} {end}")?;
    Ok(())
}

// Appends the text that is shown for a link under the pointer.
fn put_title(link: &DrawnLink, text: &mut String) -> Result<(), Memory>
    ensures { OnOk result (string_bytes text.new ≡ string_bytes text.old
        ++ link_words.link_title link.now) }
{
    let (from, to) = (id_of(link.from.vertex), id_of(link.to.vertex));
    let (from, to, cost) = (Address(from), Address(to), link.cost);
    write!(text, "<title>{from} to {to}")?;
    write!(text, ", cost {cost}</title>")?;
    Ok(())
}

// Appends the cost near the middle of a link, unless it is 0, as from a network to its routers.
fn put_cost(from: GridCell, to: GridCell, cost: u32, text: &mut String) -> Result<(), Memory>
    ensures { OnOk result (string_bytes text.new ≡ string_bytes text.old
        ++ link_words.cost_text from to cost) }
{
    if cost == 0 {
        return Ok(());
    }
    let at = Point {
        x: cost_x(from, to),
        y: cost_y(from, to),
    };
    put_text_start("s", at, text)?;
    writeln!(text, "{cost}</text>")?;
    Ok(())
}

// Returns the x coordinate of the cost of a link: right of the middle, or left of it if the link
// leads down.
fn cost_x(from: GridCell, to: GridCell) -> Pixels
    ensures { result ≡ link_words.cost_x from to }
{
    let middle = bend_x(from, to);
    if from.row < to.row {
        middle - 11
    } else {
        middle + 11
    }
}

// Returns the y coordinate of the cost of a link: above the link if it stays in its row, or else
// below it.
fn cost_y(from: GridCell, to: GridCell) -> Pixels
    ensures { result ≡ link_words.cost_y from to }
{
    if from.row == to.row {
        // A curve rises by three quarters of what its control points do.
        y_of(from.row) - lift(from, to) * 3 / 4 - 3
    } else {
        (y_of(from.row) + y_of(to.row)) / 2 + 8
    }
}
