//! The vertices of a picture: a mark for each, and its name.
ghost use Rattle.std.specs.Prelude.{◌≡◌, ◌+◌, ◌++◌, OnOk, string_bytes};
ghost use Rattle.std.specs.List.{flat_map};
ghost use Rattle.area_drawings.specs.Layout.{x_of, y_of};
ghost use Rattle.area_drawings.specs.Vertices as vertex_words;

use crate::drawing::{DrawnVertex, GridCell, Roles};
use crate::layout::{Point, point_of, put_text_start};
use ospf_types::address::Address;
use ospf_types::entry::Vertex;
use ospf_types::hop::NextHop;
use ospf_types::memory::Memory;

/// Appends the vertices. `root` is the Router ID of the root.
pub(crate) fn put_vertices(
    root: u32,
    vertices: &[DrawnVertex],
    text: &mut String,
) -> Result<(), Memory>
    ensures { OnOk result (string_bytes text.new ≡ string_bytes text.old
        ++ vertex_words.vertices_text root vertices.now) }
{
    for vertex in vertices {
        put_vertex(root, vertex, text)?;
    }
    Ok(())
}

fn put_vertex(root: u32, vertex: &DrawnVertex, text: &mut String) -> Result<(), Memory>
    ensures { OnOk result (string_bytes text.new ≡ string_bytes text.old
        ++ vertex_words.drawn_vertex root vertex.now) }
{
    put_mark(root, vertex, text)?;
    put_label(vertex, text)
}

// Appends a circle for a router, or a rectangle for a network.
fn put_mark(root: u32, vertex: &DrawnVertex, text: &mut String) -> Result<(), Memory>
    ensures { OnOk result (string_bytes text.new ≡ string_bytes text.old
        ++ vertex_words.mark_text root vertex.now.vertex vertex.now.place
        (vertex_words.vertex_title vertex.now)) }
{
    match vertex.vertex {
        Vertex::Router(id) => put_circle(router_class(root, id), vertex, text),
        Vertex::Network(_) => put_rectangle(vertex, text),
    }
}

fn put_circle(class: &str, vertex: &DrawnVertex, text: &mut String) -> Result<(), Memory>
    ensures { OnOk result (string_bytes text.new ≡ string_bytes text.old
        ++ vertex_words.circle_text class.now vertex.now.place
        (vertex_words.vertex_title vertex.now)) }
{
    put_circle_start(class, point_of(vertex.place), text)?;
    put_title(vertex, text)?;
    text.push_str("</circle>\n")?;
    Ok(())
}

// Appends the start of a circle around the point.
fn put_circle_start(class: &str, at: Point, text: &mut String) -> Result<(), Memory>
    ensures { OnOk result (string_bytes text.new ≡ string_bytes text.old
        ++ vertex_words.circle_start class.now at.x at.y) }
{
    let Point { x, y } = at;
    write!(
        text,
        "<circle class=\"{class}\" cx=\"{x}\" cy=\"{y}\" r=\"8\">"
    )?;
    Ok(())
}

fn put_rectangle(vertex: &DrawnVertex, text: &mut String) -> Result<(), Memory>
    ensures { OnOk result (string_bytes text.new ≡ string_bytes text.old
        ++ vertex_words.rectangle_text vertex.now.place
        (vertex_words.vertex_title vertex.now)) }
{
    let Point { x, y } = point_of(vertex.place);
    put_rectangle_start(Point { x: x - 7, y: y - 6 }, text)?;
    put_title(vertex, text)?;
    text.push_str("</rect>\n")?;
    Ok(())
}

// Appends the start of a rectangle. The point is its upper left corner.
fn put_rectangle_start(at: Point, text: &mut String) -> Result<(), Memory>
    ensures { OnOk result (string_bytes text.new ≡ string_bytes text.old
        ++ vertex_words.rectangle_start at.x at.y) }
{
    let Point { x, y } = at;
    write!(
        text,
        "<rect class=\"n\" x=\"{x}\" y=\"{y}\" width=\"14\" height=\"12\" rx=\"2\">"
    )?;
    Ok(())
}

// Returns the class of a router, which is the root if it has this Router ID.
fn router_class(root: u32, id: u32) -> &'static str
    ensures { result.now ≡ vertex_words.router_class root id }
{
    if id == root { "root" } else { "r" }
}

// Appends the text that is shown for a vertex under the pointer.
fn put_title(vertex: &DrawnVertex, text: &mut String) -> Result<(), Memory>
    ensures { OnOk result (string_bytes text.new ≡ string_bytes text.old
        ++ vertex_words.vertex_title vertex.now) }
{
    let (address, distance) = (Address(id_of(vertex.vertex)), vertex.distance);
    write!(text, "<title>{address}, cost {distance}")?;
    put_hops(vertex.hops.as_slice(), text)?;
    text.push_str("</title>")?;
    Ok(())
}

// Appends the next hops with commas between them, if there are any.
fn put_hops(hops: &[NextHop], text: &mut String) -> Result<(), Memory>
    ensures { OnOk result (string_bytes text.new ≡ string_bytes text.old
        ++ vertex_words.hops_text hops.now) }
{
    let [first, rest @ ..] = hops else {
        return Ok(());
    };
    write!(text, " over {first}")?;
    for hop in rest {
        write!(text, ", {hop}")?;
    }
    Ok(())
}

fn put_label(vertex: &DrawnVertex, text: &mut String) -> Result<(), Memory>
    ensures { OnOk result (string_bytes text.new ≡ string_bytes text.old
        ++ vertex_words.label_text vertex.now.place
        (vertex_words.name_text vertex.now.vertex vertex.now.roles)) }
{
    put_text_start("t", label_point(vertex.place), text)?;
    put_name(vertex.vertex, vertex.roles, text)?;
    text.push_str("</text>\n")?;
    Ok(())
}

// Returns the point of a name: below its cell.
fn label_point(place: GridCell) -> Point
    ensures x { result.x ≡ x_of place.column }
    ensures y { result.y ≡ y_of place.row + 21 }
{
    let Point { x, y } = point_of(place);
    Point { x, y: y + 21 }
}

// Appends the address of a network, or the Router ID and the roles of a router.
fn put_name(vertex: Vertex, roles: Roles, text: &mut String) -> Result<(), Memory>
    ensures { OnOk result (string_bytes text.new ≡ string_bytes text.old
        ++ vertex_words.name_text vertex roles) }
{
    match vertex {
        Vertex::Router(id) => {
            let (address, letters) = (Address(id), letters_of(roles));
            write!(text, "{address}{letters}")?;
        }
        Vertex::Network(id) => {
            let address = Address(id);
            write!(text, "{address}")?;
        }
    }
    Ok(())
}

// Returns B for an area border router and E for an AS boundary router, after a space.
fn letters_of(roles: Roles) -> &'static str
    ensures { result.now ≡ vertex_words.roles_text roles }
{
    match (roles.border, roles.boundary) {
        (true, true) => " BE",
        (true, false) => " B",
        (false, true) => " E",
        (false, false) => "",
    }
}

/// Returns the Router ID of a router, or the address of the Designated Router of a transit network.
pub(crate) fn id_of(vertex: Vertex) -> u32
    ensures { result ≡ vertex_words.id_of vertex }
{
    match vertex {
        Vertex::Router(id) => id,
        Vertex::Network(id) => id,
    }
}
