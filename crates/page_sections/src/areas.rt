//! The headings and legends of the pictures of the areas.
ghost use Rattle.std.specs.Prelude.{◌≡◌, ◌++◌, OnOk, codes, string_bytes};
ghost use Rattle.page_sections.specs.Areas.{area_heading_text, areas_heading_text, left_out_text};
ghost use Rattle.page_sections.specs.Areas.{stub_text};

use ospf_types::address::Address;
use ospf_types::config::{AreaConfig, Stub};
use ospf_types::memory::Memory;

// The legend of the pictures: each mark with its meaning.
const LEGEND: &str = "<p class=\"legend\">
<svg width=\"30\" height=\"20\"><path class=\"tree\" d=\"M2 10H28\"/></svg> shortest-path tree with its costs,
<svg width=\"30\" height=\"20\"><path class=\"link\" d=\"M2 10H28\"/></svg> other link (point at a link for its cost);
<svg width=\"20\" height=\"20\"><circle class=\"root\" cx=\"10\" cy=\"10\" r=\"8\"/></svg> this router,
<svg width=\"20\" height=\"20\"><circle class=\"r\" cx=\"10\" cy=\"10\" r=\"8\"/></svg> another router
(B: area border router, E: AS boundary router),
<svg width=\"20\" height=\"20\"><rect class=\"n\" x=\"3\" y=\"4\" width=\"14\" height=\"12\" rx=\"2\"/></svg> transit network.
Vertices stand by their distance, which is above them.</p>
";

/// Appends the heading of all areas, and the legend of their pictures.
///
/// # Errors
///
/// Returns `Memory` if memory runs out. The text may then have a part of this.
pub fn put_areas_heading(text: &mut String) -> Result<(), Memory>
    ensures { OnOk result (string_bytes text.new ≡ string_bytes text.old ++ areas_heading_text) }
{
    text.push_str("<h2 id=\"areas\">Areas</h2>\n")?;
    text.push_str(LEGEND)?;
    Ok(())
}

/// Appends the heading of an area.
///
/// # Errors
///
/// Returns `Memory` if memory runs out. The text may then have a part of this.
pub fn put_area_heading(area: &AreaConfig, text: &mut String) -> Result<(), Memory>
    ensures { OnOk result (string_bytes text.new ≡ string_bytes text.old
        ++ area_heading_text area.now) }
{
    let id = Address(area.id);
    write!(text, "<h3 id=\"area-{id}\">")?;
    write!(text, "Area {id}")?;
    put_stub(area.stub, text)?;
    text.push_str("</h3>\n")?;
    Ok(())
}

// Appends a note if the area is a stub area (RFC 2328, 3.6).
fn put_stub(stub: Option<Stub>, text: &mut String) -> Result<(), Memory>
    ensures { OnOk result (string_bytes text.new ≡ string_bytes text.old ++ stub_text stub) }
{
    if stub.is_some() {
        text.push_str(" (stub)")?;
    }
    Ok(())
}

/// Appends a note that the graph of an area has `vertices` vertices, and that a picture has at most
/// `most`. It is written if the graph is not drawn.
///
/// # Errors
///
/// Returns `Memory` if memory runs out. The text may then have a part of this.
pub fn put_left_out(vertices: usize, most: usize, text: &mut String) -> Result<(), Memory>
    ensures { OnOk result (string_bytes text.new ≡ string_bytes text.old
        ++ left_out_text vertices most) }
{
    writeln!(
        text,
        "<p>The graph has {vertices} routers and transit networks. A picture is drawn of at most {most}.</p>"
    )?;
    Ok(())
}

/// Appends the start of an element for a picture as SVG. A wide picture scrolls sideways.
pub fn put_picture_beginning(text: &mut String) -> Result<(), Memory>
    ensures { OnOk result (string_bytes text.new ≡ string_bytes text.old
        ++ codes "<div class=\"picture\">\n") }
{
    text.push_str("<div class=\"picture\">\n")?;
    Ok(())
}

/// Appends the end of the element for a picture.
pub fn put_picture_end(text: &mut String) -> Result<(), Memory>
    ensures { OnOk result (string_bytes text.new ≡ string_bytes text.old ++ codes "</div>\n") }
{
    text.push_str("</div>\n")?;
    Ok(())
}
