//! The picture of an area as SVG.
ghost use Rattle.std.specs.Prelude.{◌≡◌, ◌++◌, OnOk, string_bytes};
ghost use Rattle.area_drawings.specs.Pictures.{box_text, drawing_text, opening_text, size_text};

use crate::drawing::Drawing;
use crate::drawn_columns::put_columns;
use crate::drawn_links::put_links;
use crate::drawn_vertices::put_vertices;
use crate::layout::{Pixels, height_of, width_of};
use ospf_types::memory::Memory;

/// Appends the picture as an `svg` element, which may be part of an HTML page. The page has a style
/// for its classes: `axis`, `c`, `s` and `t` for lines and texts, `tree` and `link` for links, and
/// `root`, `r` and `n` for vertices.
///
/// # Errors
///
/// Returns `Memory` if memory runs out. The text may then have a part of the picture.
pub fn put_drawing(drawing: &Drawing, text: &mut String) -> Result<(), Memory>
    ensures { OnOk result (string_bytes text.new ≡ string_bytes text.old
        ++ drawing_text drawing.now) }
{
    let columns = drawing.columns.as_slice();
    let (width, height) = (width_of(columns.len()), height_of(drawing.rows));
    put_opening(width, height, text)?;
    put_columns(height, columns, text)?;
    put_links(drawing.links.as_slice(), text)?;
    put_vertices(drawing.root, drawing.vertices.as_slice(), text)?;
    text.push_str("</svg>\n")?;
    Ok(())
}

// Appends the start of a picture of this size.
fn put_opening(width: Pixels, height: Pixels, text: &mut String) -> Result<(), Memory>
    ensures { OnOk result (string_bytes text.new ≡ string_bytes text.old
        ++ opening_text width height) }
{
    put_box(width, height, text)?;
    put_size(width, height, text)
}

fn put_box(width: Pixels, height: Pixels, text: &mut String) -> Result<(), Memory>
    ensures { OnOk result (string_bytes text.new ≡ string_bytes text.old
        ++ box_text width height) }
{
    write!(
        text,
        "<svg xmlns=\"http://www.w3.org/2000/svg\" viewBox=\"0 0 {width} {height}\""
    )?;
    Ok(())
}

// Appends the size, and a description of the picture for readers who do not see it.
fn put_size(width: Pixels, height: Pixels, text: &mut String) -> Result<(), Memory>
    ensures { OnOk result (string_bytes text.new ≡ string_bytes text.old
        ++ size_text width height) }
{
    writeln!(
        text,
        " width=\"{width}\" height=\"{height}\" role=\"img\" aria-label=\"The graph of the area, with its shortest-path tree\">"
    )?;
    Ok(())
}
