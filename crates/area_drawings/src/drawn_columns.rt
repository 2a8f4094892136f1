//! The columns of a picture: each has a line, and the distance of its vertices above it.
ghost use Rattle.std.specs.Prelude.{◌≡◌, ◌≤◌, ◌++◌, OnOk, string_bytes};
ghost use Rattle.std.specs.List.{flat_map, enumerate_from};
ghost use Rattle.area_drawings.specs.DrawnColumns.{axis_text, caption_text, column_text};
ghost use Rattle.area_drawings.specs.DrawnColumns.{columns_text, distance_text};

use crate::layout::{Pixels, Point, put_text_start, x_of};
use ospf_types::memory::Memory;

/// Appends the columns of these distances, from the left, in a picture of this height.
pub(crate) fn put_columns(
    height: Pixels,
    distances: &[u32],
    text: &mut String,
) -> Result<(), Memory>
    requires { 102 ≤ height }
    ensures { OnOk result (string_bytes text.new ≡ string_bytes text.old
        ++ columns_text height distances.now) }
{
    put_each(height, distances, text)?;
    put_caption(text)
}

// Appends the caption of the numbers above the columns.
fn put_caption(text: &mut String) -> Result<(), Memory>
    ensures { OnOk result (string_bytes text.new ≡ string_bytes text.old ++ caption_text) }
{
    text.push_str("<text class=\"s\" x=\"6\" y=\"14\">cost</text>\n")?;
    Ok(())
}

fn put_each(height: Pixels, distances: &[u32], text: &mut String) -> Result<(), Memory>
    requires { 102 ≤ height }
    ensures { OnOk result (string_bytes text.new ≡ string_bytes text.old
        ++ flat_map (column_text height) (enumerate_from 0 distances.now)) }
{
    for (column, distance) in distances.iter().enumerate() {
        put_column(height, column, *distance, text)?;
    }
    Ok(())
}

fn put_column(height: Pixels, column: usize, distance: u32, text: &mut String) -> Result<(), Memory>
    requires { 102 ≤ height }
    ensures { OnOk result (string_bytes text.new ≡ string_bytes text.old
        ++ column_text height (column, distance)) }
{
    let x = x_of(column as u64);
    put_axis(height, x, text)?;
    put_distance(x, distance, text)
}

// Appends a line from below the distances to the lower end of the picture.
fn put_axis(height: Pixels, x: Pixels, text: &mut String) -> Result<(), Memory>
    requires { 102 ≤ height }
    ensures { OnOk result (string_bytes text.new ≡ string_bytes text.old ++ axis_text height x) }
{
    let end = height - 10;
    writeln!(
        text,
        "<line class=\"axis\" x1=\"{x}\" y1=\"24\" x2=\"{x}\" y2=\"{end}\"/>"
    )?;
    Ok(())
}

fn put_distance(x: Pixels, distance: u32, text: &mut String) -> Result<(), Memory>
    ensures { OnOk result (string_bytes text.new ≡ string_bytes text.old
        ++ distance_text x distance) }
{
    put_text_start("c", Point { x, y: 14 }, text)?;
    writeln!(text, "{distance}</text>")?;
    Ok(())
}
