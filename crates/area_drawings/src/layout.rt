//! The coordinates in a picture, in pixels from its upper left corner.
ghost use Rattle.std.specs.Prelude.{◌≡◌, ◌++◌, OnOk, Some, string_bytes};
ghost use Rattle.area_drawings.specs.Layout as layout;

use crate::drawing::GridCell;
use ospf_types::memory::Memory;
use std::fmt;

/// A number of pixels, from the left or from above. It has 128 bits, because 64 bits do not hold
/// the width of the longest list of columns.
pub(crate) type Pixels = u128;

/// Returns the x coordinate of the middle of a column.
pub(crate) fn x_of(column: u64) -> Pixels
    ensures { result ≡ layout.x_of column }
{
    60 + 118 * u128::from(column)
}

/// Returns the y coordinate of the middle of a row.
pub(crate) fn y_of(row: u32) -> Pixels
    ensures { result ≡ layout.y_of row }
{
    46 + 52 * u128::from(row)
}

/// Returns the width of a picture with this number of columns.
pub(crate) fn width_of(columns: usize) -> Pixels
    ensures { result ≡ layout.width_of columns }
{
    218 + 118 * (columns.saturating_sub(1) as u128)
}

/// Returns the height of a picture with this number of rows.
pub(crate) fn height_of(rows: u32) -> Pixels
    ensures { result ≡ layout.height_of rows }
{
    102 + 52 * u128::from(rows.saturating_sub(1))
}

/// Returns how far the curve from one cell to the other is bent upwards, so that it does not cross
/// what is between them.
pub(crate) fn lift(from: GridCell, to: GridCell) -> Pixels
    ensures { result ≡ layout.lift from to }
{
    if is_blocked(from, to) { 26 } else { 0 }
}

// Returns true if both cells are in one row with a column between them.
fn is_blocked(from: GridCell, to: GridCell) -> bool
    ensures { result ≡ layout.is_blocked from to }
{
    from.row == to.row && from.column.abs_diff(to.column) > 1
}

/// Returns the x coordinate of the control points of the curve from one cell to the other. It is
/// halfway, or to the right of both if they are in one column.
pub(crate) fn bend_x(from: GridCell, to: GridCell) -> Pixels
    ensures { result ≡ layout.bend_x from to }
{
    if from.column == to.column {
        x_of(u64::from(from.column)) + 44
    } else {
        60 + 59 * (u128::from(from.column) + u128::from(to.column))
    }
}

/// A point, printed as its x and its y coordinate.
#[derive(Clone, Copy)]
pub(crate) struct Point {
    pub(crate) x: Pixels,
    pub(crate) y: Pixels,
}

impl fmt::Display for Point {
    ghost output = { λ p. Some (layout.point_text p.x p.y) };

    fn fmt<W: fmt::Write>(&self, f: &mut fmt::Formatter<W>) -> fmt::Result {
        let (x, y) = (self.x, self.y);
        write!(f, "{x} {y}")
    }
}

/// Returns the middle of a cell.
pub(crate) fn point_of(place: GridCell) -> Point
    ensures x { result.x ≡ layout.x_of place.column }
    ensures y { result.y ≡ layout.y_of place.row }
{
    Point {
        x: x_of(u64::from(place.column)),
        y: y_of(place.row),
    }
}

/// Appends the start of a text of this class. The text is centred horizontally at the point.
pub(crate) fn put_text_start(class: &str, at: Point, text: &mut String) -> Result<(), Memory>
    ensures { OnOk result (string_bytes text.new ≡ string_bytes text.old
        ++ layout.text_start class.now at.x at.y) }
{
    let Point { x, y } = at;
    write!(
        text,
        "<text class=\"{class}\" x=\"{x}\" y=\"{y}\" text-anchor=\"middle\">"
    )?;
    Ok(())
}
