//! The cell of each vertex: its column and its row.
ghost use Rattle.std.specs.Prelude.{◌≡◌, map, IfOk, Contains};
ghost use Rattle.std.specs.List.{All};
ghost use Rattle.area_drawings.specs.Columns.{AreColumnsOf, column_of};
ghost use Rattle.area_drawings.specs.Places.{AreInPlaces, HasRows, IsInColumn, IsNext, IsNextRow};
ghost use Rattle.area_drawings.specs.Places.{rows_of};

use crate::GridCell;
use crate::branches::{Branch, parent_of};
use crate::columns::{Column, place_of};
use crate::reached::ReachedVertex;
use ospf_types::entry::Vertex;
use ospf_types::memory::Memory;
use std::alloc::Global;

/// A vertex in its cell.
#[derive(Clone, Copy, Debug, PartialEq, Eq)]
pub(crate) struct Stand {
    pub(crate) reached: ReachedVertex,
    pub(crate) place: GridCell,
}

/// Vertices in their cells.
pub(crate) struct Stands {
    pub(crate) stands: Vec<Stand>,
    /// The number of rows.
    pub(crate) rows: u32,
}

// proof: a value is dropped by one call, not part by part at each exit of a function.
impl Drop for Stands {
    fn drop(self) {
        let Stands {
            stands: _stands,
            rows: _,
        } = self;
    }
}

/// Gives each vertex its cell, row by row. A vertex stays in the row of the one before it, if a
/// branch leads from that one to it and its column is farther right. Every other vertex starts a
/// row.
pub(crate) fn place_all(
    alloc: Global,
    columns: &[Column],
    branches: &[Branch],
    ordered: &[ReachedVertex],
) -> Result<Stands, Memory>
    requires { AreColumnsOf ordered.now columns.now }
    ensures vertices { IfOk result (λ s. map (λ t. t.reached) s.stands.items ≡ ordered.now) }
    ensures columns { IfOk result (λ s. All (IsInColumn columns.now) s.stands.items) }
    ensures places { IfOk result (λ s. AreInPlaces s.stands.items) }
    ensures rows { IfOk result (λ s. HasRows s.rows s.stands.items) }
{
    let mut stands = Vec::with_capacity(alloc, ordered.len())?;
    let mut last = None;
    for reached in ordered {
        let stand = next_stand(columns, branches, last, *reached)?;
        stands.push(stand)?;
        last = Some(stand);
    }
    let rows = rows_after(last)?;
    Ok(Stands { stands, rows })
}

// Returns the cell of a vertex that comes after `before`.
fn next_stand(
    columns: &[Column],
    branches: &[Branch],
    before: Option<Stand>,
    reached: ReachedVertex,
) -> Result<Stand, Memory>
    requires { Contains columns.now (column_of reached) }
    ensures vertex { IfOk result (λ stand. stand.reached ≡ reached) }
    ensures column { IfOk result (IsInColumn columns.now) }
    ensures next { IfOk result (IsNext before) }
{
    let column = place_of(columns, reached.column())?;
    let row = next_row(before, column, follows(branches, before, reached.vertex))?;
    Ok(Stand {
        reached,
        place: GridCell { column, row },
    })
}

// Returns the row of a vertex in the column. It stays in the row of the one before it, if it
// follows that one and is farther right.
fn next_row(before: Option<Stand>, column: u32, follows: bool) -> Result<u32, Memory>
    ensures { IfOk result (IsNextRow before column) }
{
    match before {
        Some(before) if follows && before.place.column < column => Ok(before.place.row),
        _ => rows_after(before),
    }
}

// Returns the number of rows if this is the last vertex. If it does not fit in 32 bits, this counts
// as memory that ran out.
fn rows_after(last: Option<Stand>) -> Result<u32, Memory>
    ensures { IfOk result (λ rows. rows ≡ rows_of last) }
{
    match last {
        Some(last) => last.place.row.checked_add(1).ok_or(Memory),
        None => Ok(0),
    }
}

// Returns true if a branch leads to the vertex from the one before it.
fn follows(branches: &[Branch], before: Option<Stand>, vertex: Vertex) -> bool {
    match (before, parent_of(branches, vertex)) {
        (Some(before), Some(parent)) => before.reached.vertex == parent,
        _ => false,
    }
}
