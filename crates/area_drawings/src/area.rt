//! The picture of an area.
ghost use Rattle.std.specs.Prelude.{IfOk};
ghost use Rattle.std.specs.List.{All};
ghost use Rattle.std.specs.List.Sorted.{IsPermutation};
ghost use Rattle.area_trees.specs.Areas.{IsTreeIn};
ghost use Rattle.area_drawings.specs.Columns.{AreColumnsOf};
ghost use Rattle.area_drawings.specs.Drawings.{IsDrawingOf, reached_of};
ghost use Rattle.area_drawings.specs.Places.{AreInPlaces, HasRows, IsInColumn};

use crate::Drawing;
use crate::branches::list_branches;
use crate::columns::{Column, distances, list_columns};
use crate::links::draw_links;
use crate::ordering::order_rows;
use crate::reached::{ReachedVertex, list_reached};
use crate::stands::{Stands, place_all};
use crate::vertices::draw_vertices;
use area_trees::AreaTree;
use lsdb::Database;
use ospf_types::listed::Listed;
use ospf_types::memory::Memory;
use std::alloc::Global;

/// Draws the vertices that the tree of an area reaches, and the links between them. `root` is the
/// Router ID of the root.
///
/// The work is quadratic in the number of vertices and links, and a picture of many hundreds cannot
/// be read. `count_vertices` returns the number of vertices beforehand.
///
/// # Errors
///
/// Returns `Memory` if memory runs out.
pub fn draw_area(
    alloc: Global,
    root: u32,
    database: &Database,
    tree: &AreaTree,
) -> Result<Drawing, Memory>
    requires { IsTreeIn database.now.lsas tree.now }
    ensures { IfOk result (IsDrawingOf root database.now.lsas tree.now) }
{
    let reached = list_reached(alloc, database, tree)?;
    let columns = list_columns(alloc, &reached)?;
    let arranged = arrange(alloc, tree, &columns, &reached)?;
    let vertices = draw_vertices(alloc, database, tree, &arranged.stands)?;
    let links = draw_links(alloc, tree, &arranged.stands)?;
    let distances = distances(alloc, &columns)?;
    Ok(Drawing {
        root,
        columns: Listed::from_slice(alloc, &distances)?,
        rows: arranged.rows,
        vertices,
        links: Listed::from_slice(alloc, &links)?,
    })
}

// Puts the vertices in order, and gives each its cell.
fn arrange(
    alloc: Global,
    tree: &AreaTree,
    columns: &[Column],
    reached: &[ReachedVertex],
) -> Result<Stands, Memory>
    requires { AreColumnsOf reached.now columns.now }
    ensures vertices { IfOk result (λ s. IsPermutation reached.now (reached_of s.stands.items)) }
    ensures columns { IfOk result (λ s. All (IsInColumn columns.now) s.stands.items) }
    ensures places { IfOk result (λ s. AreInPlaces s.stands.items) }
    ensures rows { IfOk result (λ s. HasRows s.rows s.stands.items) }
{
    let branches = list_branches(alloc, tree, reached)?;
    let ordered = order_rows(alloc, &branches, reached)?;
    place_all(alloc, columns, &branches, &ordered)
}
