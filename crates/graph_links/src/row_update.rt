//! The new rows of vertices after a change.
ghost use Rattle.std.specs.Prelude.{◌≡◌, ◌+◌, ◌≤◌, ◌<◌, [], ◌∷◌, IfOk, IfSome, OnOk, length};
ghost use Rattle.std.specs.HashMap.{spare};
ghost use Rattle.graph_links.specs.Places.{IsRowAt, PutsRow, PutsRowAt};
ghost use Rattle.graph_links.specs.Sides.{AreFreshIn, IsFreshRowIn, IsInOrder, AreRowsPlaced, IsRow};
ghost use Rattle.graph_links.specs.Sides.{LinksIn, all_ends, ends_in};

use crate::at_vertex::past_from;
use crate::graph_view::{GraphView, links_at};
use crate::link_end::LinkEnd;
use crate::row::{Row, Rows};
use crate::row_hints::next_placed;
use crate::vertex_pair::Facing;
use ospf_types::entry::Vertex;
use ospf_types::memory::Memory;
use std::alloc::Global;
use std::mem::replace;
use vertex_map::HintedVertex;

/// The new row of a vertex, or `None` if the vertex is removed. The vertex's hint is the place of
/// its row, before or after the change.
#[derive(Drop)]
pub struct RowUpdate {
    pub vertex: HintedVertex,
    pub row: Option<Row>,
}

/// The row updates of a change, and a few discarded rows whose memory the next updates use.
pub struct RowPool {
    /// The row updates, not yet placed.
    pub fresh: Vec<RowUpdate>,
    used: Vec<Row>,
}

// proof: a value is dropped by one call, not part by part at each exit of a function.
impl Drop for RowPool {
    fn drop(self) {
        let RowPool {
            fresh: _fresh,
            used: _used,
        } = self;
    }
}

impl RowPool {
    /// Creates a pool with no row updates and no memory.
    pub fn new(alloc: Global) -> RowPool
        ensures { result.fresh.items ≡ [] }
    {
        RowPool {
            fresh: Vec::new(alloc),
            used: Vec::new(alloc),
        }
    }
}

/// Computes the rows of the vertices in this view, and makes them the row updates of the pool.
///
/// # Errors
///
/// Returns `Memory` if memory runs out. The pool then has the updates of the first vertices only.
pub fn row_updates(
    alloc: Global,
    side: GraphView<'_>,
    vertices: &[HintedVertex],
    room: &mut RowPool,
) -> Result<(), Memory>
    requires { IsInOrder (ends_in side) }
    ensures { OnOk result (AreFreshIn side.entry vertices.now room.new.fresh.items) }
{
    room.fresh.clear();
    for vertex in vertices {
        let one = fresh_row(alloc, side, vertex, &mut room.used)?;
        room.fresh.push(one)?;
    }
    Ok(())
}

// Returns the row of a vertex, if it has an LSA, and gives the vertex the place of its row as a
// hint.
fn fresh_row(
    alloc: Global,
    side: GraphView<'_>,
    vertex: &HintedVertex,
    used: &mut Vec<Row>,
) -> Result<RowUpdate, Memory>
    requires { IsInOrder (ends_in side) }
    ensures vertex { IfOk result (λ fresh. fresh.vertex ≡ vertex.now) }
    ensures row { IfOk result (λ fresh. IsFreshRowIn side.entry vertex.now fresh.row) }
{
    let (ends, place) = side.find(vertex);
    let row = match ends {
        Some(ends) => {
            let own = Facing {
                vertex: vertex.vertex(),
                place,
                ends,
            };
            Some(row_of(alloc, side, own, used_row(alloc, used))?)
        }
        None => None,
    };
    let vertex = HintedVertex::new(vertex.vertex(), place);
    Ok(RowUpdate { vertex, row })
}

// Returns a discarded row, or a new one. Its contents have no meaning.
fn used_row(alloc: Global, used: &mut Vec<Row>) -> Row {
    match used.pop() {
        Some(row) => row,
        None => Row {
            ends: Vec::new(alloc),
            out: Vec::new(alloc),
            into: Vec::new(alloc),
        },
    }
}

// Clears the list, and reserves room for `room` items. A list with far more room is replaced.
fn empty<T: Drop>(alloc: Global, list: &mut Vec<T>, room: usize) -> Result<(), Memory>
    ensures items { OnOk result (list.new.items ≡ []) }
{
    let capacity = list.capacity();
    if capacity < room || capacity / 2 > room.saturating_add(4) {
        *list = Vec::with_capacity(alloc, room)?;
    } else {
        list.clear();
    }
    Ok(())
}

// Makes the list a copy of the ends.
fn copy_ends(alloc: Global, ends: &[LinkEnd], list: &mut Vec<LinkEnd>) -> Result<(), Memory>
    ensures { OnOk result (list.new.items ≡ ends.now) }
{
    empty(alloc, list, ends.len())?;
    list.extend_from_slice(ends)?;
    Ok(())
}

// Returns the row of a vertex with an LSA, in the memory of `used`. The ends are in order, so the
// ends at one vertex are adjacent.
fn row_of(alloc: Global, side: GraphView<'_>, all: Facing<'_>, used: Row) -> Result<Row, Memory>
    requires in_order { IsInOrder (ends_in side) }
    requires ends { all.ends.now ≡ all_ends side all.vertex }
    ensures ends { IfOk result (λ row. row.ends.items ≡ all.entry.ends.now) }
    ensures links { IfOk result (IsRow (LinksIn side.entry) all.entry.vertex) }
{
    let ends = all.ends;
    let mut row = used;
    copy_ends(alloc, ends, &mut row.ends)?;
    empty(alloc, &mut row.out, ends.len())?;
    empty(alloc, &mut row.into, ends.len())?;
    let known = links_at(side.rows, all.place);
    let mut passed = 0;
    let mut first = 0;
    // 16.1 (2): examine each link that the vertex's LSA describes, to a vertex W.
    while first < ends.len() {
        let to = ends[first].to;
        let past = past_from(ends, first, to);
        let own = Facing {
            vertex: all.vertex,
            place: all.place,
            ends: &ends[first..past],
        };
        let other = next_placed(known, &mut passed, to);
        side.list_both(alloc, own, &other, &mut row)?;
        first = past;
    }
    Ok(row)
}

/// Replaces the rows of the updated vertices, from the last to the first, and removes the vertices
/// without a new row.
pub fn place(rows: &mut Rows, room: &mut RowPool)
    requires room { length room.old.fresh.items ≤ spare rows.old }
    ensures { AreRowsPlaced room.old.fresh.items rows.old.entries rows.new.entries }
{
    while let Some(one) = room.fresh.pop() {
        place_one(rows, one, &mut room.used);
    }
}

// Replaces the row of the vertex, or removes a vertex without a new row.
fn place_one(rows: &mut Rows, fresh: RowUpdate, used: &mut Vec<Row>)
    requires room { 0 < spare rows.old }
    ensures placed { AreRowsPlaced (fresh ∷ []) rows.old.entries rows.new.entries }
    ensures room { spare rows.old ≤ spare rows.new + 1 }
{
    let RowUpdate { vertex, row } = fresh;
    match row {
        Some(row) => put_in_room(rows, &vertex, row, used),
        None => {
            rows.swap_remove(&vertex.vertex());
        }
    }
}

// Replaces or inserts the row of the vertex. The memory of the old row may be kept.
fn put_in_room(rows: &mut Rows, vertex: &HintedVertex, row: Row, used: &mut Vec<Row>)
    requires { 0 < spare rows.old }
    ensures placed { PutsRow vertex.now row rows.old.entries rows.new.entries }
    ensures room { spare rows.old ≤ spare rows.new + 1 }
{
    let before = match standing(rows, vertex) {
        Some(place) => Some(exchange(rows, place, row)),
        None => insert_in_room(rows, vertex.vertex(), row),
    };
    keep(before, used);
}

// Returns the place of the vertex's row, if the vertex's hint is right.
fn standing(rows: &Rows, vertex: &HintedVertex) -> Option<usize>
    ensures { IfSome result (λ place. IsRowAt rows.now.entries vertex.now place) }
{
    let place = vertex.place();
    match rows.get_index(place) {
        Some((at, _)) if *at == vertex.vertex() => Some(place),
        _ => None,
    }
}

// Replaces the row at the place, and returns the old one.
fn exchange(rows: &mut Rows, place: usize, row: Row) -> Row
    requires { place < length rows.old.entries }
    ensures placed { PutsRowAt place row rows.old.entries rows.new.entries }
    ensures room { spare rows.old ≤ spare rows.new + 1 }
{
    // proof: the map's invariant, that no vertex has two rows, is known by this call.
    let _ = rows.len();
    replace(&mut rows[place], row)
}

// Hashes the vertex, replaces or inserts its row, and returns the old one.
fn insert_in_room(rows: &mut Rows, vertex: Vertex, row: Row) -> Option<Row>
    requires { 0 < spare rows.old }
    ensures placed { PutsRow vertex row rows.old.entries rows.new.entries }
    ensures room { spare rows.old ≤ spare rows.new + 1 }
{
    match rows.insert(vertex, row) {
        Ok(before) => before,
        Err(_) => unreachable!(),
    }
}

// The maximum number of discarded rows that are kept for their memory.
const KEPT: usize = 8;

// Keeps the row for its memory, unless enough are kept or memory runs out.
fn keep(row: Option<Row>, used: &mut Vec<Row>) {
    if let Some(row) = row
        && used.len() < KEPT
    {
        let _ = used.push(row);
    }
}
