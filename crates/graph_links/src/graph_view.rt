//! The graph as it is after a staged change.
ghost use Rattle.std.specs.Prelude.{◌≡◌, OnOk, option_copied, option_map, is_some};
ghost use Rattle.std.specs.FinMap.{find};
ghost use Rattle.ospf_types.specs.Vertices.{vertex_cmp};
ghost use Rattle.graph_links.specs.Pairs.{AreAllAt, KeepsLinksApart};
ghost use Rattle.graph_links.specs.Sides as sides;

use crate::at_vertex::ends_at;
use crate::link::GraphLink;
use crate::link_end::LinkEnd;
use crate::row::{Row, Rows, StagedEnds};
use crate::vertex_pair::{Facing, RootInterfaces, VertexPair};
use ospf_types::entry::Vertex;
use ospf_types::memory::Memory;
use std::alloc::Global;
use vertex_map::HintedVertex;

/// The rows of a graph with the staged ends over them. With nothing staged it is the present graph.
#[derive(Clone, Copy)]
pub struct GraphView<'a> {
    pub local: RootInterfaces<'a>,
    pub rows: &'a Rows,
    pub staged: &'a StagedEnds,
}

/// Returns the vertex's row and the place of that row. The vertex is hashed only if its hint is
/// wrong.
#[inline]
pub fn find_row<'a>(rows: &'a Rows, vertex: &HintedVertex) -> (Option<&'a Row>, u32)
    ensures { option_copied result.0 ≡ find vertex_cmp vertex.now rows.now.entries }
{
    match rows.get_index(vertex.place()) {
        Some((at, row)) if *at == vertex.vertex() => (Some(row), vertex.number()),
        _ => hashed_row(rows, vertex.vertex()),
    }
}

// Hashes the vertex, and returns its row and the place of that row, or `u32::MAX` if it has none.
#[inline(never)]
fn hashed_row<'a>(rows: &'a Rows, vertex: Vertex) -> (Option<&'a Row>, u32)
    ensures { option_copied result.0 ≡ find vertex_cmp vertex rows.now.entries }
{
    match rows.get_full(&vertex) {
        Some((place, _, row)) => (Some(row), number(place)),
        None => (None, u32::MAX),
    }
}

// Returns the link ends in the vertex's row, or `None` if it has no row, and the place of the row.
fn placed_ends<'a>(rows: &'a Rows, vertex: &HintedVertex) -> (Option<&'a [LinkEnd]>, u32)
    ensures { option_map (λ ends. ends.now) result.0 ≡ sides.row_ends rows.now.entries vertex.now }
{
    match rows.get_index(vertex.place()) {
        Some((at, row)) if *at == vertex.vertex() => (Some(row.ends.as_slice()), vertex.number()),
        _ => {
            let (row, place) = hashed_row(rows, vertex.vertex());
            (ends_of_row(row), place)
        }
    }
}

/// Returns the link ends of the row, or `None` if there is no row.
pub fn ends_of_row<'a>(row: Option<&'a Row>) -> Option<&'a [LinkEnd]>
    ensures { option_map (λ ends. ends.now) result ≡ sides.ends_of_row (option_copied row.entry) }
{
    match row {
        Some(row) => Some(row.ends.as_slice()),
        None => None,
    }
}

/// Returns the links from the vertex whose row is at the place, whichever vertex it is. They only
/// serve as hints.
pub(crate) fn links_at(rows: &Rows, place: u32) -> &[GraphLink] {
    match rows.get_index(place as usize) {
        Some((_, row)) => row.out.as_slice(),
        None => &[],
    }
}

// Returns the place as a `u32`. A place that does not fit becomes `u32::MAX`, which is a wrong
// hint.
fn number(place: usize) -> u32 {
    u32::try_from(place).unwrap_or(u32::MAX)
}

/// Returns the staged ends of the vertex. If at most one vertex is staged, nothing is hashed.
fn find_staged<'a>(staged: &'a StagedEnds, vertex: Vertex) -> Option<&'a Option<Vec<LinkEnd>>>
    ensures { option_map (λ ends. ends.now) result ≡ find vertex_cmp vertex staged.now.entries }
{
    if staged.len() > 1 {
        return staged.get(&vertex);
    }
    let (only, ends) = staged.first()?;
    if *only == vertex { Some(ends) } else { None }
}

/// Returns the staged ends, or `None` if the LSA is removed.
pub fn staged_ends(ends: &Option<Vec<LinkEnd>>) -> Option<&[LinkEnd]>
    ensures { option_map (λ e. e.now) result ≡ option_map (λ e. e.items) ends.now }
{
    match ends {
        Some(ends) => Some(ends.as_slice()),
        None => None,
    }
}

/// Returns the ends, or an empty slice if there are none.
pub fn ends_or_empty<'a>(ends: Option<&'a [LinkEnd]>) -> &'a [LinkEnd]
    ensures { result.now ≡ sides.ends_or (option_map (λ e. e.now) ends.entry) }
{
    match ends {
        Some(ends) => ends,
        None => &[],
    }
}

impl<'a> GraphView<'a> {
    /// Returns the link ends of the vertex, or `None` if it has no LSA, and the place that its row
    /// has or will have.
    pub fn find(self, vertex: &HintedVertex) -> (Option<&'a [LinkEnd]>, u32)
        ensures { option_map (λ ends. ends.now) result.0 ≡ sides.ends_in self.entry vertex.now }
    {
        match find_staged(self.staged, vertex.vertex()) {
            Some(ends) => (staged_ends(ends), self.staged_place(vertex)),
            None => placed_ends(self.rows, vertex),
        }
    }

    // Returns the place of the row of a staged vertex.
    fn staged_place(self, vertex: &HintedVertex) -> u32 {
        match find_row(self.rows, vertex) {
            (Some(_), place) => place,
            _ => self.new_place(vertex.vertex()),
        }
    }

    // Returns the place that the row of a new vertex will have. New rows are added at the end, the
    // last staged vertex first.
    #[inline(never)]
    fn new_place(self, vertex: Vertex) -> u32 {
        let place = self.staged.get_index_of(&vertex).unwrap_or(0);
        let later = self.staged.len().saturating_sub(place).saturating_sub(1);
        number(self.rows.len().saturating_add(later))
    }

    /// Returns true if the vertex is staged.
    pub fn is_staged(self, vertex: Vertex) -> bool
        ensures { result ≡ is_some (find vertex_cmp vertex self.entry.staged.now.entries) }
    {
        find_staged(self.staged, vertex).is_some()
    }

    /// Appends the links between the vertex `own` and `to` to the row of `own`, in both directions.
    ///
    /// `own` has all its ends at `to`.
    pub(crate) fn list_both(
        self,
        alloc: Global,
        own: Facing<'_>,
        to: &HintedVertex,
        row: &mut Row,
    ) -> Result<(), Memory>
        requires in_order { sides.IsInOrder (sides.ends_in self) }
        requires own { AreAllAt to.now (sides.all_ends self own.vertex) own.ends.now }
        ensures ends { row.new.ends ≡ row.old.ends }
        ensures out { OnOk result (sides.AddsOut
            self.entry own.entry.vertex to.now row.old.out.items row.new.out.items) }
        ensures into { OnOk result (sides.AddsInto
            self.entry own.entry.vertex to.now row.old.into.items row.new.into.items) }
        ensures cheap { OnOk result (sides.StaysCheap row.old row.new) }
        ensures out_apart { OnOk result
            (KeepsLinksApart own.entry.vertex to.now row.old.out.items row.new.out.items) }
        ensures into_apart { OnOk result
            (KeepsLinksApart to.now own.entry.vertex row.old.into.items row.new.into.items) }
    {
        // 16.1 (2) (b): look up W's LSA; without one, or without a link back, there is no link.
        let (ends, place) = self.find(to);
        let back = ends_at(ends_or_empty(ends), own.vertex);
        if back.is_empty() {
            return Ok(());
        }
        let other = Facing {
            vertex: to.vertex(),
            place,
            ends: back,
        };
        let there = VertexPair {
            local: self.local,
            from: own,
            to: other,
        };
        there.list_links(alloc, &mut row.out)?;
        there.turned().list_links(alloc, &mut row.into)?;
        Ok(())
    }
}
