//! A change of the rows of a graph.
ghost use Rattle.std.specs.Prelude.{◌≡◌, ◌≢◌, ℕ, List, OnOk, OnErr, IfOk};
ghost use Rattle.std.specs.List.{AllPairs};
ghost use Rattle.graph_links.specs.Pairs.{AreApart};
ghost use Rattle.graph_links.specs.Sides.{AreRowsBy, IsInOrder, AreRowsPlaced, ends_after};
ghost use Rattle.graph_links.specs.declared.link.Up.{Up as UpValue};
ghost use Rattle.vertex_graph.specs.Changes.{ChangesRows, NamesCome, NamesGone};

use crate::staging::Staging;
use graph_links::{
    GraphView, LinkChanges, RootInterfaces, RowPool, Rows, changed_links, place, row_updates,
};
use ospf_types::memory::Memory;
use std::alloc::Global;

/// A change of rows: the root and its interfaces after the change, and the staged ends.
#[derive(Clone, Copy)]
pub(crate) struct GraphChange<'a> {
    pub(crate) local: RootInterfaces<'a>,
    pub(crate) staging: &'a Staging,
}

impl<'a> GraphChange<'a> {
    /// Updates the rows of the touched vertices, and returns the links that were removed and added.
    ///
    /// All memory is allocated before the first row changes.
    pub(crate) fn make(
        &self,
        alloc: Global,
        rows: &mut Rows,
        room: &mut RowPool,
    ) -> Result<LinkChanges, Memory>
        requires once { AllPairs (λ v w. v ≢ w) self.now.staging.now.touched.items }
        requires before { (root : ℕ) × (ups : List UpValue) × AreRowsBy root ups rows.old.entries }
        requires after { IsInOrder
            (ends_after rows.old.entries self.now.staging.now.ends.entries) }
        ensures changed { OnOk result (ChangesRows self.now rows.old.entries rows.new.entries) }
        ensures gone { IfOk result (NamesGone self.now rows.old.entries) }
        ensures came { IfOk result (NamesCome self.now rows.old.entries) }
        ensures gone_once { IfOk result (λ changes. AreApart changes.gone.items) }
        ensures came_once { IfOk result (λ changes. AreApart changes.came.items) }
        ensures unchanged { OnErr result (rows.new.entries ≡ rows.old.entries) }
    {
        let after = GraphView {
            local: self.local,
            rows,
            staged: &self.staging.ends,
        };
        row_updates(alloc, after, self.staging.touched.as_slice(), room)?;
        let changes = changed_links(alloc, rows, room.fresh.as_slice())?;
        commit(rows, room)?;
        Ok(changes)
    }
}

// Reserves room for all new rows, and then places them.
fn commit(rows: &mut Rows, room: &mut RowPool) -> Result<(), Memory>
    ensures placed { OnOk result (AreRowsPlaced room.old.fresh.items rows.old.entries rows.new.entries) }
    ensures unchanged { OnErr result (rows.new.entries ≡ rows.old.entries) }
{
    rows.reserve(room.fresh.len())?;
    place(rows, room);
    Ok(())
}
