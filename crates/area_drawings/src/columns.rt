//! The columns of a picture: one for the networks, and one for the routers, at each distance.
ghost use Rattle.std.specs.Prelude.{◌≡◌, Some, map, IfOk, Contains, slice_get};
ghost use Rattle.std.specs.List.Sorted.{IsStrictlySortedBy};
ghost use Rattle.area_drawings.specs.Columns.{column_cmp, column_of, AreColumnsOf};

use crate::reached::ReachedVertex;
use ospf_types::entry::Vertex;
use ospf_types::memory::Memory;
use std::alloc::Global;

/// The networks at one distance, or the routers at one distance. Networks come first: a router is
/// no farther than its network, and a link out of a network costs nothing.
#[derive(Clone, Copy, Debug, PartialEq, Eq, PartialOrd, Ord)]
pub(crate) struct Column {
    pub(crate) distance: u32,
    pub(crate) of_routers: bool,
}

impl ReachedVertex {
    /// Returns the column of the vertex.
    pub(crate) fn column(self) -> Column
        ensures { result ≡ column_of self }
    {
        let of_routers = match self.vertex {
            Vertex::Router(_) => true,
            Vertex::Network(_) => false,
        };
        Column {
            distance: self.distance,
            of_routers,
        }
    }
}

/// Returns the columns of these vertices, from the left, without duplicates.
pub(crate) fn list_columns(alloc: Global, reached: &[ReachedVertex]) -> Result<Vec<Column>, Memory>
    ensures in_order { IfOk result (λ columns. IsStrictlySortedBy column_cmp columns.items) }
    ensures exact { IfOk result (λ columns. AreColumnsOf reached.now columns.items) }
{
    let mut columns = each_column(alloc, reached)?;
    columns.sort_unstable();
    columns.dedup();
    Ok(columns)
}

// Returns the column of each vertex.
fn each_column(alloc: Global, reached: &[ReachedVertex]) -> Result<Vec<Column>, Memory>
    ensures { IfOk result (λ columns. columns.items ≡ map column_of reached.now) }
{
    Ok(reached.iter().map(|r| r.column()).collect(alloc)?)
}

/// Returns the distances of the columns.
pub(crate) fn distances(alloc: Global, columns: &[Column]) -> Result<Vec<u32>, Memory>
    ensures { IfOk result (λ distances. distances.items ≡ map (λ c. c.distance) columns.now) }
{
    Ok(columns.iter().map(|c| c.distance).collect(alloc)?)
}

/// Returns the index of the column. If it does not fit in 32 bits, this counts as memory that ran
/// out.
pub(crate) fn place_of(columns: &[Column], column: Column) -> Result<u32, Memory>
    requires { Contains columns.now column }
    ensures { IfOk result (λ place. slice_get columns.now place ≡ Some column) }
{
    for (place, other) in columns.iter().enumerate() {
        if *other == column {
            return u32::try_from(place).map_err(|_| Memory);
        }
    }
    unreachable!()
}
