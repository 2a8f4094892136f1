//! The order of the vertices: each follows directly after the vertex before it on a shortest path.
ghost use Rattle.std.specs.Prelude.{◌≤◌, length, IfOk};
ghost use Rattle.std.specs.List.Sorted.{IsPermutation};

use crate::branches::{Branch, parent_of};
use crate::reached::ReachedVertex;
use ospf_types::entry::Vertex;
use ospf_types::memory::Memory;
use std::alloc::Global;

/// Returns the vertices in the order of the rows: each vertex directly after the one before it on a
/// shortest path. They are inserted in the order of `reached`.
pub(crate) fn order_rows(
    alloc: Global,
    branches: &[Branch],
    reached: &[ReachedVertex],
) -> Result<Vec<ReachedVertex>, Memory>
    ensures { IfOk result (λ ordered. IsPermutation reached.now ordered.items) }
{
    let mut ordered = Vec::with_capacity(alloc, reached.len())?;
    for vertex in reached {
        let place = behind_parent(branches, &ordered, vertex.vertex);
        ordered.insert(place, *vertex)?;
    }
    Ok(ordered)
}

// Returns the place directly after the parent of the vertex, or the end if the parent is missing.
fn behind_parent(branches: &[Branch], ordered: &[ReachedVertex], child: Vertex) -> usize
    ensures { result ≤ length ordered.now }
{
    let Some(parent) = parent_of(branches, child) else {
        return ordered.len();
    };
    for (place, other) in ordered.iter().enumerate() {
        if other.vertex == parent {
            return place + 1;
        }
    }
    ordered.len()
}
