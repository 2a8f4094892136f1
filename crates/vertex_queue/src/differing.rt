//! The vertices that a repair of a tree changed.
ghost use Rattle.std.specs.Prelude.{◌≡◌, ◌++◌, ◌∷◌, OnOk};
ghost use Rattle.std.specs.List.Sorted.{IsStrictlySortedBy};
ghost use Rattle.ospf_types.specs.Vertices.{vertex_cmp};
ghost use Rattle.vertex_queue.specs.Differing.{HasExactly, IsDiffering, IsFarther, IsGrown};
ghost use Rattle.vertex_queue.specs.Differing.{IsNearer, with_distances};

use crate::distances::Distances;
use crate::sorted_vertices::SortedVertices;
use crate::vertex_list::VertexList;
use crate::vertex_set::VertexSet;
use ospf_types::entry::Vertex;
use ospf_types::memory::Memory;
use vertex_map::HintedVertex;

/// Makes `remembered` the list of the root and the lost vertices, with their distances before the
/// repair. `Repaired` compares these with the distances after it.
///
/// # Errors
///
/// Returns `Memory` if memory runs out. The list is then incomplete.
pub fn remember(
    distances: &Distances,
    root: &HintedVertex,
    lost: &[HintedVertex],
    remembered: &mut Vec<(HintedVertex, Option<u32>)>,
) -> Result<(), Memory>
    ensures { OnOk result (remembered.new.items
        ≡ with_distances distances.now (root.now ∷ lost.now)) }
{
    remembered.clear();
    remembered.push((root.copy(), distances.get(root)))?;
    for vertex in lost {
        remembered.push((vertex.copy(), distances.get(vertex)))?;
    }
    Ok(())
}

/// The record of a finished repair, from which the changed vertices are found.
#[derive(Clone, Copy)]
pub struct Repaired<'a> {
    /// The root and the lost vertices, with their distances before the repair.
    pub remembered: &'a [(HintedVertex, Option<u32>)],
    /// The distances after the repair.
    pub distances: &'a Distances,
    /// The vertices that lost their distance.
    pub lost: &'a VertexSet,
    /// The vertices that got a lower distance, or a distance again.
    pub moved: &'a VertexList,
    /// The vertices whose next hops were written.
    pub written: &'a VertexList,
}

impl<'a> Repaired<'a> {
    /// Makes `changed` the list of vertices that the repair changed, in ascending order without
    /// duplicates.
    ///
    /// These are the vertices whose next hops were written, the remembered ones whose distance
    /// differs, and the moved ones that were not lost.
    ///
    /// # Errors
    ///
    /// Returns `Memory` if memory runs out. The list may then be incomplete.
    pub fn list_differing(
        self,
        listing: &mut SortedVertices,
        changed: &mut Vec<Vertex>,
    ) -> Result<(), Memory>
        ensures in_order { OnOk result (IsStrictlySortedBy vertex_cmp changed.new.items) }
        ensures exact { OnOk result (HasExactly changed.new.items (IsDiffering
            self.entry.remembered.now self.entry.distances.now
            self.entry.lost.now self.entry.moved.now self.entry.written.now)) }
    {
        listing.clear();
        add_all(listing, self.written.as_slice())?;
        add_farther(listing, self.remembered, self.distances)?;
        add_nearer(listing, self.moved.as_slice(), self.lost)?;
        listing.list(changed)
    }
}

// Appends all vertices.
fn add_all(listing: &mut SortedVertices, vertices: &[HintedVertex]) -> Result<(), Memory>
    ensures { OnOk result (listing.new ≡ listing.old ++ vertices.now) }
{
    for vertex in vertices {
        listing.push(vertex.vertex())?;
    }
    Ok(())
}

// Appends the remembered vertices whose distance differs now.
fn add_farther(
    listing: &mut SortedVertices,
    remembered: &[(HintedVertex, Option<u32>)],
    distances: &Distances,
) -> Result<(), Memory>
    ensures { OnOk result (IsGrown listing.new listing.old
        (IsFarther remembered.now distances.now)) }
{
    for (vertex, distance) in remembered {
        if distances.get(vertex) != *distance {
            listing.push(vertex.vertex())?;
        }
    }
    Ok(())
}

// Appends the moved vertices that were not lost.
fn add_nearer(
    listing: &mut SortedVertices,
    moved: &[HintedVertex],
    lost: &VertexSet,
) -> Result<(), Memory>
    ensures { OnOk result (IsGrown listing.new listing.old (IsNearer moved.now lost.now)) }
{
    for vertex in moved {
        if !lost.has(vertex) {
            listing.push(vertex.vertex())?;
        }
    }
    Ok(())
}
