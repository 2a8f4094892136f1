//! The vertices that are reached, with their distances.
ghost use Rattle.std.specs.Prelude.{◌≡◌, IfOk, OnOk};
ghost use Rattle.std.specs.List.{filter_map};
ghost use Rattle.std.specs.List.Sorted.{IsStrictlySortedBy};
ghost use Rattle.ospf_types.specs.Vertices.{vertex_cmp};
ghost use Rattle.area_trees.specs.Areas.{AddsVertexOf, AreVerticesOf, vertex_of as vertex_of_key};
ghost use Rattle.area_drawings.specs.Reaching.{AddsReached, AreReached, IsCount, reached_by};

use area_trees::{AreaTree, vertex_of};
use lsdb::Database;
use ospf_types::entry::Vertex;
use ospf_types::key::Key;
use ospf_types::memory::Memory;
use std::alloc::Global;

/// A vertex that is reached.
#[derive(Clone, Copy, Debug, PartialEq, Eq)]
pub(crate) struct ReachedVertex {
    pub(crate) vertex: Vertex,
    /// The distance of the vertex from the root: a sum of metrics.
    pub(crate) distance: u32,
}

/// Returns the number of vertices that have an LSA in the database and are reached: those that
/// `draw_area` draws.
///
/// # Errors
///
/// Returns `Memory` if memory runs out.
pub fn count_vertices(alloc: Global, database: &Database, tree: &AreaTree) -> Result<usize, Memory>
    ensures { IfOk result (IsCount database.now.lsas tree.now) }
{
    let reached = list_reached(alloc, database, tree)?;
    Ok(reached.len())
}

/// Returns the vertices that have an LSA in the database and are reached, without duplicates, in
/// the order of their columns.
pub(crate) fn list_reached(
    alloc: Global,
    database: &Database,
    tree: &AreaTree,
) -> Result<Vec<ReachedVertex>, Memory>
    ensures { IfOk result (λ reached. AreReached database.now.lsas tree.now reached.items) }
{
    let vertices = list_vertices(alloc, database.keys())?;
    let mut reached = each_reached(alloc, tree, &vertices)?;
    reached.sort_by_key(|r| r.column())?;
    Ok(reached)
}

// Returns the vertices of these keys, in ascending order without duplicates.
fn list_vertices(alloc: Global, keys: &[Key]) -> Result<Vec<Vertex>, Memory>
    ensures in_order { IfOk result (λ vertices. IsStrictlySortedBy vertex_cmp vertices.items) }
    ensures exact { IfOk result (λ vertices. AreVerticesOf keys.now vertices.items) }
{
    let mut vertices = each_vertex(alloc, keys)?;
    vertices.sort_unstable();
    vertices.dedup();
    Ok(vertices)
}

// Returns the vertex of each key that has one.
fn each_vertex(alloc: Global, keys: &[Key]) -> Result<Vec<Vertex>, Memory>
    ensures { IfOk result (λ vertices. vertices.items ≡ filter_map vertex_of_key keys.now) }
{
    let mut vertices = Vec::new(alloc);
    for key in keys {
        add_vertex(*key, &mut vertices)?;
    }
    Ok(vertices)
}

// Appends the vertex of the key, if it has one.
fn add_vertex(key: Key, vertices: &mut Vec<Vertex>) -> Result<(), Memory>
    ensures { OnOk result (AddsVertexOf key vertices.old.items vertices.new.items) }
{
    if let Some(vertex) = vertex_of(key) {
        vertices.push(vertex)?;
    }
    Ok(())
}

// Returns those of the vertices that are reached.
fn each_reached(
    alloc: Global,
    tree: &AreaTree,
    vertices: &[Vertex],
) -> Result<Vec<ReachedVertex>, Memory>
    ensures { IfOk result (λ reached. reached.items ≡ filter_map (reached_by tree.now) vertices.now) }
{
    let mut reached = Vec::new(alloc);
    for vertex in vertices {
        add_reached(tree, *vertex, &mut reached)?;
    }
    Ok(reached)
}

// Appends the vertex if it is reached.
fn add_reached(
    tree: &AreaTree,
    vertex: Vertex,
    reached: &mut Vec<ReachedVertex>,
) -> Result<(), Memory>
    ensures { OnOk result (AddsReached tree.now vertex reached.old.items reached.new.items) }
{
    if let Some(distance) = tree.distance(vertex) {
        reached.push(ReachedVertex { vertex, distance })?;
    }
    Ok(())
}
