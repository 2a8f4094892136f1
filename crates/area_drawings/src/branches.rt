//! The vertex before each vertex on a shortest path. It decides the order of the vertices, and
//! nothing else.
ghost use Rattle.std.specs.Prelude.{◌≡◌, ◌+◌, ◌==◌};

use crate::reached::ReachedVertex;
use area_trees::AreaTree;
use ospf_types::entry::Vertex;
use ospf_types::memory::Memory;
use std::alloc::Global;
use vertex_graph::GraphLink;

/// A vertex, and the vertex before it on a shortest path from the root.
#[derive(Clone, Copy)]
pub(crate) struct Branch {
    parent: Vertex,
    child: Vertex,
}

/// Returns a branch to each vertex that a shortest path leads to over another vertex. If there are
/// several such paths, it uses the vertex that comes first in `reached`.
pub(crate) fn list_branches(
    alloc: Global,
    tree: &AreaTree,
    reached: &[ReachedVertex],
) -> Result<Vec<Branch>, Memory> {
    let mut branches = Vec::new(alloc);
    for parent in reached {
        add_branches(tree, *parent, &mut branches)?;
    }
    Ok(branches)
}

// Appends the branches from a vertex to those that have none yet.
fn add_branches(
    tree: &AreaTree,
    parent: ReachedVertex,
    branches: &mut Vec<Branch>,
) -> Result<(), Memory> {
    for link in tree.links_from(parent.vertex) {
        let child = link.to.vertex();
        if is_branch(tree, parent, link) && parent_of(branches, child).is_none() {
            let parent = parent.vertex;
            branches.push(Branch { parent, child })?;
        }
    }
    Ok(())
}

// Returns true if a shortest path leads over this link out of `parent`.
fn is_branch(tree: &AreaTree, parent: ReachedVertex, link: &GraphLink) -> bool {
    match tree.distance(link.to.vertex()) {
        Some(distance) => is_least(parent.distance, link.cost, distance),
        None => false,
    }
}

/// Returns true if a link of this cost, from a vertex at the distance `near` to one at the distance
/// `far`, is on a shortest path.
pub(crate) fn is_least(near: u32, cost: u16, far: u32) -> bool
    ensures { result ≡ (near + cost == far) }
{
    u64::from(near) + u64::from(cost) == u64::from(far)
}

/// Returns the vertex before this one, or `None` if it has no branch.
pub(crate) fn parent_of(branches: &[Branch], child: Vertex) -> Option<Vertex> {
    let branch = branches.iter().find(|b| b.child == child)?;
    Some(branch.parent)
}
