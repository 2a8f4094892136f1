//! The vertices of the picture.
ghost use Rattle.std.specs.Prelude.{◌≡◌, map, IfOk};
ghost use Rattle.std.specs.List.{All};
ghost use Rattle.area_trees.specs.Areas.{IsTreeIn};
ghost use Rattle.area_drawings.specs.Drawings.{AreRoles, HasFlags, IsTreeDrawn, stand_of};

use crate::stands::Stand;
use crate::{DrawnVertex, Roles};
use area_trees::AreaTree;
use lsdb::Database;
use ospf_types::entry::Vertex;
use ospf_types::listed::Listed;
use ospf_types::memory::Memory;
use std::alloc::Global;

// Bit B of a router-LSA: an area border router (RFC 2328, A.4.2).
const BORDER: u8 = 1;

// Bit E of a router-LSA: an AS boundary router (RFC 2328, A.4.2).
const BOUNDARY: u8 = 2;

/// Returns the drawn vertices, each in its cell.
pub(crate) fn draw_vertices(
    alloc: Global,
    database: &Database,
    tree: &AreaTree,
    stands: &[Stand],
) -> Result<Listed<DrawnVertex>, Memory>
    requires { IsTreeIn database.now.lsas tree.now }
    ensures stands { IfOk result (λ vertices. map stand_of vertices ≡ stands.now) }
    ensures told { IfOk result (All (IsTreeDrawn database.now.lsas tree.now)) }
{
    let mut vertices = Listed::new(alloc);
    for stand in stands {
        vertices.push(draw_vertex(alloc, database, tree, *stand)?)?;
    }
    Ok(vertices)
}

// Returns the drawn vertex in its cell.
fn draw_vertex(
    alloc: Global,
    database: &Database,
    tree: &AreaTree,
    stand: Stand,
) -> Result<DrawnVertex, Memory>
    requires { IsTreeIn database.now.lsas tree.now }
    ensures stand { IfOk result (λ vertex. stand_of vertex ≡ stand) }
    ensures told { IfOk result (IsTreeDrawn database.now.lsas tree.now) }
{
    let vertex = stand.reached.vertex;
    Ok(DrawnVertex {
        vertex,
        place: stand.place,
        roles: roles(flags_at(database, tree, vertex)),
        distance: stand.reached.distance,
        hops: Listed::from_slice(alloc, tree.hops(vertex))?,
    })
}

// Returns the bits of the router-LSA that describes a router. They are 0 for a transit network.
fn flags_at(database: &Database, tree: &AreaTree, vertex: Vertex) -> u8
    requires { IsTreeIn database.now.lsas tree.now }
    ensures { HasFlags database.now.lsas vertex result }
{
    match tree.lsa_for_vertex(database, vertex) {
        Some(lsa) => lsa.flags().unwrap_or(0),
        None => 0,
    }
}

// Returns the roles that these bits state.
fn roles(flags: u8) -> Roles
    ensures { AreRoles flags result }
{
    Roles {
        border: flags & BORDER > 0,
        boundary: flags & BOUNDARY > 0,
    }
}
