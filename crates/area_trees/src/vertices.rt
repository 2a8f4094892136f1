//! The vertices of an area, and the LSA that describes each.
ghost use Rattle.std.specs.Prelude.{◌≡◌, ◌↔◌, Some, IsTrue, IfOk, IfSome, OnOk, option_map};
ghost use Rattle.std.specs.List.{filter_map};
ghost use Rattle.std.specs.List.Sorted.{IsStrictlySortedBy};
ghost use Rattle.ospf_types.specs.Lsa.{key_of};
ghost use Rattle.ospf_types.specs.Vertices.{vertex_cmp};
ghost use Rattle.area_trees.specs.Areas.{vertex_of as vertex_of_key, AddsVertexOf, AreNetworksOf};
ghost use Rattle.area_trees.specs.Areas.{AreVerticesOf, IsStanding, IsStandingKey, IsUsed};
ghost use Rattle.area_trees.specs.Areas.{StandFor};

use crate::networks::NetworkLsas;
use lsa_codec::Checked;
use lsdb::Database;
use ospf_types::entry::Vertex;
use ospf_types::key::Key;
use ospf_types::lsa::{NETWORK_LSA, ROUTER_LSA};
use ospf_types::memory::Memory;
use std::alloc::Global;

/// A vertex with the LSA that describes it, or `None` if there is none.
pub(crate) type Handed<'a> = (Vertex, Option<&'a Checked>);

/// Makes `vertices` the list of vertices that LSAs under these keys describe, in ascending order
/// without duplicates.
pub(crate) fn list_vertices(keys: &[Key], vertices: &mut Vec<Vertex>) -> Result<(), Memory>
    ensures in_order { OnOk result (IsStrictlySortedBy vertex_cmp vertices.new.items) }
    ensures exact { OnOk result (AreVerticesOf keys.now vertices.new.items) }
{
    list_named(keys, vertices)?;
    vertices.sort_unstable();
    vertices.dedup();
    Ok(())
}

// Makes `vertices` the list of vertices in the order of the keys.
fn list_named(keys: &[Key], vertices: &mut Vec<Vertex>) -> Result<(), Memory>
    ensures { OnOk result (vertices.new.items ≡ filter_map vertex_of_key keys.now) }
{
    vertices.clear();
    for key in keys {
        push_named(*key, vertices)?;
    }
    Ok(())
}

// Appends the vertex of the key, if it has one.
fn push_named(key: Key, vertices: &mut Vec<Vertex>) -> Result<(), Memory>
    ensures { OnOk result (AddsVertexOf key vertices.old.items vertices.new.items) }
{
    if let Some(vertex) = vertex_of(key) {
        vertices.push(vertex)?;
    }
    Ok(())
}

/// Returns the vertex that an LSA with this key describes: a router for a router-LSA, a transit
/// network for a network-LSA (RFC 2328, 16.1). It is `None` for other keys.
pub fn vertex_of(key: Key) -> Option<Vertex>
    ensures { result ≡ vertex_of_key key }
{
    match key.kind {
        ROUTER_LSA => Some(Vertex::Router(key.router)),
        NETWORK_LSA => Some(Vertex::Network(key.id)),
        _ => None,
    }
}

/// Returns each vertex with the LSA that describes it now.
pub(crate) fn lsa_for_vertex<'a>(
    alloc: Global,
    database: &'a Database,
    networks: &NetworkLsas,
    vertices: &[Vertex],
) -> Result<Vec<Handed<'a>>, Memory>
    requires { AreNetworksOf database.now.lsas networks.now }
    ensures { IfOk result (λ handed. StandFor database.now.lsas vertices.now handed.items) }
{
    let mut handed = Vec::with_capacity(alloc, vertices.len())?;
    for vertex in vertices {
        handed.push((*vertex, lsa_of(database, networks, *vertex)))?;
    }
    Ok(handed)
}

/// Returns the LSA that describes the vertex, or `None` if there is none.
///
/// RFC 2328, 16.1 (2) (b): an LSA at MaxAge is ignored.
pub(crate) fn lsa_of<'a>(
    database: &'a Database,
    networks: &NetworkLsas,
    vertex: Vertex,
) -> Option<&'a Checked>
    requires { AreNetworksOf database.now.lsas networks.now }
    ensures body { IsStanding database.now.lsas vertex (option_map (λ l. l.now.body) result) }
    ensures own { IfSome result (λ l. vertex_of_key (key_of l.now) ≡ Some vertex) }
    ensures key { IfSome result (λ l. IsStandingKey database.now.lsas vertex (key_of l.now)) }
{
    match vertex {
        Vertex::Router(router) => database.usable(Key {
            kind: ROUTER_LSA,
            id: router,
            router,
        }),
        Vertex::Network(id) => {
            let router = networks.greatest(id)?;
            database.usable(Key {
                kind: NETWORK_LSA,
                id,
                router,
            })
        }
    }
}

/// Returns true if the database has a usable LSA with this key.
pub(crate) fn is_usable(database: &Database, key: Key) -> bool
    ensures { IsTrue result ↔ IsUsed database.now.lsas key }
{
    database.usable(key).is_some()
}
