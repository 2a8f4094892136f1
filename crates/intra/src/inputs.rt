//! The inputs of intra-area routes.
use area_trees::AreaTree;
use lsdb::Database;
use ospf_types::config::Interface;
use std::collections::btree_map::Iter;
use std::marker::Model;

/// The inputs of intra-area routes in one area.
#[derive(Drop)]
pub struct AreaInputs<'a> {
    /// The Area ID.
    pub id: u32,
    pub database: &'a Database,
    /// The tree of the database and of the area's interfaces that are up.
    pub tree: &'a AreaTree,
}

impl<'a> Model for AreaInputs<'a> {
    ghost use Rattle.std.specs.FinMap as map;
    ghost use Rattle.std.specs.Coded.{Coded, codes, coded_ℕ};
    ghost use Rattle.ospf_types.specs.Keys.{key_code};
    ghost use Rattle.ospf_types.specs.Vertices.{vertex_code};
    ghost use Rattle.lsdb.specs.Databases.{Database as Lsas};
    ghost use Rattle.vertex_graph.specs.Graphs.{EndsByVertex};
    ghost use Rattle.spf.specs.Maps.{DistanceMap, HopMap};
    ghost use Rattle.intra.specs.Inputs.{AreaValue};

    ghost Value = { AreaValue };

    ghost coded = { let lsas : Coded Lsas = map.code key_code (Prim.hlevel codes) in
        let ends : Coded EndsByVertex = map.code vertex_code (Prim.hlevel codes) in
        let distances : Coded DistanceMap = map.code vertex_code coded_ℕ in
        let hops : Coded HopMap = map.code vertex_code (Prim.hlevel codes) in
        Prim.hlevel (codes, lsas, ends, distances, hops) };

    ghost view = { λ a. record { id = a.id; lsas = a.database.now.lsas; tree = a.tree.now } };
}

/// An area, and the calculating router, which is the root of the area's tree.
#[derive(Drop)]
pub(crate) struct RootedArea<'a> {
    /// The Router ID of the root.
    pub(crate) root: u32,
    pub(crate) area: &'a AreaInputs<'a>,
}

/// The inputs of intra-area routes.
#[derive(Drop)]
pub struct IntraInputs<'a> {
    /// The Router ID of the calculating router.
    pub root: u32,
    /// Its areas, always in the same order.
    pub areas: &'a [AreaInputs<'a>],
    /// Its interfaces with their ids.
    pub interfaces: Iter<'a, u8, Interface>,
}

impl<'a> Model for IntraInputs<'a> {
    ghost use Rattle.std.specs.FinMap as map;
    ghost use Rattle.std.specs.Coded.{Coded, codes, coded_ℕ};
    ghost use Rattle.ospf_types.specs.Keys.{key_code};
    ghost use Rattle.ospf_types.specs.Vertices.{vertex_code};
    ghost use Rattle.lsdb.specs.Databases.{Database as Lsas};
    ghost use Rattle.vertex_graph.specs.Graphs.{EndsByVertex};
    ghost use Rattle.spf.specs.Maps.{DistanceMap, HopMap};
    ghost use Rattle.intra.specs.Inputs.{InputsValue};

    ghost Value = { InputsValue };

    ghost coded = { let lsas : Coded Lsas = map.code key_code (Prim.hlevel codes) in
        let ends : Coded EndsByVertex = map.code vertex_code (Prim.hlevel codes) in
        let distances : Coded DistanceMap = map.code vertex_code coded_ℕ in
        let hops : Coded HopMap = map.code vertex_code (Prim.hlevel codes) in
        Prim.hlevel (codes, lsas, ends, distances, hops) };

    ghost view = { λ i. record { root = i.root; areas = i.areas.now; interfaces = i.interfaces } };
}
