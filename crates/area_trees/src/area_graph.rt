//! The graph of an area, with the index of its network-LSAs.
ghost use Rattle.std.specs.Prelude.{◌≡◌, ◌≤◌, [], Some, OnOk, IfOk, IfSome, option_map};
ghost use Rattle.std.specs.FinMap as map;
ghost use Rattle.lsdb.specs.Databases.{Database as Lsas};
ghost use Rattle.ospf_types.specs.Lsa.{key_of};
ghost use Rattle.vertex_graph.specs.Graphs.{AreLinkChanges, HasEnds, max_routers};
ghost use Rattle.area_trees.specs.Areas.{IsGraphBut, IsGraphOf, IsStanding, IsStandingKey};
ghost use Rattle.area_trees.specs.Areas.{vertex_of};

use crate::networks::NetworkLsas;
use crate::vertices::{list_vertices, lsa_for_vertex, lsa_of};
use lsa_codec::Checked;
use lsdb::Database;
use ospf_types::entry::Vertex;
use ospf_types::key::Key;
use ospf_types::memory::Memory;
use std::alloc::Global;
use std::hash::RandomState;
use std::marker::Model;
use vertex_graph::{Graph, LinkChanges, Up};

/// The graph of an area. After an error it need not match any database.
pub(crate) struct AreaGraph {
    graph: Graph,
    networks: NetworkLsas,
    // The vertices of the last change, kept for their memory.
    vertices: Vec<Vertex>,
}

// proof: a value is dropped by one call, not part by part at each exit of a function.
impl Drop for AreaGraph {
    fn drop(self) {
        let AreaGraph {
            graph: _graph,
            networks: _networks,
            vertices: _vertices,
        } = self;
    }
}

impl Model for AreaGraph {
    ghost use Rattle.std.specs.FinMap as map;
    ghost use Rattle.std.specs.Coded.{Coded, codes};
    ghost use Rattle.ospf_types.specs.Vertices.{vertex_code};
    ghost use Rattle.vertex_graph.specs.Graphs.{EndsByVertex};
    ghost use Rattle.area_trees.specs.Areas.{AreaGraphValue};

    ghost Value = { AreaGraphValue };

    ghost coded = { let ends : Coded EndsByVertex = map.code vertex_code (Prim.hlevel codes) in Prim.hlevel (codes, ends) };

    ghost view = { λ g. record { graph = g.graph; networks = g.networks } };
}

impl AreaGraph {
    /// Creates the graph of an empty database, without interfaces. `root` is the Router ID of the
    /// calculating router.
    pub(crate) fn new(alloc: Global, root: u32, hashing: RandomState) -> AreaGraph
        ensures graph { result.graph ≡ record { root = root; ends = map.empty; interfaces = [] } }
        ensures right { IsGraphOf map.empty result }
    {
        AreaGraph {
            graph: Graph::new(alloc, root, hashing),
            networks: NetworkLsas::new(alloc),
            vertices: Vec::new(alloc),
        }
    }

    /// Returns the graph.
    pub(crate) fn graph(&self) -> &Graph
        ensures value { result.now ≡ self.now.graph }
        ensures ends { HasEnds self.now.graph }
    {
        // proof: the graph's invariant, that ends are in order, follows from this call.
        let _ = self.graph.root();
        &self.graph
    }

    /// Updates the graph with the present LSAs under the keys, and returns the links that were
    /// removed and added. LSAs under other keys must be unchanged.
    pub(crate) fn follow(
        &mut self,
        alloc: Global,
        database: &Database,
        keys: &[Key],
    ) -> Result<LinkChanges, Memory>
        requires before { IsGraphBut database.now.lsas keys.now self.old }
        requires few { database.now.limit ≤ max_routers }
        ensures ends { HasEnds self.old.graph }
        ensures right { OnOk result (IsGraphOf database.now.lsas self.new) }
        ensures root { OnOk result (self.new.graph.root ≡ self.old.graph.root) }
        ensures interfaces { OnOk result (self.new.graph.interfaces ≡ self.old.graph.interfaces) }
        ensures exact { IfOk result (AreLinkChanges self.old.graph self.new.graph) }
    {
        // proof: by these calls the number of routers is bounded, and the ends of each vertex are
        // in order.
        let _ = (database.len(), self.graph.root());
        self.networks.follow(database, keys)?;
        list_vertices(keys, &mut self.vertices)?;
        let lsas = lsa_for_vertex(alloc, database, &self.networks, self.vertices.as_slice())?;
        self.graph.replace_all(lsas.as_slice())
    }

    /// Returns the LSA that describes the vertex, or `None` if there is none.
    pub(crate) fn lsa_for_vertex<'a>(
        &self,
        database: &'a Database,
        vertex: Vertex,
    ) -> Option<&'a Checked>
        requires { IsGraphOf database.now.lsas self.now }
        ensures body { IsStanding database.now.lsas vertex (option_map (λ l. l.now.body) result) }
        ensures own { IfSome result (λ l. vertex_of (key_of l.now) ≡ Some vertex) }
        ensures key { IfSome result (λ l. IsStandingKey database.now.lsas vertex (key_of l.now)) }
    {
        lsa_of(database, &self.networks, vertex)
    }

    /// Sets the interfaces of the area that are up, and returns the links that were removed and
    /// added.
    pub(crate) fn interfaces(&mut self, ups: &[Up]) -> Result<LinkChanges, Memory>
        ensures ends { HasEnds self.old.graph }
        ensures right { OnOk result ((d : Lsas) → IsGraphOf d self.old → IsGraphOf d self.new) }
        ensures root { OnOk result (self.new.graph.root ≡ self.old.graph.root) }
        ensures interfaces { OnOk result (self.new.graph.interfaces ≡ ups.now) }
        ensures exact { IfOk result (AreLinkChanges self.old.graph self.new.graph) }
    {
        // proof: the graph's invariant, that ends are in order, follows from this call.
        let _ = self.graph.root();
        self.graph.interfaces(ups)
    }
}
