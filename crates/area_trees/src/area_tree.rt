//! The graph of an area and its shortest-path tree, updated together.
ghost use Rattle.std.specs.Prelude.{◌≡◌, ◌≢◌, ◌≤◌, ◌<◌, [], Some, true, OnOk, OnErr, IfOk, IfSome};
ghost use Rattle.std.specs.Prelude.{option_map};
ghost use Rattle.std.specs.FinMap as map;
ghost use Rattle.std.specs.List.{AllPairs};
ghost use Rattle.std.specs.List.Sorted.{IsStrictlySortedBy};
ghost use Rattle.ospf_types.specs.Lsa.{key_of};
ghost use Rattle.ospf_types.specs.Hops.{hop_cmp};
ghost use Rattle.spf.specs.Maps.{most_distance};
ghost use Rattle.spf.specs.TreeValues.{AreOthersKept, listed_hops};
ghost use Rattle.area_trees.specs.LeastPaths.{IsPathOver, links_at};
ghost use Rattle.vertex_graph.specs.Graphs.{AreLinksFrom, max_routers};
ghost use Rattle.area_trees.specs.Areas.{FollowsInterfaces, FollowsLsas, HasBoundedWork};
ghost use Rattle.area_trees.specs.Areas.{IsBuiltByWork, IsBuiltFor, IsStanding, IsStandingKey};
ghost use Rattle.area_trees.specs.Areas.{IsTreeBut, IsTreeIn, IsTreeOfSome, IsWorkBetween};
ghost use Rattle.area_trees.specs.Areas.{NamesChanged, vertex_of};

use crate::area_graph::AreaGraph;
use lsa_codec::Checked;
use lsdb::Database;
use ospf_types::entry::Vertex;
use ospf_types::hop::NextHop;
use ospf_types::key::Key;
use ospf_types::memory::Memory;
use spf::{Touched, Tree};
use std::alloc::Global;
use std::hash::RandomState;
use std::marker::Model;
use vertex_graph::{GraphLink, LinkChanges, Up};
use vertex_map::HintedVertex;

/// The graph of an area and its shortest-path tree.
///
/// It is *spent* after an update ran out of memory. Its results may then be wrong, and only `build`
/// makes another.
pub struct AreaTree {
    area: AreaGraph,
    tree: Tree,
    spent: bool,
}

// proof: a value is dropped by one call, not part by part at each exit of a function.
impl Drop for AreaTree {
    fn drop(self) {
        let AreaTree {
            area: _area,
            tree: _tree,
            spent: _,
        } = self;
    }
}

impl Model for AreaTree {
    ghost use Rattle.std.specs.FinMap as map;
    ghost use Rattle.std.specs.Coded.{Coded, codes, coded_ℕ};
    ghost use Rattle.ospf_types.specs.Vertices.{vertex_code};
    ghost use Rattle.vertex_graph.specs.Graphs.{EndsByVertex};
    ghost use Rattle.spf.specs.Maps.{DistanceMap, HopMap};
    ghost use Rattle.area_trees.specs.Areas.{AreaTreeValue};

    ghost Value = { AreaTreeValue };

    ghost coded = { let ends : Coded EndsByVertex = map.code vertex_code (Prim.hlevel codes) in
        let distances : Coded DistanceMap = map.code vertex_code coded_ℕ in
        let hops : Coded HopMap = map.code vertex_code (Prim.hlevel codes) in
        Prim.hlevel (codes, ends, distances, hops) };

    ghost view = { λ t. record { area = t.area; tree = t.tree; spent = t.spent } };
}

impl AreaTree {
    /// Builds the graph and tree of an area, from its database and its interfaces that are up.
    /// Returns them with the work. `root` is the Router ID of the calculating router.
    ///
    /// # Errors
    ///
    /// Returns `Memory` if memory runs out.
    pub fn build(
        alloc: Global,
        root: u32,
        database: &Database,
        interfaces: &[Up],
        hashing: RandomState,
    ) -> Result<(AreaTree, Touched), Memory>
        requires few { database.now.limit ≤ max_routers }
        ensures right { IfOk result (IsBuiltFor root database.now.lsas interfaces.now) }
        ensures changed { IfOk result (λ built. built.0.tree.changed ≡ []) }
        ensures work { IfOk result IsBuiltByWork }
    {
        let mut area = AreaGraph::new(alloc, root, hashing);
        area.follow(alloc, database, database.keys())?;
        area.interfaces(interfaces)?;
        let (tree, touched) = Tree::build(alloc, area.graph(), hashing)?;
        let spent = false;
        Ok((AreaTree { area, tree, spent }, touched))
    }

    /// Updates the graph and tree with the present LSAs under the keys, and returns the work. LSAs
    /// under other keys must be unchanged since the last update.
    ///
    /// # Errors
    ///
    /// Returns `Memory` if memory runs out. The tree is then spent.
    pub fn follow(
        &mut self,
        alloc: Global,
        database: &Database,
        keys: &[Key],
    ) -> Result<Touched, Memory>
        requires before { IsTreeBut database.now.lsas keys.now self.old }
        requires few { database.now.limit ≤ max_routers }
        ensures right { OnOk result (FollowsLsas database.now.lsas self.old self.new) }
        ensures changed { OnOk result (NamesChanged self.old self.new) }
        ensures others { OnOk result (AreOthersKept self.old.tree self.new.tree) }
        ensures bounded { IfOk result (HasBoundedWork self.old self.new) }
        ensures work { IfOk result (IsWorkBetween self.old self.new) }
        ensures spent { OnErr result (self.new.spent ≡ true) }
    {
        let touched = self.follow_keys(alloc, database, keys);
        self.spent = touched.is_err();
        touched
    }

    /// Sets the interfaces of the area that are up, and returns the work of updating the tree.
    ///
    /// # Errors
    ///
    /// Returns `Memory` if memory runs out. The tree is then spent.
    pub fn interfaces(&mut self, alloc: Global, interfaces: &[Up]) -> Result<Touched, Memory>
        requires { IsTreeOfSome self.old }
        ensures right { OnOk result (FollowsInterfaces interfaces.now self.old self.new) }
        ensures changed { OnOk result (NamesChanged self.old self.new) }
        ensures others { OnOk result (AreOthersKept self.old.tree self.new.tree) }
        ensures bounded { IfOk result (HasBoundedWork self.old self.new) }
        ensures work { IfOk result (IsWorkBetween self.old self.new) }
        ensures spent { OnErr result (self.new.spent ≡ true) }
    {
        let touched = self.follow_interfaces(alloc, interfaces);
        self.spent = touched.is_err();
        touched
    }

    /// Returns the LSA in the area's database that describes the vertex, or `None` if there is
    /// none.
    ///
    /// For a router it is its own router-LSA. For a transit network it is the network-LSA with the
    /// greatest Advertising Router. Only usable LSAs count.
    pub fn lsa_for_vertex<'a>(&self, database: &'a Database, vertex: Vertex) -> Option<&'a Checked>
        requires { IsTreeIn database.now.lsas self.now }
        ensures body { IsStanding database.now.lsas vertex (option_map (λ l. l.now.body) result) }
        ensures own { IfSome result (λ l. vertex_of (key_of l.now) ≡ Some vertex) }
        ensures key { IfSome result (λ l. IsStandingKey database.now.lsas vertex (key_of l.now)) }
    {
        self.area.lsa_for_vertex(database, vertex)
    }

    /// Returns the vertex with a hint to its row in the area's graph. The layers of routes keep it,
    /// so that they need not hash the vertex again.
    pub fn with_hint(&self, vertex: Vertex) -> HintedVertex
        ensures { result ≡ vertex }
    {
        self.area.graph().with_hint(vertex)
    }

    /// Returns the distance of the vertex, a sum of metrics below 2^30, or `None` if it is not
    /// reached.
    pub fn distance(&self, vertex: Vertex) -> Option<u32>
        ensures value { result ≡ map.get self.now.tree.distances vertex }
        ensures bounded { IfSome result (λ distance. distance < most_distance) }
    {
        self.tree.distance(vertex)
    }

    /// Returns the next hops of the vertex, in ascending order.
    pub fn hops(&self, vertex: Vertex) -> &[NextHop]
        ensures value { result.now ≡ listed_hops (map.get self.now.tree.hops vertex) }
        ensures in_order { IsStrictlySortedBy hop_cmp result.now }
    {
        self.tree.hops(vertex)
    }

    /// Returns the distance of the vertex, as `distance` does. With the hint that `placed` gave it,
    /// the vertex is usually found without hashing it.
    pub fn distance_at(&self, vertex: &HintedVertex) -> Option<u32>
        ensures value { result ≡ map.get self.now.tree.distances vertex.now }
        ensures bounded { IfSome result (λ distance. distance < most_distance) }
    {
        self.tree.distance_at(vertex)
    }

    /// Returns the next hops of the vertex, as `hops` does. With the hint that `placed` gave it,
    /// the vertex is usually found without hashing it.
    pub fn hops_at(&self, vertex: &HintedVertex) -> &[NextHop]
        ensures value { result.now ≡ listed_hops (map.get self.now.tree.hops vertex.now) }
        ensures in_order { IsStrictlySortedBy hop_cmp result.now }
    {
        self.tree.hops_at(vertex)
    }

    /// Returns the links from the vertex that both sides list (RFC 2328, 16.1 (2b)), without
    /// duplicates. The slice is empty if the graph does not have the vertex.
    pub fn links_from(&self, vertex: Vertex) -> &[GraphLink]
        ensures exact { AreLinksFrom self.now.area.graph vertex result.now }
        ensures each_once { AllPairs (λ k l. k ≢ l) result.now }
    {
        self.area.graph().links_from(vertex)
    }

    /// Returns the links of a shortest path from the root to the vertex, in order, over which the
    /// vertex gets this next hop (RFC 2328, 16.1 and 16.1.1). The list is empty if the vertex does
    /// not have the next hop.
    ///
    /// If there are several such paths, it is one of them.
    pub fn links_of_path(
        &self,
        alloc: Global,
        vertex: Vertex,
        hop: NextHop,
    ) -> Result<Vec<&GraphLink>, Memory>
        requires { IsTreeOfSome self.now }
        ensures { IfOk result (λ links. IsPathOver self.now.area.graph vertex hop (links_at links.items)) }
    {
        crate::links_of_path(alloc, self.area.graph(), &self.tree, vertex, hop)
    }

    /// Returns the vertices whose distance or next hops the last update changed, in ascending
    /// order.
    pub fn changed(&self) -> &[Vertex]
        ensures { result.now ≡ self.now.tree.changed }
    {
        self.tree.changed()
    }

    /// Returns true if an update ran out of memory.
    pub fn spent(&self) -> bool
        ensures { result ≡ self.now.spent }
    {
        self.spent
    }
}

impl AreaTree {
    // Updates the graph and repairs the tree. After an error they need not match any database.
    fn follow_keys(
        &mut self,
        alloc: Global,
        database: &Database,
        keys: &[Key],
    ) -> Result<Touched, Memory>
        requires before { IsTreeBut database.now.lsas keys.now self.old }
        requires few { database.now.limit ≤ max_routers }
        ensures right { OnOk result (FollowsLsas database.now.lsas self.old self.new) }
        ensures changed { OnOk result (NamesChanged self.old self.new) }
        ensures others { OnOk result (AreOthersKept self.old.tree self.new.tree) }
        ensures bounded { IfOk result (HasBoundedWork self.old self.new) }
        ensures work { IfOk result (IsWorkBetween self.old self.new) }
    {
        if keys.is_empty() {
            self.tree.mark_unchanged();
            return Ok(Touched::none());
        }
        let changes = self.area.follow(alloc, database, keys)?;
        self.tree.repair(alloc, self.area.graph(), &changes)
    }

    // Sets the interfaces that are up, and repairs the tree.
    fn follow_interfaces(&mut self, alloc: Global, interfaces: &[Up]) -> Result<Touched, Memory>
        requires { IsTreeOfSome self.old }
        ensures right { OnOk result (FollowsInterfaces interfaces.now self.old self.new) }
        ensures changed { OnOk result (NamesChanged self.old self.new) }
        ensures others { OnOk result (AreOthersKept self.old.tree self.new.tree) }
        ensures bounded { IfOk result (HasBoundedWork self.old self.new) }
        ensures work { IfOk result (IsWorkBetween self.old self.new) }
    {
        let changes = self.area.interfaces(interfaces)?;
        self.tree.repair(alloc, self.area.graph(), &changes)
    }
}
