//! The tree, and the order of the parts of a repair.
ghost use Rattle.std.specs.Prelude.{◌≡◌, ◌<◌, [], OnOk, OnErr, IfOk, IfSome};
ghost use Rattle.std.specs.FinMap as map;
ghost use Rattle.std.specs.List.Sorted.{IsStrictlySortedBy};
ghost use Rattle.ospf_types.specs.Hops.{hop_cmp};
ghost use Rattle.vertex_queue.specs.Maps.{most_distance};
ghost use Rattle.spf.specs.TreeValues.{AreChanged, AreOthersKept, IsBoundedBy, IsBuildWork};
ghost use Rattle.spf.specs.TreeValues.{IsIdleUnless, IsRepairWork, IsTreeBefore, IsTreeOf, at_rest};
ghost use Rattle.spf.specs.TreeValues.{listed_hops, spent_value};

use crate::hints::{root_of, tail_of};
use crate::lose_support::lose_support;
use crate::relax::LinksAfter;
use crate::workspace::Workspace;
use ospf_types::WordHash;
use ospf_types::entry::Vertex;
use ospf_types::hop::NextHop;
use ospf_types::memory::Memory;
use std::alloc::Global;
use std::hash::RandomState;
use std::marker::Model;
use vertex_graph::{Graph, LinkChanges};
use vertex_map::HintedVertex;
use vertex_queue::differing::{Repaired, remember};
use vertex_queue::{Distances, NextHopMap, Touched};

/// The shortest-path tree of an area, with distances and next hops.
///
/// It is *spent* after a repair ran out of memory: it is then empty, and a new tree has to be
/// built.
pub struct Tree {
    distances: Distances,
    hops: NextHopMap,
    changed: Vec<Vertex>,
    spent: bool,
    // The root, with a hint.
    root: HintedVertex,
    workspace: Workspace,
}

// proof: a value is dropped by one call, not part by part at each exit of a function.
impl Drop for Tree {
    fn drop(self) {
        let Tree {
            distances: _distances,
            hops: _hops,
            changed: _changed,
            spent: _,
            root: _root,
            workspace: _workspace,
        } = self;
    }
}

impl Model for Tree {
    ghost use Rattle.std.specs.Coded.{Coded, codes, coded_ℕ};
    ghost use Rattle.std.specs.FinMap as map;
    ghost use Rattle.ospf_types.specs.Vertices.{vertex_code};
    ghost use Rattle.vertex_queue.specs.Maps.{DistanceMap, HopMap};
    ghost use Rattle.spf.specs.TreeValues.{TreeValue};

    ghost Value = { TreeValue };

    ghost coded = { let distances : Coded DistanceMap = map.code vertex_code coded_ℕ in
        let hops : Coded HopMap = map.code vertex_code (Prim.hlevel codes) in
        Prim.hlevel (codes, distances, hops) };

    ghost view = { λ t. record { distances = t.distances; hops = t.hops; changed = t.changed.items; spent = t.spent } };
}

impl Tree {
    /// Builds the tree of the graph, and returns it with the work of building it.
    ///
    /// # Errors
    ///
    /// Returns `Memory` if memory runs out.
    pub fn build(
        alloc: Global,
        graph: &Graph,
        hashing: RandomState,
    ) -> Result<(Tree, Touched), Memory>
        ensures tree { IfOk result (λ built. IsTreeOf graph.now built.0) }
        ensures changed { IfOk result (λ built. built.0.changed ≡ []) }
        ensures work { IfOk result (λ built. IsBuildWork graph.now built.0 built.1) }
    {
        let hashing = WordHash::new(hashing);
        let mut distances = Distances::with_room(alloc, hashing, graph.len())?;
        let mut hops = NextHopMap::with_room(alloc, hashing, graph.len())?;
        let mut workspace = Workspace::new(alloc, hashing);
        let root = Vertex::Router(graph.root());
        let came = graph.links_from(root);
        let root = tail_of(came, root);
        let touched = workspace.update_distances_and_hops(
            LinksAfter {
                graph,
                root: &root,
                came,
            },
            &mut distances,
            &mut hops,
        )?;
        let tree = Tree {
            distances,
            hops,
            changed: Vec::new(alloc),
            spent: false,
            root,
            // The workspace of the build is dropped, because few repairs need as much memory.
            workspace: Workspace::new(alloc, hashing),
        };
        Ok((tree, touched))
    }

    /// Updates the tree after a change of links, and returns the work. The tree must be right for
    /// the links before the change. `graph` is the graph after it.
    ///
    /// # Errors
    ///
    /// Returns `Memory` if memory runs out. The tree is then spent.
    pub fn repair(
        &mut self,
        alloc: Global,
        graph: &Graph,
        changes: &LinkChanges,
    ) -> Result<Touched, Memory>
        requires { IsTreeBefore graph.now changes.now.gone.items changes.now.came.items self.old }
        ensures tree { OnOk result (IsTreeOf graph.now self.new) }
        ensures changed { OnOk result (AreChanged self.old self.new self.new.changed) }
        ensures others { OnOk result (AreOthersKept self.old self.new) }
        ensures bounded { IfOk result (IsBoundedBy graph.now
            changes.now.gone.items changes.now.came.items self.old) }
        ensures idle { IfOk result (IsIdleUnless changes.now.gone.items changes.now.came.items) }
        ensures work { IfOk result (IsRepairWork graph.now self.old self.new) }
        ensures spent { OnErr result (self.new ≡ spent_value) }
    {
        self.trim(graph);
        let repaired = self.repair_parts(graph, changes);
        match &repaired {
            Ok(_) => self.workspace.give_back(alloc),
            Err(_) => self.spend(),
        }
        repaired
    }

    /// Clears the list of changed vertices. It is called instead of `repair` if no link changed.
    pub fn mark_unchanged(&mut self)
        ensures { self.new ≡ at_rest self.old }
    {
        self.changed.clear();
    }

    /// Returns the distance of the vertex, a sum of metrics below 2^30. It is `None` if the vertex
    /// is not reached or the tree is spent.
    pub fn distance(&self, vertex: Vertex) -> Option<u32>
        ensures value { result ≡ map.get self.now.distances vertex }
        ensures bounded { IfSome result (λ distance. distance < most_distance) }
    {
        self.distances.find(vertex)
    }

    /// Returns the next hops of the vertex, in ascending order. There are none for the root, for a
    /// vertex that is not reached, and in a spent tree.
    pub fn hops(&self, vertex: Vertex) -> &[NextHop]
        ensures value { result.now ≡ listed_hops (map.get self.now.hops vertex) }
        ensures in_order { IsStrictlySortedBy hop_cmp result.now }
    {
        match self.hops.find(vertex) {
            Some(hops) => hops.as_slice(),
            None => &[],
        }
    }

    /// Returns the distance of the vertex, as `distance` does. The vertex is hashed only if its
    /// hint, the place of its row in the graph, is wrong.
    pub fn distance_at(&self, vertex: &HintedVertex) -> Option<u32>
        ensures value { result ≡ map.get self.now.distances vertex.now }
        ensures bounded { IfSome result (λ distance. distance < most_distance) }
    {
        self.distances.get(vertex)
    }

    /// Returns the next hops of the vertex, as `hops` does. The vertex is hashed only if its hint,
    /// the place of its row in the graph, is wrong.
    pub fn hops_at(&self, vertex: &HintedVertex) -> &[NextHop]
        ensures value { result.now ≡ listed_hops (map.get self.now.hops vertex.now) }
        ensures in_order { IsStrictlySortedBy hop_cmp result.now }
    {
        match self.hops.get(vertex) {
            Some(hops) => hops.as_slice(),
            None => &[],
        }
    }

    /// Returns true if a repair ran out of memory. A spent tree must not be repaired.
    pub fn spent(&self) -> bool
        ensures { result ≡ self.now.spent }
    {
        self.spent
    }

    /// Returns the vertices whose distance or next hops the last repair changed, in ascending
    /// order.
    ///
    /// The list of a tree that was built, and not repaired since, is empty.
    pub fn changed(&self) -> &[Vertex]
        ensures { result.now ≡ self.now.changed }
    {
        self.changed.as_slice()
    }
}

impl Tree {
    // Carries out all parts of a repair, and lists the changed vertices. After an error the tree
    // may match neither the old nor the new links.
    fn repair_parts(&mut self, graph: &Graph, changes: &LinkChanges) -> Result<Touched, Memory>
        requires { IsTreeBefore graph.now changes.now.gone.items changes.now.came.items self.old }
        ensures tree { OnOk result (IsTreeOf graph.now self.new) }
        ensures changed { OnOk result (AreChanged self.old self.new self.new.changed) }
        ensures others { OnOk result (AreOthersKept self.old self.new) }
        ensures bounded { IfOk result (IsBoundedBy graph.now
            changes.now.gone.items changes.now.came.items self.old) }
        ensures idle { IfOk result (IsIdleUnless changes.now.gone.items changes.now.came.items) }
        ensures work { IfOk result (IsRepairWork graph.now self.old self.new) }
    {
        lose_support(graph, changes, &self.distances, &mut self.workspace.search)?;
        self.root = root_of(graph, &self.root);
        remember(
            &self.distances,
            &self.root,
            self.workspace.search.lost.as_slice(),
            &mut self.workspace.remembered,
        )?;
        let touched = self.workspace.update_distances_and_hops(
            LinksAfter {
                graph,
                root: &self.root,
                came: changes.came.as_slice(),
            },
            &mut self.distances,
            &mut self.hops,
        )?;
        let repaired = Repaired {
            remembered: self.workspace.remembered.as_slice(),
            distances: &self.distances,
            lost: &self.workspace.search.lost,
            moved: &self.workspace.moved,
            written: &self.workspace.writer.written,
        };
        repaired.list_differing(&mut self.workspace.listing, &mut self.changed)?;
        Ok(touched)
    }

    // Drops the places of removed vertices, if there are many.
    fn trim(&mut self, graph: &Graph)
        ensures { self.new ≡ self.old }
    {
        let most = graph.len().saturating_mul(2).saturating_add(64);
        self.distances.trim(most);
        self.hops.trim(most);
        self.workspace.trim(most);
    }

    // Empties the tree, and marks it as spent.
    fn spend(&mut self)
        ensures { self.new ≡ spent_value }
    {
        self.distances.clear();
        self.hops.clear();
        self.changed.clear();
        self.spent = true;
    }
}
