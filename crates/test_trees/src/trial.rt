//! A graph and its tree, which agree after each change.
ghost use Rattle.std.specs.Prelude.{◌≡◌, ◌<◌, IfOk, OnOk, OnErr};
ghost use Rattle.std.specs.FinMap as map;
ghost use Rattle.vertex_graph.specs.Graphs.{HasEnds, AreApartHanded, AreFewAfter, handed_of};
ghost use Rattle.test_trees.specs.Changes.{AreTogether, AreChangesOf, AreChangesTo};

use area_trees::links_of_path;
use lsa_codec::Checked;
use ospf_types::entry::Vertex;
use ospf_types::hop::NextHop;
use ospf_types::memory::Memory;
use spf::{Touched, Tree};
use std::alloc::Global;
use std::hash::RandomState;
use std::marker::Model;
use vertex_graph::{Graph, GraphLink, LinkChanges, Up};

/// A graph, and the shortest-path tree of its links.
#[derive(Drop)]
pub(crate) struct Trial {
    graph: Graph,
    tree: Tree,
}

impl Model for Trial {
    ghost use Rattle.std.specs.Prelude.{ℕ};
    ghost use Rattle.test_trees.specs.Changes.{AreTogether};

    ghost Value = { ℕ };

    ghost view = { λ t. t.graph.root };

    ghost invariant = { λ t. AreTogether t.graph t.tree };
}

impl Trial {
    /// Creates the trial of a router, with no vertex and no interface.
    pub(crate) fn new(alloc: Global, root: u32, hashing: RandomState) -> Result<Trial, Memory> {
        let graph = Graph::new(alloc, root, hashing);
        let (tree, _) = Tree::build(alloc, &graph, hashing)?;
        Ok(Trial { graph, tree })
    }

    pub(crate) fn graph(&self) -> &Graph {
        &self.graph
    }

    pub(crate) fn tree(&self) -> &Tree {
        &self.tree
    }

    /// Replaces or removes the LSA of one vertex, or of two. Returns the work of the repair.
    ///
    /// # Errors
    ///
    /// Returns `Memory` if memory runs out. A graph that is refused memory is unchanged, and a
    /// repair that is refused memory spends the tree. A graph of 1000 vertices gets no memory, and
    /// a spent tree is not repaired.
    pub(crate) fn replace(
        &mut self,
        alloc: Global,
        lsas: &[(Vertex, Option<&Checked>)],
    ) -> Result<Touched, Memory> {
        replace(alloc, &mut self.graph, &mut self.tree, lsas)
    }

    /// Returns the links of a path to the vertex by this next hop, or an empty list if the vertex
    /// has no such next hop.
    ///
    /// # Errors
    ///
    /// Returns `Memory` if memory runs out, or if the tree is spent.
    pub(crate) fn path(
        &self,
        alloc: Global,
        to: Vertex,
        hop: NextHop,
    ) -> Result<Vec<&GraphLink>, Memory> {
        if self.tree.spent() {
            return Err(Memory);
        }
        links_of_path(alloc, &self.graph, &self.tree, to, hop)
    }

    /// Sets the interfaces that are up. Returns the work of the repair.
    pub(crate) fn interfaces(&mut self, alloc: Global, ups: &[Up]) -> Result<Touched, Memory> {
        interfaces(alloc, &mut self.graph, &mut self.tree, ups)
    }
}

fn replace(
    alloc: Global,
    graph: &mut Graph,
    tree: &mut Tree,
    lsas: &[(Vertex, Option<&Checked>)],
) -> Result<Touched, Memory>
    requires { AreTogether graph.old tree.old }
    ensures { AreTogether graph.new tree.new }
{
    let changes = hand_in(graph, lsas)?;
    repair(alloc, graph, tree, &changes)
}

fn interfaces(
    alloc: Global,
    graph: &mut Graph,
    tree: &mut Tree,
    ups: &[Up],
) -> Result<Touched, Memory>
    requires { AreTogether graph.old tree.old }
    ensures { AreTogether graph.new tree.new }
{
    let changes = put_up(graph, ups)?;
    repair(alloc, graph, tree, &changes)
}

/// Replaces or removes the LSAs of one or two vertices of a small graph.
pub(crate) fn hand_in(
    graph: &mut Graph,
    lsas: &[(Vertex, Option<&Checked>)],
) -> Result<LinkChanges, Memory>
    ensures changes { IfOk result (λ changes. AreChangesOf graph.old graph.new changes.gone.items changes.came.items) }
    ensures unchanged { OnErr result (graph.new ≡ graph.old) }
{
    test_apart(lsas)?;
    test_size(graph, lsas)?;
    graph.replace_all(lsas)
}

fn put_up(graph: &mut Graph, ups: &[Up]) -> Result<LinkChanges, Memory>
    ensures changes { IfOk result (λ changes. AreChangesOf graph.old graph.new changes.gone.items changes.came.items) }
    ensures unchanged { OnErr result (graph.new ≡ graph.old) }
{
    let _ = graph.root();
    graph.interfaces(ups)
}

// Returns `Memory` unless there is one LSA, or two of different vertices.
fn test_apart(lsas: &[(Vertex, Option<&Checked>)]) -> Result<(), Memory>
    ensures { OnOk result (AreApartHanded (handed_of lsas.now)) }
{
    match lsas {
        [_] => Ok(()),
        [first, second] if first.0 != second.0 => Ok(()),
        _ => Err(Memory),
    }
}

// Returns `Memory` unless the graph and the list are small.
pub(crate) fn test_size(graph: &Graph, lsas: &[(Vertex, Option<&Checked>)]) -> Result<(), Memory>
    ensures few { OnOk result (AreFewAfter graph.now (handed_of lsas.now)) }
    ensures ends { OnOk result (HasEnds graph.now) }
{
    let _ = graph.root();
    if graph.len() < 1000 && lsas.len() < 1000 {
        return Ok(());
    }
    Err(Memory)
}

fn repair(
    alloc: Global,
    graph: &Graph,
    tree: &mut Tree,
    changes: &LinkChanges,
) -> Result<Touched, Memory>
    requires { AreChangesTo graph.now changes.now.gone.items changes.now.came.items tree.old }
    ensures { AreTogether graph.now tree.new }
{
    let _ = graph.root();
    if tree.spent() {
        return Err(Memory);
    }
    tree.repair(alloc, graph, changes)
}
