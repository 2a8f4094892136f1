//! The graph of an area: its vertices and links.
ghost use Rattle.std.specs.Prelude.{◌≡◌, ◌≢◌, ◌↔◌, [], IsTrue, OnOk, OnErr, IfOk, option_copied};
ghost use Rattle.std.specs.List.{AllPairs};
ghost use Rattle.std.specs.FinMap as map;
ghost use Rattle.ospf_types.specs.Vertices.{vertex_cmp};
ghost use Rattle.vertex_graph.specs.Graphs.{AreApartHanded, AreFewAfter, AreLinkChanges};
ghost use Rattle.vertex_graph.specs.Graphs.{AreLinksFrom, AreLinksTo, HasCheapLinks, HasEnds};
ghost use Rattle.vertex_graph.specs.Graphs.{HasFewRouters, HasRoot, IsReplaced, handed_of};
ghost use Rattle.vertex_graph.specs.Graphs.{handed_in};
ghost use Rattle.graph_links.specs.Pairs.{AreCheap};

use crate::change::GraphChange;
use crate::staging::{Staging, stage, stage_root};
use graph_links::{GraphLink, LinkChanges, RootInterfaces, Row, RowPool, Rows, Up};
use indexmap::IndexMap;
use lsa_codec::Checked;
use ospf_types::WordHash;
use ospf_types::entry::Vertex;
use ospf_types::memory::Memory;
use std::alloc::Global;
use std::hash::RandomState;
use std::marker::Model;
use vertex_map::HintedVertex;

/// The graph of an area. Its vertices are the routers and transit networks with an LSA, and its
/// links are listed by both sides (RFC 2328, 16.1 (2b)).
///
/// It keeps memory from one change for the next.
pub struct Graph {
    root: u32,
    rows: Rows,
    interfaces: Vec<Up>,
    staging: Staging,
    room: RowPool,
}

// proof: a value is dropped by one call, not part by part at each exit of a function.
impl Drop for Graph {
    fn drop(self) {
        let Graph {
            root: _,
            rows: _rows,
            interfaces: _interfaces,
            staging: _staging,
            room: _room,
        } = self;
    }
}

impl Model for Graph {
    ghost use Rattle.std.specs.FinMap as map;
    ghost use Rattle.std.specs.Coded.{Coded, codes};
    ghost use Rattle.ospf_types.specs.Vertices.{vertex_code};
    ghost use Rattle.vertex_graph.specs.Graphs.{GraphValue, EndsByVertex};

    ghost Value = { GraphValue };

    ghost coded = { let ends : Coded EndsByVertex = map.code vertex_code (Prim.hlevel codes) in Prim.hlevel (codes, ends) };

    ghost use Rattle.vertex_graph.specs.Rows.{graph_of, AreRows};

    ghost view = { λ g. graph_of g.root g.rows.entries g.interfaces.items };

    ghost invariant = { λ g. AreRows g.root g.rows.entries g.interfaces.items };
}

impl Graph {
    /// Creates a graph without vertices and interfaces. `root` is the Router ID of the calculating
    /// router.
    pub fn new(alloc: Global, root: u32, hashing: RandomState) -> Graph
        ensures { result ≡ record { root = root; ends = map.empty; interfaces = [] } }
    {
        let hashing = WordHash::new(hashing);
        Graph {
            root,
            rows: IndexMap::with_hasher(alloc, hashing),
            interfaces: Vec::new(alloc),
            staging: Staging::new(alloc, hashing),
            room: RowPool::new(alloc),
        }
    }

    /// Returns the Router ID of the root.
    pub fn root(&self) -> u32
        ensures value { result ≡ self.now.root }
        ensures few { HasFewRouters self.now }
        ensures ends { HasEnds self.now }
        ensures cheap { HasCheapLinks self.now }
    {
        self.root
    }

    /// Returns the number of vertices.
    pub fn len(&self) -> usize
        ensures { result ≡ map.len self.now.ends }
    {
        self.rows.len()
    }

    /// Returns true if the root is a vertex.
    pub fn has_root(&self) -> bool
        ensures { IsTrue result ↔ HasRoot self.now }
    {
        self.rows.contains_key(&Vertex::Router(self.root))
    }

    /// Returns the links from the vertex, without duplicates. The slice is empty if the graph does
    /// not have the vertex.
    pub fn links_from(&self, vertex: Vertex) -> &[GraphLink]
        ensures exact { AreLinksFrom self.now vertex result.now }
        ensures each_once { AllPairs (λ k l. k ≢ l) result.now }
        ensures cheap { AreCheap result.now }
    {
        self.links_from_at(&HintedVertex::without_hint(vertex))
    }

    /// Returns the links to the vertex, without duplicates. The slice is empty if the graph does
    /// not have the vertex.
    pub fn links_to(&self, vertex: Vertex) -> &[GraphLink]
        ensures exact { AreLinksTo self.now vertex result.now }
        ensures each_once { AllPairs (λ k l. k ≢ l) result.now }
        ensures cheap { AreCheap result.now }
    {
        self.links_to_at(&HintedVertex::without_hint(vertex))
    }

    /// Returns the links from the vertex, as `links_from` does. The vertex is hashed only if its
    /// hint is wrong.
    pub fn links_from_at(&self, vertex: &HintedVertex) -> &[GraphLink]
        ensures exact { AreLinksFrom self.now vertex.now result.now }
        ensures each_once { AllPairs (λ k l. k ≢ l) result.now }
        ensures cheap { AreCheap result.now }
    {
        match row_at(&self.rows, vertex) {
            Some(row) => &row.out,
            None => &[],
        }
    }

    /// Returns the links to the vertex, as `links_to` does. The vertex is hashed only if its hint
    /// is wrong.
    pub fn links_to_at(&self, vertex: &HintedVertex) -> &[GraphLink]
        ensures exact { AreLinksTo self.now vertex.now result.now }
        ensures each_once { AllPairs (λ k l. k ≢ l) result.now }
        ensures cheap { AreCheap result.now }
    {
        match row_at(&self.rows, vertex) {
            Some(row) => &row.into,
            None => &[],
        }
    }

    /// Returns the vertex with a hint to its row, for `links_from_at` and `links_to_at`.
    pub fn with_hint(&self, vertex: Vertex) -> HintedVertex
        ensures { result ≡ vertex }
    {
        match self.rows.get_index_of(&vertex) {
            Some(place) => HintedVertex::new(vertex, u32::try_from(place).unwrap_or(u32::MAX)),
            None => HintedVertex::without_hint(vertex),
        }
    }

    /// Replaces the LSA of each vertex, or removes the vertex if it has none, and returns the links
    /// that were removed and added.
    ///
    /// No vertex is listed twice. The caller passes usable LSAs (below MaxAge), and for a network
    /// the network-LSA with the greatest Advertising Router.
    ///
    /// # Errors
    ///
    /// Returns `Memory` if memory runs out. The graph is then unchanged.
    pub fn replace_all(
        &mut self,
        lsas: &[(Vertex, Option<&Checked>)],
    ) -> Result<LinkChanges, Memory>
        requires apart { AreApartHanded (handed_of lsas.now) }
        requires few { AreFewAfter self.old (handed_of lsas.now) }
        ensures replaced { OnOk result (IsReplaced self.old self.new (handed_of lsas.now)) }
        ensures exact { IfOk result (AreLinkChanges self.old self.new) }
        ensures unchanged { OnErr result (self.new ≡ self.old) }
    {
        let alloc = *self.interfaces.allocator();
        stage(alloc, &self.rows, lsas, &mut self.staging)?;
        let change = GraphChange {
            local: RootInterfaces {
                root: self.root,
                interfaces: &self.interfaces,
            },
            staging: &self.staging,
        };
        let changes = change.make(alloc, &mut self.rows, &mut self.room)?;
        Ok(changes)
    }

    /// Replaces the LSA of the vertex, or removes the vertex if it has none. Returns the links that
    /// were removed and added.
    ///
    /// # Errors
    ///
    /// Returns `Memory` if memory runs out. The graph is then unchanged.
    pub fn replace(&mut self, vertex: Vertex, lsa: Option<&Checked>) -> Result<LinkChanges, Memory>
        requires few { AreFewAfter self.old (handed_in vertex lsa) }
        ensures replaced { OnOk result (IsReplaced self.old self.new (handed_in vertex lsa.entry)) }
        ensures exact { IfOk result (AreLinkChanges self.old self.new) }
        ensures unchanged { OnErr result (self.new ≡ self.old) }
    {
        self.replace_all(&[(vertex, lsa)])
    }

    /// Sets the interfaces of the area that are up, and returns the links that were removed and
    /// added.
    ///
    /// # Errors
    ///
    /// Returns `Memory` if memory runs out. The graph is then unchanged.
    pub fn interfaces(&mut self, interfaces: &[Up]) -> Result<LinkChanges, Memory>
        ensures root { self.new.root ≡ self.old.root }
        ensures ends { self.new.ends ≡ self.old.ends }
        ensures interfaces { OnOk result (self.new.interfaces ≡ interfaces.now) }
        ensures exact { IfOk result (AreLinkChanges self.old self.new) }
        ensures unchanged { OnErr result (self.new ≡ self.old) }
    {
        let alloc = *self.interfaces.allocator();
        let ups = Vec::from_slice(alloc, interfaces)?;
        stage_root(alloc, &self.rows, self.root, &mut self.staging)?;
        let change = GraphChange {
            local: RootInterfaces {
                root: self.root,
                interfaces: &ups,
            },
            staging: &self.staging,
        };
        let changes = change.make(alloc, &mut self.rows, &mut self.room)?;
        self.interfaces = ups;
        Ok(changes)
    }
}

// Returns the vertex's row. The vertex is hashed only if its hint is wrong.
fn row_at<'a>(rows: &'a Rows, vertex: &HintedVertex) -> Option<&'a Row>
    ensures { option_copied result ≡ map.find vertex_cmp vertex.now rows.now.entries }
{
    match rows.get_index(vertex.place()) {
        Some((at, row)) if *at == vertex.vertex() => Some(row),
        _ => rows.get(&vertex.vertex()),
    }
}
