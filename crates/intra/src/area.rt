//! Per-area state: the index of the area's LSAs, and the routers reached in it.
ghost use Rattle.std.specs.Prelude.{◌≡◌, OnOk, IfOk, IfSome, IfNone, IsTrue, false, option_copied};
ghost use Rattle.std.specs.FinMap as map;
ghost use Rattle.ospf_types.specs.declared.entry.Vertex.{Vertex as VertexValue};
ghost use Rattle.ospf_types.specs.declared.entry.Vertex.TheVariants as vertex_value;
ghost use Rattle.spf.specs.HandedOn.{IsOfSome};
ghost use Rattle.intra.specs.Indexes.{IsIndex, IsAreaIndexOf};
ghost use Rattle.intra.specs.Following.{AreRoutersBrought, AreRoutersUpdated, HasOffered};
ghost use Rattle.intra.specs.Following.{IsAmongKeys, IsAmongVertices, IsGatheredFor, IsIndexBefore};
ghost use Rattle.intra.specs.Following.{IsRouterIn, IsRouterOf, IsIndexUpdated, NamesIn, NamesVertex};
ghost use Rattle.intra.specs.Following.{flags_in};
ghost use Rattle.intra.specs.Inputs.{HasTree};
ghost use Rattle.intra.specs.Intras.{empty_area};
ghost use Rattle.intra.specs.ReachedRouter.{HasKeptToo, HasOnceMore, KeepsNone, has_bits};
ghost use Rattle.intra.specs.ReachedRouter.{reached_in};

use crate::affected::Affected;
use crate::area_index::AreaIndex;
use crate::dirty::Dirty;
use crate::inputs::{AreaInputs, RootedArea};
use crate::offered::push_prefixes;
use area_trees::vertex_of;
use ospf_types::WordHash;
use ospf_types::entry::Vertex;
use ospf_types::key::{Key, Scope};
use ospf_types::memory::Memory;
use ospf_types::prefix::Prefix;
use route_choice::{ReachedRouter, ResultMap, RouterReach, is_abr_or_asbr, reached_abr_or_asbr};
use std::alloc::Global;
use std::marker::Model;

/// The state of an area.
pub(crate) struct AreaIntra {
    alloc: Global,
    id: u32,
    index: AreaIndex,
    reached: ResultMap<u32, ReachedRouter>,
}

// proof: a value is dropped by one call, not part by part at each exit of a function.
impl Drop for AreaIntra {
    fn drop(self) {
        let AreaIntra {
            alloc: _,
            id: _,
            index: _index,
            reached: _reached,
        } = self;
    }
}

impl Model for AreaIntra {
    ghost use Rattle.std.specs.FinMap as map;
    ghost use Rattle.std.specs.Coded.{Coded, codes, coded_ℕ};
    ghost use Rattle.ospf_types.specs.Network.{network_code};
    ghost use Rattle.ospf_types.specs.Vertices.{vertex_code};
    ghost use Rattle.intra.specs.Indexes.{OfferedByVertex, SourcesByPrefix};
    ghost use Rattle.intra.specs.ReachedRouter.{ReachedByRouter};
    ghost use Rattle.intra.specs.Intras.{AreaIntraValue};
    ghost use Rattle.intra.specs.contracts.offered.OfferedPrefix as offer;
    ghost use Rattle.intra.specs.contracts.area_index.PrefixSource as source;

    ghost Value = { AreaIntraValue };

    ghost coded = { let offered : Coded OfferedByVertex = map.code vertex_code (Prim.hlevel (codes, offer.the_row.coded)) in
        let sources : Coded SourcesByPrefix = map.code network_code (Prim.hlevel (codes, source.the_row.coded)) in
        let reached : Coded ReachedByRouter = map.code coded_ℕ (Prim.hlevel codes) in
        Prim.hlevel (codes, offered, sources, reached) };

    ghost view = { λ a. record { id = a.id; index = a.index; reached = map.from_entries a.reached.entries } };
}

impl AreaIntra {
    /// Creates the state of an area without LSAs.
    pub(crate) fn new(alloc: Global, id: u32, hashing: WordHash) -> AreaIntra
        ensures { result ≡ empty_area id }
    {
        AreaIntra {
            alloc,
            id,
            index: AreaIndex::new(alloc, hashing),
            reached: ResultMap::with_hasher(alloc, hashing),
        }
    }

    /// Returns the Area ID.
    pub(crate) fn id(&self) -> u32
        ensures { result ≡ self.now.id }
    {
        self.id
    }

    pub(crate) fn index(&self) -> &AreaIndex
        ensures { result.now ≡ self.now.index }
    {
        &self.index
    }

    /// Returns the value that is kept of an area border router or AS boundary router, or `None` if
    /// the area has none for this Router ID.
    pub(crate) fn router(&self, router: u32) -> Option<&ReachedRouter>
        ensures { option_copied result ≡ map.get self.now.reached router }
    {
        self.reached.get(router)
    }

    /// Appends the Router IDs of the routers that are kept.
    pub(crate) fn push_routers(&self, routers: &mut Vec<u32>) -> Result<(), Memory>
        ensures as_often { OnOk result (HasOnceMore self.now.reached
            routers.old.items routers.new.items) }
        ensures exact { OnOk result (HasKeptToo self.now.reached
            routers.old.items routers.new.items) }
    {
        routers.extend_from_slice(self.reached.key_slice())?;
        Ok(())
    }
}

impl AreaIntra {
    /// Updates the index by the changed LSAs, and the routers that changed.
    ///
    /// Appends to `named` the prefixes whose entry may change. These are the prefixes of LSAs that
    /// offer something else and of changed vertices, and the prefixes of the root if an interface
    /// changed. Appends also the routers whose kept value changed.
    pub(crate) fn follow(
        &mut self,
        rooted: &RootedArea<'_>,
        dirty: &Dirty,
        named: &mut Affected,
    ) -> Result<(), Memory>
        requires ready { HasTree rooted.now.area.now }
        requires before { IsIndexBefore dirty.now.keys.items rooted.now.area.now.lsas self.old }
        ensures index { OnOk result (IsAreaIndexOf rooted.now.area.now.lsas self.new.index) }
        ensures gathered { OnOk result (IsGatheredFor rooted.now.root dirty.now self.old self.new
            named.old.prefixes.items named.new.prefixes.items) }
        ensures updated { OnOk result (AreRoutersBrought rooted.now.root rooted.now.area.now
            dirty.now self.old self.new
            named.old.routers.items named.new.routers.items) }
    {
        self.follow_keys(rooted.area, &dirty.keys, &mut named.prefixes)?;
        self.update_by_keys(rooted, &dirty.keys, &mut named.routers)?;
        self.follow_vertices(rooted, &dirty.vertices, named)?;
        if !dirty.interfaces.is_empty() {
            self.name_prefixes(Vertex::Router(rooted.root), &mut named.prefixes)?;
        }
        Ok(())
    }

    // Updates the index by the changed LSAs of the area.
    fn follow_keys(
        &mut self,
        area: &AreaInputs<'_>,
        keys: &[(Scope, Key)],
        prefixes: &mut Vec<Prefix>,
    ) -> Result<(), Memory>
        requires index { IsIndex self.old.index }
        requires ready { HasTree area.now }
        ensures { OnOk result (IsIndexUpdated area.now.lsas (IsOfSome keys.now (NamesVertex self.old.id))
            self.old self.new prefixes.old.items prefixes.new.items) }
    {
        for named in keys {
            self.follow_key(area, *named, prefixes)?;
        }
        Ok(())
    }

    // Updates the index by the LSA with this key, if it is a vertex's LSA in the area.
    fn follow_key(
        &mut self,
        area: &AreaInputs<'_>,
        named: (Scope, Key),
        prefixes: &mut Vec<Prefix>,
    ) -> Result<(), Memory>
        requires index { IsIndex self.old.index }
        requires ready { HasTree area.now }
        ensures { OnOk result (IsIndexUpdated area.now.lsas (NamesVertex self.old.id named)
            self.old self.new prefixes.old.items prefixes.new.items) }
    {
        let Some(vertex) = vertex_in(self.id, named) else {
            return Ok(());
        };
        self.index.follow(area, vertex, prefixes)?;
        Ok(())
    }

    // Appends the prefixes of the changed vertices of the area, and updates the routers among them.
    fn follow_vertices(
        &mut self,
        rooted: &RootedArea<'_>,
        vertices: &[(u32, Vertex)],
        named: &mut Affected,
    ) -> Result<(), Memory>
        ensures offered { OnOk result (HasOffered self.old.index
            (IsOfSome vertices.now (NamesIn self.old.id))
            named.old.prefixes.items named.new.prefixes.items) }
        ensures updated { OnOk result (AreRoutersUpdated rooted.now.root rooted.now.area.now
            (IsAmongVertices vertices.now self.old.id) self.old self.new
            named.old.routers.items named.new.routers.items) }
    {
        for vertex in vertices {
            self.follow_named(rooted, *vertex, named)?;
        }
        Ok(())
    }

    // Appends the prefixes of the vertex, and updates it if it is a router. Does nothing if the
    // vertex is in another area.
    fn follow_named(
        &mut self,
        rooted: &RootedArea<'_>,
        vertex: (u32, Vertex),
        named: &mut Affected,
    ) -> Result<(), Memory>
        ensures offered { OnOk result (HasOffered self.old.index (NamesIn self.old.id vertex)
            named.old.prefixes.items named.new.prefixes.items) }
        ensures updated { OnOk result (AreRoutersUpdated rooted.now.root rooted.now.area.now
            (IsRouterIn self.old.id vertex) self.old self.new
            named.old.routers.items named.new.routers.items) }
    {
        let (id, vertex) = vertex;
        if id != self.id {
            return Ok(());
        }
        let flags = self.name_prefixes(vertex, &mut named.prefixes)?;
        if self.stays_out(vertex, flags) {
            return Ok(());
        }
        self.update_vertex(rooted, vertex, flags, &mut named.routers)
    }

    // Appends the prefixes of the vertex. Returns the bits of its LSA, or `None` if the index has
    // no LSA of it.
    fn name_prefixes(
        &self,
        vertex: Vertex,
        prefixes: &mut Vec<Prefix>,
    ) -> Result<Option<u8>, Memory>
        ensures offered { OnOk result (HasOffered self.now.index (λ v. v ≡ vertex)
            prefixes.old.items prefixes.new.items) }
        ensures flags { IfOk result (λ flags. flags ≡ flags_in self.now.index vertex) }
    {
        match self.index.offered(vertex) {
            Some(offered) => {
                push_prefixes(offered.offers(), prefixes)?;
                Ok(Some(offered.flags()))
            }
            None => Ok(None),
        }
    }

    // Updates the routers whose router-LSA in the area changed.
    fn update_by_keys(
        &mut self,
        rooted: &RootedArea<'_>,
        keys: &[(Scope, Key)],
        routers: &mut Vec<u32>,
    ) -> Result<(), Memory>
        ensures { OnOk result (AreRoutersUpdated rooted.now.root rooted.now.area.now
            (IsAmongKeys keys.now self.old.id) self.old self.new
            routers.old.items routers.new.items) }
    {
        for named in keys {
            self.update_by_key(rooted, *named, routers)?;
        }
        Ok(())
    }

    // Updates the router with this router-LSA, if the LSA is in the area.
    fn update_by_key(
        &mut self,
        rooted: &RootedArea<'_>,
        named: (Scope, Key),
        routers: &mut Vec<u32>,
    ) -> Result<(), Memory>
        ensures { OnOk result (AreRoutersUpdated rooted.now.root rooted.now.area.now
            (IsRouterOf self.old.id named) self.old self.new
            routers.old.items routers.new.items) }
    {
        let Some(vertex) = vertex_in(self.id, named) else {
            return Ok(());
        };
        let flags = self.flags(vertex);
        self.update_vertex(rooted, vertex, flags, routers)
    }

    // Returns true if the vertex is not kept, and its bits do not ask to keep it. This is so for
    // most vertices.
    fn stays_out(&self, vertex: Vertex, flags: Option<u8>) -> bool
        ensures bits { IsTrue result → has_bits flags ≡ false }
        ensures none { IsTrue result → KeepsNone self.now.reached vertex }
    {
        if has_bits(flags) {
            return false;
        }
        match vertex {
            Vertex::Router(router) => self.router(router).is_none(),
            Vertex::Network(_) => true,
        }
    }

    // Updates the vertex with these bits, if it is a router.
    fn update_vertex(
        &mut self,
        rooted: &RootedArea<'_>,
        vertex: Vertex,
        flags: Option<u8>,
        routers: &mut Vec<u32>,
    ) -> Result<(), Memory>
        requires { flags ≡ flags_in self.old.index vertex }
        ensures { OnOk result (AreRoutersUpdated rooted.now.root rooted.now.area.now
            (λ r. vertex ≡ vertex_value.Router r) self.old self.new
            routers.old.items routers.new.items) }
    {
        match vertex {
            Vertex::Router(router) => self.update_router(rooted, router, flags, routers),
            Vertex::Network(_) => Ok(()),
        }
    }

    // Updates the router with these bits, and appends it if its kept value changed.
    fn update_router(
        &mut self,
        rooted: &RootedArea<'_>,
        router: u32,
        flags: Option<u8>,
        routers: &mut Vec<u32>,
    ) -> Result<(), Memory>
        requires { flags ≡ flags_in self.old.index (vertex_value.Router router) }
        ensures { OnOk result (AreRoutersUpdated rooted.now.root rooted.now.area.now
            (λ r. r ≡ router) self.old self.new routers.old.items routers.new.items) }
    {
        let fresh = reached_now(self.alloc, rooted, router, flags)?;
        if !self.reached.update(router, fresh)? {
            return Ok(());
        }
        routers.push(router)?;
        Ok(())
    }

    // Returns the bits of the vertex's LSA.
    fn flags(&self, vertex: Vertex) -> Option<u8>
        ensures { result ≡ flags_in self.now.index vertex }
    {
        match self.index.offered(vertex) {
            Some(offered) => Some(offered.flags()),
            None => None,
        }
    }
}

// 16.1 (4): returns the value to keep of the router with these bits. Most routers have neither bit
// B nor bit E, and are not looked up in the tree.
fn reached_now(
    alloc: Global,
    rooted: &RootedArea<'_>,
    router: u32,
    flags: Option<u8>,
) -> Result<Option<ReachedRouter>, Memory>
    ensures { IfOk result (λ kept. kept
        ≡ reached_in rooted.now.root rooted.now.area.now router flags) }
{
    if !has_bits(flags) {
        return Ok(None);
    }
    let vertex = Vertex::Router(router);
    let area = rooted.area;
    let reach = RouterReach {
        router,
        distance: area.tree.distance(vertex),
        hops: area.tree.hops(vertex),
    };
    reached_abr_or_asbr(alloc, rooted.root, flags, reach)
}

// Returns true if there are bits, and bit B or bit E is set.
fn has_bits(flags: Option<u8>) -> bool
    ensures { result ≡ has_bits flags }
{
    match flags {
        Some(flags) => is_abr_or_asbr(flags),
        None => false,
    }
}

// Returns the vertex of an LSA with this key, or `None` if the LSA is in another database or has no
// vertex.
fn vertex_in(area: u32, named: (Scope, Key)) -> Option<Vertex>
    ensures is { IfSome result (λ vertex. NamesVertex area named vertex) }
    ensures none { IfNone result ((v : VertexValue) → NamesVertex area named v → ⊥) }
{
    let (scope, key) = named;
    if scope == Scope::Area(area) {
        vertex_of(key)
    } else {
        None
    }
}
