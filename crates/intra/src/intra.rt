//! Intra-area routes (RFC 2328, 16.1 and 16.8): built, updated and read.
ghost use Rattle.std.specs.Prelude.{◌≡◌, ◌≢◌, ◌↔◌, ◌<◌, [], Some, None, length, IfOk, OnOk, OnErr};
ghost use Rattle.std.specs.Prelude.{IfNone, IfSome, IsSome, IsTrue, option_copied};
ghost use Rattle.std.specs.FinMap as map;
ghost use Rattle.std.specs.List.{AllPairs};
ghost use Rattle.std.specs.List.Sorted.{IsStrictlySortedBy};
ghost use Rattle.std.specs.Map.{keys_of};
ghost use Rattle.ospf_types.specs.Keys.{dest_cmp};
ghost use Rattle.ospf_types.specs.Network.{network_cmp};
ghost use Rattle.intra.specs.Changes.{AreDiffering, HasKeysOf, HasKeysOfAll, IsIntraBefore};
ghost use Rattle.intra.specs.ChosenAnew.{AreEntriesChosenAnew};
ghost use Rattle.intra.specs.Inputs.{AreReady};
ghost use Rattle.intra.specs.Intras.{AreAsOften, AreEntries, AreRoutersKept, HaveEntries, IsIntraOf};
ghost use Rattle.intra.specs.Intras.{empty_routes, most_cost, reached_at, spent_value};
ghost use Rattle.intra.specs.Right.{IsRightWherever};
ghost use Rattle.intra.specs.Stubs.{KeepsAll};
ghost use Rattle.intra.specs.Updating.{AreBroughtTo, HasPrefixesInOrder, HasRoutersInOrder};
ghost use Rattle.intra.specs.Updating.{HaveKeptBefore, NamesOthers};

use crate::affected::Affected;
use crate::area::AreaIntra;
use crate::choose::IndexedInputs;
use crate::dirty::Dirty;
use crate::entry::IntraEntry;
use crate::inputs::{AreaInputs, IntraInputs, RootedArea};
use indexmap::map::Slice;
use lsdb::Database;
use ospf_types::WordHash;
use ospf_types::entry::Entry;
use ospf_types::key::{Dest, Key, Scope};
use ospf_types::memory::Memory;
use ospf_types::prefix::Prefix;
use route_choice::{ReachedRouter, ResultMap, add_routers};
use std::alloc::Global;
use std::hash::RandomState;
use std::marker::Model;
use std::mem;

/// The intra-area routes of a router: the entry of each network, and in each area the area border
/// routers and AS boundary routers that are reached.
pub struct Intra {
    areas: Vec<AreaIntra>,
    entries: ResultMap<Prefix, IntraEntry>,
    // Memory that updates use again.
    named: Affected,
    spent: bool,
}

// proof: a value is dropped by one call, not part by part at each exit of a function.
impl Drop for Intra {
    fn drop(self) {
        let Intra {
            areas: _areas,
            entries: _entries,
            named: _named,
            spent: _,
        } = self;
    }
}

impl Model for Intra {
    ghost use Rattle.std.specs.FinMap as map;
    ghost use Rattle.std.specs.Coded.{Coded, codes, coded_ℕ};
    ghost use Rattle.ospf_types.specs.Network.{network_code};
    ghost use Rattle.ospf_types.specs.Vertices.{vertex_code};
    ghost use Rattle.ospf_types.specs.contracts.entry.Entry as entry;
    ghost use Rattle.intra.specs.Indexes.{OfferedByVertex, SourcesByPrefix};
    ghost use Rattle.intra.specs.ReachedRouter.{ReachedByRouter};
    ghost use Rattle.intra.specs.Intras.{IntraValue, EntriesByPrefix};
    ghost use Rattle.intra.specs.contracts.offered.OfferedPrefix as offer;
    ghost use Rattle.intra.specs.contracts.area_index.PrefixSource as source;

    ghost Value = { IntraValue };

    ghost coded = { let offered : Coded OfferedByVertex = map.code vertex_code (Prim.hlevel (codes, offer.the_row.coded)) in
        let sources : Coded SourcesByPrefix = map.code network_code (Prim.hlevel (codes, source.the_row.coded)) in
        let reached : Coded ReachedByRouter = map.code coded_ℕ (Prim.hlevel codes) in
        let entries : Coded EntriesByPrefix = map.code network_code (Prim.hlevel (codes, entry.the_row.coded)) in
        Prim.hlevel (codes, offered, sources, reached, entries) };

    ghost view = { λ i. record { areas = i.areas.items; entries = map.from_entries i.entries.entries; spent = i.spent } };
}

impl Intra {
    /// Builds the routes of these inputs.
    pub fn build(
        alloc: Global,
        inputs: &IntraInputs<'_>,
        hashing: RandomState,
    ) -> Result<Intra, Memory>
        requires { AreReady inputs.now }
        ensures kept { IfOk result (IsIntraOf inputs.now) }
        ensures right { IfOk result (IsRightWherever inputs.now) }
    {
        let mut intra = Intra::blank(alloc, inputs.areas, WordHash::new(hashing))?;
        let mut dirty = Dirty {
            vertices: Vec::new(alloc),
            keys: Vec::new(alloc),
            interfaces: Vec::new(alloc),
            dests: Vec::new(alloc),
        };
        push_all_keys(inputs.areas, &mut dirty.keys)?;
        intra.update(alloc, inputs, &dirty)?;
        Ok(intra)
    }

    /// Recomputes the results that may be affected, and returns the destinations whose result
    /// changed, in ascending order without duplicates.
    ///
    /// A destination is a network, or a router whose kept value changed in some area.
    ///
    /// # Errors
    ///
    /// Returns `Memory` if memory runs out. The routes are then spent: they are empty, and only
    /// `build` makes others.
    pub fn update(
        &mut self,
        alloc: Global,
        inputs: &IntraInputs<'_>,
        dirty: &Dirty,
    ) -> Result<Vec<Dest>, Memory>
        requires ready { AreReady inputs.now }
        requires before { IsIntraBefore dirty.now inputs.now self.old }
        ensures kept { OnOk result (IsIntraOf inputs.now self.new) }
        ensures right { OnOk result (IsRightWherever inputs.now self.new) }
        ensures in_order { IfOk result (λ dests. IsStrictlySortedBy dest_cmp dests.items) }
        ensures exact { IfOk result (λ dests. AreDiffering self.old self.new dests.items) }
        ensures spent { OnErr result (self.new ≡ spent_value) }
    {
        let dests = self.update_parts(alloc, inputs, dirty);
        if dests.is_err() {
            self.spend();
        }
        dests
    }

    /// Returns the entry of a network, or `None` if the network is not reached or the routes are
    /// spent.
    pub fn get(&self, network: Prefix) -> Option<&Entry>
        ensures value { option_copied result ≡ map.get self.now.entries network }
        ensures bounded { IfSome result (λ e. e.now.cost < most_cost) }
    {
        match self.entries.get(network) {
            Some(kept) => Some(kept.entry()),
            None => None,
        }
    }

    /// Returns the entry of a network, as `get` does, but usually without hashing the network.
    ///
    /// It is for callers that look up, in ascending order, the destinations that the last update
    /// returned. They pass the same `next` each time, 0 at first.
    pub fn get_with_hint(&self, network: Prefix, next: &mut usize) -> Option<&Entry>
        ensures value { option_copied result ≡ map.get self.now.entries network }
        ensures bounded { IfSome result (λ e. e.now.cost < most_cost) }
    {
        match self.entries.get_with_hint(network, next) {
            Some(kept) => Some(kept.entry()),
            None => None,
        }
    }

    /// Returns the networks that have an entry, in no stated order.
    pub fn networks(&self, alloc: Global) -> Result<Vec<Prefix>, Memory>
        ensures exact { IfOk result (λ networks. HaveEntries self.now.entries networks.items) }
        ensures each_once { IfOk result (λ networks. AllPairs (λ p q. p ≢ q) networks.items) }
    {
        self.entries.keys(alloc)
    }

    /// Returns the networks that have an entry, with their entries, in no stated order.
    pub fn entries(&self) -> Slice<'_, Prefix, IntraEntry>
        ensures exact { AreEntries self.now.entries result }
        ensures keys { HaveEntries self.now.entries (keys_of result) }
        ensures each_once { AllPairs (λ p q. p ≢ q) (keys_of result) }
    {
        self.entries.entries()
    }

    /// Returns an area border router or AS boundary router that is reached in the area, by its
    /// Router ID.
    pub fn router(&self, area: u32, router: u32) -> Option<&ReachedRouter>
        ensures { option_copied result ≡ reached_at self.now.areas area router }
    {
        for kept in &self.areas {
            if kept.id() == area {
                return kept.router(router);
            }
        }
        None
    }

    /// Returns the Router IDs of the area border routers and AS boundary routers that are reached,
    /// in no stated order. A router occurs once for each area in which it is reached.
    pub fn routers(&self, alloc: Global) -> Result<Vec<u32>, Memory>
        ensures as_often { IfOk result (λ routers. AreAsOften self.now.areas routers.items) }
        ensures exact { IfOk result (λ routers. AreRoutersKept self.now.areas routers.items) }
    {
        let mut routers = Vec::new(alloc);
        for kept in &self.areas {
            kept.push_routers(&mut routers)?;
        }
        Ok(routers)
    }

    /// Returns true if memory ran out in an update.
    pub fn spent(&self) -> bool
        ensures { result ≡ self.now.spent }
    {
        self.spent
    }
}

impl Intra {
    // Returns the routes of areas without LSAs.
    fn blank(alloc: Global, areas: &[AreaInputs<'_>], hashing: WordHash) -> Result<Intra, Memory>
        ensures { IfOk result (λ intra. intra ≡ empty_routes areas.now) }
    {
        let mut kept = Vec::with_capacity(alloc, areas.len())?;
        for area in areas {
            kept.push(AreaIntra::new(alloc, area.id, hashing))?;
        }
        Ok(Intra {
            areas: kept,
            entries: ResultMap::with_hasher(alloc, hashing),
            named: Affected::new(alloc),
            spent: false,
        })
    }

    // Recomputes the results that may be affected. After an error some parts are updated and others
    // are not.
    fn update_parts(
        &mut self,
        alloc: Global,
        inputs: &IntraInputs<'_>,
        dirty: &Dirty,
    ) -> Result<Vec<Dest>, Memory>
        requires ready { AreReady inputs.now }
        requires before { IsIntraBefore dirty.now inputs.now self.old }
        ensures kept { OnOk result (IsIntraOf inputs.now self.new) }
        ensures in_order { IfOk result (λ dests. IsStrictlySortedBy dest_cmp dests.items) }
        ensures exact { IfOk result (λ dests. AreDiffering self.old self.new dests.items) }
    {
        let named = self.follow(alloc, inputs, dirty)?;
        let mut dests = Vec::with_capacity(alloc, named.prefixes.len())?;
        self.update_entries(alloc, inputs, named.prefixes.as_slice(), &mut dests)?;
        add_routers(named.routers.as_slice(), &mut dests)?;
        self.named = named;
        Ok(dests)
    }

    // Updates the areas. Returns the prefixes whose entry may change, and the routers whose kept
    // value changed in some area, both in ascending order without duplicates.
    fn follow(
        &mut self,
        alloc: Global,
        inputs: &IntraInputs<'_>,
        dirty: &Dirty,
    ) -> Result<Affected, Memory>
        requires ready { AreReady inputs.now }
        requires before { HaveKeptBefore dirty.now inputs.now self.old.areas }
        ensures entries { OnOk result (self.new.entries ≡ self.old.entries) }
        ensures spent { OnOk result (self.new.spent ≡ self.old.spent) }
        ensures prefixes_in_order { IfOk result HasPrefixesInOrder }
        ensures routers_in_order { IfOk result HasRoutersInOrder }
        ensures followed { IfOk result (λ named. AreBroughtTo inputs.now dirty.now
            named.prefixes.items self.old.areas self.new.areas) }
        ensures routers { IfOk result (NamesOthers inputs.now.areas self.old.areas self.new.areas) }
    {
        let mut named = mem::replace(&mut self.named, Affected::new(alloc));
        named.clear();
        let areas = self.areas.as_mut_slice();
        follow_areas(areas, inputs, dirty, &mut named)?;
        // The vertices are in order, and usually their prefixes are too. A stable sort merges such
        // runs.
        named.prefixes.sort()?;
        named.prefixes.dedup();
        named.routers.sort_unstable();
        named.routers.dedup();
        Ok(named)
    }

    // Recomputes the entries of the networks, and appends the networks whose entry changed.
    fn update_entries(
        &mut self,
        alloc: Global,
        inputs: &IntraInputs<'_>,
        prefixes: &[Prefix],
        dests: &mut Vec<Dest>,
    ) -> Result<(), Memory>
        requires in_order { IsStrictlySortedBy network_cmp prefixes.now }
        requires none { dests.old.items ≡ [] }
        ensures { OnOk result (AreEntriesChosenAnew inputs.now self.old self.new
            prefixes.now dests.new.items) }
    {
        let by = IndexedInputs {
            inputs,
            kept: self.areas.as_slice(),
        };
        self.entries.choose_each(alloc, prefixes, &by, dests)?;
        Ok(())
    }

    fn spend(&mut self)
        ensures { self.new ≡ spent_value }
    {
        self.areas.clear();
        self.entries.clear();
        self.spent = true;
    }
}

// Updates the state of each area by its LSAs, its tree and the interfaces.
fn follow_areas(
    areas: &mut [AreaIntra],
    inputs: &IntraInputs<'_>,
    dirty: &Dirty,
    named: &mut Affected,
) -> Result<(), Memory>
    requires ready { AreReady inputs.now }
    requires before { HaveKeptBefore dirty.now inputs.now areas.old }
    requires none { named.old.routers.items ≡ [] }
    ensures followed { OnOk result (AreBroughtTo inputs.now dirty.now
        named.new.prefixes.items areas.old areas.new) }
    ensures exact { OnOk result (NamesOthers inputs.now.areas areas.old areas.new named.new) }
{
    let all = inputs.areas;
    for place in 0..all.len() {
        let rooted = RootedArea {
            root: inputs.root,
            area: &all[place],
        };
        areas[place].follow(&rooted, dirty, named)?;
    }
    Ok(())
}

// Appends the keys of all LSAs of the areas.
fn push_all_keys(areas: &[AreaInputs<'_>], keys: &mut Vec<(Scope, Key)>) -> Result<(), Memory>
    ensures { OnOk result (HasKeysOfAll areas.now keys.new.items) }
{
    for area in areas {
        push_keys(area.id, area.database, keys)?;
    }
    Ok(())
}

// Appends the keys of all LSAs of the database, with the scope of its area.
fn push_keys(area: u32, database: &Database, keys: &mut Vec<(Scope, Key)>) -> Result<(), Memory>
    ensures kept { OnOk result (KeepsAll keys.old.items keys.new.items) }
    ensures all { OnOk result (HasKeysOf area database.now.lsas keys.new.items) }
{
    for key in database.keys() {
        keys.push((Scope::Area(area), *key))?;
    }
    Ok(())
}
