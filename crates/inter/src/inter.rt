//! Inter-area routes (RFC 2328, 16.2): built, updated and read.
ghost use Rattle.std.specs.Prelude.{◌≡◌, ◌≢◌, ◌<◌, IfOk, IfSome, OnOk, OnErr, None, option_copied};
ghost use Rattle.std.specs.FinMap as map;
ghost use Rattle.std.specs.List.{AllPairs};
ghost use Rattle.std.specs.List.Sorted.{IsStrictlySortedBy};
ghost use Rattle.ospf_types.specs.Keys.{dest_cmp};
ghost use Rattle.active_ranges.specs.Lists.{ListsExactly};
ghost use Rattle.inter.specs.Inputs.{examined_area};
ghost use Rattle.inter.specs.Inters.{HasEntry, IsInterOf, most_cost, no_routes, spent_routes};
ghost use Rattle.inter.specs.Changes.{AreRoutesBehind, DiffersAt};
ghost use Rattle.inter.specs.Following.{IsIndexBefore, IsFollowed};
ghost use Rattle.inter.specs.Right.{IsRightWith};

use crate::choose::Choosing;
use crate::cost::InterEntry;
use crate::follow::push_named;
use crate::inputs::InterInputs;
use advertised_index::{AdvertisedIndex, AffectedDests};
use intra::Dirty;
use ospf_types::entry::Entry;
use ospf_types::key::Dest;
use ospf_types::memory::Memory;
use route_choice::ResultMap;
use std::alloc::Global;
use std::hash::RandomState;
use std::marker::Model;

/// The inter-area routes of a router: the entry of each network, and of each AS boundary router
/// that is not reached in the examined area.
pub struct Inter {
    hashing: RandomState,
    examined: Option<u32>,
    index: AdvertisedIndex,
    entries: ResultMap<Dest, InterEntry>,
    spent: bool,
}

// proof: a value is dropped by one call, not part by part at each exit of a function.
impl Drop for Inter {
    fn drop(self) {
        let Inter {
            hashing: _,
            examined: _examined,
            index: _index,
            entries: _entries,
            spent: _,
        } = self;
    }
}

impl Model for Inter {
    ghost use Rattle.std.specs.FinMap as map;
    ghost use Rattle.std.specs.Coded.{Coded, codes};
    ghost use Rattle.ospf_types.specs.contracts.entry.Entry as entry;
    ghost use Rattle.ospf_types.specs.contracts.key.Dest as dest;
    ghost use Rattle.advertised_index.specs.contracts.index.AdvertisedIndex as kept_index;
    ghost use Rattle.inter.specs.Inters.{InterValue, EntriesByDest};

    ghost Value = { InterValue };

    ghost coded = { let entries : Coded EntriesByDest = map.code dest.the_row.coded (Prim.hlevel (codes, entry.the_row.coded)) in
        Prim.hlevel (codes, kept_index.the_row.coded, entries) };

    ghost view = { λ i. record { examined = i.examined; index = i.index; entries = map.from_entries i.entries.entries; spent = i.spent } };
}

impl Inter {
    /// Builds the routes of these inputs.
    pub fn build(
        alloc: Global,
        inputs: &InterInputs<'_>,
        hashing: RandomState,
    ) -> Result<Inter, Memory>
        ensures kept { IfOk result (IsInterOf inputs.now) }
        ensures right { IfOk result (IsRightWith inputs.now) }
    {
        let mut inter = Inter::blank(alloc, hashing);
        let dirty = Dirty {
            vertices: Vec::new(alloc),
            keys: Vec::new(alloc),
            interfaces: Vec::new(alloc),
            dests: Vec::new(alloc),
        };
        inter.update(alloc, inputs, &dirty)?;
        Ok(inter)
    }

    /// Recomputes the entries that may be affected, and returns the destinations whose entry
    /// changed, in ascending order without duplicates.
    ///
    /// # Errors
    ///
    /// Returns `Memory` if memory runs out. The routes are then spent: they are empty, and only
    /// `build` makes others.
    pub fn update(
        &mut self,
        alloc: Global,
        inputs: &InterInputs<'_>,
        dirty: &Dirty,
    ) -> Result<Vec<Dest>, Memory>
        requires before { AreRoutesBehind dirty.now.keys.items dirty.now.dests.items inputs.now
            self.old }
        ensures kept { OnOk result (IsInterOf inputs.now self.new) }
        ensures right { OnOk result (IsRightWith inputs.now self.new) }
        ensures in_order { IfOk result (λ dests. IsStrictlySortedBy dest_cmp dests.items) }
        ensures exact { IfOk result (λ dests. ListsExactly (DiffersAt self.old self.new) dests.items) }
        ensures spent { OnErr result (self.new ≡ spent_routes) }
    {
        let dests = self.update_parts(alloc, inputs, dirty);
        if dests.is_err() {
            self.spend(alloc);
        }
        dests
    }

    /// Returns the entry of a network or an AS boundary router, or `None` if it has none or the
    /// routes are spent.
    pub fn get(&self, dest: Dest) -> Option<&Entry>
        ensures value { option_copied result ≡ map.get self.now.entries dest }
        ensures bounded { IfSome result (λ e. e.now.cost < most_cost) }
    {
        match self.entries.get(dest) {
            Some(kept) => Some(kept.entry()),
            None => None,
        }
    }

    /// Returns the destinations that have an entry, in no stated order, without duplicates.
    pub fn dests(&self, alloc: Global) -> Result<Vec<Dest>, Memory>
        ensures exact { IfOk result (λ dests. ListsExactly (HasEntry self.now) dests.items) }
        ensures each_once { IfOk result (λ dests. AllPairs (λ c d. c ≢ d) dests.items) }
    {
        self.entries.keys(alloc)
    }

    /// Returns true if memory ran out in an update.
    pub fn spent(&self) -> bool
        ensures { result ≡ self.now.spent }
    {
        self.spent
    }
}

impl Inter {
    // Returns the routes if no area is examined.
    fn blank(alloc: Global, hashing: RandomState) -> Inter
        ensures { result ≡ no_routes }
    {
        Inter {
            hashing,
            examined: None,
            index: AdvertisedIndex::new(alloc, hashing),
            entries: ResultMap::new(alloc, hashing),
            spent: false,
        }
    }

    // Updates each part in turn. After an error some parts are updated and others are not.
    fn update_parts(
        &mut self,
        alloc: Global,
        inputs: &InterInputs<'_>,
        dirty: &Dirty,
    ) -> Result<Vec<Dest>, Memory>
        requires before { AreRoutesBehind dirty.now.keys.items dirty.now.dests.items inputs.now
            self.old }
        ensures kept { OnOk result (IsInterOf inputs.now self.new) }
        ensures in_order { IfOk result (λ dests. IsStrictlySortedBy dest_cmp dests.items) }
        ensures exact { IfOk result (λ dests. ListsExactly (DiffersAt self.old self.new) dests.items) }
    {
        let dests = self.follow_index(alloc, inputs, dirty)?;
        let index = &self.index;
        let choosing = Choosing { inputs, index };
        let others = self.entries.follow(alloc, dests, &choosing)?;
        Ok(others)
    }

    // Updates the index. Returns the destinations whose entry may change.
    fn follow_index(
        &mut self,
        alloc: Global,
        inputs: &InterInputs<'_>,
        dirty: &Dirty,
    ) -> Result<Vec<Dest>, Memory>
        requires { IsIndexBefore inputs.now.root dirty.now.keys.items inputs.now.examined
            self.old.examined self.old.index }
        ensures examined { OnOk result (self.new.examined ≡ examined_area inputs.now) }
        ensures entries { OnOk result (self.new.entries ≡ self.old.entries) }
        ensures spent { OnOk result (self.new.spent ≡ self.old.spent) }
        ensures followed { IfOk result (λ dests. IsFollowed dirty.now.dests.items inputs.now
            self.old.examined self.old.index self.new.index dests.items) }
    {
        let mut affected = AffectedDests::none(alloc);
        inputs.follow_examined(self.examined, &mut self.index, &dirty.keys, &mut affected)?;
        self.examined = inputs.area();
        let mut dests = affected.dests;
        push_named(&self.index, &dirty.dests, &mut dests)?;
        Ok(dests)
    }

    fn spend(&mut self, alloc: Global)
        ensures { self.new ≡ spent_routes }
    {
        self.examined = None;
        self.index = AdvertisedIndex::new(alloc, self.hashing);
        self.entries.clear();
        self.spent = true;
    }
}
