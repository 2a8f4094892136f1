//! External routes and preferred routes (RFC 2328, 16.4): built, updated and read.
ghost use Rattle.std.specs.Prelude.{◌≡◌, ◌≢◌, IfOk, OnOk, OnErr, option_copied};
ghost use Rattle.std.specs.FinMap as map;
ghost use Rattle.std.specs.List.{AllPairs};
ghost use Rattle.std.specs.List.Sorted.{IsStrictlySortedBy};
ghost use Rattle.ospf_types.specs.Keys.{dest_cmp};
ghost use Rattle.active_ranges.specs.Lists.{ListsExactly};
ghost use Rattle.external.specs.Externals.{HasEntry, HasPreferred, IsExternalOf, no_routes};
ghost use Rattle.external.specs.Externals.{spent_routes};
ghost use Rattle.external.specs.Changes.{AreRoutesBehind, DiffersAt};
ghost use Rattle.external.specs.Updating.{HasBoundaryRouters, StandsBut, StandsButRouters};
ghost use Rattle.external.specs.Right.{IsRightWith};

use crate::choose::Choosing;
use crate::forward::ForwardingMatch;
use crate::inputs::ExternalInputs;
use crate::preferred::AsbrRoute;
use crate::update::{
    Forwarding, Preferring, list_dests_by_addresses, list_dests_by_routers, list_dests_led_to,
};
use advertised_index::{AdvertisedIndex, AffectedDests, ScopeDatabase};
use intra::Dirty;
use ospf_types::entry::Entry;
use ospf_types::key::{Dest, Scope};
use ospf_types::memory::Memory;
use ospf_types::prefix::Prefix;
use route_choice::{ResultMap, dests_of, networks_among, routers_among};
use std::alloc::Global;
use std::hash::RandomState;
use std::marker::Model;

/// The external routes of a router: the entry of each network outside the AS, and the preferred
/// route of each AS boundary router.
pub struct External {
    hashing: RandomState,
    index: AdvertisedIndex,
    preferred: ResultMap<u32, AsbrRoute>,
    forwards: ResultMap<u32, ForwardingMatch>,
    entries: ResultMap<Prefix, Entry>,
    spent: bool,
}

// proof: a value is dropped by one call, not part by part at each exit of a function.
impl Drop for External {
    fn drop(self) {
        let External {
            hashing: _,
            index: _index,
            preferred: _preferred,
            forwards: _forwards,
            entries: _entries,
            spent: _,
        } = self;
    }
}

impl Model for External {
    ghost use Rattle.std.specs.FinMap as map;
    ghost use Rattle.std.specs.Coded.{Coded, codes, coded_ℕ};
    ghost use Rattle.ospf_types.specs.Network.{network_code};
    ghost use Rattle.ospf_types.specs.contracts.entry.Entry as entry;
    ghost use Rattle.intra.specs.Intras.{EntriesByPrefix};
    ghost use Rattle.advertised_index.specs.contracts.index.AdvertisedIndex as kept_index;
    ghost use Rattle.external.specs.AsbrRoute.{PreferredByRouter};
    ghost use Rattle.external.specs.Forwards.{ForwardsByAddress};
    ghost use Rattle.external.specs.Externals.{ExternalValue};
    ghost use Rattle.external.specs.contracts.preferred.AsbrRoute as kept_entry;
    ghost use Rattle.external.specs.contracts.forward.ForwardingMatch as kept_forward;

    ghost Value = { ExternalValue };

    ghost coded = { let preferred : Coded PreferredByRouter = map.code coded_ℕ kept_entry.the_row.coded in
        let forwards : Coded ForwardsByAddress = map.code coded_ℕ kept_forward.the_row.coded in
        let entries : Coded EntriesByPrefix = map.code network_code (Prim.hlevel (codes, entry.the_row.coded)) in
        Prim.hlevel (codes, kept_index.the_row.coded, preferred, forwards, entries) };

    ghost view = { λ e. record { index = e.index; preferred = map.from_entries e.preferred.entries; forwards = map.from_entries e.forwards.entries; entries = map.from_entries e.entries.entries; spent = e.spent } };
}

impl External {
    /// Builds the routes of these inputs.
    pub fn build(
        alloc: Global,
        inputs: &ExternalInputs<'_>,
        hashing: RandomState,
    ) -> Result<External, Memory>
        ensures kept { IfOk result (IsExternalOf inputs.now) }
        ensures right { IfOk result (IsRightWith inputs.now) }
    {
        let mut external = External::blank(alloc, hashing);
        let affected = external.follow_all(alloc, inputs)?;
        let routers = boundary_routers(alloc, inputs)?;
        external.update_results(alloc, inputs, routers.as_slice(), affected)?;
        Ok(external)
    }

    /// Recomputes the results that may be affected, and returns the destinations whose result
    /// changed, in ascending order without duplicates.
    ///
    /// A destination is a network with another entry, or an AS boundary router with another
    /// preferred route.
    ///
    /// # Errors
    ///
    /// Returns `Memory` if memory runs out. The routes are then spent: they are empty, and only
    /// `build` makes others.
    pub fn update(
        &mut self,
        alloc: Global,
        inputs: &ExternalInputs<'_>,
        dirty: &Dirty,
    ) -> Result<Vec<Dest>, Memory>
        requires before { AreRoutesBehind dirty.now.keys.items dirty.now.dests.items inputs.now
            self.old }
        ensures kept { OnOk result (IsExternalOf inputs.now self.new) }
        ensures right { OnOk result (IsRightWith inputs.now self.new) }
        ensures in_order { IfOk result (λ dests. IsStrictlySortedBy dest_cmp dests.items) }
        ensures exact { IfOk result (λ dests. ListsExactly (DiffersAt self.old self.new) dests.items) }
        ensures spent { OnErr result (self.new ≡ spent_routes) }
    {
        let dests = self.update_parts(alloc, inputs, dirty);
        if dests.is_err() {
            self.spend(alloc);
        }
        dests
    }

    /// Returns the entry of a network, or `None` if it has none or the routes are spent.
    pub fn get(&self, network: Prefix) -> Option<&Entry>
        ensures { option_copied result ≡ map.get self.now.entries network }
    {
        self.entries.get(network)
    }

    /// Returns the networks that have an entry, in no stated order, without duplicates.
    pub fn networks(&self, alloc: Global) -> Result<Vec<Prefix>, Memory>
        ensures exact { IfOk result (λ networks. ListsExactly (HasEntry self.now) networks.items) }
        ensures each_once { IfOk result (λ networks. AllPairs (λ p q. p ≢ q) networks.items) }
    {
        self.entries.keys(alloc)
    }

    /// Returns the preferred route of an AS boundary router, or `None` if it is not reached or the
    /// routes are spent.
    pub fn preferred(&self, router: u32) -> Option<&AsbrRoute>
        ensures { option_copied result ≡ map.get self.now.preferred router }
    {
        self.preferred.get(router)
    }

    /// Returns the longest match of a forwarding address (in host order), and the path there (RFC
    /// 2328, 16.4 (3)). Returns `None` if no advertised route has this address, or the routes are
    /// spent.
    pub fn forwarding_match(&self, address: u32) -> Option<&ForwardingMatch>
        ensures { option_copied result ≡ map.get self.now.forwards address }
    {
        self.forwards.get(address)
    }

    /// Returns the Router IDs of the AS boundary routers that have a preferred route, in no stated
    /// order, without duplicates.
    pub fn routers(&self, alloc: Global) -> Result<Vec<u32>, Memory>
        ensures exact { IfOk result (λ routers. ListsExactly (HasPreferred self.now) routers.items) }
        ensures each_once { IfOk result (λ routers. AllPairs (λ q r. q ≢ r) routers.items) }
    {
        self.preferred.keys(alloc)
    }

    /// Returns true if memory ran out in an update.
    pub fn spent(&self) -> bool
        ensures { result ≡ self.now.spent }
    {
        self.spent
    }
}

impl External {
    // Returns the routes if no LSA advertises anything.
    fn blank(alloc: Global, hashing: RandomState) -> External
        ensures { result ≡ no_routes }
    {
        External {
            hashing,
            index: AdvertisedIndex::new(alloc, hashing),
            preferred: ResultMap::new(alloc, hashing),
            forwards: ResultMap::new(alloc, hashing),
            entries: ResultMap::new(alloc, hashing),
            spent: false,
        }
    }

    // Updates each part in turn. After an error some parts are updated and others are not.
    fn update_parts(
        &mut self,
        alloc: Global,
        inputs: &ExternalInputs<'_>,
        dirty: &Dirty,
    ) -> Result<Vec<Dest>, Memory>
        requires before { AreRoutesBehind dirty.now.keys.items dirty.now.dests.items inputs.now
            self.old }
        ensures kept { OnOk result (IsExternalOf inputs.now self.new) }
        ensures in_order { IfOk result (λ dests. IsStrictlySortedBy dest_cmp dests.items) }
        ensures exact { IfOk result (λ dests. ListsExactly (DiffersAt self.old self.new) dests.items) }
    {
        let affected = self.follow(alloc, inputs, dirty)?;
        self.update_results(alloc, inputs, dirty.dests.as_slice(), affected)
    }

    // Updates the index. Returns the destinations and addresses that this affects.
    fn follow(
        &mut self,
        alloc: Global,
        inputs: &ExternalInputs<'_>,
        dirty: &Dirty,
    ) -> Result<AffectedDests, Memory>
        requires before { AreRoutesBehind dirty.now.keys.items dirty.now.dests.items inputs.now
            self.old }
        ensures preferred { OnOk result (self.new.preferred ≡ self.old.preferred) }
        ensures entries { OnOk result (self.new.entries ≡ self.old.entries) }
        ensures stands { IfOk result
            (λ affected. StandsBut inputs.now dirty.now.dests.items affected self.new) }
    {
        let mut affected = AffectedDests::none(alloc);
        let from = ScopeDatabase {
            root: inputs.root,
            scope: Scope::As,
            database: inputs.database,
        };
        self.index
            .follow(from, dirty.keys.as_slice(), &mut affected)?;
        Ok(affected)
    }

    // Adds all LSAs to an empty index. Returns the destinations and addresses of their routes.
    fn follow_all(
        &mut self,
        alloc: Global,
        inputs: &ExternalInputs<'_>,
    ) -> Result<AffectedDests, Memory>
        requires { self.old ≡ no_routes }
        ensures { IfOk result (λ affected. StandsButRouters inputs.now affected self.new) }
    {
        let mut affected = AffectedDests::none(alloc);
        let from = ScopeDatabase {
            root: inputs.root,
            scope: Scope::As,
            database: inputs.database,
        };
        self.index.follow_all(from, &mut affected)?;
        Ok(affected)
    }

    // Recomputes the results that the listed destinations and `affected` may change. Returns the
    // destinations whose result changed, in ascending order without duplicates.
    fn update_results(
        &mut self,
        alloc: Global,
        inputs: &ExternalInputs<'_>,
        dests: &[Dest],
        affected: AffectedDests,
    ) -> Result<Vec<Dest>, Memory>
        requires { StandsBut inputs.now dests.now affected self.old }
        ensures kept { OnOk result (IsExternalOf inputs.now self.new) }
        ensures in_order { IfOk result (λ others. IsStrictlySortedBy dest_cmp others.items) }
        ensures exact { IfOk result (λ others. ListsExactly (DiffersAt self.old self.new) others.items) }
    {
        let AffectedDests {
            dests: mut leading,
            addresses,
        } = affected;
        let index = &self.index;
        // First the preferred routes, then the matches of forwarding addresses, then the networks
        // that use what changed.
        let named = routers_among(alloc, dests)?;
        let preferring = Preferring { inputs };
        let routers = self.preferred.follow(alloc, named, &preferring)?;
        let forwarding = Forwarding { inputs, index };
        let moved = forwarding.update_forwards(alloc, dests, addresses, &mut self.forwards)?;
        list_dests_by_routers(index, &routers, &mut leading)?;
        list_dests_by_addresses(index, &moved, &mut leading)?;
        list_dests_led_to(index, dests, &mut leading)?;
        let due = networks_among(alloc, &leading)?;
        let choosing = Choosing {
            inputs,
            index,
            preferred: &self.preferred,
            forwards: &self.forwards,
        };
        let networks = self.entries.follow(alloc, due, &choosing)?;
        let others = dests_of(alloc, &networks, &routers)?;
        Ok(others)
    }

    fn spend(&mut self, alloc: Global)
        ensures { self.new ≡ spent_routes }
    {
        self.index = AdvertisedIndex::new(alloc, self.hashing);
        self.preferred.clear();
        self.forwards.clear();
        self.entries.clear();
        self.spent = true;
    }
}

// Returns all routers that may have a preferred route: the routers that intra-area routes keep, and
// the routers with an inter-area entry.
fn boundary_routers(alloc: Global, inputs: &ExternalInputs<'_>) -> Result<Vec<Dest>, Memory>
    ensures { IfOk result (λ dests. HasBoundaryRouters inputs.now dests.items) }
{
    let mut routers = inputs.intra.routers(alloc)?;
    let others = inputs.inter.dests(alloc)?;
    routers.extend_from_slice(&routers_among(alloc, &others)?)?;
    let dests = dests_of(alloc, &[], &routers)?;
    Ok(dests)
}
