//! The index of advertised routes.
ghost use Rattle.std.specs.Prelude.{◌≡◌, ◌≢◌, ◌↔◌, ◌≤◌, ◌<◌, ℕ, IsTrue, OnOk, OnErr, option_copied};
ghost use Rattle.std.specs.FinMap as map;
ghost use Rattle.ospf_types.specs.declared.key.Key.{Key as KeyValue};
ghost use Rattle.ospf_types.specs.Address.{HasAddress};
ghost use Rattle.ospf_types.specs.Keys.{key_cmp};
ghost use Rattle.advertised_index.specs.declared.index_key.IndexKey.TheVariants as group_value;
ghost use Rattle.advertised_index.specs.Indexes.{empty_index, IsTakenAt, IsAlikeAt, AreAlikeBut};
ghost use Rattle.advertised_index.specs.Indexes.{IsIndexOf, IsIndexBehind, IsInGroup, IsLedTo};
ghost use Rattle.advertised_index.specs.Indexes.{GroupLeadsTo, IsForwardedTo, IsForwardedInto, HasDest};
ghost use Rattle.advertised_index.specs.Indexes.{AreDestsAffected};
ghost use Rattle.advertised_index.specs.Lists.{HasMore, HasMoreOnce, KeepsAll, HasAll, HasAtMost};
ghost use Rattle.advertised_index.specs.LsasByKey.{IsMemberBy, AreRoutesAlikeBut};
ghost use Rattle.route_choice.specs.Results.{result_at};

use crate::advertised::{AdvertisedRoute, ScopeDatabase};
use crate::affected_dests::AffectedDests;
use crate::index_key::IndexKey;
use crate::lsas_by_key::LsasByKey;
use ospf_types::key::{Dest, Key, Scope};
use ospf_types::memory::Memory;
use ospf_types::prefix::Prefix;
use route_choice::{ResultMap, are_same};
use std::alloc::Global;
use std::hash::RandomState;
use std::marker::Model;

/// The route that each LSA of a database advertises, as last taken from the LSA.
pub struct AdvertisedIndex {
    routes: ResultMap<Key, AdvertisedRoute>,
    members: LsasByKey,
}

// proof: a value is dropped by one call, not part by part at each exit of a function.
impl Drop for AdvertisedIndex {
    fn drop(self) {
        let AdvertisedIndex {
            routes: _routes,
            members: _members,
        } = self;
    }
}

impl Model for AdvertisedIndex {
    ghost use Rattle.std.specs.FinMap as map;
    ghost use Rattle.std.specs.Coded.{Coded, codes};
    ghost use Rattle.ospf_types.specs.Keys.{key_code};
    ghost use Rattle.ospf_types.specs.contracts.key.Dest as dest;
    ghost use Rattle.advertised_index.specs.Indexes.{OfferIndexValue, AdvertisedByKey};

    ghost Value = { OfferIndexValue };

    ghost coded = { let routes : Coded AdvertisedByKey = map.code key_code (Prim.hlevel (codes, dest.the_row.coded)) in Prim.hlevel (codes, routes) };

    ghost use Rattle.advertised_index.specs.LsasByKey.{AreMembersOf};

    ghost view = { λ i. record { routes = map.from_entries i.routes.entries } };

    // The groups have the keys of the routes in them, and no others.
    ghost invariant = { λ i. AreMembersOf (map.from_entries i.routes.entries) i.members };
}

impl AdvertisedIndex {
    /// Creates the index of a database without LSAs.
    pub fn new(alloc: Global, hashing: RandomState) -> AdvertisedIndex
        ensures { result ≡ empty_index }
    {
        AdvertisedIndex {
            routes: ResultMap::new(alloc, hashing),
            members: LsasByKey::new(alloc, hashing),
        }
    }

    /// Returns the route that the LSA with this key advertises, if there is one.
    pub fn route(&self, key: Key) -> Option<&AdvertisedRoute>
        ensures { option_copied result ≡ map.get self.now.routes key }
    {
        self.routes.get(key)
    }

    /// Updates the routes of the LSAs with these keys in the scope. The root's own LSAs give it no
    /// route.
    ///
    /// Appends to `affected` the destinations and forwarding addresses of each route that changed,
    /// before and after.
    ///
    /// # Errors
    ///
    /// Returns `Memory` if memory runs out. Some routes are then updated and others are not.
    pub fn follow(
        &mut self,
        from: ScopeDatabase<'_>,
        keys: &[(Scope, Key)],
        affected: &mut AffectedDests,
    ) -> Result<(), Memory>
        requires before { IsIndexBehind from.root from.scope keys.now from.database.now.lsas
            self.old }
        ensures index { OnOk result
            (IsIndexOf from.entry.root from.entry.scope from.entry.database.now.lsas self.new) }
        ensures touched { OnOk result (AreDestsAffected self.old self.new affected.old affected.new) }
    {
        for named in keys {
            self.follow_named(from, *named, affected)?;
        }
        Ok(())
    }

    /// Adds the routes of all LSAs of the database to an empty index.
    ///
    /// # Errors
    ///
    /// Returns `Memory` if memory runs out. Some routes are then added and others are not.
    pub fn follow_all(
        &mut self,
        from: ScopeDatabase<'_>,
        affected: &mut AffectedDests,
    ) -> Result<(), Memory>
        requires { self.old ≡ empty_index }
        ensures index { OnOk result
            (IsIndexOf from.entry.root from.entry.scope from.entry.database.now.lsas self.new) }
        ensures touched { OnOk result (AreDestsAffected self.old self.new affected.old affected.new) }
    {
        for key in from.database.keys() {
            self.follow_key(from, *key, affected)?;
        }
        Ok(())
    }

    /// Removes all routes, and appends their destinations and forwarding addresses to `affected`.
    ///
    /// # Errors
    ///
    /// Returns `Memory` if memory runs out. The index is then unchanged.
    pub fn clear(&mut self, affected: &mut AffectedDests) -> Result<(), Memory>
        ensures cleared { OnOk result (self.new ≡ empty_index) }
        ensures touched { OnOk result (AreDestsAffected self.old self.new affected.old affected.new) }
    {
        self.touch_all(affected)?;
        self.routes.clear();
        self.members.clear();
        Ok(())
    }

    /// Appends the keys in the group, in no stated order, without duplicates.
    ///
    /// # Errors
    ///
    /// Returns `Memory` if memory runs out. Some keys may then be appended.
    pub fn list_keys(&self, group: IndexKey, keys: &mut Vec<Key>) -> Result<(), Memory>
        ensures exact { OnOk result
            (HasMore (IsInGroup self.now group) keys.old.items keys.new.items) }
        ensures each_once { OnOk result (HasMoreOnce keys.old.items keys.new.items) }
    {
        for (_, key) in self.members.among(&group, &group) {
            keys.push(*key)?;
        }
        Ok(())
    }

    /// Appends the destinations of the routes in the group. Some may be appended twice.
    ///
    /// # Errors
    ///
    /// Returns `Memory` if memory runs out. Some destinations may then be appended.
    pub fn list_dests(&self, group: IndexKey, dests: &mut Vec<Dest>) -> Result<(), Memory>
        ensures { OnOk result
            (HasMore (GroupLeadsTo self.now group) dests.old.items dests.new.items) }
    {
        for (_, key) in self.members.among(&group, &group) {
            self.list_dest(*key, dests)?;
        }
        Ok(())
    }

    /// Appends the forwarding addresses in the network, in host order.
    ///
    /// # Errors
    ///
    /// Returns `Memory` if memory runs out. Some addresses may then be appended.
    pub fn list_addresses(&self, network: Prefix, addresses: &mut Vec<u32>) -> Result<(), Memory>
        ensures { OnOk result
            (HasMore (IsForwardedInto self.now network) addresses.old.items addresses.new.items) }
    {
        let (first, last) = (network.address(), last_address(network));
        if !self.members.may_have_addresses(first, last) {
            return Ok(());
        }
        for address in self.members.addresses(first, last) {
            push_inside(network, *address, addresses)?;
        }
        Ok(())
    }

    /// Returns true if a route has a forwarding address.
    pub fn has_addresses(&self) -> bool
        ensures { IsTrue result ↔ ((a : ℕ) × IsForwardedTo self.now a) }
    {
        self.members.has_addresses()
    }

    /// Returns true if a route leads to the destination.
    pub fn leads_to(&self, dest: Dest) -> bool
        ensures { IsTrue result ↔ IsLedTo self.now dest }
    {
        self.members.has_dest(dest)
    }

    /// Returns true if a route has this forwarding address (in host order).
    pub fn has_address(&self, address: u32) -> bool
        ensures { IsTrue result ↔ IsForwardedTo self.now address }
    {
        let group = IndexKey::Forwarded(address);
        match self.members.among(&group, &group).next() {
            Some(_) => true,
            None => false,
        }
    }
}

impl AdvertisedIndex {
    // Updates the route of the LSA with this key, if the LSA is in the scope.
    fn follow_named(
        &mut self,
        from: ScopeDatabase<'_>,
        named: (Scope, Key),
        affected: &mut AffectedDests,
    ) -> Result<(), Memory>
        ensures taken { OnOk result (named.0 ≡ from.entry.scope
            → IsTakenAt from.entry.root from.entry.scope named.1 from.entry.database.now.lsas
            self.new) }
        ensures others { OnOk result
            ((k : KeyValue) → named ≢ (from.entry.scope, k) → IsAlikeAt self.old self.new k) }
        ensures touched { OnOk result (AreDestsAffected self.old self.new affected.old affected.new) }
    {
        let (of, key) = named;
        if of != from.scope {
            return Ok(());
        }
        self.follow_key(from, key, affected)
    }

    // Updates the route of the LSA with this key.
    fn follow_key(
        &mut self,
        from: ScopeDatabase<'_>,
        key: Key,
        affected: &mut AffectedDests,
    ) -> Result<(), Memory>
        ensures taken { OnOk result
            (IsTakenAt from.entry.root from.entry.scope key from.entry.database.now.lsas self.new) }
        ensures others { OnOk result (AreAlikeBut key self.old self.new) }
        ensures touched { OnOk result (AreDestsAffected self.old self.new affected.old affected.new) }
    {
        let fresh = from.advertised_under(key);
        if are_same(self.route(key), fresh.as_ref()) {
            return Ok(());
        }
        self.exchange(key, fresh, affected)
    }

    // Sets the route at the key, or removes it if `fresh` is `None`. Appends the destination and
    // the forwarding address of the old and of the new route.
    fn exchange(
        &mut self,
        key: Key,
        fresh: Option<AdvertisedRoute>,
        affected: &mut AffectedDests,
    ) -> Result<(), Memory>
        ensures taken { OnOk result (map.get self.new.routes key ≡ fresh) }
        ensures others { OnOk result (AreAlikeBut key self.old self.new) }
        ensures touched { OnOk result (AreDestsAffected self.old self.new affected.old affected.new) }
    {
        let old = self.route(key).copied();
        affected.add(old.as_ref())?;
        affected.add(fresh.as_ref())?;
        self.put(key, old.as_ref(), fresh.as_ref())?;
        Ok(())
    }

    // Replaces the route at the key. If memory runs out, the index is unchanged.
    fn put(
        &mut self,
        key: Key,
        old: Option<&AdvertisedRoute>,
        fresh: Option<&AdvertisedRoute>,
    ) -> Result<(), Memory>
        requires { map.get self.old.routes key ≡ option_copied old }
        ensures taken { OnOk result (map.get self.new.routes key ≡ option_copied fresh.entry) }
        ensures others { OnOk result (AreAlikeBut key self.old self.new) }
        ensures unchanged { OnErr result (self.new ≡ self.old) }
    {
        match put_in(&mut self.members, &mut self.routes, key, fresh) {
            Ok(()) => {
                self.members.leave(key, old, fresh);
                Ok(())
            }
            Err(memory) => {
                self.members.leave(key, fresh, old);
                Err(memory)
            }
        }
    }

    // Appends the destinations and forwarding addresses of all routes.
    fn touch_all(&self, affected: &mut AffectedDests) -> Result<(), Memory>
        ensures { OnOk result (AreDestsAffected self.now empty_index affected.old affected.new) }
    {
        let keys = self.routes.keys(*affected.dests.allocator())?;
        for key in keys.as_slice() {
            affected.add(self.route(*key))?;
        }
        Ok(())
    }

    // Appends the destination of the route at the key.
    fn list_dest(&self, key: Key, dests: &mut Vec<Dest>) -> Result<(), Memory>
        ensures { OnOk result
            (HasMore (HasDest (map.get self.now.routes key)) dests.old.items dests.new.items) }
    {
        let Some(route) = self.route(key) else {
            return Ok(());
        };
        dests.push(route.dest())?;
        Ok(())
    }
}

// Adds the key to the groups of the new route, and sets the route at the key. If memory runs out,
// the routes are unchanged, and the key is in some of the groups.
fn put_in(
    members: &mut LsasByKey,
    routes: &mut ResultMap<Key, AdvertisedRoute>,
    key: Key,
    fresh: Option<&AdvertisedRoute>,
) -> Result<(), Memory>
    ensures kept { KeepsAll members.old members.new }
    ensures only { HasAtMost (IsMemberBy (option_copied fresh.entry) key) members.old members.new }
    ensures listed { OnOk result (HasAll (IsMemberBy (option_copied fresh.entry) key) members.new) }
    ensures here { OnOk result (result_at key_cmp routes.new key ≡ option_copied fresh.entry) }
    ensures others { OnOk result (AreRoutesAlikeBut key routes.old routes.new) }
    ensures unchanged { OnErr result (routes.new.entries ≡ routes.old.entries) }
{
    members.list(key, fresh)?;
    routes.update(key, fresh.copied())?;
    Ok(())
}

// Appends the address, if it is in the network.
fn push_inside(network: Prefix, address: u32, addresses: &mut Vec<u32>) -> Result<(), Memory>
    ensures { OnOk result
        (HasMore (λ a. (a ≡ address) × HasAddress network a)
        addresses.old.items addresses.new.items) }
{
    if network.contains(address) {
        addresses.push(address)?;
    }
    Ok(())
}

// Returns the last address of the network.
fn last_address(network: Prefix) -> u32
    ensures not_before { network.address ≤ result }
    ensures within { (a : ℕ) → HasAddress network a → (network.address ≤ a) × (a ≤ result) }
{
    let host = 32 - u32::from(network.length());
    if host == 32 {
        return u32::MAX;
    }
    network.address() + ((1 << host) - 1)
}
