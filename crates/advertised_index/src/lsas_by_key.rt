//! The keys in each group.
ghost use Rattle.std.specs.Prelude.{◌≡◌, ◌≢◌, ◌↔◌, ◌≤◌, ℕ, [], false, IsTrue, OnOk, Contains};
ghost use Rattle.std.specs.Prelude.{option_copied};
ghost use Rattle.std.specs.List.{All, AllPairs};
ghost use Rattle.advertised_index.specs.declared.index_key.IndexKey.TheVariants as group_value;
ghost use Rattle.advertised_index.specs.Lists.{KeepsAll, HasAll, HasAtMost, KeepsThese, KeepsOnly};
ghost use Rattle.advertised_index.specs.Lists.{HasNoneFrom, HasThoseFrom};
ghost use Rattle.advertised_index.specs.LsasByKey.{HasSmallKey, IsSmall, IsNotAfter, IsIndexedUnder, IsMemberBy};
ghost use Rattle.advertised_index.specs.LsasByKey.{IsStillBy, IsNoneBut, HasAllBetween, AreAllBetween};
ghost use Rattle.advertised_index.specs.KnownKeys.{AreNoted, AreNotedBut, HasKey};

use crate::advertised::AdvertisedRoute;
use crate::index_filter::IndexFilter;
use crate::index_key::IndexKey;
use crate::known_keys::KnownKeys;
use ospf_types::key::{Dest, Key};
use ospf_types::memory::Memory;
use std::alloc::Global;
use std::collections::BTreeSet;
use std::collections::btree_set::Range;
use std::hash::RandomState;
use std::marker::Model;

// The least key, and the greatest.
const FIRST: Key = Key {
    kind: 0,
    id: 0,
    router: 0,
};

const LAST: Key = Key {
    kind: u8::MAX,
    id: u32::MAX,
    router: u32::MAX,
};

/// A group and a key in it.
pub(crate) type Member = (IndexKey, Key);

/// The keys in each group, in the order of the groups.
pub(crate) struct LsasByKey {
    members: BTreeSet<Member>,
    noted: KnownKeys,
    coarse: IndexFilter,
}

// proof: a value is dropped by one call, not part by part at each exit of a function.
impl Drop for LsasByKey {
    fn drop(self) {
        let LsasByKey {
            members: _members,
            noted: _noted,
            coarse: _coarse,
        } = self;
    }
}

impl Model for LsasByKey {
    ghost use Rattle.std.specs.Prelude.{List};
    ghost use Rattle.std.specs.Coded.{codes};
    ghost use Rattle.std.specs.List.{All};
    ghost use Rattle.ospf_types.specs.declared.key.Key.{Key as KeyValue};
    ghost use Rattle.advertised_index.specs.declared.index_key.IndexKey.{IndexKey as GroupValue};
    ghost use Rattle.advertised_index.specs.contracts.index_key.IndexKey as group;
    ghost use Rattle.advertised_index.specs.LsasByKey.{HasSmallKey};

    ghost Value = { List (GroupValue × KeyValue) };

    ghost coded = { Prim.hlevel (codes, group.the_row.coded) };

    ghost view = { λ m. m.members.keys };

    ghost use Rattle.advertised_index.specs.KnownKeys.{AreNoted};
    ghost use Rattle.advertised_index.specs.IndexFilter.{AreAmong};

    // A group of a destination or forwarding address is noted if and only if it has a key.
    ghost invariant = { λ m. All HasSmallKey m.members.keys × AreNoted m.members.keys m.noted × AreAmong m.members.keys m.coarse };
}

impl LsasByKey {
    pub(crate) fn new(alloc: Global, hashing: RandomState) -> LsasByKey
        ensures { result ≡ [] }
    {
        LsasByKey {
            members: BTreeSet::new(alloc),
            noted: KnownKeys::new(alloc, hashing),
            coarse: IndexFilter::new(alloc, hashing),
        }
    }

    /// Adds the key to each group of the route. If memory runs out, it may be in some of them.
    pub(crate) fn list(&mut self, key: Key, route: Option<&AdvertisedRoute>) -> Result<(), Memory>
        ensures kept { KeepsAll self.old self.new }
        ensures only { HasAtMost (IsMemberBy (option_copied route.entry) key) self.old self.new }
        ensures listed { OnOk result
            (HasAll (IsMemberBy (option_copied route.entry) key) self.new) }
    {
        let Some(route) = route else {
            return Ok(());
        };
        self.add(IndexKey::To(route.dest()), key)?;
        self.add(IndexKey::By(key.router), key)?;
        if route.forwarding() == 0 {
            return Ok(());
        }
        self.add(IndexKey::Forwarded(route.forwarding()), key)?;
        Ok(())
    }

    /// Removes the key from the groups of the route `gone`, except the groups of the route `stays`.
    pub(crate) fn leave(
        &mut self,
        key: Key,
        gone: Option<&AdvertisedRoute>,
        stays: Option<&AdvertisedRoute>,
    )
        ensures kept { KeepsThese
            (IsStillBy (option_copied gone.entry) (option_copied stays.entry) key)
            self.old self.new }
        ensures only { KeepsOnly
            (IsStillBy (option_copied gone.entry) (option_copied stays.entry) key)
            self.old self.new }
    {
        let Some(gone) = gone else {
            return;
        };
        self.leave_group(IndexKey::To(gone.dest()), key, stays);
        self.leave_group(IndexKey::By(key.router), key, stays);
        if gone.forwarding() == 0 {
            return;
        }
        self.leave_group(IndexKey::Forwarded(gone.forwarding()), key, stays);
    }

    pub(crate) fn clear(&mut self)
        ensures { self.new ≡ [] }
    {
        self.members.clear();
        self.noted.clear();
        self.coarse.clear();
    }

    /// Returns true if the group of the destination has a key.
    pub(crate) fn has_dest(&self, dest: Dest) -> bool
        ensures { IsTrue result ↔ HasKey self.now (group_value.To dest) }
    {
        // The filter is cheaper than the exact set.
        if !self.coarse.may_have_dest(&dest) {
            return false;
        }
        self.noted.has_dest(dest)
    }

    /// Returns true if the group of a forwarding address has a key.
    pub(crate) fn has_addresses(&self) -> bool
        ensures { IsTrue result ↔ ((a : ℕ) × HasKey self.now (group_value.Forwarded a)) }
    {
        self.noted.has_addresses()
    }

    /// Returns true if the group of a forwarding address from `first` to `last` may have a key, or
    /// false if none has one.
    pub(crate) fn may_have_addresses(&self, first: u32, last: u32) -> bool
        ensures { result ≡ false →
            HasNoneFrom first last (λ a. HasKey self.now (group_value.Forwarded a)) }
    {
        self.coarse.may_have_addresses(first, last)
    }

    /// Returns the forwarding addresses from `first` to `last` whose groups have a key.
    pub(crate) fn addresses(&self, first: u32, last: u32) -> Range<'_, u32>
        requires { first ≤ last }
        ensures { HasThoseFrom first last (λ a. HasKey self.now (group_value.Forwarded a)) result }
    {
        self.noted.addresses(first, last)
    }

    /// Returns the pairs of group and key for the groups from `first` to `last`.
    pub(crate) fn among(&self, first: &IndexKey, last: &IndexKey) -> Range<'_, Member>
        requires { IsNotAfter first.now last.now }
        ensures all { HasAllBetween first.now last.now self.now result }
        ensures only { AreAllBetween first.now last.now self.now result }
        ensures each_once { AllPairs (λ m n. m ≢ n) result }
    {
        between(&self.members, first, last)
    }
}

impl LsasByKey {
    // Adds the key to the group.
    fn add(&mut self, group: IndexKey, key: Key) -> Result<(), Memory>
        ensures kept { KeepsAll self.old self.new }
        ensures only { HasAtMost (λ m. m ≡ (group, key)) self.old self.new }
        ensures added { OnOk result (Contains self.new (group, key)) }
    {
        self.coarse.note(&group)?;
        self.noted.note(&group)?;
        match self.members.insert((group, small(key))) {
            Ok(_) => Ok(()),
            Err(_) => {
                forget_without_keys(&self.members, &mut self.noted, &group);
                Err(Memory)
            }
        }
    }

    // Removes the key from the group, unless the route is in it.
    fn leave_group(&mut self, group: IndexKey, key: Key, stays: Option<&AdvertisedRoute>)
        ensures kept { KeepsThese
            (IsNoneBut (option_copied stays.entry) key group) self.old self.new }
        ensures only { KeepsOnly
            (IsNoneBut (option_copied stays.entry) key group) self.old self.new }
    {
        if is_of(stays, &group, key) {
            return;
        }
        self.members.remove(&(group, key));
        forget_without_keys(&self.members, &mut self.noted, &group);
    }
}

// Returns the pairs of group and key for the groups from `first` to `last`.
fn between<'a>(
    members: &'a BTreeSet<Member>,
    first: &IndexKey,
    last: &IndexKey,
) -> Range<'a, Member>
    requires small { All HasSmallKey members.now.keys }
    requires in_order { IsNotAfter first.now last.now }
    ensures all { HasAllBetween first.now last.now members.now.keys result }
    ensures only { AreAllBetween first.now last.now members.now.keys result }
    ensures each_once { AllPairs (λ m n. m ≢ n) result }
{
    members.range((*first, FIRST)..=(*last, LAST))
}

// Removes the group from the noted ones if it has no key.
fn forget_without_keys(members: &BTreeSet<Member>, noted: &mut KnownKeys, group: &IndexKey)
    requires small { All HasSmallKey members.now.keys }
    requires before { AreNotedBut group.now members.now.keys noted.old }
    ensures { AreNoted members.now.keys noted.new }
{
    match between(members, group, group).next() {
        Some(_) => {}
        None => noted.forget(group),
    }
}

// Returns true if there is a route, and it is in the group.
fn is_of(route: Option<&AdvertisedRoute>, group: &IndexKey, key: Key) -> bool
    ensures { IsTrue result ↔ IsIndexedUnder (option_copied route.entry) key group.now }
{
    match route {
        Some(route) => route.is_of(group, key),
        None => false,
    }
}

// proof: returns the key, whose fields fit their types.
fn small(key: Key) -> Key
    ensures value { result ≡ key }
    ensures small { IsSmall result }
{
    key
}
