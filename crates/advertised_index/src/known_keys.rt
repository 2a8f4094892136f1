//! The groups of destinations and of forwarding addresses that have a key.
ghost use Rattle.std.specs.Prelude.{◌≢◌, ◌↔◌, ◌≤◌, ℕ, IsTrue, OnOk, OnErr};
ghost use Rattle.advertised_index.specs.declared.index_key.IndexKey.{IndexKey as GroupValue};
ghost use Rattle.advertised_index.specs.declared.index_key.IndexKey.TheVariants as group_value;
ghost use Rattle.advertised_index.specs.Lists.{HasThoseFrom};
ghost use Rattle.advertised_index.specs.KnownKeys.{IsNotable, IsNoted, NotesNoMore, NotesAtMost};

use crate::index_key::IndexKey;
use indexmap::IndexSet;
use ospf_types::WordHash;
use ospf_types::key::Dest;
use ospf_types::memory::Memory;
use std::alloc::Global;
use std::collections::BTreeSet;
use std::collections::btree_set::Range;
use std::hash::RandomState;

/// The destinations of routes, and the forwarding addresses of routes.
pub(crate) struct KnownKeys {
    dests: IndexSet<Dest, WordHash>,
    addresses: BTreeSet<u32>,
}

// proof: a value is dropped by one call, not part by part at each exit of a function.
impl Drop for KnownKeys {
    fn drop(self) {
        let KnownKeys {
            dests: _dests,
            addresses: _addresses,
        } = self;
    }
}

impl KnownKeys {
    pub(crate) fn new(alloc: Global, hashing: RandomState) -> KnownKeys
        ensures { (g : GroupValue) → IsNoted result g → ⊥ }
    {
        KnownKeys {
            dests: IndexSet::with_hasher(alloc, WordHash::new(hashing)),
            addresses: BTreeSet::new(alloc),
        }
    }

    /// Notes the group, if it is of a destination or a forwarding address.
    pub(crate) fn note(&mut self, group: &IndexKey) -> Result<(), Memory>
        ensures kept { (g : GroupValue) → IsNoted self.old g → IsNoted self.new g }
        ensures only { NotesAtMost group.now self.old self.new }
        ensures noted { OnOk result (IsNotable group.now → IsNoted self.new group.now) }
        ensures unchanged { OnErr result (NotesNoMore self.old self.new) }
    {
        match *group {
            IndexKey::To(dest) => {
                self.dests.insert(dest)?;
            }
            IndexKey::By(_) => {}
            IndexKey::Forwarded(address) => {
                self.addresses.insert(address)?;
            }
        }
        Ok(())
    }

    /// Removes the group.
    pub(crate) fn forget(&mut self, group: &IndexKey)
        ensures gone { IsNoted self.new group.now → ⊥ }
        ensures only { NotesNoMore self.old self.new }
        ensures kept { (g : GroupValue) → IsNoted self.old g → g ≢ group.now → IsNoted self.new g }
    {
        match *group {
            IndexKey::To(dest) => {
                self.dests.swap_remove(&dest);
            }
            IndexKey::By(_) => {}
            IndexKey::Forwarded(address) => {
                self.addresses.remove(&address);
            }
        }
    }

    pub(crate) fn clear(&mut self)
        ensures { (g : GroupValue) → IsNoted self.new g → ⊥ }
    {
        self.dests.clear();
        self.addresses.clear();
    }

    /// Returns true if the destination is noted: a route leads to it.
    pub(crate) fn has_dest(&self, dest: Dest) -> bool
        ensures { IsTrue result ↔ IsNoted self.now (group_value.To dest) }
    {
        // An empty set need not hash the destination.
        if self.dests.is_empty() {
            return false;
        }
        self.dests.contains(&dest)
    }

    /// Returns true if a forwarding address is noted.
    pub(crate) fn has_addresses(&self) -> bool
        ensures { IsTrue result ↔ ((a : ℕ) × IsNoted self.now (group_value.Forwarded a)) }
    {
        !self.addresses.is_empty()
    }

    /// Returns the noted forwarding addresses from `first` to `last`.
    pub(crate) fn addresses(&self, first: u32, last: u32) -> Range<'_, u32>
        requires { first ≤ last }
        ensures { HasThoseFrom first last (λ a. IsNoted self.now (group_value.Forwarded a)) result }
    {
        self.addresses.range(first..=last)
    }
}
