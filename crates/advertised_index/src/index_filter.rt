//! A coarse filter of the groups that may have a key, for the cases in which a filter pays.
ghost use Rattle.std.specs.Prelude.{◌≡◌, false, OnOk};
ghost use Rattle.advertised_index.specs.declared.index_key.IndexKey.{IndexKey as GroupValue};
ghost use Rattle.advertised_index.specs.declared.index_key.IndexKey.TheVariants as group_value;
ghost use Rattle.advertised_index.specs.IndexFilter.{MayHave};
ghost use Rattle.advertised_index.specs.Lists.{HasNoneFrom};

use crate::bloom_filter::BloomFilter;
use crate::index_key::IndexKey;
use ospf_types::key::Dest;
use ospf_types::memory::Memory;
use std::alloc::Global;
use std::hash::RandomState;

/// The groups of networks and of forwarding addresses that may have a key. It has each group that
/// has one, and maybe others: a group is not removed with its last key.
#[derive(Drop)]
pub(crate) struct IndexFilter {
    // The networks, by their addresses.
    networks: BloomFilter,
    // The forwarding addresses, by the /24 that contains each.
    blocks: BloomFilter,
}

impl IndexFilter {
    pub(crate) fn new(alloc: Global, hashing: RandomState) -> IndexFilter {
        IndexFilter {
            networks: BloomFilter::new(alloc, hashing),
            blocks: BloomFilter::new(alloc, hashing),
        }
    }

    /// Adds the group.
    pub(crate) fn note(&mut self, group: &IndexKey) -> Result<(), Memory>
        ensures kept { (g : GroupValue) → MayHave self.old g → MayHave self.new g }
        ensures noted { OnOk result (MayHave self.new group.now) }
    {
        match *group {
            IndexKey::To(dest) => self.note_dest(dest),
            IndexKey::By(_) => Ok(()),
            IndexKey::Forwarded(address) => self.blocks.put(address / 256),
        }
    }

    /// Returns true if the group of the destination may have a key, or false if it has none.
    pub(crate) fn may_have_dest(&self, dest: &Dest) -> bool
        ensures { result ≡ false → MayHave self.now (group_value.To dest.now) → ⊥ }
    {
        match *dest {
            Dest::Net(network) => self.networks.has(network.address()),
            Dest::Router(_) => true,
        }
    }

    /// Returns true if the group of a forwarding address from `first` to `last` may have a key, or
    /// false if none has one.
    pub(crate) fn may_have_addresses(&self, first: u32, last: u32) -> bool
        ensures { result ≡ false →
            HasNoneFrom first last (λ a. MayHave self.now (group_value.Forwarded a)) }
    {
        let block = first / 256;
        if last / 256 != block {
            return true;
        }
        self.blocks.has(block)
    }

    pub(crate) fn clear(&mut self) {
        self.networks.clear();
        self.blocks.clear();
    }

    // Adds the group of the destination.
    fn note_dest(&mut self, dest: Dest) -> Result<(), Memory>
        ensures kept { (g : GroupValue) → MayHave self.old g → MayHave self.new g }
        ensures noted { OnOk result (MayHave self.new (group_value.To dest)) }
    {
        match dest {
            Dest::Net(network) => self.networks.put(network.address()),
            Dest::Router(_) => Ok(()),
        }
    }
}
