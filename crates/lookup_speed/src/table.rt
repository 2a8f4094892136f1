//! The operations that the ordered map and the index share.

use crate::sets::network_word;
use ospf_types::memory::Memory;
use ospf_types::prefix::Prefix;
use prefix_index::PrefixIndex;

/// The value of a network, of 56 bytes.
#[derive(Clone, Copy)]
pub struct Value {
    pub number: u64,
    _rest: [u64; 6],
}

impl Value {
    /// Returns a value with the network's word as its number.
    pub fn of(network: Prefix) -> Value {
        Value {
            number: network_word(network),
            _rest: [0; 6],
        }
    }
}

/// A table of values by network.
pub trait LookupTable {
    /// Returns the longest network that contains the address (in host order), with its value.
    fn longest(&self, address: u32) -> Option<(Prefix, &Value)>;

    fn insert(&mut self, network: Prefix, value: Value) -> Result<(), Memory>;

    fn remove(&mut self, network: Prefix);
}

impl LookupTable for PrefixIndex<Value> {
    fn longest(&self, address: u32) -> Option<(Prefix, &Value)> {
        PrefixIndex::longest(self, address)
    }

    fn insert(&mut self, network: Prefix, value: Value) -> Result<(), Memory> {
        PrefixIndex::insert(self, network, value)
    }

    fn remove(&mut self, network: Prefix) {
        PrefixIndex::remove(self, network);
    }
}
