//! An ordered map from networks to values, with which the index is compared. A lookup searches
//! networks of ever shorter length.
ghost use Rattle.std.specs.Prelude.{◌<◌, ◌≤◌};

use crate::table::{LookupTable, Value};
use ospf_types::memory::Memory;
use ospf_types::prefix::Prefix;
use std::alloc::Global;
use std::collections::BTreeMap;

#[derive(Drop)]
pub struct OrderedMap {
    items: BTreeMap<Prefix, Value>,
}

impl OrderedMap {
    pub fn new(alloc: Global) -> OrderedMap {
        OrderedMap {
            items: BTreeMap::new(alloc),
        }
    }

    // Returns the last network of the map, in order, that is not greater than the bound, with its
    // value.
    fn last_up_to(&self, bound: Prefix) -> Option<(&Prefix, &Value)> {
        self.items.range(..=bound).next_back()
    }
}

impl LookupTable for OrderedMap {
    fn longest(&self, address: u32) -> Option<(Prefix, &Value)> {
        // No network of the map that contains the address is longer than `length`.
        let mut length = 32;
        while let Some((network, value)) = self.last_up_to(Prefix::around(address, length)) {
            if network.contains(address) {
                return Some((*network, value));
            }
            if length == 0 {
                return None;
            }
            length = shorter(address, length, network.address());
        }
        None
    }

    fn insert(&mut self, network: Prefix, value: Value) -> Result<(), Memory> {
        self.items.insert(network, value)?;
        Ok(())
    }

    fn remove(&mut self, network: Prefix) {
        self.items.remove(&network);
    }
}

// Returns the greatest length below `length` at which the network around the address begins no
// later than the bound, or 0.
fn shorter(address: u32, length: u8, bound: u32) -> u8
    requires some { 0 < length }
    requires within { length ≤ 32 }
    ensures shorter { result < length }
{
    for less in (1..length).rev() {
        let host = 32 - u32::from(less);
        if (address >> host) << host <= bound {
            return less;
        }
    }
    0
}
