//! The areas of the packets of a capture.
ghost use Rattle.std.specs.Prelude.{◌≡◌, [], length, IfOk, OnOk, OnErr};
ghost use Rattle.captured_config.specs.Areas.{with_area, ascending as ascending_of};

use indexmap::IndexSet;
use ospf_types::memory::Memory;
use std::alloc::Global;
use std::hash::RandomState;
use std::marker::Model;

/// The Area IDs of the packets of a capture.
#[derive(Drop)]
pub struct SeenAreas {
    ids: IndexSet<u32, RandomState>,
}

/// Contracts see them without duplicates, in the order in which they were first seen.
impl Model for SeenAreas {
    ghost use Rattle.std.specs.Prelude.{List, ℕ};

    ghost Value = { List ℕ };

    ghost view = { λ a. a.ids.keys };
}

impl SeenAreas {
    /// Creates an empty set of areas.
    pub fn new(alloc: Global, hashing: RandomState) -> SeenAreas
        ensures { result ≡ [] }
    {
        SeenAreas {
            ids: IndexSet::with_hasher(alloc, hashing),
        }
    }

    /// Notes the Area ID (in host order) of a packet.
    pub fn note(&mut self, area: u32) -> Result<(), Memory>
        ensures ok { OnOk result (self.new ≡ with_area self.old area) }
        ensures err { OnErr result (self.new ≡ self.old) }
    {
        self.ids.insert_full(area)?;
        Ok(())
    }

    /// Returns the number of areas.
    pub fn count(&self) -> usize
        ensures { result ≡ length self.now }
    {
        self.ids.len()
    }

    /// Returns the Area IDs without duplicates, in the order in which they were first seen.
    pub fn as_slice(&self) -> &[u32]
        ensures { result.now ≡ self.now }
    {
        self.ids.as_slice()
    }

    /// Returns the Area IDs in ascending order.
    pub(crate) fn ascending(&self, alloc: Global) -> Result<Vec<u32>, Memory>
        ensures { IfOk result (λ ids. ids.items ≡ ascending_of self.now) }
    {
        let mut ids = Vec::from_slice(alloc, self.as_slice())?;
        ids.sort_unstable();
        ids.dedup();
        Ok(ids)
    }
}
