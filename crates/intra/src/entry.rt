//! The entry of a network, with a hint.
ghost use Rattle.std.specs.Prelude.{◌≡◌, ◌<◌};
ghost use Rattle.intra.specs.Intras.{most_cost};

use ospf_types::entry::Entry;
use route_choice::Same;
use std::marker::Model;

/// The intra-area entry of a network.
pub struct IntraEntry {
    entry: Entry,
    // The index at which the sources of the network were last found. It is a hint: no result
    // depends on it.
    sources: usize,
}

// proof: a value is dropped by one call, not part by part at each exit of a function.
impl Drop for IntraEntry {
    fn drop(self) {
        let IntraEntry {
            entry: _entry,
            sources: _,
        } = self;
    }
}

impl Model for IntraEntry {
    ghost use Rattle.std.specs.Prelude.{◌<◌};
    ghost use Rattle.ospf_types.specs.declared.entry.Entry.{Entry as EntryValue};
    ghost use Rattle.intra.specs.Intras.{most_cost};

    ghost Value = { EntryValue };

    ghost view = { λ e. e.entry };

    ghost invariant = { λ e. e.entry.cost < most_cost };
}

impl IntraEntry {
    pub(crate) fn new(entry: Entry, sources: usize) -> IntraEntry
        requires { entry.cost < most_cost }
        ensures { result ≡ entry }
    {
        IntraEntry { entry, sources }
    }

    /// Returns the entry.
    pub fn entry(&self) -> &Entry
        ensures value { result.now ≡ self.now }
        ensures bounded { result.now.cost < most_cost }
    {
        &self.entry
    }

    pub(crate) fn sources(&self) -> usize {
        self.sources
    }
}

impl Same for IntraEntry {
    fn is_same(&self, other: &IntraEntry) -> bool {
        self.entry.is_same(&other.entry)
    }
}
