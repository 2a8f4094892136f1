//! The cost of an inter-area route.
ghost use Rattle.std.specs.Prelude.{◌≡◌, ◌+◌, ◌^◌, ◌<◌, ◌↔◌, IsTrue};
ghost use Rattle.ospf_types.specs.Inter.{LSInfinity};
ghost use Rattle.inter.specs.Inters.{most_cost};

use ospf_types::entry::Entry;
use route_choice::{ExactOrd, Same};
use std::marker::Model;

/// The sum of the distance of a border router and the metric of its summary.
#[derive(Clone, Copy, PartialEq, Eq, PartialOrd, Ord)]
pub(crate) struct SummaryCost(u32);

impl Model for SummaryCost {
    ghost use Rattle.std.specs.Prelude.{ℕ, ◌<◌};
    ghost use Rattle.inter.specs.Inters.{most_cost};

    ghost Value = { ℕ };

    ghost view = { λ c. c.0 };

    ghost invariant = { λ c. c.0 < most_cost };

    ghost inverse = { λ n. record { 0 = n } };
}

impl ExactOrd for SummaryCost {
    ghost use Rattle.std.proofs.lemmas.Map.Lookups.{exact_unsigned};

    ghost exact = { exact_unsigned };
}

impl SummaryCost {
    pub(crate) fn new(distance: u32, metric: u32) -> SummaryCost
        requires near { distance < 2 ^ 30 }
        requires finite { metric < LSInfinity }
        ensures { result ≡ distance + metric }
    {
        SummaryCost(distance + metric)
    }

    pub(crate) fn cost(self) -> u32
        ensures value { result ≡ self }
        ensures bounded { result < most_cost }
    {
        self.0
    }
}

/// The entry of an inter-area destination, whose cost is below the bound of `SummaryCost`.
pub(crate) struct InterEntry {
    entry: Entry,
}

// proof: a value is dropped by one call, not part by part at each exit of a function.
impl Drop for InterEntry {
    fn drop(self) {
        let InterEntry { entry: _entry } = self;
    }
}

impl Model for InterEntry {
    ghost use Rattle.std.specs.Prelude.{◌<◌};
    ghost use Rattle.ospf_types.specs.declared.entry.Entry.{Entry as EntryValue};
    ghost use Rattle.inter.specs.Inters.{most_cost};

    ghost Value = { EntryValue };

    ghost view = { λ e. e.entry };

    ghost invariant = { λ e. e.entry.cost < most_cost };
}

impl InterEntry {
    pub(crate) fn new(entry: Entry) -> InterEntry
        requires { entry.cost < most_cost }
        ensures { result ≡ entry }
    {
        InterEntry { entry }
    }

    pub(crate) fn entry(&self) -> &Entry
        ensures value { result.now ≡ self.now }
        ensures bounded { result.now.cost < most_cost }
    {
        &self.entry
    }
}

impl Same for InterEntry {
    fn is_same(&self, other: &InterEntry) -> bool {
        self.entry.is_same(&other.entry)
    }
}
