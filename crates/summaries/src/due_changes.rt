//! The changes of due summaries.
ghost use Rattle.std.specs.Prelude.{◌≡◌, [], length, option_map, slice_get};
ghost use Rattle.summaries.specs.Carrying.{changes_of};
ghost use Rattle.summaries.specs.DueSummaries.{changes_in};

use ospf_types::key::Dest;
use std::alloc::Global;
use std::marker::Model;
use summary_lists::AreaPlan;

/// The summaries that were added or removed, or whose metric changed, area by area.
pub struct DueChanges {
    // A plan for each area. The list is empty if no destination was affected.
    areas: Vec<AreaPlan>,
}

// proof: a value is dropped by one call, not part by part at each exit of a function.
impl Drop for DueChanges {
    fn drop(self) {
        let DueChanges { areas: _areas } = self;
    }
}

impl Model for DueChanges {
    ghost use Rattle.std.specs.Prelude.{ℕ, List};
    ghost use Rattle.summary_lists.specs.Lists.{Metrics};
    ghost use Rattle.summaries.specs.Carrying.{changes_of};

    ghost Value = { List (ℕ × Metrics) };

    ghost view = { λ c. changes_of c.areas.items };
}

impl DueChanges {
    /// Creates a value without changes.
    pub fn none(alloc: Global) -> DueChanges
        ensures { result ≡ [] }
    {
        DueChanges {
            areas: Vec::new(alloc),
        }
    }

    // Returns the changes that these plans made.
    pub(crate) fn of(areas: Vec<AreaPlan>) -> DueChanges
        ensures { result ≡ changes_of areas.items }
    {
        DueChanges { areas }
    }

    /// Removes all changes.
    pub fn clear(&mut self)
        ensures { self.new ≡ [] }
    {
        self.areas.clear();
    }

    /// Returns the number of areas that have a list of changes.
    ///
    /// An area without a list has no changes. Nor has an area whose list is empty.
    pub fn areas(&self) -> usize
        ensures { result ≡ length self.now }
    {
        self.areas.len()
    }

    /// Returns the Area ID at the index, in the order of the configuration, and the area's changes.
    ///
    /// These are the destinations that changed, ascending by LS type and destination, without
    /// duplicates. Each has the metric at which it is due now, or `None` if it is no longer due.
    pub fn at(&self, place: usize) -> Option<(u32, &[(Dest, Option<u32>)])>
        ensures { option_map (λ area. (area.0, area.1.now)) result ≡ slice_get self.now place }
    {
        let plan = self.areas.get(place)?;
        Some((plan.area, plan.metrics.as_slice()))
    }

    /// Returns the changes of the area, or an empty slice if the area is not configured.
    pub fn get(&self, area: u32) -> &[(Dest, Option<u32>)]
        ensures { result.now ≡ changes_in self.now area }
    {
        for plan in &self.areas {
            if plan.area == area {
                return plan.metrics.as_slice();
            }
        }
        &[]
    }
}
