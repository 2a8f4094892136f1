//! The changes of one area's list: planned with memory, and carried out without.
ghost use Rattle.std.specs.Prelude.{◌≡◌, IfOk};
ghost use Rattle.summary_lists.specs.Lists.{AreMetricsInOrder};
ghost use Rattle.summary_lists.specs.Plans.{Fits, IsListChanged};

use crate::due::DueSummary;
use crate::list::AreaSummaries;
use ospf_types::key::Dest;
use ospf_types::memory::Memory;
use std::alloc::Global;

// The greatest number of changes that are always made one by one. If there are more, and some of
// them move the summaries after them, the list is rebuilt in one pass.
const FEW: usize = 8;

/// The changes of one area's list, which are first planned and then made.
#[derive(Drop)]
pub struct AreaPlan {
    /// The Area ID.
    pub area: u32,
    /// The destinations in ascending order without duplicates, with their metrics: `None` for a
    /// destination that is no longer due.
    pub metrics: Vec<(Dest, Option<u32>)>,
    /// The list with these changes, if it was rebuilt and is not set yet.
    pub whole: Option<Vec<DueSummary>>,
}

impl AreaPlan {
    /// Plans these changes. The list is unchanged, and gets room for them.
    ///
    /// `moves` should be true if some destinations are added or removed. If many summaries have to
    /// move, it costs less to rebuild the list.
    ///
    /// # Errors
    ///
    /// Returns `Memory` if memory runs out. The list is then unchanged.
    pub fn of(
        alloc: Global,
        metrics: Vec<(Dest, Option<u32>)>,
        moves: bool,
        summaries: &mut AreaSummaries,
    ) -> Result<AreaPlan, Memory>
        requires { AreMetricsInOrder metrics.items }
        ensures area { summaries.new.area ≡ summaries.old.area }
        ensures list { summaries.new.list ≡ summaries.old.list }
        ensures of_area { IfOk result (λ plan. plan.area ≡ summaries.old.area) }
        ensures fits { IfOk result (λ plan. Fits plan summaries.new) }
        ensures metrics { IfOk result (λ plan. plan.metrics ≡ metrics) }
    {
        if moves && metrics.len() > FEW {
            let list = summaries.merged(alloc, &metrics)?;
            return Ok(AreaPlan {
                area: summaries.area(),
                metrics,
                whole: Some(list),
            });
        }
        summaries.reserve(metrics.len())?;
        Ok(AreaPlan {
            area: summaries.area(),
            metrics,
            whole: None,
        })
    }

    /// Makes the planned changes in the list. It allocates nothing.
    pub fn carry_out(&mut self, summaries: &mut AreaSummaries)
        requires { Fits self.old summaries.old }
        ensures list { IsListChanged self.old.metrics.items summaries.old summaries.new }
        ensures area { self.new.area ≡ self.old.area }
        ensures metrics { self.new.metrics ≡ self.old.metrics }
    {
        match self.whole.take() {
            Some(list) => summaries.set(list),
            None => summaries.put_all(&self.metrics),
        }
    }
}
