//! Due summaries (RFC 2328, 12.4.3): built, planned and carried out.
ghost use Rattle.std.specs.Prelude.{◌≡◌, ◌++◌, length, map as list_map, IfOk, OnOk, option_map};
ghost use Rattle.std.specs.List.{flat_map};
ghost use Rattle.std.specs.List.Sorted.{IsStrictlySortedBy};
ghost use Rattle.ospf_types.specs.Keys.{dest_cmp};
ghost use Rattle.summary_lists.specs.Lists.{AreInOrder, AreOfKind};
ghost use Rattle.summaries.specs.Candidates.{AreSummaryCandidates, dests_in};
ghost use Rattle.summaries.specs.DueSummaries.{AreOfInactive, AreSummariesOf, dests_of, list_in};
ghost use Rattle.summaries.specs.DueSummaries.{listed, lists_of};
ghost use Rattle.summaries.specs.Changes.{AddsChange, AreChangesIn, AreEnough, AreEnoughForAll};
ghost use Rattle.summaries.specs.Changes.{AreSummariesBehind};
ghost use Rattle.summaries.specs.Carrying.{AllFit, AllChanged, IsReady, IsCarriedOut};
ghost use Rattle.summaries.specs.Carrying.{MakesChangesFrom, MakesSummariesOf, changes_of};
ghost use Rattle.summaries.specs.Planning.{ArePlanned, IsPlannedIn};
ghost use Rattle.summaries.specs.Right.{IsRightWith};

use crate::affected::{affected, all, sorted_unique};
use crate::due_changes::DueChanges;
use crate::giving::{SummaryCandidate, find_candidate, is_served, metric};
use crate::inputs::SummaryInputs;
use ospf_types::config::AreaConfig;
use ospf_types::key::Dest;
use ospf_types::memory::Memory;
use smallvec::SmallVec;
use std::alloc::Global;
use std::marker::Model;
use summary_lists::{AreaPlan, AreaSummaries, DueSummary, look_up};

/// The changes to make in due summaries, for which all memory is reserved.
#[derive(Drop)]
pub struct Plan {
    // A plan for each area. The list is empty if no destination is affected.
    areas: Vec<AreaPlan>,
    active: SmallVec<u32, 4>,
}

impl Model for Plan {
    ghost use Rattle.std.specs.Coded.{codes};
    ghost use Rattle.summary_lists.specs.contracts.plan.AreaPlan as area_plan;
    ghost use Rattle.summaries.specs.Carrying.{PlanValue};

    ghost Value = { PlanValue };

    ghost coded = { Prim.hlevel (codes, area_plan.the_row.coded) };

    ghost view = { λ p. record { areas = p.areas.items; active = p.active.items } };
}

/// The summary-LSAs that an area border router should originate into its areas (RFC 2328, 12.4.3).
pub struct DueSummaries {
    areas: Vec<AreaSummaries>,
    active: SmallVec<u32, 4>,
    // The affected destinations of the last plan. They are kept for their memory.
    candidates: Vec<SummaryCandidate>,
}

// proof: a value is dropped by one call, not part by part at each exit of a function.
impl Drop for DueSummaries {
    fn drop(self) {
        let DueSummaries {
            areas: _areas,
            active: _active,
            candidates: _candidates,
        } = self;
    }
}

impl Model for DueSummaries {
    ghost use Rattle.std.specs.Coded.{codes};
    ghost use Rattle.summary_lists.specs.contracts.list.AreaSummaries as area_summaries;
    ghost use Rattle.summaries.specs.DueSummaries.{DueSummariesValue};

    ghost Value = { DueSummariesValue };

    ghost coded = { Prim.hlevel (codes, area_summaries.the_row.coded) };

    ghost view = { λ d. record { areas = d.areas.items; active = d.active.items } };
}

impl DueSummaries {
    /// Builds the due summaries of these inputs.
    pub fn build(alloc: Global, inputs: &SummaryInputs<'_>) -> Result<DueSummaries, Memory>
        ensures kept { IfOk result (AreSummariesOf inputs.now) }
        ensures right { IfOk result (IsRightWith inputs.now) }
    {
        let mut summaries = DueSummaries::none(alloc, inputs.areas)?;
        let plan = summaries.plan(alloc, inputs, &[])?;
        let _ = summaries.carry_out(plan);
        Ok(summaries)
    }

    /// Plans the update of the due summaries for the destinations in `dests`. The lists are
    /// unchanged, and reserve the memory that carrying out the plan needs.
    ///
    /// `dests` lists every destination whose route may have changed. If an address range was set or
    /// dropped, it also lists the prefix of the range, and the networks of its area that it covers.
    ///
    /// # Errors
    ///
    /// Returns `Memory` if memory runs out. The lists are then unchanged.
    pub fn plan(
        &mut self,
        alloc: Global,
        inputs: &SummaryInputs<'_>,
        dests: &[Dest],
    ) -> Result<Plan, Memory>
        requires before { AreSummariesBehind dests.now inputs.now self.old }
        ensures unchanged { lists_of self.new ≡ lists_of self.old }
        ensures active { self.new.active ≡ self.old.active }
        ensures ready { IfOk result (λ plan. IsReady plan self.new) }
        ensures kept { IfOk result (MakesSummariesOf inputs.now self.new) }
        ensures changes { IfOk result (MakesChangesFrom self.old self.new) }
    {
        let affected = self.affected(alloc, inputs, dests)?;
        let active = SmallVec::from_slice(alloc, inputs.active)?;
        if affected.is_empty() {
            let areas = Vec::new(alloc);
            return Ok(Plan { areas, active });
        }
        find_candidates(inputs, &affected, &mut self.candidates)?;
        let planning = Planning {
            inputs,
            candidates: &self.candidates,
        };
        let areas = planning.plan_areas(alloc, &mut self.areas)?;
        Ok(Plan { areas, active })
    }

    /// Makes the changes of a plan, and returns them. It allocates nothing.
    pub fn carry_out(&mut self, plan: Plan) -> DueChanges
        requires { IsReady plan self.old }
        ensures carried { IsCarriedOut plan self.old self.new }
        ensures changes { result ≡ changes_of plan.areas }
    {
        let Plan { mut areas, active } = plan;
        carry_out_areas(&mut areas, &mut self.areas);
        self.active = active;
        DueChanges::of(areas)
    }

    /// Returns the due summaries of each area, in the order of the configuration.
    pub fn areas(&self) -> &[AreaSummaries]
        ensures { result.now ≡ self.now.areas }
    {
        self.areas.as_slice()
    }

    /// Returns the due summaries of the area, ascending by LS type and destination, or `None` if
    /// the area is not configured.
    pub fn get(&self, area: u32) -> Option<&[DueSummary]>
        ensures { option_map (λ list. list.now) result ≡ list_in self.now.areas area }
    {
        for summaries in &self.areas {
            if summaries.area() == area {
                return Some(summaries.as_slice());
            }
        }
        None
    }
}

impl DueSummaries {
    // Creates empty lists for the areas.
    fn none(alloc: Global, areas: &[AreaConfig]) -> Result<DueSummaries, Memory>
        ensures { IfOk result (AreOfInactive areas.now) }
    {
        let mut lists = Vec::with_capacity(alloc, areas.len())?;
        for area in areas {
            lists.push(AreaSummaries::none(alloc, area.id))?;
        }
        Ok(DueSummaries {
            areas: lists,
            active: SmallVec::new(alloc),
            candidates: Vec::new(alloc),
        })
    }

    // Returns the destinations whose due summaries may change, in ascending order without
    // duplicates. These are all destinations if other areas are active than before.
    fn affected(
        &self,
        alloc: Global,
        inputs: &SummaryInputs<'_>,
        dests: &[Dest],
    ) -> Result<Vec<Dest>, Memory>
        ensures in_order { IfOk result (λ found. IsStrictlySortedBy dest_cmp found.items) }
        ensures enough { IfOk result
            (λ found. AreEnough dests.now inputs.now self.now found.items) }
    {
        let are_same = self.active.as_slice() == inputs.active;
        if !are_same {
            return self.all(alloc, inputs);
        }
        // 12.4.3: only area border routers originate summary-LSAs.
        if inputs.active.len() < 2 {
            return Ok(Vec::new(alloc));
        }
        affected(alloc, inputs.areas, dests)
    }

    // Returns all destinations that are or may be due, in ascending order without duplicates.
    fn all(&self, alloc: Global, inputs: &SummaryInputs<'_>) -> Result<Vec<Dest>, Memory>
        ensures in_order { IfOk result (λ found. IsStrictlySortedBy dest_cmp found.items) }
        ensures enough { IfOk result (λ found. AreEnoughForAll inputs.now self.now found.items) }
    {
        let mut found = all(alloc, inputs)?;
        self.push_own(&mut found)?;
        sorted_unique(found)
    }

    // Appends the destinations that are due in an area.
    fn push_own(&self, dests: &mut Vec<Dest>) -> Result<(), Memory>
        ensures { OnOk result
            (dests.new.items ≡ dests.old.items ++ flat_map dests_of self.now.areas) }
    {
        for summaries in &self.areas {
            push_dests(summaries.as_slice(), dests)?;
        }
        Ok(())
    }
}

// Appends the destinations of the summaries.
fn push_dests(list: &[DueSummary], dests: &mut Vec<Dest>) -> Result<(), Memory>
    ensures { OnOk result
        (dests.new.items ≡ dests.old.items ++ list_map (λ due. due.dest) list.now) }
{
    for due in list {
        dests.push(due.dest)?;
    }
    Ok(())
}

// Replaces the candidates by these destinations, each with the sources of its summary.
fn find_candidates(
    inputs: &SummaryInputs<'_>,
    dests: &[Dest],
    found: &mut Vec<SummaryCandidate>,
) -> Result<(), Memory>
    ensures dests { OnOk result (dests_in found.new.items ≡ dests.now) }
    ensures right { OnOk result (AreSummaryCandidates inputs.now found.new.items) }
{
    found.clear();
    for dest in dests {
        found.push(find_candidate(inputs, *dest))?;
    }
    Ok(())
}

// The inputs of a plan: the affected destinations, each with the sources of its summary.
#[derive(Clone, Copy)]
struct Planning<'a> {
    inputs: &'a SummaryInputs<'a>,
    candidates: &'a [SummaryCandidate],
}

impl Planning<'_> {
    // Plans the changes of each list.
    fn plan_areas(self, alloc: Global, lists: &mut [AreaSummaries]) -> Result<Vec<AreaPlan>, Memory>
        requires long { length lists.old ≡ length self.inputs.now.areas }
        requires right { AreSummaryCandidates self.inputs.now self.candidates.now }
        requires in_order { IsStrictlySortedBy dest_cmp (dests_in self.candidates.now) }
        ensures same { listed lists.new ≡ listed lists.old }
        ensures planned { IfOk result (λ plans. ArePlanned self.entry.inputs.now
            (dests_in self.entry.candidates.now) self.entry.inputs.now.areas
            lists.old lists.new plans.items) }
    {
        let mut plans = Vec::with_capacity(alloc, lists.len())?;
        let inputs = self.inputs;
        for (place, area) in inputs.areas.iter().enumerate() {
            let summaries = &mut lists[place];
            let plan = self.plan_area(alloc, area, summaries)?;
            plans.push(plan)?;
        }
        Ok(plans)
    }

    // Plans the changes of one area.
    fn plan_area(
        self,
        alloc: Global,
        area: &AreaConfig,
        summaries: &mut AreaSummaries,
    ) -> Result<AreaPlan, Memory>
        requires right { AreSummaryCandidates self.inputs.now self.candidates.now }
        requires in_order { IsStrictlySortedBy dest_cmp (dests_in self.candidates.now) }
        ensures area { summaries.new.area ≡ summaries.old.area }
        ensures list { summaries.new.list ≡ summaries.old.list }
        ensures planned { IfOk result (λ plan. IsPlannedIn self.entry.inputs.now
            (dests_in self.entry.candidates.now) area.now summaries.old summaries.new plan) }
    {
        let (metrics, moves) = self.changes(alloc, area, summaries.as_slice())?;
        let plan = AreaPlan::of(alloc, metrics, moves, summaries)?;
        Ok(plan)
    }

    // Returns the destinations that are due at another metric than in the list, with that metric.
    // Returns also true if some of them are added to the list or removed from it.
    fn changes(
        self,
        alloc: Global,
        area: &AreaConfig,
        list: &[DueSummary],
    ) -> Result<(Vec<(Dest, Option<u32>)>, bool), Memory>
        requires list { AreInOrder list.now }
        requires kinds { AreOfKind list.now }
        requires right { AreSummaryCandidates self.inputs.now self.candidates.now }
        requires in_order { IsStrictlySortedBy dest_cmp (dests_in self.candidates.now) }
        ensures { IfOk result (λ found. AreChangesIn self.entry.inputs.now area.now list.now
            (dests_in self.entry.candidates.now) found.0.items) }
    {
        let inputs = self.inputs;
        let served = is_served(inputs.active, area.id);
        let mut metrics = Vec::new(alloc);
        let mut moves = false;
        let mut rest = list;
        for candidate in self.candidates {
            let (had, after) = look_up(rest, &candidate.dest);
            let metric = metric(area, served, candidate);
            moves |= push_change(candidate.dest, metric, had, &mut metrics)?;
            rest = after;
        }
        Ok((metrics, moves))
    }
}

// Makes the changes of each list. It allocates nothing.
fn carry_out_areas(plans: &mut [AreaPlan], lists: &mut [AreaSummaries])
    requires { AllFit plans.old lists.old }
    ensures lists { AllChanged (changes_of plans.old) lists.old lists.new }
    ensures changes { changes_of plans.new ≡ changes_of plans.old }
{
    for place in 0..plans.len() {
        plans[place].carry_out(&mut lists[place]);
    }
}

// Appends the destination with this metric, unless it had the metric before. Returns true if it is
// added to the list or removed from it.
fn push_change(
    dest: Dest,
    metric: Option<u32>,
    had: Option<u32>,
    metrics: &mut Vec<(Dest, Option<u32>)>,
) -> Result<bool, Memory>
    ensures { OnOk result (AddsChange dest metric had metrics.old.items metrics.new.items) }
{
    if metric == had {
        return Ok(false);
    }
    metrics.push((dest, metric))?;
    Ok(metric.is_some() != had.is_some())
}
