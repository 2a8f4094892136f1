//! The routing table and the due summaries, with the results that events update (RFC 2328, 16 and
//! 12.4.3).
ghost use Rattle.std.specs.Prelude.{◌≡◌, ◌≤◌, [], false, IfOk, OnOk, OnErr, is_some};
ghost use Rattle.std.specs.List.Sorted.{IsStrictlySortedBy};
ghost use Rattle.std.specs.Map.{keys_of};
ghost use Rattle.ospf_types.specs.Network.{network_cmp};
ghost use Rattle.vertex_graph.specs.Graphs.{max_routers};
ghost use Rattle.event_state.specs.Held.{AreFit};
ghost use Rattle.event_state.specs.States.{AreAreasApart, State as StateValue, LooksAlike, serial_of};
ghost use Rattle.summaries.specs.DueSummaries.{lists_of};
ghost use Rattle.calculation.specs.Active.{RangesDifferAt};
ghost use Rattle.calculation.specs.Calculations.{IsCalculationOf, IsTableOf};
ghost use Rattle.calculation.specs.Trees.{StatesDifferAmong};
ghost use Rattle.calculation.specs.Summaries.{AreSummariesFor};
ghost use Rattle.calculation.specs.Totals.{IsBuildWork};
ghost use Rattle.calculation.specs.Works.{IsEventWork};
ghost use Rattle.event_core.specs.Following.{AreRoutesOf, AreOtherItems, IsItemAdded, IsStill};
ghost use Rattle.event_core.specs.Following.{TellsChanges, no_work};
ghost use Rattle.event_core.specs.Affected.{IsNamedBetween, IsRangeNamedBetween};

use crate::affected::AffectedInputs;
use calculation::Calculation;
use event_state::State;
use ospf_types::memory::Memory;
use ospf_types::prefix::Prefix;
use route_table::{NewItem, Table};
use spf::Touched;
use std::alloc::Global;
use std::hash::RandomState;
use std::marker::Model;
use summaries::{DueChanges, DueSummaries};

/// The routing table and the due summaries of a state, the calculation that both are made from, and
/// what the last event changed.
pub(crate) struct Routes {
    calculation: Calculation,
    table: Table,
    summaries: DueSummaries,
    work: Touched,
    changes: Vec<Prefix>,
    due_changes: DueChanges,
    // How often everything was built.
    build_count: u64,
}

// proof: a value is dropped by one call, not part by part at each exit of a function.
impl Drop for Routes {
    fn drop(self) {
        let Routes {
            calculation: _calculation,
            table: _table,
            summaries: _summaries,
            work: _,
            changes: _changes,
            due_changes: _due_changes,
            build_count: _,
        } = self;
    }
}

impl Model for Routes {
    ghost use Rattle.std.specs.Coded.{Coded, codes};
    ghost use Rattle.calculation.specs.contracts.calculation.Calculation as kept;
    ghost use Rattle.summaries.specs.contracts.summaries.DueSummaries as kept_summaries;
    ghost use Rattle.route_table.specs.Tables.{TableValue, table_code};
    ghost use Rattle.event_core.specs.Following.{RoutesValue};

    ghost Value = { RoutesValue };

    ghost coded = { let table : Coded TableValue = table_code in Prim.hlevel (codes, kept.the_row.coded, kept_summaries.the_row.coded, table) };

    ghost view = { λ r. record { calculation = r.calculation; table = r.table; summaries = r.summaries; work = r.work; changes = r.changes.items; due_changes = r.due_changes } };
}

impl Routes {
    /// Builds everything for the state from scratch, with no work and no changes.
    pub(crate) fn build(
        alloc: Global,
        state: &State,
        hashing: RandomState,
    ) -> Result<Routes, Memory>
        requires few { state.now.limits.area_lsas ≤ max_routers }
        requires apart { AreAreasApart state.now.config.areas }
        ensures right { IfOk result (AreRoutesOf state.now) }
        ensures work { IfOk result (λ routes. routes.work ≡ no_work) }
        ensures changes { IfOk result (λ routes. routes.changes ≡ []) }
        ensures due_changes { IfOk result (λ routes. routes.due_changes ≡ []) }
    {
        let (calculation, table, summaries, _) = from_scratch(alloc, state, hashing)?;
        Ok(Routes {
            calculation,
            table,
            summaries,
            work: Touched::none(),
            changes: Vec::new(alloc),
            due_changes: DueChanges::none(alloc),
            build_count: 1,
        })
    }

    /// Rebuilds everything for the state. `work`, `changes` and `due_changes` are unchanged.
    /// Returns the work of building the trees.
    ///
    /// If memory runs out, nothing is changed.
    pub(crate) fn rebuild(
        &mut self,
        alloc: Global,
        state: &State,
        hashing: RandomState,
    ) -> Result<Touched, Memory>
        requires few { state.now.limits.area_lsas ≤ max_routers }
        requires apart { AreAreasApart state.now.config.areas }
        ensures right { OnOk result (AreRoutesOf state.now self.new) }
        ensures fit { OnOk result (AreFit state.now.config.areas state.now.databases) }
        ensures built { IfOk result (IsBuildWork state.now) }
        ensures unchanged { OnErr result (self.new.table ≡ self.old.table) }
        ensures due { OnErr result (lists_of self.new.summaries ≡ lists_of self.old.summaries) }
        ensures work { self.new.work ≡ self.old.work }
        ensures changes { self.new.changes ≡ self.old.changes }
        ensures due_changes { self.new.due_changes ≡ self.old.due_changes }
    {
        let (calculation, table, summaries, work) = from_scratch(alloc, state, hashing)?;
        self.calculation = calculation;
        self.table = table;
        self.summaries = summaries;
        self.build_count = self.build_count.wrapping_add(1);
        Ok(work)
    }

    /// Rebuilds everything for the state after an event. `work` becomes the work of building the
    /// trees, and there are no changes.
    ///
    /// If memory runs out, the work is zero, and the table and the due summaries are unchanged.
    pub(crate) fn start_anew(
        &mut self,
        alloc: Global,
        state: &State,
        hashing: RandomState,
    ) -> Result<(), Memory>
        requires few { state.now.limits.area_lsas ≤ max_routers }
        requires apart { AreAreasApart state.now.config.areas }
        ensures right { OnOk result (AreRoutesOf state.now self.new) }
        ensures fit { OnOk result (AreFit state.now.config.areas state.now.databases) }
        ensures built { OnOk result (IsBuildWork state.now self.new.work) }
        ensures unchanged { OnErr result (self.new.table ≡ self.old.table) }
        ensures due { OnErr result (lists_of self.new.summaries ≡ lists_of self.old.summaries) }
        ensures work { OnErr result (self.new.work ≡ no_work) }
        ensures changes { self.new.changes ≡ [] }
        ensures due_changes { self.new.due_changes ≡ [] }
    {
        self.forget();
        self.work = self.rebuild(alloc, state, hashing)?;
        Ok(())
    }

    /// Updates everything after an event. The state may differ from the one before it only in what
    /// `named` lists. If `changed` is false, its usable LSAs, interfaces and ranges are the same.
    ///
    /// If memory runs out, the table and the due summaries are unchanged, and there is no work and
    /// no change. The calculation then has to be built again.
    pub(crate) fn settle(
        &mut self,
        alloc: Global,
        state: &State,
        changed: bool,
        named: AffectedInputs,
    ) -> Result<(), Memory>
        requires few { state.now.limits.area_lsas ≤ max_routers }
        requires before { (before : StateValue) × AreFit before.config.areas before.databases
            × AreRoutesOf before self.old × IsNamedBetween named before state.now
            × (changed ≡ false → LooksAlike before state.now)
            × IsRangeNamedBetween named before state.now }
        ensures right { OnOk result (AreRoutesOf state.now self.new) }
        ensures fit { OnOk result (AreFit state.now.config.areas state.now.databases) }
        ensures exact { OnOk result (TellsChanges self.old self.new) }
        ensures bounded { OnOk result ((before : StateValue)
            → AreFit before.config.areas before.databases → AreRoutesOf before self.old
            → IsNamedBetween named before state.now
            → (changed ≡ false → LooksAlike before state.now)
            → IsEventWork before state.now self.new.work) }
        ensures unchanged { OnErr result (self.new.table ≡ self.old.table) }
        ensures due { OnErr result (lists_of self.new.summaries ≡ lists_of self.old.summaries) }
        ensures work { OnErr result (self.new.work ≡ no_work) }
        ensures changes { OnErr result (self.new.changes ≡ []) }
        ensures due_changes { OnErr result (self.new.due_changes ≡ []) }
        ensures still { changed ≡ false → IsStill result self.new }
    {
        self.forget();
        if changed {
            self.follow(alloc, state, named)?;
        }
        // proof: its contract says that the databases of every state fit the configuration.
        let _ = state.config();
        self.table.set_serial(state.serial());
        Ok(())
    }

    pub(crate) fn calculation(&self) -> &Calculation
        ensures { result.now ≡ self.now.calculation }
    {
        &self.calculation
    }

    pub(crate) fn table(&self) -> &Table
        ensures { result.now ≡ self.now.table }
    {
        &self.table
    }

    pub(crate) fn summaries(&self) -> &DueSummaries
        ensures { result.now ≡ self.now.summaries }
    {
        &self.summaries
    }

    pub(crate) fn changes(&self) -> &[Prefix]
        ensures { result.now ≡ self.now.changes }
    {
        self.changes.as_slice()
    }

    pub(crate) fn due_changes(&self) -> &DueChanges
        ensures { result.now ≡ self.now.due_changes }
    {
        &self.due_changes
    }

    pub(crate) fn work(&self) -> Touched
        ensures { result ≡ self.now.work }
    {
        self.work
    }

    /// Returns how often everything was built.
    pub(crate) fn build_count(&self) -> u64 {
        self.build_count
    }
}

impl Routes {
    // Clears the work and the changes of the event before.
    fn forget(&mut self)
        ensures { self.new ≡
            record self.old { work = no_work; changes = []; due_changes = [] } }
    {
        self.work = Touched::none();
        self.changes.clear();
        self.due_changes.clear();
    }

    // Updates the calculation, the items of the table and the due summaries. The change of the
    // table is the last step that can run out of memory: by then the plan has reserved the memory
    // of the due summaries.
    fn follow(&mut self, alloc: Global, state: &State, named: AffectedInputs) -> Result<(), Memory>
        requires few { state.now.limits.area_lsas ≤ max_routers }
        requires before { (before : StateValue) × AreRoutesOf before self.old
            × IsNamedBetween named before state.now × IsRangeNamedBetween named before state.now }
        ensures calculation { OnOk result (IsCalculationOf state.now self.new.calculation) }
        ensures items { OnOk result (IsTableOf self.new.calculation self.new.table.items) }
        ensures summaries { OnOk result (AreSummariesFor state.now self.new.calculation
            self.new.summaries) }
        ensures exact { OnOk result (TellsChanges self.old self.new) }
        ensures bounded { OnOk result ((before : StateValue) → AreRoutesOf before self.old
            → IsNamedBetween named before state.now → IsEventWork before state.now self.new.work) }
        ensures unchanged { OnErr result (self.new.table ≡ self.old.table) }
        ensures due { OnErr result (lists_of self.new.summaries ≡ lists_of self.old.summaries) }
        ensures work { OnErr result (self.new.work ≡ self.old.work) }
        ensures changes { OnErr result (self.new.changes ≡ self.old.changes) }
        ensures due_changes { OnErr result (self.new.due_changes ≡ self.old.due_changes) }
    {
        let AffectedInputs {
            keys,
            interfaces,
            range,
        } = named;
        let told = self
            .calculation
            .follow(alloc, state, keys, interfaces, range)?;
        let behind = TableUpdate {
            table: &self.table,
            calculation: &self.calculation,
        };
        let items = behind.other_items(alloc, &told.networks)?;
        let changes = networks_of(alloc, &items)?;
        let plan = self
            .calculation
            .plan_summaries(alloc, state, &mut self.summaries, &told.dests)?;
        self.table.change(alloc, items)?;
        self.due_changes = self.summaries.carry_out(plan);
        self.work = told.work;
        self.changes = changes;
        Ok(())
    }
}

// Calculates everything for the state from scratch. Returns the calculation, the table, the due
// summaries, and the work of building the trees.
fn from_scratch(
    alloc: Global,
    state: &State,
    hashing: RandomState,
) -> Result<(Calculation, Table, DueSummaries, Touched), Memory>
    requires few { state.now.limits.area_lsas ≤ max_routers }
    requires apart { AreAreasApart state.now.config.areas }
    ensures calculation { IfOk result (λ built. IsCalculationOf state.now built.0) }
    ensures items { IfOk result (λ built. IsTableOf built.0 built.1.items) }
    ensures serial { IfOk result (λ built. built.1.serial ≡ serial_of state.now) }
    ensures summaries { IfOk result (λ built. AreSummariesFor state.now built.0 built.2) }
    ensures fit { IfOk result (λ built. AreFit state.now.config.areas state.now.databases) }
    ensures work { IfOk result (λ built. IsBuildWork state.now built.3) }
{
    let (calculation, work) = Calculation::build(alloc, state, hashing)?;
    // proof: its contract says that the databases of every state fit the configuration.
    let _ = state.config();
    let table = calculation.table(alloc, state.serial(), hashing)?;
    let summaries = calculation.summaries(alloc, state)?;
    Ok((calculation, table, summaries, work))
}

// The table before an update, and the calculation after it.
#[derive(Clone, Copy)]
struct TableUpdate<'a> {
    table: &'a Table,
    calculation: &'a Calculation,
}

impl TableUpdate<'_> {
    // Returns the new items of those networks whose item in the table differs.
    fn other_items(self, alloc: Global, networks: &[Prefix]) -> Result<Vec<NewItem>, Memory>
        requires { IsStrictlySortedBy network_cmp networks.now }
        ensures { IfOk result (λ items. AreOtherItems self.entry.calculation.now
            self.entry.table.now.items networks.now items.items) }
    {
        let mut items = Vec::with_capacity(alloc, networks.len())?;
        let mut next = 0;
        for network in networks {
            self.push_other(alloc, *network, &mut next, &mut items)?;
        }
        Ok(items)
    }

    // Appends the new item of the network, if its item in the table differs.
    fn push_other(
        self,
        alloc: Global,
        network: Prefix,
        next: &mut usize,
        items: &mut Vec<NewItem>,
    ) -> Result<(), Memory>
        ensures { OnOk result (IsItemAdded self.entry.calculation.now self.entry.table.now.items
            network items.old.items items.new.items) }
    {
        let Some(item) = self.calculation.new_item(alloc, self.table, network, next)? else {
            return Ok(());
        };
        items.push(item)?;
        Ok(())
    }
}

// Returns the networks of the items.
fn networks_of(alloc: Global, items: &[NewItem]) -> Result<Vec<Prefix>, Memory>
    ensures { IfOk result (λ networks. networks.items ≡ keys_of items.now) }
{
    let mut networks = Vec::with_capacity(alloc, items.len())?;
    for item in items {
        networks.push(item.network())?;
    }
    Ok(networks)
}
