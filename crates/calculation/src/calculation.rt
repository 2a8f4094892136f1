//! The calculation of a state's results, layer by layer (RFC 2328, 16), built and updated.
ghost use Rattle.std.specs.Prelude.{◌≡◌, ◌≤◌, ◌↔◌, ◌++◌, ℕ, List, Option, Some, None, Contains};
ghost use Rattle.std.specs.Prelude.{OnOk, IfOk, is_some, option_copied, map as list_map};
ghost use Rattle.std.specs.FinMap as map;
ghost use Rattle.std.specs.List.Sorted.{IsStrictlySortedBy};
ghost use Rattle.ospf_types.specs.declared.config.AreaConfig.{AreaConfig as AreaConfigValue};
ghost use Rattle.ospf_types.specs.declared.key.Dest.{Dest as DestValue};
ghost use Rattle.ospf_types.specs.declared.key.Dest.TheVariants as dest_value;
ghost use Rattle.ospf_types.specs.declared.prefix.Prefix.{Prefix as PrefixValue};
ghost use Rattle.ospf_types.specs.Inputs.{Inputs as Definitions};
ghost use Rattle.ospf_types.specs.Keys.{dest_cmp};
ghost use Rattle.ospf_types.specs.Network.{network_cmp};
ghost use Rattle.spf.specs.Touched.{Touched as TouchedValue};
ghost use Rattle.vertex_graph.specs.Graphs.{max_routers};
ghost use Rattle.intra.specs.Changes.{InputsDifferAmong, DiffersAt};
ghost use Rattle.intra.specs.Inputs.{InputsValue};
ghost use Rattle.intra.specs.Intras.{IsIntraOf};
ghost use Rattle.intra.specs.Right.{IsRightFor};
ghost use Rattle.active_ranges.specs.Active.{AreRangesOf, IsMemberWithin, IsRangeNamed};
ghost use Rattle.active_ranges.specs.Active.{RangesDifferAt};
ghost use Rattle.active_ranges.specs.declared.member.RangeMember.{RangeMember as MemberValue};
ghost use Rattle.summaries.specs.Carrying.{IsCarriedOut, IsReady, MakesChangesFrom};
ghost use Rattle.summaries.specs.DueSummaries.{DueSummariesValue, lists_of};
ghost use Rattle.route_table.specs.declared.table.Item.{Item as ItemValue};
ghost use Rattle.event_state.specs.Held.{AreFit};
ghost use Rattle.event_state.specs.States.{AreAreasApart, State as StateValue, inputs_of};
ghost use Rattle.calculation.specs.Calculations.{CalculationValue, IsCalculationOf, IsItemOf};
ghost use Rattle.calculation.specs.Calculations.{IsNewItemOf, IsTableOf, AreItemsKept, entry_at};
ghost use Rattle.calculation.specs.Calculations.{entry_else};
ghost use Rattle.route_layers.specs.Trees.{AreTreesOf, inputs_with};
ghost use Rattle.calculation.specs.Summaries.{AreSummariesFor, SummariesDifferAmong};
ghost use Rattle.calculation.specs.Summaries.{RoutesDifferAmong, summary_inputs};
ghost use Rattle.calculation.specs.Followed.{IsOutOfDateBy, IsWorkSince, AreLayersOutOfDateBy};
ghost use Rattle.calculation.specs.Followed.{range_dests, routers_in};
ghost use Rattle.calculation.specs.Totals.{IsWorkOfTrees};

use active_ranges::{ActiveRanges, RangeMember};
use area_trees::AreaTree;
use event_state::State;
use external::External;
use inter::Inter;
use intra::{Dirty, Intra, IntraInputs};
use ospf_types::config::AreaConfig;
use ospf_types::entry::Entry;
use ospf_types::key::{Dest, Key, Scope};
use ospf_types::memory::Memory;
use ospf_types::prefix::Prefix;
use route_choice::{add_networks, networks_among, sorted_unique};
use route_layers::{
    ChangedState, IntraLayer, active_areas, area_inputs, build_trees, follow_trees,
};
use route_table::{Item, NewItem, Table};
use spf::Touched;
use std::alloc::Global;
use std::hash::RandomState;
use std::marker::Model;
use summaries::{DueSummaries, Plan, SummaryInputs};

/// The results that an event may have changed, as returned by `Calculation::follow`.
pub struct Changed {
    /// The networks whose table item may differ, in ascending order without duplicates. All other
    /// items are unchanged.
    pub networks: Vec<Prefix>,
    /// The destinations whose due summaries may differ. Those of all others are unchanged.
    pub dests: Vec<Dest>,
    /// The work of repairing the shortest-path trees.
    pub work: Touched,
}

// proof: a value is dropped by one call, not part by part at each exit of a function.
impl Drop for Changed {
    fn drop(self) {
        let Changed {
            networks: _networks,
            dests: _dests,
            work: _,
        } = self;
    }
}

/// The results that the core keeps from event to event: a shortest-path tree for each area, and the
/// routes, layer by layer (RFC 2328, 16). Each layer is calculated from the layers before it:
///
/// 1. `trees`: graphs and shortest-path trees (16.1, 16.1.1)
/// 2. `intra`: intra-area routes, and the border routers reached in each area (16.1)
/// 3. `active`: active address ranges (3.5)
/// 4. `inter`: inter-area routes (16.2)
/// 5. `external`: preferred routes to AS boundary routers, and AS external routes (16.4)
///
/// To see how an event passes through the layers, read `follow_layers` first.
pub struct Calculation {
    trees: Vec<AreaTree>,
    intra: Intra,
    active: ActiveRanges,
    inter: Inter,
    external: External,
}

// proof: a value is dropped by one call, not part by part at each exit of a function.
impl Drop for Calculation {
    fn drop(self) {
        let Calculation {
            trees: _trees,
            intra: _intra,
            active: _active,
            inter: _inter,
            external: _external,
        } = self;
    }
}

impl Model for Calculation {
    ghost use Rattle.std.specs.Coded.{codes};
    ghost use Rattle.area_trees.specs.contracts.area_tree.AreaTree as kept_tree;
    ghost use Rattle.intra.specs.contracts.intra.Intra as kept_intra;
    ghost use Rattle.active_ranges.specs.contracts.active.ActiveRanges as kept_active;
    ghost use Rattle.inter.specs.contracts.inter.Inter as kept_inter;
    ghost use Rattle.external.specs.contracts.external.External as kept_external;
    ghost use Rattle.calculation.specs.Calculations.{CalculationValue};

    ghost Value = { CalculationValue };

    ghost coded = { Prim.hlevel (codes, kept_tree.the_row.coded, kept_intra.the_row.coded, kept_active.the_row.coded, kept_inter.the_row.coded, kept_external.the_row.coded) };

    ghost view = { λ c. record { trees = c.trees.items; intra = c.intra; active = c.active; inter = c.inter; external = c.external } };
}

impl Calculation {
    /// Calculates everything from scratch for the state, and returns it with the work of building
    /// the trees.
    ///
    /// # Errors
    ///
    /// Returns `Memory` if memory runs out.
    pub fn build(
        alloc: Global,
        state: &State,
        hashing: RandomState,
    ) -> Result<(Calculation, Touched), Memory>
        requires few { state.now.limits.area_lsas ≤ max_routers }
        requires apart { AreAreasApart state.now.config.areas }
        ensures right { IfOk result (λ built. IsCalculationOf state.now built.0) }
        ensures work { IfOk result (λ built. IsWorkOfTrees built.0.trees built.1) }
    {
        let (trees, work) = build_trees(alloc, state, hashing)?;
        let intra = build_intra(alloc, state, &trees, hashing)?;
        let active = ActiveRanges::build(alloc, state.config().areas.as_slice(), &intra)?;
        let below = IntraLayer {
            state,
            intra: &intra,
            active: &active,
        };
        let inter = below.build_inter(alloc, hashing)?;
        let external = below.build_external(alloc, &inter, hashing)?;
        let calculation = Calculation {
            trees,
            intra,
            active,
            inter,
            external,
        };
        Ok((calculation, work))
    }

    /// Updates the results after an event.
    ///
    /// The event is a change of the LSAs under `keys`, of the interfaces `ids`, or of one address
    /// range, given by its Area ID and prefix. `state` is the state after it, and must not differ
    /// in anything else.
    ///
    /// # Errors
    ///
    /// Returns `Memory` if memory runs out. Some layers are then updated and others are not, so the
    /// calculation has to be built again.
    pub fn follow(
        &mut self,
        alloc: Global,
        state: &State,
        keys: Vec<(Scope, Key)>,
        ids: Vec<u8>,
        range: Option<(u32, Prefix)>,
    ) -> Result<Changed, Memory>
        requires few { state.now.limits.area_lsas ≤ max_routers }
        requires before { IsOutOfDateBy keys.items ids.items range self.old state.now }
        ensures right { OnOk result (IsCalculationOf state.now self.new) }
        ensures in_order { IfOk result (λ out. IsStrictlySortedBy network_cmp out.networks.items) }
        ensures items { IfOk result (λ out. AreItemsKept out.networks.items self.old self.new) }
        ensures routes { IfOk result (λ out. RoutesDifferAmong out.dests.items self.old self.new) }
        ensures named { IfOk result (λ out.
            IsRangeNamed range out.dests.items self.old.intra.entries) }
        ensures work { IfOk result (λ out.
            IsWorkSince keys.items ids.items range self.old state.now out.work) }
    {
        let mut vertices = Vec::new(alloc);
        let changed = ChangedState {
            state,
            keys: &keys,
            interfaces: &ids,
        };
        let work = follow_trees(alloc, &mut self.trees, changed, &mut vertices)?;
        let mut dirty = Dirty {
            vertices,
            keys,
            interfaces: ids,
            dests: Vec::new(alloc),
        };
        let networks = self.follow_layers(alloc, state, &mut dirty, range)?;
        Ok(Changed {
            networks,
            dests: dirty.dests,
            work,
        })
    }

    /// Calculates the due summaries of all areas from scratch (RFC 2328, 12.4.3).
    ///
    /// # Errors
    ///
    /// Returns `Memory` if memory runs out.
    pub fn summaries(&self, alloc: Global, state: &State) -> Result<DueSummaries, Memory>
        ensures { IfOk result (AreSummariesFor state.now self.now) }
    {
        let active = active_areas(alloc, state)?;
        DueSummaries::build(alloc, &self.summary_inputs(state, &active))
    }

    /// Plans the update of the due summaries for the destinations in `dests`. `summaries` keeps its
    /// lists and reserves the memory that carrying out the plan needs.
    ///
    /// `dests` lists every destination whose route may have changed. If an address range was set or
    /// dropped, it also lists the prefix of the range, and the networks of its area that it covers.
    ///
    /// # Errors
    ///
    /// Returns `Memory` if memory runs out. The lists are then unchanged.
    pub fn plan_summaries(
        &self,
        alloc: Global,
        state: &State,
        summaries: &mut DueSummaries,
        dests: &[Dest],
    ) -> Result<Plan, Memory>
        requires before { (before : StateValue) × (old : CalculationValue)
            × AreSummariesFor before old summaries.old
            × SummariesDifferAmong dests.now before state.now old self.now }
        ensures unchanged { lists_of summaries.new ≡ lists_of summaries.old }
        ensures ready { IfOk result (λ plan. IsReady plan summaries.new) }
        ensures kept { IfOk result (λ plan. (after : DueSummariesValue)
            → IsCarriedOut plan summaries.new after → AreSummariesFor state.now self.now after) }
        ensures changes { IfOk result (MakesChangesFrom summaries.old summaries.new) }
    {
        let active = active_areas(alloc, state)?;
        let plan = summaries.plan(alloc, &self.summary_inputs(state, &active), dests)?;
        Ok(plan)
    }

    /// Returns the tree of each area, in the order of the configuration.
    pub fn trees(&self) -> &[AreaTree]
        ensures { result.now ≡ self.now.trees }
    {
        &self.trees
    }

    /// Returns the intra-area routes.
    pub fn intra(&self) -> &Intra
        ensures { result.now ≡ self.now.intra }
    {
        &self.intra
    }

    /// Returns the active address ranges.
    pub fn active(&self) -> &ActiveRanges
        ensures { result.now ≡ self.now.active }
    {
        &self.active
    }

    /// Returns the inter-area routes.
    pub fn inter(&self) -> &Inter
        ensures { result.now ≡ self.now.inter }
    {
        &self.inter
    }

    /// Returns the AS external routes.
    pub fn external(&self) -> &External
        ensures { result.now ≡ self.now.external }
    {
        &self.external
    }

    /// Returns the route to the network: intra-area, else inter-area, else AS external (RFC 2328,
    /// 11).
    pub fn entry(&self, network: Prefix) -> Option<&Entry>
        ensures { option_copied result ≡ entry_at self.now network }
    {
        if let Some(entry) = self.intra.get(network) {
            return Some(entry);
        }
        self.outer_entry(network)
    }

    /// Returns a copy of the table item for the network: its route, else a discard if it is the
    /// prefix of an active range, else `None`.
    ///
    /// # Errors
    ///
    /// Returns `Memory` if memory runs out.
    pub fn item(&self, alloc: Global, network: Prefix) -> Result<Option<Item>, Memory>
        ensures { IfOk result (IsItemOf self.now network) }
    {
        if let Some(entry) = self.entry(network) {
            return Ok(Some(Item::Route(entry.copy(alloc)?)));
        }
        if self.active.contains(network) {
            return Ok(Some(Item::Discard));
        }
        Ok(None)
    }

    /// Returns the new table item for the network, or `None` if the table already has it.
    ///
    /// A caller that iterates over networks in ascending order passes the same `next` each time, 0
    /// at first. It is a hint to where the last event left the intra-area routes that it changed.
    ///
    /// # Errors
    ///
    /// Returns `Memory` if memory runs out.
    pub fn new_item(
        &self,
        alloc: Global,
        table: &Table,
        network: Prefix,
        next: &mut usize,
    ) -> Result<Option<NewItem>, Memory>
        ensures { IfOk result (IsNewItemOf self.now table.now.items network) }
    {
        if let Some(entry) = self.entry_next(network, next) {
            return table.new_route(alloc, network, entry);
        }
        if self.active.contains(network) {
            return Ok(table.new_item(network, Some(Item::Discard)));
        }
        Ok(table.new_item(network, None))
    }

    /// Builds the routing table (RFC 2328, 11) from scratch, with the given serial. `hashing`
    /// supplies the keys of its hash map.
    ///
    /// # Errors
    ///
    /// Returns `Memory` if memory runs out.
    pub fn table(&self, alloc: Global, serial: u64, hashing: RandomState) -> Result<Table, Memory>
        ensures items { IfOk result (λ table. IsTableOf self.now table.items) }
        ensures serial { IfOk result (λ table. table.serial ≡ serial) }
    {
        let mut table = Table::new(alloc, serial, hashing);
        for network in &self.networks(alloc)? {
            if let Some(item) = self.item(alloc, *network)? {
                table.set(*network, item)?;
            }
        }
        Ok(table)
    }
}

impl Calculation {
    // Updates the layers of routes in the order of RFC 2328, 16, once the trees are updated. Each
    // layer returns the destinations whose result changed, and the layers after it look only at
    // what depends on those.
    //
    // `dirty` holds the changed LSAs, interfaces and vertices, and grows by the changed
    // destinations of each layer. At the end, `dirty.dests` is the list of destinations whose due
    // summaries may differ. External networks are not in it, because no summary-LSA describes them;
    // AS boundary routers are, and so are the networks covered by a range that was set or dropped.
    //
    // Returns the networks whose table item may differ: those of all changed destinations, and the
    // prefix of that range.
    fn follow_layers(
        &mut self,
        alloc: Global,
        state: &State,
        dirty: &mut Dirty,
        range: Option<(u32, Prefix)>,
    ) -> Result<Vec<Prefix>, Memory>
        requires trees { AreTreesOf state.now state.now.config.areas self.old.trees }
        requires before { AreLayersOutOfDateBy state.now dirty.old range self.old }
        ensures right { OnOk result (IsCalculationOf state.now self.new) }
        ensures in_order { IfOk result (λ networks. IsStrictlySortedBy network_cmp networks.items) }
        ensures items { IfOk result (λ networks. AreItemsKept networks.items self.old self.new) }
        ensures routes { OnOk result (RoutesDifferAmong dirty.new.dests.items self.old self.new) }
        ensures named { OnOk result (IsRangeNamed range dirty.new.dests.items
            self.old.intra.entries) }
    {
        // 3.5, C.2: the range that was set or dropped, if any.
        let areas = state.config().areas.as_slice();
        let active = &mut self.active;
        let within = follow_range(alloc, active, areas, &self.intra, &range)?;
        // 16 (2), 16.1: intra-area routes, and the ranges that they make active or inactive.
        let mut dests = follow_intra(alloc, &mut self.intra, state, &self.trees, dirty)?;
        let ranges = self.active.update(alloc, areas, &self.intra, &dests)?;
        add_networks(&ranges, &mut dests)?;
        push_range(&range, &mut dests)?;
        dirty.dests = dests;
        let below = IntraLayer {
            state,
            intra: &self.intra,
            active: &self.active,
        };
        // 16 (3), 16.2: inter-area routes.
        let dests = below.follow_inter(alloc, &mut self.inter, dirty)?;
        dirty.dests.extend_from_slice(&dests)?;
        // 16 (5), 16.4: preferred routes to AS boundary routers, and AS external routes.
        let (external, inter) = (&mut self.external, &self.inter);
        let mut all = below.follow_external(alloc, external, inter, dirty)?;
        push_routers(&all, &mut dirty.dests)?;
        all.extend_from_slice(&dirty.dests)?;
        push_members(&within, &mut dirty.dests)?;
        let networks = networks_of(alloc, &all)?;
        Ok(networks)
    }

    // Returns the inputs of the due summaries.
    fn summary_inputs<'a>(&'a self, state: &'a State, active: &'a [u32]) -> SummaryInputs<'a>
        ensures { result ≡ summary_inputs state.now active.now self.now }
    {
        SummaryInputs {
            areas: state.config().areas.as_slice(),
            active,
            intra: &self.intra,
            ranges: &self.active,
            inter: &self.inter,
            external: &self.external,
        }
    }

    // Returns the route to the network, as `entry` does, with `next` as a hint.
    fn entry_next(&self, network: Prefix, next: &mut usize) -> Option<&Entry>
        ensures { option_copied result ≡ entry_at self.now network }
    {
        if let Some(entry) = self.intra.get_with_hint(network, next) {
            return Some(entry);
        }
        self.outer_entry(network)
    }

    // Returns the inter-area route to the network, else its AS external route.
    fn outer_entry(&self, network: Prefix) -> Option<&Entry>
        ensures { option_copied result
            ≡ entry_else (map.get self.now.inter.entries (dest_value.Net network))
            (map.get self.now.external.entries network) }
    {
        if let Some(entry) = self.inter.get(Dest::Net(network)) {
            return Some(entry);
        }
        self.external.get(network)
    }

    // Returns every network that has a table item, in ascending order without duplicates. The list
    // may contain other networks as well.
    fn networks(&self, alloc: Global) -> Result<Vec<Prefix>, Memory>
        ensures { IfOk result (λ networks. (p : PrefixValue)
            → (Contains networks.items p → ⊥) → IsItemOf self.now p None) }
    {
        let mut networks = self.intra.networks(alloc)?;
        networks.extend_from_slice(&self.active.prefixes(alloc)?)?;
        networks.extend_from_slice(&networks_of(alloc, &self.inter.dests(alloc)?)?)?;
        networks.extend_from_slice(&self.external.networks(alloc)?)?;
        Ok(sorted_unique(networks))
    }
}

// Updates the intra-area routes, and returns the destinations whose result changed.
fn follow_intra(
    alloc: Global,
    intra: &mut Intra,
    state: &State,
    trees: &[AreaTree],
    dirty: &Dirty,
) -> Result<Vec<Dest>, Memory>
    requires apart { AreAreasApart state.now.config.areas }
    requires trees { AreTreesOf state.now state.now.config.areas trees.now }
    requires before { (before : InputsValue) × IsIntraOf before intra.old
        × InputsDifferAmong dirty.now.keys.items dirty.now.vertices.items
        dirty.now.interfaces.items before (inputs_with state.now trees.now) }
    ensures kept { OnOk result (IsIntraOf (inputs_with state.now trees.now) intra.new) }
    ensures routed { OnOk result (IsRightFor (inputs_of state.now) intra.new) }
    ensures fit { OnOk result (AreFit state.now.config.areas state.now.databases) }
    ensures in_order { IfOk result (λ dests. IsStrictlySortedBy dest_cmp dests.items) }
    ensures exact { IfOk result (λ dests. (d : DestValue)
        → Contains dests.items d ↔ DiffersAt intra.old intra.new d) }
{
    let areas = area_inputs(alloc, state, trees)?;
    let inputs = IntraInputs {
        root: state.config().router,
        areas: &areas,
        interfaces: state.interfaces(),
    };
    intra.update(alloc, &inputs, dirty)
}

// Updates the active ranges after a range was set or dropped, and returns the networks of its area
// that it covers. Returns an empty list if no range changed.
fn follow_range(
    alloc: Global,
    active: &mut ActiveRanges,
    areas: &[AreaConfig],
    intra: &Intra,
    range: &Option<(u32, Prefix)>,
) -> Result<Vec<RangeMember>, Memory>
    requires before { (before : List AreaConfigValue)
        × AreRangesOf before intra.now.entries active.old
        × RangesDifferAt range.now before areas.now × (range.now ≡ None → areas.now ≡ before) }
    ensures kept { OnOk result (AreRangesOf areas.now intra.now.entries active.new) }
    ensures all { IfOk result (λ within. (id : ℕ) (prefix : PrefixValue)
        → range.now ≡ Some (id, prefix) → (m : MemberValue)
        → IsMemberWithin intra.now.entries id prefix m → Contains within.items m) }
{
    match range {
        Some(named) => active.reconfigure(alloc, areas, intra, *named),
        None => Ok(Vec::new(alloc)),
    }
}

// Builds the intra-area routes from scratch.
fn build_intra(
    alloc: Global,
    state: &State,
    trees: &[AreaTree],
    hashing: RandomState,
) -> Result<Intra, Memory>
    requires apart { AreAreasApart state.now.config.areas }
    requires trees { AreTreesOf state.now state.now.config.areas trees.now }
    ensures kept { IfOk result (IsIntraOf (inputs_with state.now trees.now)) }
    ensures routed { IfOk result (IsRightFor (inputs_of state.now)) }
    ensures fit { IfOk result (λ intra. AreFit state.now.config.areas state.now.databases) }
{
    let areas = area_inputs(alloc, state, trees)?;
    let inputs = IntraInputs {
        root: state.config().router,
        areas: &areas,
        interfaces: state.interfaces(),
    };
    Intra::build(alloc, &inputs, hashing)
}

// Appends the prefix of the range, if there is one.
fn push_range(range: &Option<(u32, Prefix)>, dests: &mut Vec<Dest>) -> Result<(), Memory>
    ensures { OnOk result (dests.new.items ≡ dests.old.items ++ range_dests range.now) }
{
    if let Some((_, prefix)) = range {
        dests.push(Dest::Net(*prefix))?;
    }
    Ok(())
}

// Appends the networks of the members.
fn push_members(members: &[RangeMember], dests: &mut Vec<Dest>) -> Result<(), Memory>
    ensures { OnOk result (dests.new.items
        ≡ dests.old.items ++ list_map (λ m. dest_value.Net m.network) members.now) }
{
    for member in members {
        dests.push(Dest::Net(member.network))?;
    }
    Ok(())
}

// Appends the routers among the destinations.
fn push_routers(among: &[Dest], dests: &mut Vec<Dest>) -> Result<(), Memory>
    ensures { OnOk result (dests.new.items ≡ dests.old.items ++ routers_in among.now) }
{
    for dest in among {
        if let Dest::Router(router) = *dest {
            dests.push(Dest::Router(router))?;
        }
    }
    Ok(())
}

// Returns the networks among the destinations, in ascending order without duplicates.
fn networks_of(alloc: Global, dests: &[Dest]) -> Result<Vec<Prefix>, Memory>
    ensures in_order { IfOk result (λ networks. IsStrictlySortedBy network_cmp networks.items) }
    ensures exact { IfOk result (λ networks. (p : PrefixValue)
        → Contains networks.items p ↔ Contains dests.now (dest_value.Net p)) }
{
    let networks = networks_among(alloc, dests)?;
    Ok(sorted_unique(networks))
}
