//! The layers above intra-area routes: inter-area routes and external routes (RFC 2328, 16.2 and
//! 16.4).
ghost use Rattle.std.specs.Prelude.{ℕ, ◌≡◌, ◌≢◌, ◌↔◌, ◌≤◌, false, length, Option, Contains, IsTrue};
ghost use Rattle.std.specs.Prelude.{IfOk, IfSome, IfNone, OnOk, map as list_map};
ghost use Rattle.std.specs.List.Sorted.{IsStrictlySortedBy};
ghost use Rattle.ospf_types.specs.declared.config.AreaConfig.{AreaConfig};
ghost use Rattle.ospf_types.specs.declared.config.Interface.{Interface as InterfaceValue};
ghost use Rattle.ospf_types.specs.declared.key.Dest.{Dest as DestValue};
ghost use Rattle.ospf_types.specs.declared.key.Scope.TheVariants as scope_value;
ghost use Rattle.ospf_types.specs.Inputs.{Area};
ghost use Rattle.ospf_types.specs.Ranges.{IsExamined};
ghost use Rattle.ospf_types.specs.Keys.{dest_cmp};
ghost use Rattle.event_state.specs.States.{database_of, inputs_of};
ghost use Rattle.event_state.specs.Held.{AreFit};
ghost use Rattle.intra.specs.Right.{IsRightFor};
ghost use Rattle.active_ranges.specs.Right.{IsRightFor as AreRangesRight};
ghost use Rattle.inter.specs.Changes.{DiffersAt as InterDiffersAt};
ghost use Rattle.inter.specs.Changes.{InputsDifferAmong as InterInputsDiffer};
ghost use Rattle.inter.specs.Inputs.{ExaminedValue, InterInputsValue};
ghost use Rattle.inter.specs.Inters.{IsInterOf};
ghost use Rattle.inter.specs.Right.{IsRightFor as IsInterRight};
ghost use Rattle.external.specs.Changes.{DiffersAt as ExternalDiffersAt};
ghost use Rattle.external.specs.Changes.{InputsDifferAmong as ExternalInputsDiffer};
ghost use Rattle.external.specs.Inputs.{ExternalInputsValue};
ghost use Rattle.external.specs.Externals.{IsExternalOf};
ghost use Rattle.external.specs.Right.{IsRightFor as IsExternalRight};
ghost use Rattle.route_layers.specs.Layers.{AreActive, IsInterFor};
ghost use Rattle.route_layers.specs.Layers.{IsExaminedOf, IsUpAmong, IsUpIn, inter_inputs};
ghost use Rattle.route_layers.specs.Layers.{external_inputs};
ghost use Rattle.route_layers.specs.Trees.{lsas_in};

use crate::is_up_in;
use active_ranges::ActiveRanges;
use event_state::State;
use external::{External, ExternalInputs};
use inter::{ExaminedArea, Inter, InterInputs};
use intra::{Dirty, Intra};
use lsdb::Database;
use ospf_types::address::BACKBONE;
use ospf_types::config::Interface;
use ospf_types::key::{Dest, Scope};
use ospf_types::memory::Memory;
use smallvec::SmallVec;
use std::alloc::Global;
use std::collections::btree_map::Iter;
use std::hash::RandomState;

/// A state, its intra-area routes and its active ranges, from which the other routes are
/// calculated.
#[derive(Clone, Copy)]
pub struct IntraLayer<'a> {
    pub state: &'a State,
    pub intra: &'a Intra,
    pub active: &'a ActiveRanges,
}

impl IntraLayer<'_> {
    /// Builds the inter-area routes of the state.
    pub fn build_inter(self, alloc: Global, hashing: RandomState) -> Result<Inter, Memory>
        requires fit { AreFit self.state.now.config.areas self.state.now.databases }
        requires routed { IsRightFor (inputs_of self.state.now) self.intra.now }
        requires ranged { AreRangesRight (inputs_of self.state.now) self.active.now }
        ensures kept { IfOk result
            (IsInterFor self.entry.state.now self.entry.intra.now self.entry.active.now) }
        ensures right { IfOk result (IsInterRight (inputs_of self.entry.state.now)) }
    {
        let inputs = InterInputs {
            root: self.state.config().router,
            examined: examined(self.state),
            intra: self.intra,
            active: self.active,
        };
        Inter::build(alloc, &inputs, hashing)
    }

    /// Updates the inter-area routes by the state, the intra-area routes and the active ranges.
    /// Returns the destinations whose entry changed, in ascending order without duplicates.
    ///
    /// # Errors
    ///
    /// Returns `Memory` if memory runs out. The routes may then be out of date, and have to be
    /// built again.
    pub fn follow_inter(
        self,
        alloc: Global,
        inter: &mut Inter,
        dirty: &Dirty,
    ) -> Result<Vec<Dest>, Memory>
        requires fit { AreFit self.state.now.config.areas self.state.now.databases }
        requires routed { IsRightFor (inputs_of self.state.now) self.intra.now }
        requires ranged { AreRangesRight (inputs_of self.state.now) self.active.now }
        requires before { (before : InterInputsValue) × IsInterOf before inter.old
            × ((examined : Option ExaminedValue) → IsExaminedOf self.state.now examined
            → InterInputsDiffer dirty.now.keys.items dirty.now.dests.items before
            (inter_inputs self.state.now examined self.intra.now self.active.now)) }
        ensures kept { OnOk result
            (IsInterFor self.entry.state.now self.entry.intra.now self.entry.active.now inter.new) }
        ensures right { OnOk result (IsInterRight (inputs_of self.entry.state.now) inter.new) }
        ensures in_order { IfOk result (λ dests. IsStrictlySortedBy dest_cmp dests.items) }
        ensures exact { IfOk result (λ dests. (d : DestValue)
            → Contains dests.items d ↔ InterDiffersAt inter.old inter.new d) }
    {
        let inputs = InterInputs {
            root: self.state.config().router,
            examined: examined(self.state),
            intra: self.intra,
            active: self.active,
        };
        inter.update(alloc, &inputs, dirty)
    }

    /// Builds the external routes of the state.
    pub fn build_external(
        self,
        alloc: Global,
        inter: &Inter,
        hashing: RandomState,
    ) -> Result<External, Memory>
        requires fit { AreFit self.state.now.config.areas self.state.now.databases }
        requires routed { IsRightFor (inputs_of self.state.now) self.intra.now }
        requires ranged { AreRangesRight (inputs_of self.state.now) self.active.now }
        requires between { IsInterRight (inputs_of self.state.now) inter.now }
        ensures kept { IfOk result (IsExternalOf (external_inputs self.entry.state.now
            self.entry.intra.now self.entry.active.now inter.now)) }
        ensures right { IfOk result (IsExternalRight (inputs_of self.entry.state.now)) }
    {
        let areas = area_ids(alloc, self.state)?;
        let config = self.state.config();
        let inputs = ExternalInputs {
            root: config.router,
            compat: config.compat,
            areas: &areas,
            database: externals(self.state),
            intra: self.intra,
            active: self.active,
            inter,
        };
        External::build(alloc, &inputs, hashing)
    }

    /// Updates the external routes by the state and the layers below. Returns the destinations
    /// whose result changed, in ascending order without duplicates.
    ///
    /// # Errors
    ///
    /// Returns `Memory` if memory runs out. The routes may then be out of date, and have to be
    /// built again.
    pub fn follow_external(
        self,
        alloc: Global,
        external: &mut External,
        inter: &Inter,
        dirty: &Dirty,
    ) -> Result<Vec<Dest>, Memory>
        requires fit { AreFit self.state.now.config.areas self.state.now.databases }
        requires routed { IsRightFor (inputs_of self.state.now) self.intra.now }
        requires ranged { AreRangesRight (inputs_of self.state.now) self.active.now }
        requires between { IsInterRight (inputs_of self.state.now) inter.now }
        requires before { (before : ExternalInputsValue) × IsExternalOf before external.old
            × ExternalInputsDiffer dirty.now.keys.items dirty.now.dests.items before
            (external_inputs self.state.now self.intra.now self.active.now inter.now) }
        ensures kept { OnOk result (IsExternalOf (external_inputs self.entry.state.now
            self.entry.intra.now self.entry.active.now inter.now) external.new) }
        ensures right { OnOk result
            (IsExternalRight (inputs_of self.entry.state.now) external.new) }
        ensures in_order { IfOk result (λ dests. IsStrictlySortedBy dest_cmp dests.items) }
        ensures exact { IfOk result (λ dests. (d : DestValue)
            → Contains dests.items d ↔ ExternalDiffersAt external.old external.new d) }
    {
        let areas = area_ids(alloc, self.state)?;
        let config = self.state.config();
        let inputs = ExternalInputs {
            root: config.router,
            compat: config.compat,
            areas: &areas,
            database: externals(self.state),
            intra: self.intra,
            active: self.active,
            inter,
        };
        external.update(alloc, &inputs, dirty)
    }
}

// Returns the database of AS-external-LSAs.
fn externals(state: &State) -> &Database
    requires { AreFit state.now.config.areas state.now.databases }
    ensures { result.now.lsas ≡ lsas_in (database_of state.now scope_value.As) }
{
    let Some(database) = state.database(Scope::As) else {
        unreachable!()
    };
    database
}

// Returns the Area IDs, in the order of the configuration.
fn area_ids(alloc: Global, state: &State) -> Result<SmallVec<u32, 4>, Memory>
    ensures { IfOk result (λ ids. ids.items ≡ list_map (λ a. a.id) state.now.config.areas) }
{
    let mut ids = SmallVec::new(alloc);
    for area in state.config().areas.as_slice() {
        ids.push(area.id)?;
    }
    Ok(ids)
}

/// Returns the Area IDs of the active areas, in the order of the configuration. Up to four are
/// stored inline; more are allocated.
pub fn active_areas(alloc: Global, state: &State) -> Result<SmallVec<u32, 4>, Memory>
    ensures { IfOk result (λ active. AreActive state.now active.items) }
{
    let mut active = SmallVec::new(alloc);
    for area in state.config().areas.as_slice() {
        if is_active(state, area.id) {
            active.push(area.id)?;
        }
    }
    Ok(active)
}

// Returns the examined area (RFC 2328, 16.2). It is the backbone if two or more areas have an
// interface that is up, or else the only area that has one.
fn examined(state: &State) -> Option<ExaminedArea<'_>>
    requires { AreFit state.now.config.areas state.now.databases }
    ensures { IsExaminedOf state.now result }
{
    let area = examined_area(state)?;
    let Some(database) = state.database(Scope::Area(area)) else {
        unreachable!()
    };
    Some(ExaminedArea { area, database })
}

// Returns the Area ID of the examined area.
fn examined_area(state: &State) -> Option<u32>
    requires { AreFit state.now.config.areas state.now.databases }
    ensures some { IfSome result (λ area.
        (a : Area) × IsExamined (inputs_of state.now) a × (a.id ≡ area)) }
    ensures none { IfNone result ((a : Area) → IsExamined (inputs_of state.now) a → ⊥) }
{
    let mut active = None;
    for area in state.config().areas.as_slice() {
        if is_active(state, area.id) {
            if active.is_some() {
                return backbone(state);
            }
            active = Some(area.id);
        }
    }
    active
}

// Returns true if the area has an interface that is up. The interfaces of an area usually have
// adjacent ids, so the search starts at both ends.
fn is_active(state: &State, area: u32) -> bool
    ensures { IsTrue result ↔ IsUpIn state.now area }
{
    let mut left = state.interfaces();
    while let Some((_, interface)) = left.next() {
        if is_up_in(interface, area) {
            return true;
        }
        if is_last_up_in(&mut left, area) {
            return true;
        }
    }
    false
}

// Removes the last interface from `left`. Returns true if it is in the area and up.
fn is_last_up_in(left: &mut Iter<'_, u8, Interface>, area: u32) -> bool
    ensures up { IsTrue result → IsUpAmong left.old area }
    ensures among { (e : ℕ × InterfaceValue) → Contains left.new e → Contains left.old e }
    ensures rest { result ≡ false → IsUpAmong left.old area → IsUpAmong left.new area }
    ensures fewer { length left.new ≤ length left.old }
{
    match left.next_back() {
        Some((_, interface)) => is_up_in(interface, area),
        None => false,
    }
}

// Returns the Area ID of the backbone, if the backbone is configured.
fn backbone(state: &State) -> Option<u32>
    ensures some { IfSome result (λ id. (id ≡ 0)
        × ((a : AreaConfig) × Contains state.now.config.areas a × (a.id ≡ 0))) }
    ensures none { IfNone result ((a : AreaConfig) → Contains state.now.config.areas a → a.id ≢ 0) }
{
    for area in state.config().areas.as_slice() {
        if area.id == BACKBONE {
            return Some(BACKBONE);
        }
    }
    None
}
