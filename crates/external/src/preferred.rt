//! The preferred route of an AS boundary router (RFC 2328, 16.4 and 16.4.1).
ghost use Rattle.std.specs.Prelude.{◌≡◌, ◌↔◌, ◌<◌, Some, IfOk, OnOk, IsTrue, refl};
ghost use Rattle.std.specs.Cmp.{eq_by_cmp_equiv, partial_equiv_from_equiv};
ghost use Rattle.std.specs.Cmp.{partial_order_from_total};
ghost use Rattle.std.specs.Ordering.{as_partial_cmp, eq_by_cmp};
ghost use Rattle.ospf_types.proofs.Orders.{preference_total};
ghost use Rattle.ospf_types.specs.Boundary.{class_of, preference_cmp};
ghost use Rattle.route_choice.specs.Takes.{OnlyOffer, OfferedBySome};
ghost use Rattle.inter.specs.Inters.{most_cost};
ghost use Rattle.external.specs.Classes.{class_number};
ghost use Rattle.external.specs.Choosing.{TakesHops, HopsOffer, AsbrOffers, AreasOffer};
ghost use Rattle.external.specs.AsbrRoute.{RouterOffers, ReachedOffers, EntryOffers};
ghost use Rattle.external.specs.AsbrRoute.{InterEntryOffers, IsPreferredFor};

use crate::class::PathClass;
use crate::inputs::ExternalInputs;
use ospf_types::address::BACKBONE;
use ospf_types::entry::Entry;
use ospf_types::hop::{NextHop, Path};
use ospf_types::key::Dest;
use ospf_types::memory::Memory;
use route_choice::{Best, Choice, ExactOrd, ReachedRouter, Same};
use smallvec::SmallVec;
use std::alloc::Global;
use std::cmp::Ordering;
use std::marker::Model;

/// The preferred route of an AS boundary router.
///
/// An intra-area path through another area than the backbone comes before all others, unless
/// RFC1583Compatibility is enabled. Then comes the lower cost, and then the greater Area ID.
pub struct AsbrRoute {
    class: PathClass,
    cost: u32,
    area: u32,
    hops: SmallVec<NextHop, 1>,
}

// proof: a value is dropped by one call, not part by part at each exit of a function.
impl Drop for AsbrRoute {
    fn drop(self) {
        let AsbrRoute {
            class: _,
            cost: _,
            area: _,
            hops: _hops,
        } = self;
    }
}

impl Model for AsbrRoute {
    ghost use Rattle.std.specs.Prelude.{◌<◌};
    ghost use Rattle.inter.specs.Inters.{most_cost};
    ghost use Rattle.external.specs.AsbrRoute.{PreferredValue};
    ghost use Rattle.external.specs.Classes.{class_number};

    ghost Value = { PreferredValue };

    ghost view = { λ p. record { preference = record { class = class_number p.class; cost = p.cost; area = p.area }; hops = p.hops.items } };

    ghost invariant = { λ p. p.cost < most_cost };
}

// The key by which the entries of one router are compared: the lower class (16.4.1), then the lower
// cost, then the greater Area ID (16.4 (3)).
#[derive(Clone, Copy)]
struct PreferenceKey {
    class: PathClass,
    cost: u32,
    area: u32,
}

impl Model for PreferenceKey {
    ghost use Rattle.std.specs.Prelude.{◌<◌};
    ghost use Rattle.ospf_types.specs.Boundary.{Preference};
    ghost use Rattle.inter.specs.Inters.{most_cost};
    ghost use Rattle.external.specs.Classes.{class_number, numbered_class, same_class};

    ghost Value = { Preference };

    ghost view = { λ k. record { class = class_number k.class; cost = k.cost; area = k.area } };

    ghost invariant = { λ k. k.cost < most_cost };

    ghost inverse = { λ p. record { class = numbered_class p.class; cost = p.cost; area = p.area } };

    ghost inverse_ok = { λ k h i. record { class = same_class k.class i; cost = k.cost; area = k.area } };
}

// proof: the comparisons are written by hand, since clauses see a class as a number.
impl PartialEq for PreferenceKey {
    ghost eq = { eq_by_cmp preference_cmp };

    ghost laws = { partial_equiv_from_equiv (eq_by_cmp_equiv preference_total) };

    fn eq(&self, other: &PreferenceKey) -> bool {
        self.cmp(other).is_eq()
    }
}

impl Eq for PreferenceKey {
    ghost laws = { eq_by_cmp_equiv preference_total };
}

impl PartialOrd for PreferenceKey {
    ghost partial_cmp = { as_partial_cmp preference_cmp };

    ghost laws = { partial_order_from_total preference_total };

    fn partial_cmp(&self, other: &PreferenceKey) -> Option<Ordering> {
        Some(self.cmp(other))
    }
}

impl Ord for PreferenceKey {
    ghost cmp = { preference_cmp };

    ghost total = { preference_total };

    ghost matches_partial_cmp = { λ x y. refl };

    ghost matches_eq = { λ x y. refl };

    fn cmp(&self, other: &PreferenceKey) -> Ordering {
        let class = self.class.number().cmp(&other.class.number());
        let cost = self.cost.cmp(&other.cost);
        class.then(cost.then(other.area.cmp(&self.area)))
    }
}

impl ExactOrd for PreferenceKey {
    ghost use Rattle.ospf_types.proofs.Orders.{preference_exact};

    ghost exact = { preference_exact };
}

impl PreferenceKey {
    fn new(class: PathClass, cost: u32, area: u32) -> PreferenceKey
        requires { cost < most_cost }
        ensures { result ≡ record { class = class_number class; cost = cost; area = area } }
    {
        PreferenceKey { class, cost, area }
    }
}

impl AsbrRoute {
    /// Returns the cost, the sum of metrics along the path.
    pub fn cost(&self) -> u32
        ensures value { result ≡ self.now.preference.cost }
        ensures bounded { self.now.preference.cost < most_cost }
    {
        self.cost
    }

    /// Returns the Area ID of the entry's area.
    pub fn area(&self) -> u32
        ensures { result ≡ self.now.preference.area }
    {
        self.area
    }

    /// Returns the next hops, in ascending order without duplicates.
    pub fn hops(&self) -> &[NextHop]
        ensures { result.now ≡ self.now.hops }
    {
        self.hops.as_slice()
    }

    /// Returns the class of the entry.
    pub fn class(&self) -> PathClass
        ensures { class_number result ≡ self.now.preference.class }
    {
        self.class
    }

    // Returns true if class, cost and area are equal.
    fn has_preference_of(&self, other: &AsbrRoute) -> bool
        ensures { IsTrue result ↔ (self.now.preference ≡ other.now.preference) }
    {
        self.class == other.class && self.cost == other.cost && self.area == other.area
    }
}

impl Same for AsbrRoute {
    fn is_same(&self, other: &AsbrRoute) -> bool {
        self.has_preference_of(other) && self.hops == other.hops
    }
}

/// Returns the preferred route of the router, or `None` if the router has no entry.
pub(crate) fn choose_preferred(
    alloc: Global,
    inputs: &ExternalInputs<'_>,
    router: u32,
) -> Result<Option<AsbrRoute>, Memory>
    ensures { IfOk result (IsPreferredFor (RouterOffers inputs.now router)) }
{
    let mut best = Best::new(alloc);
    // 16.4 (3): the router may have an entry in each area.
    offer_areas(&mut best, inputs, router)?;
    offer_entry(&mut best, inputs, router)?;
    match best.into_choice() {
        Some(choice) => Ok(Some(from_choice(choice))),
        None => Ok(None),
    }
}

/// Returns the class of an entry (RFC 2328, 16.4.1). `within` is the area of an intra-area entry,
/// or `None` for other entries.
pub(crate) fn class_of(compat: bool, within: Option<u32>) -> PathClass
    ensures { class_number result ≡ class_of compat within }
{
    // 16.4.1: intra-area paths through other areas than the backbone are preferred to all others.
    if compat {
        return PathClass::MostPreferred;
    }
    match within {
        Some(area) => if area == BACKBONE {
            PathClass::Other
        } else {
            PathClass::MostPreferred
        },
        None => PathClass::Other,
    }
}

// Returns the preferred route of a choice.
fn from_choice(choice: Choice<PreferenceKey, NextHop>) -> AsbrRoute
    ensures { result ≡ record { preference = choice.key; hops = choice.items } }
{
    let (key, hops) = choice.into_parts();
    AsbrRoute {
        class: key.class,
        cost: key.cost,
        area: key.area,
        hops,
    }
}

// Adds the offer of each area in which the router is reached as an AS boundary router.
fn offer_areas(
    best: &mut Best<PreferenceKey, NextHop>,
    inputs: &ExternalInputs<'_>,
    router: u32,
) -> Result<(), Memory>
    ensures { OnOk result (TakesHops (AreasOffer inputs.now router) best.old best.new) }
{
    for area in inputs.areas {
        offer_area(best, inputs, *area, router)?;
    }
    Ok(())
}

// Adds the offer of the area, if the router is reached there as an AS boundary router.
fn offer_area(
    best: &mut Best<PreferenceKey, NextHop>,
    inputs: &ExternalInputs<'_>,
    area: u32,
    router: u32,
) -> Result<(), Memory>
    ensures { OnOk result (TakesHops (ReachedOffers inputs.now router area) best.old best.new) }
{
    match inputs.intra.router(area, router) {
        Some(reached) => offer_reached(best, inputs.compat, area, reached),
        None => Ok(()),
    }
}

// Adds the offer of the area for a router that is reached there, if it is an AS boundary router.
fn offer_reached(
    best: &mut Best<PreferenceKey, NextHop>,
    compat: bool,
    area: u32,
    reached: &ReachedRouter,
) -> Result<(), Memory>
    ensures { OnOk result
        (TakesHops (AsbrOffers compat area (Some reached.now)) best.old best.new) }
{
    if !reached.is_asbr() {
        return Ok(());
    }
    let key = PreferenceKey::new(class_of(compat, Some(area)), reached.distance(), area);
    offer_hops(best, key, reached.hops())
}

// Adds the offer of the router's inter-area entry.
fn offer_entry(
    best: &mut Best<PreferenceKey, NextHop>,
    inputs: &ExternalInputs<'_>,
    router: u32,
) -> Result<(), Memory>
    ensures { OnOk result (TakesHops (InterEntryOffers inputs.now router) best.old best.new) }
{
    match inputs.inter.get(Dest::Router(router)) {
        Some(entry) => offer_inter(best, inputs.compat, entry),
        None => Ok(()),
    }
}

// Adds the offer of the entry, over the next hop of each of its paths.
fn offer_inter(
    best: &mut Best<PreferenceKey, NextHop>,
    compat: bool,
    entry: &Entry,
) -> Result<(), Memory>
    requires { entry.now.cost < most_cost }
    ensures { OnOk result (TakesHops (EntryOffers compat (Some entry.now)) best.old best.new) }
{
    let Some(area) = entry.area else {
        return Ok(());
    };
    let key = PreferenceKey::new(class_of(compat, None), entry.cost, area);
    offer_paths(best, key, entry.paths.as_slice())
}

// Adds the next hop of each path.
fn offer_paths(
    best: &mut Best<PreferenceKey, NextHop>,
    key: PreferenceKey,
    paths: &[Path],
) -> Result<(), Memory>
    ensures { OnOk result
        (TakesHops (OfferedBySome paths.now (λ path. OnlyOffer key path.hop)) best.old best.new) }
{
    for path in paths {
        offer_hop(best, key, path.hop)?;
    }
    Ok(())
}

// Adds each of these next hops.
fn offer_hops(
    best: &mut Best<PreferenceKey, NextHop>,
    key: PreferenceKey,
    hops: &[NextHop],
) -> Result<(), Memory>
    ensures { OnOk result (TakesHops (HopsOffer hops.now key) best.old best.new) }
{
    for hop in hops {
        offer_hop(best, key, *hop)?;
    }
    Ok(())
}

// Adds the next hop.
fn offer_hop(
    best: &mut Best<PreferenceKey, NextHop>,
    key: PreferenceKey,
    hop: NextHop,
) -> Result<(), Memory>
    ensures { OnOk result (TakesHops (OnlyOffer key hop) best.old best.new) }
{
    best.offer(key, hop)
}
