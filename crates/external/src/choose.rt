//! The choice of the entry of an external network: the best of the offers of AS-external-LSAs.
ghost use Rattle.std.specs.Prelude.{◌≡◌, ◌<◌, None, Some, IfOk, OnOk, refl};
ghost use Rattle.std.specs.Cmp.{eq_by_cmp_equiv, partial_equiv_from_equiv};
ghost use Rattle.std.specs.Cmp.{partial_order_from_total};
ghost use Rattle.std.specs.FinMap as map;
ghost use Rattle.std.specs.List.Sorted.{IsStrictlySortedBy};
ghost use Rattle.std.specs.Ordering.{as_partial_cmp, eq_by_cmp};
ghost use Rattle.ospf_types.proofs.Orders.{external_total};
ghost use Rattle.ospf_types.specs.External.{external_cmp};
ghost use Rattle.ospf_types.specs.Hops.{path_cmp};
ghost use Rattle.ospf_types.specs.Routes.{entry_of, external_type};
ghost use Rattle.inter.specs.Inters.{most_cost};
ghost use Rattle.external.specs.Classes.{class_number};
ghost use Rattle.external.specs.Choosing.{TakesPaths, LeadsOffer, KeyOffers, KeysOffer};
ghost use Rattle.external.specs.Choosing.{NetworkOffers};
ghost use Rattle.external.specs.Forwards.{WayOffers, forwards_in};
ghost use Rattle.external.specs.Offers.{AdvertisedOffers, ForwardLeads, preference_of};
ghost use Rattle.external.specs.AsbrRoute.{preferred_in};
ghost use Rattle.external.specs.Updating.{IsEntryBy};

use crate::class::{ExternalType, PathClass};
use crate::forward::{ForwardingMatch, ForwardingPath, has_internal};
use crate::inputs::ExternalInputs;
use crate::preferred::AsbrRoute;
use advertised_index::{AdvertisedIndex, AdvertisedRoute, IndexKey};
use ospf_types::entry::{Entry, PathType, Paths};
use ospf_types::hop::Path;
use ospf_types::key::{Dest, Key};
use ospf_types::memory::Memory;
use ospf_types::prefix::Prefix;
use route_choice::{Best, Choice, Choose, ExactOrd, ResultMap, offer_hops};
use std::alloc::Global;
use std::cmp::Ordering;
use std::marker::Model;

// The key by which external routes to one network are compared (16.4 (6), b to d). Type 1 comes
// before type 2. Then come the metric of type 2, the class of the path, and the cost, which for
// type 2 is only the distance.
#[derive(Clone, Copy)]
struct ExternalKey {
    kind: ExternalType,
    metric: u32,
    class: PathClass,
    cost: u32,
}

impl Model for ExternalKey {
    ghost use Rattle.ospf_types.specs.External.{ExternalPreference};
    ghost use Rattle.external.specs.Classes.{class_number, kind_number, numbered_class};
    ghost use Rattle.external.specs.Classes.{numbered_kind, same_class, same_kind};

    ghost Value = { ExternalPreference };

    ghost view = { λ k. record { kind = kind_number k.kind; metric = k.metric; class = class_number k.class; cost = k.cost } };

    ghost inverse = { λ p. record { kind = numbered_kind p.kind; metric = p.metric; class = numbered_class p.class; cost = p.cost } };

    ghost inverse_ok = { λ k h i. record { kind = same_kind k.kind i; metric = k.metric; class = same_class k.class i; cost = k.cost } };
}

// proof: the comparisons are written by hand, since clauses see a type and a class as numbers.
impl PartialEq for ExternalKey {
    ghost eq = { eq_by_cmp external_cmp };

    ghost laws = { partial_equiv_from_equiv (eq_by_cmp_equiv external_total) };

    fn eq(&self, other: &ExternalKey) -> bool {
        self.cmp(other).is_eq()
    }
}

impl Eq for ExternalKey {
    ghost laws = { eq_by_cmp_equiv external_total };
}

impl PartialOrd for ExternalKey {
    ghost partial_cmp = { as_partial_cmp external_cmp };

    ghost laws = { partial_order_from_total external_total };

    fn partial_cmp(&self, other: &ExternalKey) -> Option<Ordering> {
        Some(self.cmp(other))
    }
}

impl Ord for ExternalKey {
    ghost cmp = { external_cmp };

    ghost total = { external_total };

    ghost matches_partial_cmp = { λ x y. refl };

    ghost matches_eq = { λ x y. refl };

    fn cmp(&self, other: &ExternalKey) -> Ordering {
        let kind = self.kind.number().cmp(&other.kind.number());
        let metric = self.metric.cmp(&other.metric);
        let class = self.class.number().cmp(&other.class.number());
        kind.then(metric.then(class.then(self.cost.cmp(&other.cost))))
    }
}

impl ExactOrd for ExternalKey {
    ghost use Rattle.ospf_types.proofs.Orders.{external_exact};

    ghost exact = { external_exact };
}

impl ExternalKey {
    // Returns the key of a route over a path of this class and distance.
    fn of(route: AdvertisedRoute, class: PathClass, distance: u32) -> ExternalKey
        requires { distance < most_cost }
        ensures { result ≡ preference_of route (class_number class) distance }
    {
        // 16.4 (5): X is the distance and Y the metric. Type 1 costs X + Y. Type 2 keeps X and Y
        // apart.
        if route.is_type_2() {
            ExternalKey {
                kind: ExternalType::Type2,
                metric: route.metric(),
                class,
                cost: distance,
            }
        } else {
            ExternalKey {
                kind: ExternalType::Type1,
                metric: 0,
                class,
                cost: distance + route.metric(),
            }
        }
    }

    fn path_type(self) -> PathType
        ensures { result ≡ external_type self.kind }
    {
        match self.kind {
            ExternalType::Type1 => PathType::External1,
            ExternalType::Type2 => PathType::External2,
        }
    }
}

/// The inputs of a choice, and the results that it uses.
#[derive(Drop)]
pub(crate) struct Choosing<'a> {
    pub(crate) inputs: &'a ExternalInputs<'a>,
    /// The routes that AS-external-LSAs advertise.
    pub(crate) index: &'a AdvertisedIndex,
    /// The preferred routes of AS boundary routers.
    pub(crate) preferred: &'a ResultMap<u32, AsbrRoute>,
    /// The matches of forwarding addresses, and the paths there.
    pub(crate) forwards: &'a ResultMap<u32, ForwardingMatch>,
}

impl<'a> Choose<Prefix, Entry> for Choosing<'a> {
    ghost use Rattle.std.specs.FinMap as map;
    ghost use Rattle.external.specs.Updating.{IsEntryBy};

    ghost IsChosen = { λ by network fresh. IsEntryBy by.inputs.now by.index.now (map.from_entries by.preferred.now.entries) (map.from_entries by.forwards.now.entries) network fresh };

    fn choose(
        &self,
        alloc: Global,
        key: Prefix,
        _standing: Option<&Entry>,
    ) -> Result<Option<Entry>, Memory> {
        self.choose_entry(alloc, key)
    }
}

impl Choosing<'_> {
    // Returns the entry of the network, or `None` if there are no offers or an internal path is
    // preferred.
    fn choose_entry(&self, alloc: Global, network: Prefix) -> Result<Option<Entry>, Memory>
        ensures { IfOk result (IsEntryBy self.now.inputs.now self.now.index.now
            (preferred_in self.now.preferred.now) (forwards_in self.now.forwards.now) network) }
    {
        // 16.4 (6) (a): intra-area and inter-area paths are preferred.
        if has_internal(self.inputs, network) {
            return Ok(None);
        }
        let mut best = Best::new(alloc);
        self.offer_network(alloc, &mut best, network)?;
        match best.into_choice() {
            Some(choice) => Ok(Some(entry(choice))),
            None => Ok(None),
        }
    }

    // Adds the offers of the routes to the network.
    fn offer_network(
        &self,
        alloc: Global,
        best: &mut Best<ExternalKey, Path>,
        network: Prefix,
    ) -> Result<(), Memory>
        ensures { OnOk result (TakesPaths (NetworkOffers self.now.index.now
            (preferred_in self.now.preferred.now) (forwards_in self.now.forwards.now) network)
            best.old best.new) }
    {
        let mut keys = Vec::new(alloc);
        self.index
            .list_keys(IndexKey::To(Dest::Net(network)), &mut keys)?;
        self.offer_keys(best, keys.as_slice())
    }

    // Adds the offers of the routes at these keys.
    fn offer_keys(&self, best: &mut Best<ExternalKey, Path>, keys: &[Key]) -> Result<(), Memory>
        ensures { OnOk result (TakesPaths (KeysOffer keys.now self.now.index.now.routes
            (preferred_in self.now.preferred.now) (forwards_in self.now.forwards.now))
            best.old best.new) }
    {
        for key in keys {
            self.offer_key(best, *key)?;
        }
        Ok(())
    }

    // Adds the offer of the route at the key, if its AS boundary router has a preferred route.
    fn offer_key(&self, best: &mut Best<ExternalKey, Path>, key: Key) -> Result<(), Memory>
        ensures { OnOk result (TakesPaths (KeyOffers self.now.index.now.routes
            (preferred_in self.now.preferred.now) (forwards_in self.now.forwards.now) key)
            best.old best.new) }
    {
        let Some(route) = self.index.route(key) else {
            return Ok(());
        };
        // 16.4 (3): the AS boundary router must have an entry.
        match self.preferred.get(key.router) {
            Some(entry) => self.offer_route(best, key, *route, entry),
            None => Ok(()),
        }
    }

    // Adds the offer of a route, given the preferred route of its AS boundary router.
    fn offer_route(
        &self,
        best: &mut Best<ExternalKey, Path>,
        key: Key,
        route: AdvertisedRoute,
        entry: &AsbrRoute,
    ) -> Result<(), Memory>
        ensures { OnOk result (TakesPaths (AdvertisedOffers (Some entry.now)
            (map.get (forwards_in self.now.forwards.now) route.forwarding) key route)
            best.old best.new) }
    {
        // 16.4 (3): without a forwarding address packets go to the AS boundary router itself.
        if route.forwarding() == 0 {
            let at = ExternalKey::of(route, entry.class(), entry.cost());
            return offer_hops(best, at, Some(key.router), entry.hops());
        }
        match self.forwards.get(route.forwarding()) {
            Some(forward) => offer_forward(best, key.router, route, forward),
            None => Ok(()),
        }
    }
}

// Returns the external entry of a choice.
fn entry(choice: Choice<ExternalKey, Path>) -> Entry
    requires { IsStrictlySortedBy path_cmp choice.items }
    ensures { result ≡ entry_of
        (external_type choice.key.kind) None choice.key.cost choice.key.metric choice.items }
{
    let (key, paths) = choice.into_parts();
    Entry {
        kind: key.path_type(),
        area: None,
        cost: key.cost,
        cost2: key.metric,
        paths: Paths::new(paths),
    }
}

// Adds the offer of the router's route over the path to its forwarding address, if there is such a
// path.
fn offer_forward(
    best: &mut Best<ExternalKey, Path>,
    router: u32,
    route: AdvertisedRoute,
    forward: &ForwardingMatch,
) -> Result<(), Memory>
    ensures { OnOk result
        (TakesPaths (LeadsOffer (ForwardLeads (Some forward.now)) router route) best.old best.new) }
{
    match forward.way() {
        Some(way) => offer_way(best, router, route, way),
        None => Ok(()),
    }
}

// Adds the offer of the router's route over the path to its forwarding address.
fn offer_way(
    best: &mut Best<ExternalKey, Path>,
    router: u32,
    route: AdvertisedRoute,
    way: &ForwardingPath,
) -> Result<(), Memory>
    ensures { OnOk result
        (TakesPaths (LeadsOffer (WayOffers (Some way.now)) router route) best.old best.new) }
{
    let at = ExternalKey::of(route, way.class(), way.cost());
    offer_hops(best, at, Some(router), way.hops())
}
