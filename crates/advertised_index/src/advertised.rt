//! The route that an LSA advertises.
ghost use Rattle.std.specs.Prelude.{◌≡◌, ◌<◌, ◌↔◌, false, IsTrue};
ghost use Rattle.ospf_types.specs.Inter.{LSInfinity};
ghost use Rattle.ospf_types.specs.Lsa.{key_of};
ghost use Rattle.lsdb.specs.Contents.{body_at};
ghost use Rattle.advertised_index.specs.AdvertisedRoute.{route_to, unless_useless};
ghost use Rattle.advertised_index.specs.AdvertisedRoute.{summarized as summarized_by};
ghost use Rattle.advertised_index.specs.AdvertisedRoute.{externalized as externalized_by, advertised_at};
ghost use Rattle.advertised_index.specs.Indexes.{IsOfGroup};

use crate::index_key::IndexKey;
use lsa_codec::Checked;
use lsdb::Database;
use ospf_types::key::{Dest, Key, Scope};
use ospf_types::lsa::{ExternalFields, LS_INFINITY};
use route_choice::Same;
use std::marker::Model;

// The external fields of a route that a summary-LSA advertises.
const NO_EXTERNAL: ExternalFields = ExternalFields {
    is_type_2: false,
    forwarding: 0,
};

/// A destination and the metric at which an LSA advertises it. The route of an AS-external-LSA also
/// has the type of its metric, and may have a forwarding address.
#[derive(Clone, Copy, Debug, PartialEq, Eq)]
pub struct AdvertisedRoute {
    dest: Dest,
    metric: u32,
    is_type_2: bool,
    forwarding: u32,
}

impl Model for AdvertisedRoute {
    ghost use Rattle.std.specs.Prelude.{◌<◌};
    ghost use Rattle.ospf_types.specs.Inter.{LSInfinity};
    ghost use Rattle.advertised_index.specs.AdvertisedRoute.{AdvertisedValue};

    ghost Value = { AdvertisedValue };

    ghost view = { λ a. record { dest = a.dest; metric = a.metric; is_type_2 = a.is_type_2; forwarding = a.forwarding } };

    ghost invariant = { λ a. a.metric < LSInfinity };

    ghost inverse = { λ a. record { dest = a.dest; metric = a.metric; is_type_2 = a.is_type_2; forwarding = a.forwarding } };
}

impl AdvertisedRoute {
    pub fn dest(self) -> Dest
        ensures { result ≡ self.dest }
    {
        self.dest
    }

    /// Returns the metric, which is below LSInfinity.
    pub fn metric(self) -> u32
        ensures value { result ≡ self.metric }
        ensures finite { result < LSInfinity }
    {
        self.metric
    }

    /// Returns true if the metric is of type 2 (RFC 2328, A.4.5).
    pub fn is_type_2(self) -> bool
        ensures { result ≡ self.is_type_2 }
    {
        self.is_type_2
    }

    /// Returns the forwarding address in host order, or 0 if there is none.
    pub fn forwarding(self) -> u32
        ensures { result ≡ self.forwarding }
    {
        self.forwarding
    }

    // Returns true if the route, which the LSA with this key advertises, is in the group.
    pub(crate) fn is_of(self, group: &IndexKey, key: Key) -> bool
        ensures { IsTrue result ↔ IsOfGroup group.now key self }
    {
        match *group {
            IndexKey::To(dest) => self.dest == dest,
            IndexKey::By(router) => key.router == router,
            IndexKey::Forwarded(address) => address != 0 && self.forwarding == address,
        }
    }
}

/// The database of a scope, and the router that reads its advertised routes.
#[derive(Clone, Copy)]
pub struct ScopeDatabase<'a> {
    /// The Router ID of this router.
    pub root: u32,
    pub scope: Scope,
    pub database: &'a Database,
}

impl ScopeDatabase<'_> {
    /// Returns the route that the LSA with this key advertises, if there is one. In an area it is
    /// of a summary-LSA, in the AS of an AS-external-LSA (RFC 2328, 16.2 and 16.4).
    pub(crate) fn advertised_under(self, key: Key) -> Option<AdvertisedRoute>
        ensures { result ≡ advertised_at self.entry.root self.entry.scope key
            (body_at self.entry.database.now.lsas key) }
    {
        // 16.2 (1), 16.4 (1): an LSA at MaxAge is not used.
        let lsa = self.database.usable(key)?;
        match self.scope {
            Scope::Area(_) => summarized(self.root, key, lsa),
            Scope::As => externalized(self.root, key, lsa),
        }
    }
}

// A route as its LSA states it, whose metric may be LSInfinity.
#[derive(Clone, Copy)]
struct LsaRoute {
    dest: Dest,
    metric: u32,
    external: ExternalFields,
}

// Returns the route of a summary-LSA, or `None` if its destination is the root.
fn summarized(root: u32, key: Key, lsa: &Checked) -> Option<AdvertisedRoute>
    requires { key_of lsa.now ≡ key }
    ensures { result ≡ summarized_by root key lsa.now.body }
{
    let metric = lsa.metric()?;
    if lsa.external().is_some() {
        return None;
    }
    match lsa.prefix() {
        Some(network) => offer(root, key, summary_route(Dest::Net(network), metric)),
        None if key.id == root => None,
        None => offer(root, key, summary_route(Dest::Router(key.id), metric)),
    }
}

// Creates the route of a summary-LSA.
fn summary_route(dest: Dest, metric: u32) -> LsaRoute
    ensures dest { result.dest ≡ dest }
    ensures metric { result.metric ≡ metric }
    ensures type_1 { result.external.is_type_2 ≡ false }
    ensures direct { result.external.forwarding ≡ 0 }
{
    LsaRoute {
        dest,
        metric,
        external: NO_EXTERNAL,
    }
}

// Returns the route of an AS-external-LSA.
fn externalized(root: u32, key: Key, lsa: &Checked) -> Option<AdvertisedRoute>
    requires { key_of lsa.now ≡ key }
    ensures { result ≡ externalized_by root key lsa.now.body }
{
    let external = lsa.external()?;
    let metric = lsa.metric()?;
    let network = lsa.prefix()?;
    let dest = Dest::Net(network);
    let route = LsaRoute {
        dest,
        metric,
        external,
    };
    offer(root, key, route)
}

// Returns the route, or `None` if the root originated it or its metric is not below LSInfinity.
fn offer(root: u32, key: Key, route: LsaRoute) -> Option<AdvertisedRoute>
    ensures { result ≡ unless_useless root key route.metric
        (route_to route.dest route.metric route.external.is_type_2 route.external.forwarding) }
{
    // 16.2 (1) and (2), 16.4 (1) and (2): the metric is below LSInfinity, and another router
    // originated the LSA.
    if key.router == root || route.metric >= LS_INFINITY {
        return None;
    }
    Some(AdvertisedRoute {
        dest: route.dest,
        metric: route.metric,
        is_type_2: route.external.is_type_2,
        forwarding: route.external.forwarding,
    })
}

impl Same for AdvertisedRoute {
    fn is_same(&self, other: &AdvertisedRoute) -> bool {
        *self == *other
    }
}
