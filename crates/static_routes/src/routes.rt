//! The layer of static routes.
ghost use Rattle.std.specs.Prelude.{◌≡◌, IfOk, OnOk, true, false, map as list_map, option_copied};
ghost use Rattle.std.specs.List.Sorted.{IsStrictlySortedBy};
ghost use Rattle.ospf_types.specs.Network.{network_cmp};
ghost use Rattle.route_choice.specs.Chosen.{HasChanged};
ghost use Rattle.route_choice.specs.Lists.{ListsExactly};
ghost use Rattle.route_choice.specs.Results.{result_at};
ghost use Rattle.static_routes.specs.Routes.{AreStaticRoutesOf, AreRoutesButAt, IsRouteConfigured, IsLeast};
ghost use Rattle.static_routes.specs.Routes.{IsLesserMetric};

use ospf_types::memory::Memory;
use ospf_types::prefix::Prefix;
use route_choice::{Choose, ResultMap};
use std::alloc::Global;
use std::hash::RandomState;
use std::marker::Model;

/// The inputs of the static routes.
#[derive(Drop)]
pub struct StaticInputs<'a> {
    /// The configured static routes: networks with metrics.
    pub configured: &'a [(Prefix, u32)],
    /// The networks with another route, which is preferred.
    pub taken: &'a [Prefix],
}

impl<'a> Choose<Prefix, u32> for StaticInputs<'a> {
    ghost use Rattle.static_routes.specs.Routes.{IsRouteOf};

    ghost IsChosen = { λ inputs network metric. IsRouteOf inputs.configured.now inputs.taken.now network metric };

    fn choose(
        &self,
        _alloc: Global,
        key: Prefix,
        _standing: Option<&u32>,
    ) -> Result<Option<u32>, Memory> {
        if self.taken.contains(&key) {
            return Ok(None);
        }
        Ok(least_of(self.configured, key))
    }
}

/// The metric of each network whose static route is used.
pub struct StaticRoutes {
    routes: ResultMap<Prefix, u32>,
}

// proof: a value is dropped by one call, not part by part at each exit of a function.
impl Drop for StaticRoutes {
    fn drop(self) {
        let StaticRoutes { routes: _routes } = self;
    }
}

impl Model for StaticRoutes {
    ghost use Rattle.std.specs.Prelude.{ℕ};
    ghost use Rattle.std.specs.Coded.{coded_ℕ};
    ghost use Rattle.ospf_types.specs.declared.prefix.Prefix.{Prefix as PrefixValue};
    ghost use Rattle.ospf_types.specs.Network.{network_code};
    ghost use Rattle.route_choice.specs.Results.{Results, results_code};

    ghost Value = { Results PrefixValue ℕ };

    ghost coded = { results_code network_code coded_ℕ };

    ghost view = { λ r. r.routes };
}

impl StaticRoutes {
    /// Calculates the static routes for these inputs from scratch.
    ///
    /// # Errors
    ///
    /// Returns `Memory` if memory runs out.
    pub fn build(
        alloc: Global,
        inputs: &StaticInputs<'_>,
        hashing: RandomState,
    ) -> Result<StaticRoutes, Memory>
        ensures { IfOk result (AreStaticRoutesOf inputs.now.configured.now inputs.now.taken.now) }
    {
        let mut routes = StaticRoutes {
            routes: ResultMap::new(alloc, hashing),
        };
        let networks = networks_in(alloc, inputs.configured)?;
        routes.update(alloc, inputs, networks)?;
        Ok(routes)
    }

    /// Updates the routes to these networks, and returns the networks whose route changed, in
    /// ascending order without duplicates.
    ///
    /// `networks` must list every network whose route may be out of date.
    ///
    /// # Errors
    ///
    /// Returns `Memory` if memory runs out. Some routes are then updated and others are not.
    pub fn update(
        &mut self,
        alloc: Global,
        inputs: &StaticInputs<'_>,
        networks: Vec<Prefix>,
    ) -> Result<Vec<Prefix>, Memory>
        requires { AreRoutesButAt inputs.now.configured.now inputs.now.taken.now
            networks.items self.old }
        ensures kept { OnOk result
            (AreStaticRoutesOf inputs.now.configured.now inputs.now.taken.now self.new) }
        ensures in_order { IfOk result (λ others. IsStrictlySortedBy network_cmp others.items) }
        ensures exact { IfOk result (λ others. ListsExactly
            (HasChanged (result_at network_cmp self.old) (result_at network_cmp self.new))
            others.items) }
    {
        let others = self.routes.follow(alloc, networks, inputs)?;
        Ok(others)
    }

    /// Returns the metric of the network's static route, or `None` if it has none or another route
    /// is preferred.
    pub fn get(&self, network: Prefix) -> Option<&u32>
        ensures { option_copied result ≡ result_at network_cmp self.now network }
    {
        self.routes.get(network)
    }
}

// Returns the networks of the static routes.
fn networks_in(alloc: Global, configured: &[(Prefix, u32)]) -> Result<Vec<Prefix>, Memory>
    ensures { IfOk result (λ networks. networks.items ≡ list_map (λ x. x.0) configured.now) }
{
    let networks = configured.iter().map(|route| route.0).collect(alloc)?;
    Ok(networks)
}

// Returns the least metric configured for the network.
fn least_of(configured: &[(Prefix, u32)], network: Prefix) -> Option<u32>
    ensures { IsLeast (IsRouteConfigured configured.now network) result }
{
    let mut least = None;
    for (other, metric) in configured {
        least = least_with(least, *other == network, *metric);
    }
    least
}

// Returns the lower of `least` and this metric. The metric counts only if it is configured for the
// network.
fn least_with(least: Option<u32>, is_its: bool, metric: u32) -> Option<u32>
    ensures other { is_its ≡ false → result ≡ least }
    ensures its { is_its ≡ true → IsLesserMetric least metric result }
{
    match least {
        _ if !is_its => least,
        Some(least) if least <= metric => Some(least),
        _ => Some(metric),
    }
}
