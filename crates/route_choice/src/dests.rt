//! Lists of destinations, by which layers report changes to each other.
ghost use Rattle.std.specs.Prelude.{◌≡◌, ◌++◌, map as list_map, IfOk, OnOk};
ghost use Rattle.std.specs.List.{filter_map};
ghost use Rattle.ospf_types.specs.declared.key.Dest.TheVariants as dest_value;
ghost use Rattle.route_choice.specs.Dests.{network_of, router_of};

use ospf_types::key::Dest;
use ospf_types::memory::Memory;
use ospf_types::prefix::Prefix;
use std::alloc::Global;

/// Returns the networks among the destinations, in the same order.
pub fn networks_among(alloc: Global, dests: &[Dest]) -> Result<Vec<Prefix>, Memory>
    ensures { IfOk result (λ networks. networks.items ≡ filter_map network_of dests.now) }
{
    let networks = dests
        .iter()
        .filter_map(|dest| network_of(*dest))
        .collect(alloc)?;
    Ok(networks)
}

/// Returns the Router IDs among the destinations, in the same order.
pub fn routers_among(alloc: Global, dests: &[Dest]) -> Result<Vec<u32>, Memory>
    ensures { IfOk result (λ routers. routers.items ≡ filter_map router_of dests.now) }
{
    let routers = dests
        .iter()
        .filter_map(|dest| router_of(*dest))
        .collect(alloc)?;
    Ok(routers)
}

/// Appends the networks as destinations.
///
/// # Errors
///
/// Returns `Memory` if memory runs out. Only the first networks are then appended.
pub fn add_networks(networks: &[Prefix], dests: &mut Vec<Dest>) -> Result<(), Memory>
    ensures { OnOk result (dests.new.items
        ≡ dests.old.items ++ list_map dest_value.Net networks.now) }
{
    for network in networks {
        dests.push(Dest::Net(*network))?;
    }
    Ok(())
}

/// Appends the Router IDs as destinations.
///
/// # Errors
///
/// Returns `Memory` if memory runs out. Only the first Router IDs are then appended.
pub fn add_routers(routers: &[u32], dests: &mut Vec<Dest>) -> Result<(), Memory>
    ensures { OnOk result (dests.new.items
        ≡ dests.old.items ++ list_map dest_value.Router routers.now) }
{
    for router in routers {
        dests.push(Dest::Router(*router))?;
    }
    Ok(())
}

/// Returns the networks, followed by the Router IDs, as destinations.
pub fn dests_of(alloc: Global, networks: &[Prefix], routers: &[u32]) -> Result<Vec<Dest>, Memory>
    ensures { IfOk result (λ dests. dests.items
        ≡ list_map dest_value.Net networks.now ++ list_map dest_value.Router routers.now) }
{
    let room = networks.len().saturating_add(routers.len());
    let mut dests = Vec::with_capacity(alloc, room)?;
    add_networks(networks, &mut dests)?;
    add_routers(routers, &mut dests)?;
    Ok(dests)
}

// Returns the network, if the destination is a network.
fn network_of(dest: Dest) -> Option<Prefix>
    ensures { result ≡ network_of dest }
{
    match dest {
        Dest::Net(network) => Some(network),
        Dest::Router(_) => None,
    }
}

// Returns the Router ID, if the destination is a router.
fn router_of(dest: Dest) -> Option<u32>
    ensures { result ≡ router_of dest }
{
    match dest {
        Dest::Router(router) => Some(router),
        Dest::Net(_) => None,
    }
}
