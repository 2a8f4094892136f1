//! The updates of results: preferred routes, then matches of forwarding addresses, then networks.
ghost use Rattle.std.specs.Prelude.{◌↔◌, IfOk, OnOk, IsTrue, option_copied};
ghost use Rattle.std.specs.Ordering.{nat_cmp};
ghost use Rattle.route_choice.specs.Chosen.{AreChosen, HasChanged};
ghost use Rattle.route_choice.specs.Dests.{IsNetworkAmong};
ghost use Rattle.route_choice.specs.Lists.{GainsAll, HasAll, ListsExactly, HasMore, IsOfSome};
ghost use Rattle.route_choice.specs.Results.{result_at};
ghost use Rattle.external.specs.Externals.{IsForwardIn};
ghost use Rattle.external.specs.Forwards.{forwards_in};
ghost use Rattle.external.specs.Updating.{IsAddressDue, IsAlso, IsAddressAffected, IsDueInDest};
ghost use Rattle.external.specs.Updating.{IsDueInNetwork, IsLedBy, IsLedByAddress, IsNoShorter};
ghost use Rattle.external.specs.Updating.{IsNoShorterThan, StandsButDue};

use crate::forward::{ForwardingMatch, look_up};
use crate::inputs::ExternalInputs;
use crate::preferred::{AsbrRoute, choose_preferred};
use advertised_index::{AdvertisedIndex, IndexKey};
use ospf_types::key::Dest;
use ospf_types::memory::Memory;
use ospf_types::prefix::Prefix;
use route_choice::{Choose, ResultMap};
use std::alloc::Global;

// ---- how results are chosen

/// The inputs of preferred routes.
#[derive(Drop)]
pub(crate) struct Preferring<'a> {
    pub(crate) inputs: &'a ExternalInputs<'a>,
}

impl<'a> Choose<u32, AsbrRoute> for Preferring<'a> {
    ghost use Rattle.external.specs.AsbrRoute.{RouterOffers, IsPreferredFor};

    ghost IsChosen = { λ by router fresh. IsPreferredFor (RouterOffers by.inputs.now router) fresh };

    fn choose(
        &self,
        alloc: Global,
        key: u32,
        _standing: Option<&AsbrRoute>,
    ) -> Result<Option<AsbrRoute>, Memory> {
        choose_preferred(alloc, self.inputs, key)
    }
}

/// The inputs of the matches of forwarding addresses.
#[derive(Drop)]
pub(crate) struct Forwarding<'a> {
    pub(crate) inputs: &'a ExternalInputs<'a>,
    pub(crate) index: &'a AdvertisedIndex,
}

impl<'a> Choose<u32, ForwardingMatch> for Forwarding<'a> {
    ghost use Rattle.external.specs.Externals.{IsForwardIn};

    ghost IsChosen = { λ by address fresh. IsForwardIn by.inputs.now by.index.now address fresh };

    fn choose(
        &self,
        alloc: Global,
        key: u32,
        _standing: Option<&ForwardingMatch>,
    ) -> Result<Option<ForwardingMatch>, Memory> {
        if !self.index.has_address(key) {
            return Ok(None);
        }
        let forward = look_up(alloc, self.inputs, key)?;
        Ok(Some(forward))
    }
}

// ---- forwarding addresses

impl Forwarding<'_> {
    /// Looks up the affected addresses, and the addresses in a network in `named` that is no
    /// shorter than their match. Returns the addresses whose result changed, in ascending order
    /// without duplicates.
    pub(crate) fn update_forwards(
        &self,
        alloc: Global,
        named: &[Dest],
        addresses: Vec<u32>,
        forwards: &mut ResultMap<u32, ForwardingMatch>,
    ) -> Result<Vec<u32>, Memory>
        requires { StandsButDue self.now.inputs.now self.now.index.now (IsNetworkAmong named.now)
            addresses.items (forwards_in forwards.old) }
        ensures chosen { OnOk result (AreChosen
            (IsForwardIn self.now.inputs.now self.now.index.now) (result_at nat_cmp forwards.new)) }
        ensures exact { IfOk result (λ moved. ListsExactly
            (HasChanged (result_at nat_cmp forwards.old) (result_at nat_cmp forwards.new))
            moved.items) }
    {
        let matches = AddressMatches {
            index: self.index,
            forwards,
        };
        let due = matches.list_due(alloc, named, addresses)?;
        let moved = forwards.follow(alloc, due, self)?;
        Ok(moved)
    }
}

/// The forwarding addresses of advertised routes, with the longest match of each as last looked up.
#[derive(Drop)]
struct AddressMatches<'a> {
    index: &'a AdvertisedIndex,
    forwards: &'a ResultMap<u32, ForwardingMatch>,
}

impl AddressMatches<'_> {
    // Returns the affected addresses, and the addresses in a network in `named` that is no shorter
    // than their match.
    fn list_due(
        &self,
        alloc: Global,
        named: &[Dest],
        addresses: Vec<u32>,
    ) -> Result<Vec<u32>, Memory>
        ensures { IfOk result (λ due. HasAll (IsAddressDue (IsNetworkAmong named.now)
            addresses.items self.now.index.now (forwards_in self.now.forwards.now)) due.items) }
    {
        let mut due = addresses;
        if !self.index.has_addresses() {
            return Ok(due);
        }
        for dest in named {
            self.list_due_at(alloc, *dest, &mut due)?;
        }
        Ok(due)
    }

    // Appends the addresses in the destination, if it is a network and no shorter than their match.
    fn list_due_at(&self, alloc: Global, dest: Dest, due: &mut Vec<u32>) -> Result<(), Memory>
        ensures { OnOk result (GainsAll
            (IsDueInDest self.now.index.now (forwards_in self.now.forwards.now) dest)
            due.old.items due.new.items) }
    {
        match dest {
            Dest::Net(network) => self.list_due_in(alloc, network, due),
            Dest::Router(_) => Ok(()),
        }
    }

    // Appends the addresses in the network, if it is no shorter than their match.
    fn list_due_in(&self, alloc: Global, network: Prefix, due: &mut Vec<u32>) -> Result<(), Memory>
        ensures { OnOk result (GainsAll
            (IsDueInNetwork self.now.index.now (forwards_in self.now.forwards.now) network)
            due.old.items due.new.items) }
    {
        let mut inside = Vec::new(alloc);
        self.index.list_addresses(network, &mut inside)?;
        for address in &inside {
            self.list_if_due(network, *address, due)?;
        }
        Ok(())
    }

    // Appends the address if its match is not longer than the network.
    fn list_if_due(&self, network: Prefix, address: u32, due: &mut Vec<u32>) -> Result<(), Memory>
        ensures { OnOk result (GainsAll
            (IsAddressAffected (forwards_in self.now.forwards.now) network address)
            due.old.items due.new.items) }
    {
        if !is_no_shorter(self.forwards.get(address), network) {
            return Ok(());
        }
        due.push(address)?;
        Ok(())
    }
}

// Returns true if the network is at least as long as the kept match, or there is no match.
fn is_no_shorter(kept: Option<&ForwardingMatch>, network: Prefix) -> bool
    ensures { IsTrue result ↔ IsNoShorter (option_copied kept.entry) network }
{
    match kept {
        Some(forward) => is_no_shorter_than(forward.matched(), network),
        None => true,
    }
}

fn is_no_shorter_than(matched: Option<Prefix>, network: Prefix) -> bool
    ensures { IsTrue result ↔ IsNoShorterThan matched network }
{
    match matched {
        Some(matched) => matched.length() <= network.length(),
        None => true,
    }
}

// ---- networks

/// Appends the destinations to which LSAs of these routers lead.
pub(crate) fn list_dests_by_routers(
    index: &AdvertisedIndex,
    routers: &[u32],
    dests: &mut Vec<Dest>,
) -> Result<(), Memory>
    ensures { OnOk result
        (HasMore (IsOfSome routers.now (IsLedBy index.now)) dests.old.items dests.new.items) }
{
    for router in routers {
        index.list_dests(IndexKey::By(*router), dests)?;
    }
    Ok(())
}

/// Appends the destinations to which LSAs with these forwarding addresses lead.
pub(crate) fn list_dests_by_addresses(
    index: &AdvertisedIndex,
    addresses: &[u32],
    dests: &mut Vec<Dest>,
) -> Result<(), Memory>
    ensures { OnOk result (HasMore (IsOfSome addresses.now (IsLedByAddress index.now))
        dests.old.items dests.new.items) }
{
    for address in addresses {
        index.list_dests(IndexKey::Forwarded(*address), dests)?;
    }
    Ok(())
}

/// Appends the destinations to which an LSA leads. The others have no offers, so they have no
/// entry.
pub(crate) fn list_dests_led_to(
    index: &AdvertisedIndex,
    dests: &[Dest],
    leading: &mut Vec<Dest>,
) -> Result<(), Memory>
    ensures { OnOk result (GainsAll (IsOfSome dests.now (IsAlso index.now))
        leading.old.items leading.new.items) }
{
    for dest in dests {
        list_if_led_to(index, dest, leading)?;
    }
    Ok(())
}

// Appends the destination if an LSA leads to it.
fn list_if_led_to(
    index: &AdvertisedIndex,
    dest: &Dest,
    leading: &mut Vec<Dest>,
) -> Result<(), Memory>
    ensures { OnOk result (GainsAll (IsAlso index.now dest.now)
        leading.old.items leading.new.items) }
{
    if !index.leads_to(*dest) {
        return Ok(());
    }
    leading.push(*dest)?;
    Ok(())
}
