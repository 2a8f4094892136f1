//! The destinations and addresses that a change of advertised routes affects.
ghost use Rattle.std.specs.Prelude.{◌≡◌, [], OnOk, IsTrue, Contains, option_copied};
ghost use Rattle.advertised_index.specs.AffectedDests.{AreAdded};
ghost use Rattle.advertised_index.specs.Lists.{HasMore};

use crate::advertised::AdvertisedRoute;
use ospf_types::key::Dest;
use ospf_types::memory::Memory;
use std::alloc::Global;
use std::marker::Model;

/// Destinations, and forwarding addresses in host order, whose result may change. They are in no
/// stated order, and may occur twice.
#[derive(Drop)]
pub struct AffectedDests {
    pub dests: Vec<Dest>,
    pub addresses: Vec<u32>,
}

impl Model for AffectedDests {
    ghost use Rattle.advertised_index.specs.Indexes.{ChangedOffersValue};

    ghost Value = { ChangedOffersValue };

    ghost view = { λ a. record { dests = a.dests.items; addresses = a.addresses.items } };
}

impl AffectedDests {
    /// Creates an empty value.
    pub fn none(alloc: Global) -> AffectedDests
        ensures { result ≡ record { dests = []; addresses = [] } }
    {
        AffectedDests {
            dests: Vec::new(alloc),
            addresses: Vec::new(alloc),
        }
    }

    /// Appends the destination of the route, and its forwarding address if it has one.
    pub(crate) fn add(&mut self, route: Option<&AdvertisedRoute>) -> Result<(), Memory>
        ensures { OnOk result (AreAdded (option_copied route.entry) self.old self.new) }
    {
        let Some(route) = route else {
            return Ok(());
        };
        self.dests.push(route.dest())?;
        if route.forwarding() == 0 {
            return Ok(());
        }
        push_new(&mut self.addresses, route.forwarding())?;
        Ok(())
    }
}

// Appends the address, unless it is the last one already.
pub(crate) fn push_new(addresses: &mut Vec<u32>, address: u32) -> Result<(), Memory>
    ensures { OnOk result (HasMore (λ a. a ≡ address) addresses.old.items addresses.new.items) }
{
    if is_last(addresses.as_slice(), address) {
        return Ok(());
    }
    addresses.push(address)?;
    Ok(())
}

// Returns true if the address is the last one.
fn is_last(addresses: &[u32], address: u32) -> bool
    ensures { IsTrue result → Contains addresses.now address }
{
    match addresses.last() {
        Some(last) => *last == address,
        None => false,
    }
}
