//! Offers grouped by their networks.
ghost use Rattle.std.specs.Prelude.{◌≡◌, ◌<◌, IfNone, IfOk, IfSome, OnOk, length};
ghost use Rattle.explanation.specs.Groups.{AreEmpty, AreGroups, IsOfferAdded};

use crate::networks::NetworkSet;
use crate::offer::Offer;
use ospf_types::memory::Memory;
use ospf_types::prefix::Prefix;
use std::alloc::Global;

/// A network with its offers.
pub(crate) struct Group {
    pub(crate) network: Prefix,
    pub(crate) offers: Vec<Offer>,
}

// proof: a value is dropped by one call, not part by part at each exit of a function.
impl Drop for Group {
    fn drop(self) {
        let Group {
            network: _,
            offers: _offers,
        } = self;
    }
}

/// Returns a group for each network, with its offers in their order. Each offer is read only once.
pub(crate) fn grouped(
    alloc: Global,
    networks: &NetworkSet,
    offers: &[Offer],
) -> Result<Vec<Group>, Memory>
    ensures { IfOk result (λ groups. AreGroups networks.now offers.now groups.items) }
{
    let mut groups = empty_groups(alloc, networks.as_slice())?;
    for offer in offers {
        if let Some(place) = networks.place(offer.network) {
            put(&mut groups, place, offer)?;
        }
    }
    Ok(groups)
}

// Returns an empty group for each of the networks.
fn empty_groups(alloc: Global, networks: &[Prefix]) -> Result<Vec<Group>, Memory>
    ensures { IfOk result (λ groups. AreEmpty networks.now groups.items) }
{
    let mut groups = Vec::with_capacity(alloc, networks.len())?;
    for network in networks {
        groups.push(Group {
            network: *network,
            offers: Vec::new(alloc),
        })?;
    }
    Ok(groups)
}

// Appends the offer to the group at this place.
fn put(groups: &mut [Group], place: usize, offer: &Offer) -> Result<(), Memory>
    requires { place < length groups.now }
    ensures { OnOk result (IsOfferAdded place offer.now groups.old groups.new) }
{
    groups[place].offers.push(*offer)?;
    Ok(())
}
