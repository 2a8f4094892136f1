//! The offers of all databases of a router.
ghost use Rattle.std.specs.Prelude.{◌≡◌, ◌++◌, IfOk, OnOk};
ghost use Rattle.ospf_types.specs.RangeChanges.{is_same_prefix};
ghost use Rattle.explanation.specs.Groups.{offers_for};
ghost use Rattle.explanation.specs.Networks.{all_wanted, offers_in_areas};
ghost use Rattle.explanation.specs.Offers.{is_wanted};

use crate::layers::Layers;
use crate::offer::Offer;
use crate::offers::{OfferQuery, Wanted};
use intra::AreaInputs;
use ospf_types::key::Scope;
use ospf_types::memory::Memory;
use ospf_types::prefix::Prefix;
use std::alloc::Global;

impl Layers<'_, '_> {
    /// Returns the offers of the areas' LSAs, and then those of the AS-external-LSAs.
    pub(crate) fn all_offers(self, alloc: Global, wanted: Wanted<'_>) -> Result<Vec<Offer>, Memory>
        ensures { IfOk result (λ offers.
            offers.items ≡ all_wanted (is_wanted wanted.entry) self.entry) }
    {
        let mut offers = Vec::new(alloc);
        add_areas(self.areas, wanted, &mut offers)?;
        let scope = Scope::As;
        if let Some(database) = self.state.database(scope) {
            OfferQuery { scope, wanted }.add_offers(&database.lsas()?, &mut offers)?;
        }
        Ok(offers)
    }
}

fn add_areas(
    areas: &[AreaInputs<'_>],
    wanted: Wanted<'_>,
    offers: &mut Vec<Offer>,
) -> Result<(), Memory>
    ensures { OnOk result (offers.new.items
        ≡ offers.old.items ++ offers_in_areas (is_wanted wanted.entry) areas.now) }
{
    for area in areas {
        let scope = Scope::Area(area.id);
        OfferQuery { scope, wanted }.add_offers(&area.database.lsas()?, offers)?;
    }
    Ok(())
}

/// Returns the offers for this network, in their order.
pub(crate) fn of_network(
    alloc: Global,
    network: Prefix,
    offers: &[Offer],
) -> Result<Vec<Offer>, Memory>
    ensures { IfOk result (λ found. found.items ≡ offers_for network offers.now) }
{
    let mut found = Vec::new(alloc);
    for offer in offers {
        if is_of(network, offer) {
            found.push(*offer)?;
        }
    }
    Ok(found)
}

fn is_of(network: Prefix, offer: &Offer) -> bool
    ensures { result ≡ is_same_prefix offer.now.network network }
{
    offer.network == network
}
