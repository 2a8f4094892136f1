//! The links of an area, and the neighbours that they lead to (RFC 2328, 12.4.1.1).
ghost use Rattle.std.specs.Prelude.{◌≡◌, IfOk, OnOk, List};
ghost use Rattle.std.specs.List.{list_any};
ghost use Rattle.captured_config.specs.Finding.{back_in as back_in_area, first_back};
ghost use Rattle.captured_config.specs.Finding.{leads_back as leads_back_test};
ghost use Rattle.captured_config.specs.Finding.{own_in as own_in_area, peer_by};
ghost use Rattle.captured_config.specs.Hosts.{AreHosts, agree as agree_test};
ghost use Rattle.captured_config.specs.Hosts.{leads_around as leads_around_test};
ghost use Rattle.captured_config.specs.Hosts.{masks_around as masks_around_in};
ghost use Rattle.captured_config.specs.Hosts.{with_mask_around as with_mask_if};
ghost use Rattle.captured_config.specs.Interfaces.{joins};

use crate::fact::{LinkBack, OwnLink};
use crate::facts::FactLists;
use crate::hosts::Hosts;
use crate::links::{is_point_to_point, is_stub, lies_in};
use ospf_types::lsa::Link;
use ospf_types::memory::Memory;
use std::alloc::Global;

/// The links of an area that show the router's interfaces.
pub(crate) struct AreaLinks {
    /// Area ID.
    pub(crate) area: u32,
    /// The links of the router.
    pub(crate) own: Vec<Link>,
    /// The links of neighbours that lead to the router.
    back: Vec<LinkBack>,
    /// The hosts that stub links of the router lead to.
    hosts: Hosts,
    ghost led_to: { AreHosts own.items hosts },
}

// proof: a value is dropped by one call, not part by part at each exit of a function.
impl Drop for AreaLinks {
    fn drop(self) {
        let AreaLinks {
            area: _,
            own: _own,
            back: _back,
            hosts: _hosts,
        } = self;
    }
}

impl AreaLinks {
    /// Collects the links of this area.
    pub(crate) fn of(alloc: Global, lists: &FactLists, area: u32) -> Result<AreaLinks, Memory>
        ensures area { IfOk result (λ links. links.area ≡ area) }
        ensures own { IfOk result (λ links. links.own.items ≡ own_in_area area lists.now.own) }
        ensures back { IfOk result (λ links. links.back.items ≡ back_in_area area lists.now.back) }
    {
        let own = own_in(alloc, area, lists.own())?;
        let back = back_in(alloc, area, lists.back())?;
        let hosts = Hosts::of(alloc, &own)?;
        Ok(AreaLinks {
            area,
            own,
            back,
            hosts,
        })
    }

    /// Returns the address of the neighbour at the other end of a point-to-point link, or 0 if it
    /// is not found.
    pub(crate) fn peer_of(&self, alloc: Global, link: Link) -> Result<u32, Memory>
        ensures { IfOk result (λ peer. peer
            ≡ peer_by self.now.own.items self.now.back.items link) }
    {
        if !is_point_to_point(link.kind) {
            return Ok(0);
        }
        let masks = masks_around(alloc, link.detail, &self.own)?;
        Ok(self.first_back(link, &masks))
    }

    // Returns the address at which the neighbour's first link back begins, or 0 if there is no link
    // back.
    fn first_back(&self, link: Link, masks: &[u32]) -> u32
        requires { masks.now ≡ masks_around_in link.detail self.now.own.items }
        ensures { result ≡ first_back self.now.own.items link.detail link.id self.now.back.items }
    {
        for back in &self.back {
            if self.leads_back(link, masks, *back) {
                return back.address;
            }
        }
        0
    }

    // Returns true if `back` is a link of the neighbour from an address that a stub link of the
    // router joins with this end.
    fn leads_back(&self, link: Link, masks: &[u32], back: LinkBack) -> bool
        requires { masks.now ≡ masks_around_in link.detail self.now.own.items }
        ensures { result ≡ leads_back_test self.now.own.items link.detail link.id back }
    {
        back.router == link.id && self.is_joined(link.detail, masks, back.address)
    }

    // Returns true if a stub link of the router is for a point-to-point link with these ends. It
    // leads to the host at the other end, or to a network that contains both ends.
    fn is_joined(&self, address: u32, masks: &[u32], peer: u32) -> bool
        requires { masks.now ≡ masks_around_in address self.now.own.items }
        ensures { result ≡ list_any (joins address peer) self.now.own.items }
    {
        self.hosts.has(peer) || is_in_one(address, peer, masks)
    }
}

// Returns true if both addresses are in one network with one of these masks.
fn is_in_one(address: u32, peer: u32, masks: &[u32]) -> bool
    ensures { result ≡ list_any (agree_test address peer) masks.now }
{
    masks.iter().any(|mask| peer & *mask == address & *mask)
}

// Returns the masks of the networks that contain the address, without duplicates. There are at most
// 33, since an LSA has no other masks.
fn masks_around(alloc: Global, address: u32, own: &[Link]) -> Result<Vec<u32>, Memory>
    ensures { IfOk result (λ masks. masks.items ≡ masks_around_in address own.now) }
{
    let mut masks = Vec::new(alloc);
    for link in own {
        put_mask_if(address, *link, &mut masks)?;
    }
    Ok(masks)
}

fn put_mask_if(address: u32, link: Link, masks: &mut Vec<u32>) -> Result<(), Memory>
    ensures { OnOk result (masks.new.items ≡ with_mask_if address masks.old.items link) }
{
    if !leads_around(address, link) || masks.contains(&link.detail) {
        return Ok(());
    }
    masks.push(link.detail)?;
    Ok(())
}

// Returns true if it is a stub link to a network that contains the address.
fn leads_around(address: u32, link: Link) -> bool
    ensures { result ≡ leads_around_test address link }
{
    is_stub(link.kind) && lies_in(address, link)
}

// Returns the links of the router in the area.
fn own_in(alloc: Global, area: u32, own: &[OwnLink]) -> Result<Vec<Link>, Memory>
    ensures { IfOk result (λ links. links.items ≡ own_in_area area own.now) }
{
    let mut links = Vec::new(alloc);
    for one in own {
        if one.area == area {
            links.push(one.link)?;
        }
    }
    Ok(links)
}

// Returns the links that lead to the router in the area.
fn back_in(alloc: Global, area: u32, back: &[LinkBack]) -> Result<Vec<LinkBack>, Memory>
    ensures { IfOk result (λ links. links.items ≡ back_in_area area back.now) }
{
    let mut links = Vec::new(alloc);
    for one in back {
        if one.area == area {
            links.push(*one)?;
        }
    }
    Ok(links)
}
