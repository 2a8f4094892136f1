//! The interfaces of a router in its areas, by its router-LSAs (RFC 2328, 12.4.1).
ghost use Rattle.std.specs.Prelude.{◌≡◌, IfOk, OnOk};
ghost use Rattle.captured_config.specs.Finding.{interfaces_by, peer_by};
ghost use Rattle.captured_config.specs.Interfaces.{interface_of, with_link, with_links, with_own};

use crate::area_links::AreaLinks;
use crate::facts::FactLists;
use crate::found::Found;
use ospf_types::config::Interface;
use ospf_types::lsa::Link;
use ospf_types::memory::Memory;
use std::alloc::Global;

/// Finds the interfaces of the router in these areas.
pub(crate) fn find_interfaces(
    alloc: Global,
    lists: &FactLists,
    areas: &[u32],
) -> Result<Found, Memory>
    ensures { IfOk result (λ found. found ≡ interfaces_by lists.now areas.now) }
{
    let mut found = Found::new(alloc);
    for area in areas {
        let links = AreaLinks::of(alloc, lists, *area)?;
        links.add_interfaces(alloc, &mut found)?;
    }
    Ok(found)
}

impl AreaLinks {
    // Adds the interfaces of the area: first those with an address of the router, then those of
    // stub links.
    fn add_interfaces(&self, alloc: Global, found: &mut Found) -> Result<(), Memory>
        ensures { OnOk result (found.new ≡ with_own self.now.area
            (peer_by self.now.own.items self.now.back.items) self.now.own.items found.old) }
    {
        self.add_links(alloc, found)?;
        found.add_stub_links(self.area, &self.own)
    }

    fn add_links(&self, alloc: Global, found: &mut Found) -> Result<(), Memory>
        ensures { OnOk result (found.new ≡ with_links self.now.area
            (peer_by self.now.own.items self.now.back.items) self.now.own.items found.old) }
    {
        for link in &self.own {
            self.add_link(alloc, *link, found)?;
        }
        Ok(())
    }

    // Adds an interface for the link, if it has an address that no interface of the area has yet.
    fn add_link(&self, alloc: Global, link: Link, found: &mut Found) -> Result<(), Memory>
        ensures { OnOk result (found.new ≡ with_link self.now.area
            (peer_by self.now.own.items self.now.back.items) found.old link) }
    {
        if !found.is_new(self.area, link) {
            return Ok(());
        }
        if found.is_full() {
            found.left_out = true;
            return Ok(());
        }
        let interface = self.interface_of(alloc, link)?;
        found.add(interface)
    }

    fn interface_of(&self, alloc: Global, link: Link) -> Result<Interface, Memory>
        ensures { IfOk result (λ interface. interface ≡ interface_of self.now.area
            (peer_by self.now.own.items self.now.back.items) link) }
    {
        Ok(Interface {
            area: self.area,
            address: link.detail,
            peer: self.peer_of(alloc, link)?,
            up: true,
        })
    }
}
