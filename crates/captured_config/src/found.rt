//! The interfaces that were found, in order.
ghost use Rattle.std.specs.Prelude.{◌≡◌, OnOk};
ghost use Rattle.captured_config.specs.Interfaces.{none_found, with_interface};
ghost use Rattle.captured_config.specs.Interfaces.{is_full as is_full_test};
ghost use Rattle.captured_config.specs.Interfaces.{has_address as has_address_test};
ghost use Rattle.captured_config.specs.Interfaces.{is_new as is_new_test};
ghost use Rattle.captured_config.specs.Interfaces.{is_alone as is_alone_test, is_on as is_on_test};
ghost use Rattle.captured_config.specs.Interfaces.{reaches as reaches_test, with_stub_link};
ghost use Rattle.captured_config.specs.Interfaces.{with_stub_links};

use crate::links::{is_attached, is_stub, lies_in};
use ospf_types::config::Interface;
use ospf_types::listed::Listed;
use ospf_types::lsa::Link;
use ospf_types::memory::Memory;
use std::alloc::Global;

/// The greatest number of interfaces of a recording.
const MOST: usize = 255;

/// The interfaces of a router.
#[derive(Drop)]
pub(crate) struct Found {
    /// The interfaces with their numbers, from 1 on.
    pub(crate) interfaces: Listed<(u8, Interface)>,
    /// True if there are more than 255, and the others were left out.
    pub(crate) left_out: bool,
}

impl Found {
    pub(crate) fn new(alloc: Global) -> Found
        ensures { result ≡ none_found }
    {
        Found {
            interfaces: Listed::new(alloc),
            left_out: false,
        }
    }

    /// Returns true if one more would be left out.
    pub(crate) fn is_full(&self) -> bool
        ensures { result ≡ is_full_test self.now }
    {
        self.interfaces.len() >= MOST
    }

    /// Adds an interface with the next number. If all numbers are in use, it is left out.
    pub(crate) fn add(&mut self, interface: Interface) -> Result<(), Memory>
        ensures { OnOk result (self.new ≡ with_interface self.old interface) }
    {
        let count = self.interfaces.len();
        if count >= MOST {
            self.left_out = true;
            return Ok(());
        }
        self.interfaces.push((count as u8 + 1, interface))
    }

    /// Returns true if the link has an address that no interface of the area has yet.
    pub(crate) fn is_new(&self, area: u32, link: Link) -> bool
        ensures { result ≡ is_new_test area self.now link }
    {
        is_attached(link.kind) && !self.has_address(area, link.detail)
    }

    fn has_address(&self, area: u32, address: u32) -> bool
        ensures { result ≡ has_address_test area address self.now }
    {
        self.interfaces.as_slice().iter().any(|(_, interface)| interface.area == area
            && interface.address == address)
    }

    /// Adds an interface for each stub link to a network that no interface leads to yet.
    pub(crate) fn add_stub_links(&mut self, area: u32, own: &[Link]) -> Result<(), Memory>
        ensures { OnOk result (self.new ≡ with_stub_links area own.now self.old) }
    {
        for link in own {
            self.add_stub_link(area, *link)?;
        }
        Ok(())
    }

    // Adds an interface without neighbours. Its network is known, but its address is not: it gets
    // the Link ID.
    fn add_stub_link(&mut self, area: u32, link: Link) -> Result<(), Memory>
        ensures { OnOk result (self.new ≡ with_stub_link area self.old link) }
    {
        if !self.is_alone(area, link) {
            return Ok(());
        }
        self.add(Interface {
            area,
            address: link.id,
            peer: 0,
            up: true,
        })
    }

    // Returns true if it is a stub link to a network that no interface leads to yet.
    fn is_alone(&self, area: u32, link: Link) -> bool
        ensures { result ≡ is_alone_test area self.now link }
    {
        is_stub(link.kind) && !self.reaches(area, link)
    }

    // Returns true if an interface leads to the network of the stub link.
    fn reaches(&self, area: u32, link: Link) -> bool
        ensures { result ≡ reaches_test area link self.now }
    {
        self.interfaces
            .as_slice()
            .iter()
            .any(|(_, interface)| is_on(area, link, *interface))
    }
}

// Returns true if the interface's address or its neighbour's is in the network of the stub link.
fn is_on(area: u32, link: Link, interface: Interface) -> bool
    ensures { result ≡ is_on_test area link interface }
{
    interface.area == area
        && (lies_in(interface.address, link)
            || interface.peer != 0 && lies_in(interface.peer, link))
}
