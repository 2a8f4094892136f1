//! The hosts that stub links lead to (RFC 2328, 12.4.1.1).
//!
//! A stub link that joins two ends is found by this set of hosts, and by the masks of the networks
//! around one end. There are at most 33 masks. So 255 interfaces cost 255 passes over the links,
//! and not a pass over all pairs of them.
ghost use Rattle.std.specs.Prelude.{◌≡◌, ◌||◌, ℕ, IfOk, OnOk};
ghost use Rattle.captured_config.specs.Hosts.{AreHosts, has_host, leads_to_host};

use crate::links::is_stub;
use ospf_types::lsa::Link;
use ospf_types::memory::Memory;
use std::alloc::Global;
use std::collections::BTreeSet;

/// The mask of a stub link to a host.
const HOST_MASK: u32 = 0xffff_ffff;

/// A set of addresses of hosts.
#[derive(Drop)]
pub(crate) struct Hosts {
    addresses: BTreeSet<u32>,
}

impl Hosts {
    /// Collects the hosts that these links lead to.
    pub(crate) fn of(alloc: Global, own: &[Link]) -> Result<Hosts, Memory>
        ensures { IfOk result (AreHosts own.now) }
    {
        let mut hosts = Hosts {
            addresses: BTreeSet::new(alloc),
        };
        for link in own {
            hosts.note(*link)?;
        }
        Ok(hosts)
    }

    // Notes the host that the link leads to, if it is a stub link to one.
    fn note(&mut self, link: Link) -> Result<(), Memory>
        ensures { OnOk result ((address : ℕ)
            → has_host self.new address ≡ (has_host self.old address || leads_to_host address link)) }
    {
        if !is_stub(link.kind) || link.detail != HOST_MASK {
            return Ok(());
        }
        self.addresses.insert(link.id & HOST_MASK)?;
        Ok(())
    }

    /// Returns true if a stub link leads to the host with the address.
    pub(crate) fn has(&self, address: u32) -> bool
        ensures { result ≡ has_host self.now address }
    {
        self.addresses.contains(&(address & HOST_MASK))
    }
}
