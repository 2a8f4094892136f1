//! The configuration of a router, as far as a capture shows it.
ghost use Rattle.std.specs.Prelude.{◌≡◌, [], None, IfOk, IfErr, OnOk, OnErr};
ghost use Rattle.ospf_types.specs.Configs.{config_fault_of};
ghost use Rattle.captured_config.specs.Lsas.{Captured, with_lsa};
ghost use Rattle.captured_config.specs.Facts.{AreFacts, facts_of};
ghost use Rattle.captured_config.specs.Finding.{area_by, config_by, interfaces_by};
ghost use Rattle.captured_config.specs.Configs.{has_wrong_count as has_wrong_count_test};
ghost use Rattle.captured_config.specs.Faults.{IsConfigFaultIn};

use crate::area_facts::AreaFacts;
use crate::facts::FactLists;
use crate::fault::PreambleFault;
use crate::finding::find_interfaces;
use crate::found::Found;
use crate::telling::is_counted;
use lsa_codec::Checked;
use ospf_types::config::{AreaConfig, Areas, Config, Ranges};
use ospf_types::memory::Memory;
use ospf_types::{ConfigFault, MAX_AREAS, fault_in};
use std::alloc::Global;
use std::marker::Model;

/// The configuration of one router, as the LSAs of a capture show it.
pub struct CapturedConfig {
    /// Router ID.
    router: u32,
    lists: FactLists,
}

// proof: a value is dropped by one call, not part by part at each exit of a function.
impl Drop for CapturedConfig {
    fn drop(self) {
        let CapturedConfig {
            router: _,
            lists: _lists,
        } = self;
    }
}

/// Contracts see the Router ID, and the facts that are kept of the LSAs that count: `AreFacts`.
impl Model for CapturedConfig {
    ghost use Rattle.captured_config.specs.Facts.{Facts};

    ghost Value = { Facts };

    ghost view = { λ c. record { router = c.router; lists = c.lists } };
}

impl CapturedConfig {
    /// Creates the configuration of a router (its Router ID in host order) of which nothing is
    /// known.
    pub fn new(alloc: Global, router: u32) -> CapturedConfig
        ensures { result ≡ facts_of (record { router = router; lsas = [] }) }
    {
        CapturedConfig {
            router,
            lists: FactLists::new(alloc),
        }
    }

    /// Notes the facts of an LSA that is installed in the area, if it counts. Router-LSAs count,
    /// and the router's summary-LSAs for networks.
    pub fn note(&mut self, alloc: Global, area: u32, lsa: &Checked) -> Result<(), Memory>
        ensures ok { OnOk result ((c : Captured)
            → AreFacts c self.old → AreFacts (with_lsa c area lsa.now) self.new) }
        ensures err { OnErr result (self.new ≡ self.old) }
    {
        if !is_counted(self.router, lsa) {
            return Ok(());
        }
        self.lists.note(alloc, self.router, area, lsa)
    }

    /// Returns the configuration with these areas, if it has no fault.
    pub(crate) fn config(&self, alloc: Global, ids: &[u32]) -> Result<Config, PreambleFault>
        ensures config { IfOk result (λ config. config ≡ config_by self.now ids.now) }
        ensures sound { OnOk result (config_fault_of (config_by self.now ids.now) ≡ None) }
        ensures fault { IfErr result (IsConfigFaultIn (config_by self.now ids.now)) }
    {
        // A capture may name very many areas: their number is checked before any of them.
        if has_wrong_count(ids) {
            return Err(PreambleFault::Config(ConfigFault::Areas));
        }
        let config = self.config_with(alloc, ids)?;
        match fault_in(&config) {
            Some(fault) => Err(PreambleFault::Config(fault)),
            None => Ok(config),
        }
    }

    fn config_with(&self, alloc: Global, ids: &[u32]) -> Result<Config, Memory>
        ensures { IfOk result (λ config. config ≡ config_by self.now ids.now) }
    {
        let mut areas = Areas::new(alloc);
        for id in ids {
            areas.push(self.area(alloc, *id))?;
        }
        Ok(Config {
            router: self.router,
            compat: false,
            areas,
        })
    }

    fn area(&self, alloc: Global, id: u32) -> AreaConfig
        ensures { result ≡ area_by self.now.lists.told id }
    {
        AreaConfig {
            id,
            stub: self.in_area(id).stub(),
            ranges: Ranges::new(alloc),
        }
    }

    /// Returns the interfaces in these areas.
    pub(crate) fn interfaces(&self, alloc: Global, ids: &[u32]) -> Result<Found, Memory>
        ensures { IfOk result (λ found. found ≡ interfaces_by self.now.lists ids.now) }
    {
        find_interfaces(alloc, &self.lists, ids)
    }

    /// Returns the facts about an area.
    pub(crate) fn in_area(&self, area: u32) -> AreaFacts<'_>
        ensures area { result.area ≡ area }
        ensures told { result.told.now ≡ self.now.lists.told }
    {
        AreaFacts {
            area,
            told: self.lists.told(),
        }
    }

    /// Returns the Router ID.
    pub(crate) fn router(&self) -> u32
        ensures { result ≡ self.now.router }
    {
        self.router
    }
}

fn has_wrong_count(ids: &[u32]) -> bool
    ensures { result ≡ has_wrong_count_test ids.now }
{
    ids.is_empty() || ids.len() > MAX_AREAS
}
