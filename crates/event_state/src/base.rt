//! The base: the state before the first event of a journal.
//!
//! A base that a caller gives keeps its order. A roll lists interfaces by id, and LSAs by area and
//! key, those of the AS last.
ghost use Rattle.std.specs.Prelude.{◌≡◌, ◌↔◌, IsTrue, IfOk};
ghost use Rattle.event_state.specs.Bases.{bare, HasConfigOnly};

use lsa_codec::Checked;
use ospf_types::config::{Config, Interface};
use ospf_types::key::Scope;
use ospf_types::listed::Listed;
use ospf_types::memory::Memory;
use std::alloc::Global;

/// The state before the first event of a journal.
#[derive(Debug)]
pub struct Base {
    /// The configuration, with the address ranges of that time.
    pub config: Config,
    /// The serial of the last event that the base reflects, or 0 if there was none.
    pub serial: u64,
    /// The interfaces with their ids.
    pub interfaces: Listed<(u8, Interface)>,
    /// The LSAs with their scopes. The age field of each LSA is its present age.
    pub lsas: Listed<(Scope, Checked)>,
}

// proof: a value is dropped by one call, not part by part at each exit of a function.
impl Drop for Base {
    fn drop(self) {
        let Base {
            config: _config,
            serial: _,
            interfaces: _interfaces,
            lsas: _lsas,
        } = self;
    }
}

impl Base {
    /// Creates a base of a configuration only: serial 0, no interfaces and no LSAs.
    pub fn bare(alloc: Global, config: Config) -> Base
        ensures { result ≡ bare config }
    {
        Base {
            config,
            serial: 0,
            interfaces: Listed::new(alloc),
            lsas: Listed::new(alloc),
        }
    }

    /// Returns true if the base is a configuration only: serial 0, no interfaces and no LSAs.
    pub fn has_config_only(&self) -> bool
        ensures { IsTrue result ↔ HasConfigOnly self.now }
    {
        self.serial == 0 && self.interfaces.is_empty() && self.lsas.is_empty()
    }

    /// Returns a copy of the base.
    pub fn copy(&self, alloc: Global) -> Result<Base, Memory>
        ensures { IfOk result (λ base. base ≡ self.now) }
    {
        Ok(Base {
            config: self.config.copy(alloc)?,
            serial: self.serial,
            interfaces: Listed::from_slice(alloc, self.interfaces.as_slice())?,
            lsas: copied(alloc, self.lsas.as_slice())?,
        })
    }
}

fn copied(alloc: Global, lsas: &[(Scope, Checked)]) -> Result<Listed<(Scope, Checked)>, Memory>
    ensures { IfOk result (λ copies. copies ≡ lsas.now) }
{
    let mut copies = Listed::new(alloc);
    for (scope, lsa) in lsas {
        copies.push((*scope, lsa.copy(alloc)?))?;
    }
    Ok(copies)
}
