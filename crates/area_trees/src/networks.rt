//! The usable network-LSAs of an area, in the order of Link State ID.
ghost use Rattle.std.specs.Prelude.{◌≡◌, ◌<◌, ◌^◌, ℕ, IfSome, IfNone, OnOk, Contains};
ghost use Rattle.area_trees.specs.Areas.{AreNetworksBut, AreNetworksOf, FollowsKey, IsGreatestRouter};
ghost use Rattle.area_trees.specs.Areas.{KeepsOtherNetworks};

use crate::vertices::is_usable;
use lsdb::Database;
use ospf_types::key::Key;
use ospf_types::lsa::NETWORK_LSA;
use ospf_types::memory::Memory;
use std::alloc::Global;
use std::collections::BTreeSet;
use std::marker::Model;

// A usable network-LSA, by its Link State ID and its Advertising Router.
#[derive(Clone, Copy, PartialEq, Eq, PartialOrd, Ord)]
struct NetworkLsa {
    id: u32,
    router: u32,
}

impl NetworkLsa {
    fn of(id: u32, router: u32) -> NetworkLsa
        ensures value { result ≡ record { id = id; router = router } }
        ensures small { result.router < 2 ^ 32 }
    {
        NetworkLsa { id, router }
    }
}

/// The usable network-LSAs of an area. If several have one Link State ID, the one with the greatest
/// Advertising Router describes the network.
pub(crate) struct NetworkLsas {
    lsas: BTreeSet<NetworkLsa>,
}

// proof: a value is dropped by one call, not part by part at each exit of a function.
impl Drop for NetworkLsas {
    fn drop(self) {
        let NetworkLsas { lsas: _lsas } = self;
    }
}

impl Model for NetworkLsas {
    ghost use Rattle.std.specs.Prelude.{List, ℕ, ◌<◌, ◌^◌, map};
    ghost use Rattle.std.specs.List.{All};

    ghost Value = { List (ℕ × ℕ) };

    ghost view = { λ n. map (λ l. (l.id, l.router)) n.lsas.keys };

    ghost invariant = { λ n. All (λ l. l.router < 2 ^ 32) n.lsas.keys };
}

impl NetworkLsas {
    pub(crate) fn new(alloc: Global) -> NetworkLsas
        ensures { (id router : ℕ) → Contains result (id, router) → ⊥ }
    {
        NetworkLsas {
            lsas: BTreeSet::new(alloc),
        }
    }

    /// Returns the greatest Advertising Router of the usable network-LSAs with this Link State ID.
    pub(crate) fn greatest(&self, id: u32) -> Option<u32>
        ensures some { IfSome result (IsGreatestRouter self.now id) }
        ensures none { IfNone result ((router : ℕ) → Contains self.now (id, router) → ⊥) }
    {
        let first = NetworkLsa { id, router: 0 };
        let last = NetworkLsa {
            id,
            router: u32::MAX,
        };
        let greatest = self.lsas.range(first..=last).next_back()?;
        Some(greatest.router)
    }

    /// Updates the index with the present LSAs under the keys.
    pub(crate) fn follow(&mut self, database: &Database, keys: &[Key]) -> Result<(), Memory>
        requires { AreNetworksBut database.now.lsas keys.now self.old }
        ensures { OnOk result (AreNetworksOf database.now.lsas self.new) }
    {
        for key in keys {
            self.follow_key(database, *key)?;
        }
        Ok(())
    }

    // Updates the index with the present LSA under the key.
    fn follow_key(&mut self, database: &Database, key: Key) -> Result<(), Memory>
        ensures own { OnOk result (FollowsKey database.now.lsas key self.new) }
        ensures others { OnOk result (KeepsOtherNetworks key self.old self.new) }
    {
        if key.kind != NETWORK_LSA {
            return Ok(());
        }
        let lsa = NetworkLsa::of(key.id, key.router);
        if is_usable(database, key) {
            self.lsas.insert(lsa)?;
        } else {
            self.lsas.remove(&lsa);
        }
        Ok(())
    }
}
