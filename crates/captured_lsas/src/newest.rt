//! The newest instance of each LSA that was recorded.

ghost use Rattle.std.specs.Prelude.{◌≡◌, [], IfOk, OnOk, OnErr, option_copied};
ghost use Rattle.indexmap.specs.IndexMap.{insert_entry};
ghost use Rattle.captured_lsas.specs.Newest.{same_name, newest_of};
ghost use Rattle.captured_lsas.specs.Newest.{is_discarded as is_discarded_test};
ghost use Rattle.captured_lsas.specs.Newest.{is_installed as is_installed_test};
ghost use Rattle.captured_lsas.specs.Newest.{is_max_age as is_max_age_test, is_old, with_instance};

use crate::name::LsaName;
use indexmap::IndexMap;
use lsa_order::newer;
use ospf_types::lsa::{Header, MAX_AGE, Newer};
use ospf_types::memory::Memory;
use std::alloc::Global;
use std::hash::RandomState;
use std::marker::Model;

/// The header of the newest instance of each LSA, in about sixty bytes for an LSA.
#[derive(Drop)]
pub(crate) struct NewestLsas {
    headers: IndexMap<LsaName, Header, RandomState>,
}

/// Contracts see the instances, in the order of the first instance of each LSA.
impl Model for NewestLsas {
    ghost use Rattle.captured_lsas.specs.Newest.{Newest};

    ghost Value = { Newest };

    ghost view = { λ n. n.headers.entries };
}

impl NewestLsas {
    /// Creates an empty list of instances.
    pub(crate) fn new(alloc: Global, hashing: RandomState) -> NewestLsas
        ensures { result ≡ [] }
    {
        NewestLsas {
            headers: IndexMap::with_hasher(alloc, hashing),
        }
    }

    /// Notes an instance, unless a router would discard it. Returns true if it would.
    pub(crate) fn note(&mut self, name: LsaName, header: Header) -> Result<bool, Memory>
        ensures answer { IfOk result (λ b.
            b ≡ is_old (record { name = name; header = header }) self.old) }
        ensures noted { OnOk result
            (self.new ≡ with_instance (record { name = name; header = header }) self.old) }
        ensures unchanged { OnErr result (self.new ≡ self.old) }
    {
        if is_discarded(&header, self.last(&name)) {
            return Ok(true);
        }
        self.headers.insert(name, header)?;
        Ok(false)
    }

    // Returns the newest instance of the LSA.
    fn last(&self, name: &LsaName) -> Option<Header>
        ensures { result ≡ newest_of name.now self.now }
    {
        self.headers.get(name).copied()
    }
}

// Returns true if a router that has the `last` instance discards the `new` one (RFC 2328, 13).
fn is_discarded(new: &Header, last: Option<Header>) -> bool
    ensures { result ≡ is_discarded_test new.now last }
{
    match last {
        Some(last) => !is_installed(new, &last),
        None => false,
    }
}

// Returns true if a router that has the `last` instance installs the `new` one (RFC 2328, 13).
fn is_installed(new: &Header, last: &Header) -> bool
    ensures { result ≡ is_installed_test new.now last.now }
{
    // 13 (5): if the last instance was flushed, there is no database copy.
    if is_max_age(last) && !is_max_age(new) {
        return true;
    }
    // 13 (5), (7), (8): a newer instance is installed, and any other is discarded.
    matches!(newer(new, last), Newer::First)
}

/// Returns true if the instance is at MaxAge.
pub(crate) fn is_max_age(header: &Header) -> bool
    ensures { result ≡ is_max_age_test header.now }
{
    header.age == MAX_AGE
}
