//! The databases of the areas and, after them, the database of the AS: changes to the database at
//! an index.
ghost use Rattle.std.specs.Prelude.{◌≡◌, ◌↔◌, ◌<◌, None, false, OnOk, OnErr, IfOk, All, length};
ghost use Rattle.std.specs.Prelude.{map as list_map};
ghost use Rattle.std.specs.FinMap as map;
ghost use Rattle.lsa_codec.specs.Spelling.{IsLegal};
ghost use Rattle.lsdb.specs.Databases.{aged_out};
ghost use Rattle.lsdb.specs.Contents.{NoneComes};
ghost use Rattle.event_state.specs.BaseFaults.{base_fault_of};
ghost use Rattle.event_state.specs.Changes.{CanBePurgedAt, FitsAt, IsChange, PutsLsa, TellsAgedAt};
ghost use Rattle.event_state.specs.Changes.{TellsPutAt, aged_value, empty_values};
ghost use Rattle.event_state.specs.Held.{AreFilled};

use crate::base::Base;
use crate::limits::Limits;
use crate::scopes::place_of;
use lsa_codec::Checked;
use lsdb::{Database, NoLsa, PurgeRefusal};
use ospf_types::key::Key;
use ospf_types::memory::Memory;
use std::alloc::Global;

// Installs the LSA in the database at the index. Returns true if this changes what calculations
// use.
pub(crate) fn put_at(databases: &mut [Database], place: usize, lsa: Checked) -> Result<bool, Memory>
    requires within { place < length databases.old }
    requires fits { FitsAt databases.old place lsa }
    ensures unchanged { OnErr result (databases.new ≡ databases.old) }
    ensures done { OnOk result (PutsLsa databases.old databases.new place lsa) }
    ensures changed { IfOk result (TellsPutAt databases.old place lsa) }
    ensures legal { IsLegal lsa }
{
    let database = &mut databases[place];
    database.put(lsa)
}

// Installs copies of the base's LSAs in the empty databases of its scopes.
pub(crate) fn put_all(
    alloc: Global,
    databases: &mut [Database],
    base: &Base,
    limits: Limits,
) -> Result<(), Memory>
    requires sound { base_fault_of limits base.now ≡ None }
    requires empty { databases.old ≡ empty_values base.now.config.areas limits }
    ensures filled { OnOk result (AreFilled base.now.config limits base.now.lsas databases.new) }
{
    let areas = base.config.areas.as_slice();
    for (scope, lsa) in base.lsas.as_slice() {
        if let Some(place) = place_of(areas, *scope) {
            put_at(databases, place, lsa.copy(alloc)?)?;
        }
    }
    Ok(())
}

// Sets the age of the LSA with this key to MaxAge, in the database at the index. Returns true if
// the LSA was usable before.
pub(crate) fn age_out_at(databases: &mut [Database], place: usize, key: Key) -> bool
    requires { place < length databases.old }
    ensures done { IsChange databases.old databases.new place (λ d. aged_out d key) }
    ensures changed { TellsAgedAt databases.old place key result }
{
    let database = &mut databases[place];
    match database.age_out(key) {
        Ok(changed) => changed,
        Err(NoLsa) => false,
    }
}

// Removes the LSA with this key, which is at MaxAge, from the database at the index.
pub(crate) fn purge_at(databases: &mut [Database], place: usize, key: Key)
    requires within { place < length databases.old }
    requires allowed { CanBePurgedAt databases.old place key }
    ensures { IsChange databases.old databases.new place (λ d. map.remove d key) }
{
    let database = &mut databases[place];
    match database.purge(key) {
        Ok(()) => {}
        Err(PurgeRefusal::NoLsa | PurgeRefusal::NotMaxAge) => unreachable!(),
    }
}

// Ages the LSAs of all databases by one second. Returns true if an LSA reached MaxAge.
pub(crate) fn age_all(databases: &mut [Database]) -> bool
    ensures done { databases.new ≡ list_map aged_value databases.old }
    ensures changed { (result ≡ false) ↔ All (λ d. NoneComes d.lsas) databases.old }
{
    let mut changed = false;
    for database in databases.iter_mut() {
        changed |= database.second() > 0;
    }
    changed
}
