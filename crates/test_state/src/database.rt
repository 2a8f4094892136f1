//! A link-state database in which LSAs are installed, age and are purged (RFC 2328, 12 to 14).
use crate::bytes::{STUB, put, seal};
use lsa_codec::{Checked, read};
use lsdb::{Database, InstallRefusal, NoLsa, PurgeRefusal};
use ospf_types::key::Key;
use std::alloc::Global;
use std::hash::RandomState;
use std::test::*;

const FIRST: u32 = 0x8000_0001;

// Returns the stub's LSA of another router, with this age, sequence number and metric below 256.
fn lsa(alloc: Global, router: u32, age: u16, seq: u32, metric: u8) -> Result<Checked, Fail> {
    let mut bytes = Vec::from_slice(alloc, &STUB)?;
    put(&mut bytes, 0, &age.to_be_bytes())?;
    put(&mut bytes, 4, &router.to_be_bytes())?;
    put(&mut bytes, 8, &router.to_be_bytes())?;
    put(&mut bytes, 12, &seq.to_be_bytes())?;
    put(&mut bytes, 35, &[metric])?;
    seal(&mut bytes)?;
    let lsa = read(alloc, &bytes)?;
    Ok(lsa)
}

fn key(router: u32) -> Key {
    Key {
        kind: 1,
        id: router,
        router,
    }
}

// Returns a database with an LSA of each router from 1 up, at these ages.
fn database(rt: &HostRuntime, limit: u32, ages: &[u16]) -> Result<Database, Fail> {
    let mut database = Database::new(rt.alloc(), limit, RandomState::new(rt)?);
    let mut router = 0u32;
    for age in ages {
        router = router.wrapping_add(1);
        let lsa = lsa(rt.alloc(), router, *age, FIRST, 10)?;
        database.install(lsa).ok().ok_or("installed")?;
    }
    Ok(database)
}

#[test]
fn a_purge_moves_the_last_row_of_each_column(rt: HostRuntime) -> Result<(), Fail> {
    let mut database = database(&rt, 3, &[3600, 2, 3])?;
    let purged = database.purge(key(1)).is_ok() && database.ages() == [3, 2].as_slice();
    let moved = database.key_at(0) == Some(&key(3)) && database.key_at(1) == Some(&key(2));
    assert!(rt; purged && moved && database.kinds() == [1, 1].as_slice());
    assert!(rt; database.second() == 0 && database.ages() == [4, 3].as_slice());
    Ok(())
}

#[test]
fn a_second_brings_to_max_age_once(rt: HostRuntime) -> Result<(), Fail> {
    let mut database = database(&rt, 1, &[3599])?;
    assert!(rt; database.second() == 1 && database.ages() == [3600].as_slice());
    assert!(rt; database.second() == 0 && database.ages() == [3600].as_slice());
    Ok(())
}

#[test]
fn present_ages_decide_which_is_newer(rt: HostRuntime) -> Result<(), Fail> {
    let mut database = database(&rt, 1, &[899])?;
    database.second();
    let same = database.install(lsa(rt.alloc(), 1, 0, FIRST, 10)?);
    assert!(rt; same == Err(InstallRefusal::Same));
    database.second();
    let younger = database.install(lsa(rt.alloc(), 1, 0, FIRST, 10)?);
    assert!(rt; younger == Ok(false) && database.ages() == [0].as_slice());
    Ok(())
}

#[test]
fn at_its_limit_it_takes_instances_of_what_it_has(rt: HostRuntime) -> Result<(), Fail> {
    let mut database = database(&rt, 1, &[7])?;
    let other = database.install(lsa(rt.alloc(), 2, 0, FIRST, 10)?);
    assert!(rt; other == Err(InstallRefusal::Full));
    let next = database.install(lsa(rt.alloc(), 1, 0, 0x8000_0002, 11)?);
    let last = database.install(lsa(rt.alloc(), 1, 0, FIRST, 10)?);
    assert!(rt; next == Ok(true) && last == Err(InstallRefusal::Older));
    Ok(())
}

#[test]
fn premature_ageing_and_what_is_not_there(rt: HostRuntime) -> Result<(), Fail> {
    let mut database = database(&rt, 2, &[7])?;
    let early = database.purge(key(1)) == Err(PurgeRefusal::NotMaxAge);
    assert!(rt;
        early && database.age_out(key(1)) == Ok(true) && database.age_out(key(1)) == Ok(false)
    );
    assert!(rt;
        database.age_out(key(2)) == Err(NoLsa) && database.purge(key(2)) == Err(PurgeRefusal::NoLsa)
    );
    let aged = lsa(rt.alloc(), 2, 3600, FIRST, 10)?;
    assert!(rt; database.install_refusal(&aged).is_none() && database.put(aged) == Ok(false));
    Ok(())
}

// Returns true if the keys of the LSAs ascend.
fn ascend(lsas: &[Checked]) -> bool {
    let mut last = None;
    for lsa in lsas {
        let here = Some(lsa.key());
        if last >= here {
            return false;
        }
        last = here;
    }
    true
}

// Fills the database with LSAs of the routers from 300 down to 1.
fn fill(alloc: Global, database: &mut Database) -> Result<(), Fail> {
    for router in (1..301u32).rev() {
        database
            .install(lsa(alloc, router, 5, FIRST, 10)?)
            .ok()
            .ok_or("installed")?;
    }
    Ok(())
}

// Returns true if the database lists the keys of a router and of an age, and all LSAs in order.
fn lists_all(alloc: Global, database: &Database) -> Result<bool, Fail> {
    let mut keys = Vec::new(alloc);
    database.by_router(17, &mut keys)?;
    let of_router = keys.as_slice() == [key(17)].as_slice();
    database.at_age(5, &mut keys)?;
    let lsas = database.lsas()?;
    Ok(of_router && keys.len() == 301 && lsas.len() == 300 && ascend(&lsas))
}

fn fills(rt: &HostRuntime) -> Result<bool, Fail> {
    let mut database = database(rt, 500, &[])?;
    fill(rt.alloc(), &mut database)?;
    lists_all(rt.alloc(), &database)
}

#[test]
fn some_hundred_lsas(rt: HostRuntime) -> Result<(), Fail> {
    assert!(rt; fills(&rt)?);
    Ok(())
}
