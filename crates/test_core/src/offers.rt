//! The destinations that a summary-LSA and an AS-external-LSA advertise, and how they are found.
ghost use Rattle.std.specs.Prelude.{◌≡◌, IfOk};
ghost use Rattle.std.specs.FinMap as map;
ghost use Rattle.ospf_types.specs.Lsa.{key_of};

use advertised_index::{AdvertisedIndex, AffectedDests, IndexKey, ScopeDatabase};
use lsa_codec::Checked;
use lsdb::Database;
use ospf_types::key::{Dest, Key, Scope};
use ospf_types::memory::Memory;
use ospf_types::prefix::Prefix;
use std::alloc::Global;
use std::hash::RandomState;
use std::test::Fail;

// A summary-LSA of 0.0.0.7 for 10.0.0.0/8, at metric 5.
const SUMMARY: [u8; 28] = [
    0, 1, 2, 3, 10, 0, 0, 0, 0, 0, 0, 7, 128, 0, 0, 1, 240, 86, 0, 28, 255, 0, 0, 0, 0, 0, 0, 5,
];

// An AS-external-LSA for the same network, of type 2 at metric 20, with the forwarding address
// 192.0.2.1.
const EXTERNAL: [u8; 36] = [
    0, 1, 2, 5, 10, 0, 0, 0, 0, 0, 0, 7, 128, 0, 0, 1, 111, 122, 0, 36, 255, 0, 0, 0, 128, 0, 0,
    20, 192, 0, 2, 1, 0, 0, 0, 0,
];

const AREA: Scope = Scope::Area(0);

const GATEWAY: u32 = 0xc000_0201;

// Returns a database with only this LSA.
fn database_of(rt: &HostRuntime, lsa: Checked) -> Result<Database, Fail>
    ensures { IfOk result (λ d. d.lsas ≡ map.insert map.empty (key_of lsa) lsa) }
{
    let mut database = Database::new(rt.alloc(), 1, RandomState::new(rt)?);
    database.install(lsa).ok().ok_or("installed")?;
    Ok(database)
}

// Returns the index of the summary-LSA.
fn summary(rt: &HostRuntime, affected: &mut AffectedDests) -> Result<AdvertisedIndex, Fail> {
    let lsa = lsa_codec::read(rt.alloc(), &SUMMARY)?;
    let key = lsa.key();
    let database = database_of(rt, lsa)?;
    let mut index = AdvertisedIndex::new(rt.alloc(), RandomState::new(rt)?);
    let from = ScopeDatabase {
        root: 1,
        scope: AREA,
        database: &database,
    };
    index.follow(from, &[(AREA, key)], affected)?;
    Ok(index)
}

// Returns the index of the AS-external-LSA.
fn external(rt: &HostRuntime, affected: &mut AffectedDests) -> Result<AdvertisedIndex, Fail> {
    let lsa = lsa_codec::read(rt.alloc(), &EXTERNAL)?;
    let database = database_of(rt, lsa)?;
    let mut index = AdvertisedIndex::new(rt.alloc(), RandomState::new(rt)?);
    let from = ScopeDatabase {
        root: 1,
        scope: Scope::As,
        database: &database,
    };
    index.follow_all(from, affected)?;
    Ok(index)
}

fn leads_to(
    index: &AdvertisedIndex,
    alloc: Global,
    group: IndexKey,
    dest: Dest,
) -> Result<bool, Memory> {
    let mut dests = Vec::new(alloc);
    index.list_dests(group, &mut dests)?;
    Ok(dests.as_slice() == [dest].as_slice())
}

fn has_key(
    index: &AdvertisedIndex,
    alloc: Global,
    group: IndexKey,
    key: Key,
) -> Result<bool, Memory> {
    let mut keys = Vec::new(alloc);
    index.list_keys(group, &mut keys)?;
    Ok(keys.as_slice() == [key].as_slice())
}

// Returns true if the gateway is the only forwarding address in the network.
fn forwards_into(index: &AdvertisedIndex, alloc: Global, network: Prefix) -> Result<bool, Memory> {
    let mut addresses = Vec::new(alloc);
    index.list_addresses(network, &mut addresses)?;
    Ok(addresses.as_slice() == [GATEWAY].as_slice())
}

fn network(address: u32, length: u8) -> Result<Prefix, Fail> {
    Ok(Prefix::new(address, length).ok_or("a prefix")?)
}

#[test]
fn a_summary_leads_to_its_network(rt: HostRuntime) -> Result<(), Fail> {
    let mut affected = AffectedDests::none(rt.alloc());
    let index = summary(&rt, &mut affected)?;
    let dest = Dest::Net(network(0x0a00_0000, 8)?);
    let found = leads_to(&index, rt.alloc(), IndexKey::By(7), dest)?;
    assert!(rt; found && affected.dests.as_slice() == [dest].as_slice());
    Ok(())
}

#[test]
fn an_external_is_found_by_its_forwarding_address(rt: HostRuntime) -> Result<(), Fail> {
    let mut affected = AffectedDests::none(rt.alloc());
    let mut index = external(&rt, &mut affected)?;
    let key = Key {
        kind: 5,
        id: 0x0a00_0000,
        router: 7,
    };
    let found = has_key(&index, rt.alloc(), IndexKey::Forwarded(GATEWAY), key)?;
    let inside = forwards_into(&index, rt.alloc(), network(GATEWAY, 24)?)?;
    let there = index.has_address(GATEWAY);
    index.clear(&mut affected)?;
    assert!(rt; found && inside && there && !index.has_address(GATEWAY));
    Ok(())
}
