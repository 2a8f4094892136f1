//! A range with the only network of a small area.
use crate::backbone::{inside, install};
use active_ranges::{ActiveRanges, RangeMember};
use intra::Intra;
use lsdb::Database;
use ospf_types::config::{AreaConfig, Areas, Range, Ranges};
use ospf_types::key::Dest;
use ospf_types::prefix::Prefix;
use std::alloc::Global;
use std::hash::RandomState;
use std::test::Fail;

// The router-LSA of the root, 10.0.0.1: a stub link to 192.0.2.0/24 at metric 10 (RFC 2328, A.4.2).
const LSA: [u8; 36] = [
    0, 1, 2, 1, 10, 0, 0, 1, 10, 0, 0, 1, 128, 0, 0, 1, 233, 134, 0, 36, 0, 0, 0, 1, 192, 0, 2, 0,
    255, 255, 255, 0, 3, 0, 0, 10,
];

// The address of interface 1, on that network.
const ADDRESS: u32 = 0xc000_0201;

// Returns the routes of the root, with interface 1 up.
fn routes(alloc: Global, hashing: RandomState) -> Result<Intra, Fail> {
    let mut database = Database::new(alloc, 3, hashing);
    install(alloc, &mut database, &LSA)?;
    inside(alloc, hashing, &database, ADDRESS, 0)
}

// Returns the backbone with one range.
fn configured(alloc: Global, prefix: Prefix) -> Result<Areas, Fail> {
    let advertise = true;
    let ranges = Ranges::from_slice(alloc, &[Range { prefix, advertise }])?;
    let mut areas = Areas::new(alloc);
    areas.push(AreaConfig {
        id: 0,
        stub: None,
        ranges,
    })?;
    Ok(areas)
}

// Returns true if only this range is active, and an update of its network changes nothing.
fn is_active(alloc: Global, range: Prefix, intra: &Intra) -> Result<bool, Fail> {
    let areas = configured(alloc, range)?;
    let areas = areas.as_slice();
    let mut active = ActiveRanges::build(alloc, areas, intra)?;
    let prefixes = active.prefixes(alloc)?;
    let network = Prefix::from_mask(ADDRESS, 0xffff_ff00);
    let turned = active.update(alloc, areas, intra, &[Dest::Net(network)])?;
    let same = prefixes.as_slice() == [range].as_slice() && turned.is_empty();
    Ok(same && active.contains(range) && !active.spent())
}

#[test]
fn a_range_with_a_network_is_active(rt: HostRuntime) -> Result<(), Fail> {
    let alloc = rt.alloc();
    let intra = routes(alloc, RandomState::new(&rt)?)?;
    let range = Prefix::from_mask(ADDRESS, 0xffff_0000);
    assert!(rt; is_active(alloc, range, &intra)?);
    Ok(())
}

// Returns true if a range that is set again covers only its network, and is still active.
fn is_reconfigured(alloc: Global, range: Prefix, intra: &Intra) -> Result<bool, Fail> {
    let areas = configured(alloc, range)?;
    let areas = areas.as_slice();
    let mut active = ActiveRanges::build(alloc, areas, intra)?;
    let members = active.reconfigure(alloc, areas, intra, (0, range))?;
    let network = Prefix::from_mask(ADDRESS, 0xffff_ff00);
    let area = 0;
    let wanted = RangeMember {
        range,
        area,
        network,
    };
    Ok(members.as_slice() == [wanted].as_slice() && active.contains(range))
}

#[test]
fn a_range_has_the_networks_that_it_covers(rt: HostRuntime) -> Result<(), Fail> {
    let alloc = rt.alloc();
    let intra = routes(alloc, RandomState::new(&rt)?)?;
    let range = Prefix::from_mask(ADDRESS, 0xffff_0000);
    assert!(rt; is_reconfigured(alloc, range, &intra)?);
    Ok(())
}
