//! A summary-LSA of a border router that is the root's only neighbour.
ghost use Rattle.std.specs.Prelude.{◌≡◌, IfOk};

use crate::backbone::{ROOT, inside, install};
use active_ranges::ActiveRanges;
use inter::{ExaminedArea, Inter, InterInputs};
use intra::Dirty;
use lsdb::Database;
use ospf_types::key::Dest;
use ospf_types::prefix::Prefix;
use std::alloc::Global;
use std::hash::RandomState;
use std::test::Fail;

// The router-LSA of the root, 10.0.0.1: a point-to-point link to 10.0.0.2 at metric 5 (RFC 2328,
// A.4.2).
const OF_ROOT: [u8; 36] = [
    0, 1, 2, 1, 10, 0, 0, 1, 10, 0, 0, 1, 128, 0, 0, 1, 140, 66, 0, 36, 0, 0, 0, 1, 10, 0, 0, 2,
    198, 51, 100, 1, 1, 0, 0, 5,
];

// The router-LSA of 10.0.0.2, an area border router, with the link back.
const OF_BORDER: [u8; 36] = [
    0, 1, 2, 1, 10, 0, 0, 2, 10, 0, 0, 2, 128, 0, 0, 1, 131, 72, 0, 36, 1, 0, 0, 1, 10, 0, 0, 1,
    198, 51, 100, 2, 1, 0, 0, 5,
];

// The border router's summary-LSA for 10.1.0.0/16 at metric 10 (A.4.4).
const SUMMARY: [u8; 28] = [
    0, 1, 2, 3, 10, 1, 0, 0, 10, 0, 0, 2, 128, 0, 0, 1, 218, 97, 0, 28, 255, 255, 0, 0, 0, 0, 0, 10,
];

// The addresses at the two ends of the link.
const ADDRESS: u32 = 0xc633_6401;

const PEER: u32 = 0xc633_6402;

// Returns the backbone's database.
fn backbone(alloc: Global, hashing: RandomState) -> Result<Database, Fail>
    ensures { IfOk result (λ d. d.limit ≡ 3) }
{
    let mut database = Database::new(alloc, 3, hashing);
    install(alloc, &mut database, &OF_ROOT)?;
    install(alloc, &mut database, &OF_BORDER)?;
    install(alloc, &mut database, &SUMMARY)?;
    Ok(database)
}

// Returns 10.1.0.0/16.
fn network() -> Dest {
    Dest::Net(Prefix::from_mask(0x0a01_0000, 0xffff_0000))
}

// Returns the change set that contains only the network.
fn naming(alloc: Global) -> Result<Dirty, Fail> {
    let dests = Vec::from_slice(alloc, &[network()])?;
    Ok(Dirty {
        vertices: Vec::new(alloc),
        keys: Vec::new(alloc),
        interfaces: Vec::new(alloc),
        dests,
    })
}

// Returns true if only the network is reached, at cost 15 over one path, and an update of it
// changes nothing.
fn is_reached(alloc: Global, hashing: RandomState, inputs: &InterInputs<'_>) -> Result<bool, Fail> {
    let mut inter = Inter::build(alloc, inputs, hashing)?;
    let dests = inter.dests(alloc)?;
    let told = inter.update(alloc, inputs, &naming(alloc)?)?;
    let Some(entry) = inter.get(network()) else {
        return Ok(false);
    };
    let same = dests.as_slice() == [network()].as_slice() && told.is_empty();
    Ok(same && entry.cost == 15 && entry.paths.len() == 1 && !inter.spent())
}

#[test]
fn a_summary_leads_through_its_border_router(rt: HostRuntime) -> Result<(), Fail> {
    let alloc = rt.alloc();
    let hashing = RandomState::new(&rt)?;
    let database = backbone(alloc, hashing)?;
    let intra = inside(alloc, hashing, &database, ADDRESS, PEER)?;
    let active = ActiveRanges::build(alloc, &[], &intra)?;
    let examined = Some(ExaminedArea {
        area: 0,
        database: &database,
    });
    let inputs = InterInputs {
        root: ROOT,
        examined,
        intra: &intra,
        active: &active,
    };
    assert!(rt; is_reached(alloc, hashing, &inputs)?);
    Ok(())
}
