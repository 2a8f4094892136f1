//! The backbone of a small network, and its intra-area routes (RFC 2328, 16.1).
ghost use Rattle.std.specs.Prelude.{◌≡◌, OnOk};

use area_trees::AreaTree;
use intra::{AreaInputs, Intra, IntraInputs};
use lsdb::Database;
use ospf_types::config::Interface;
use std::alloc::Global;
use std::collections::BTreeMap;
use std::hash::RandomState;
use std::test::Fail;
use vertex_graph::Up;

pub(crate) const ROOT: u32 = 0x0a00_0001;

pub(crate) fn install(alloc: Global, database: &mut Database, bytes: &[u8]) -> Result<(), Fail>
    ensures { OnOk result (database.new.limit ≡ database.old.limit) }
{
    let lsa = lsa_codec::read(alloc, bytes)?;
    database.install(lsa).ok().ok_or("installed")?;
    Ok(())
}

/// Returns the intra-area routes of the root, with interface 1 up at the address (in host order).
pub(crate) fn inside(
    alloc: Global,
    hashing: RandomState,
    database: &Database,
    address: u32,
    peer: u32,
) -> Result<Intra, Fail>
    requires { database.now.limit ≡ 3 }
{
    let ups = [Up { id: 1, address }];
    let (tree, _) = AreaTree::build(alloc, ROOT, database, &ups, hashing)?;
    let areas = [AreaInputs {
        id: 0,
        database,
        tree: &tree,
    }];
    let interface = Interface {
        area: 0,
        address,
        peer,
        up: true,
    };
    let mut held = BTreeMap::new(alloc);
    held.insert(1, interface)?;
    let interfaces = held.iter();
    let inputs = IntraInputs {
        root: ROOT,
        areas: &areas,
        interfaces,
    };
    Ok(Intra::build(alloc, &inputs, hashing)?)
}
