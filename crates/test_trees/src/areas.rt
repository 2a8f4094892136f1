//! The tree of a small area, built and updated (RFC 2328, 16.1).
ghost use Rattle.std.specs.Prelude.{◌≡◌, ℕ, List, OnOk};
ghost use Rattle.vertex_graph.specs.Up.{Up as UpValue};
ghost use Rattle.area_trees.specs.Areas.{IsAreaTree, IsTreeOfSome};

use crate::network::{network, router};
use crate::paths::leads;
use area_trees::AreaTree;
use lsa_codec::Checked;
use lsdb::Database;
use ospf_types::entry::Vertex;
use ospf_types::hop::NextHop;
use ospf_types::key::Key;
use std::alloc::Global;
use std::hash::RandomState;
use std::test::Fail;
use vertex_graph::Up;

// A broadcast network, by the address of its Designated Router.
const LAN: u32 = 0xc000_0202;

const N: Vertex = Vertex::Network(LAN);

const LEAF: Vertex = Vertex::Router(2);

const UPS: [Up; 1] = [Up { id: 1, address: 1 }];

const GREATEST: Key = Key {
    kind: 2,
    id: LAN,
    router: 3,
};

// Installs LSAs of the root, of a leaf and of the network. The network has two network-LSAs. The
// LSA of the router with the greater ID does not list the leaf.
fn fill(alloc: Global, database: &mut Database) -> Result<(), Fail>
    ensures { OnOk result (database.new.limit ≡ database.old.limit) }
{
    install_router(alloc, database, 1)?;
    install_router(alloc, database, 2)?;
    install_network(alloc, database, 2)?;
    install_network(alloc, database, 3)
}

// Installs the LSA of a router on the network, at metric 10.
fn install_router(alloc: Global, database: &mut Database, id: u32) -> Result<(), Fail>
    ensures { OnOk result (database.new.limit ≡ database.old.limit) }
{
    install(database, router(alloc, id, &[(N, id, 10)])?)
}

// Installs the network-LSA of the router `by`, which lists this router and the root.
fn install_network(alloc: Global, database: &mut Database, by: u32) -> Result<(), Fail>
    ensures { OnOk result (database.new.limit ≡ database.old.limit) }
{
    install(database, network(alloc, LAN, &[by, 1])?)
}

fn install(database: &mut Database, lsa: Checked) -> Result<(), Fail>
    ensures { OnOk result (database.new.limit ≡ database.old.limit) }
{
    database.install(lsa).ok().ok_or("installed")?;
    Ok(())
}

// Returns the Advertising Router of the LSA.
fn maker(lsa: Option<&Checked>) -> Option<u32> {
    Some(lsa?.key().router)
}

// Returns true if the network-LSA of router 3 is used for the network, and the leaf is not reached.
fn stands(tree: &AreaTree, database: &Database) -> bool
    requires { (root : ℕ) × (ups : List UpValue) × IsAreaTree root database.now.lsas ups tree.now }
{
    maker(tree.lsa_for_vertex(database, N)) == Some(3) && tree.distance(LEAF).is_none()
}

// Flushes the network-LSA of router 3, and updates the tree.
fn lose(alloc: Global, tree: &mut AreaTree, database: &mut Database) -> Result<(), Fail>
    requires limit { database.old.limit ≡ 8 }
    requires tree { (root : ℕ) × (ups : List UpValue) × IsAreaTree root database.old.lsas ups tree.old }
    ensures { OnOk result ((root : ℕ) × (ups : List UpValue) × IsAreaTree root database.new.lsas ups tree.new) }
{
    database.age_out(GREATEST).ok().ok_or("there")?;
    tree.follow(alloc, database, &[GREATEST])?;
    Ok(())
}

// Returns true if the leaf is reached at cost 10 over one next hop.
fn reaches(tree: &AreaTree) -> bool {
    tree.distance(LEAF) == Some(10) && tree.hops(LEAF).len() == 1
}

// Returns true if the path leads to the network, and from there to the leaf.
fn leads_over(alloc: Global, tree: &AreaTree) -> Result<bool, Fail>
    requires { IsTreeOfSome tree.now }
{
    let links = tree.links_of_path(alloc, LEAF, NextHop::Router(1, 2))?;
    Ok(leads(&links, &[(N, 10), (LEAF, 0)]))
}

// Returns true if first one network-LSA is used and then the other, and the loss of the interface
// changes the leaf and the network.
fn follows(alloc: Global, tree: &mut AreaTree, database: &mut Database) -> Result<bool, Fail>
    requires limit { database.old.limit ≡ 8 }
    requires tree { (root : ℕ) × (ups : List UpValue) × IsAreaTree root database.old.lsas ups tree.old }
{
    let greatest = stands(tree, database);
    lose(alloc, tree, database)?;
    let reached = reaches(tree) && leads_over(alloc, tree)?;
    tree.interfaces(alloc, &[])?;
    Ok(greatest && reached && tree.changed() == [LEAF, N].as_slice())
}

// Returns true if a tree that is built from the database follows its changes.
fn is_followed(rt: &HostRuntime, database: &mut Database) -> Result<bool, Fail>
    requires { database.old.limit ≡ 8 }
{
    let (alloc, hashing) = (rt.alloc(), RandomState::new(rt)?);
    fill(alloc, database)?;
    let (mut tree, _) = AreaTree::build(alloc, 1, database, &UPS, hashing)?;
    follows(alloc, &mut tree, database)
}

// After the greater of two network-LSAs is flushed, the other is used for the network. The leaf is
// then reached, as long as there is an interface.
#[test]
fn the_greatest_network_lsa_stands(rt: HostRuntime) -> Result<(), Fail> {
    let hashing = RandomState::new(&rt)?;
    let mut database = Database::new(rt.alloc(), 8, hashing);
    assert!(rt; is_followed(&rt, &mut database)?);
    Ok(())
}
