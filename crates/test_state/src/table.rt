//! The routing table: its longest matches as printed, and its changes (RFC 2328, 11.1).
ghost use Rattle.std.specs.Prelude.{◌≡◌, IfOk};
ghost use Rattle.ospf_types.specs.Masks.{masked};

use ospf_types::entry::{Entry, PathType, Paths};
use ospf_types::hop::{NextHop, Path};
use ospf_types::memory::Memory;
use ospf_types::prefix::Prefix;
use route_table::{Item, Match, NewItem, Table};
use smallvec::SmallVec;
use std::alloc::Global;
use std::hash::RandomState;
use std::test::Fail;

/// Returns a route at this cost over interface 1, or a discard if the cost is `None`.
fn item(alloc: Global, cost: Option<u32>) -> Result<Item, Memory> {
    let Some(cost) = cost else {
        return Ok(Item::Discard);
    };
    let path = Path {
        hop: NextHop::Direct(1),
        advertiser: None,
    };
    Ok(Item::Route(Entry {
        kind: PathType::Intra,
        area: Some(0),
        cost,
        cost2: 0,
        paths: Paths::new(SmallVec::from_slice(alloc, &[path])?),
    }))
}

fn network(address: u32, length: u8) -> Result<Prefix, Fail>
    ensures { IfOk result (λ p. p ≡ record { address = masked address length; length = length }) }
{
    Ok(Prefix::new(address, length).ok_or("a length up to 32")?)
}

/// Sets a network, by its address and length, to a route at this cost, or to a discard.
fn set(
    table: &mut Table,
    alloc: Global,
    address: u32,
    length: u8,
    cost: Option<u32>,
) -> Result<(), Fail> {
    Ok(table.set(network(address, length)?, item(alloc, cost)?)?)
}

fn table_of(rt: &HostRuntime, rows: &[(u32, u8, Option<u32>)]) -> Result<Table, Fail> {
    let mut table = Table::new(rt.alloc(), 4, RandomState::new(rt)?);
    for &(address, length, cost) in rows {
        set(&mut table, rt.alloc(), address, length, cost)?;
    }
    Ok(table)
}

/// Returns true if the longest match of each address prints as its text.
fn prints(table: &Table, alloc: Global, rows: &[(u32, &str)]) -> Result<bool, Fail> {
    let mut all = true;
    for &(address, text) in rows {
        let printed = format!(in alloc; "{}", table.lookup(address))?;
        all &= printed.as_str() == text;
    }
    Ok(all)
}

#[test]
fn the_longest_match_decides(rt: HostRuntime) -> Result<(), Fail> {
    let table = table_of(
        &rt,
        &[
            (0xc000_02c8, 32, Some(32)),
            (0xc000_0200, 24, Some(24)),
            (0, 0, Some(1)),
            (0xc000_0280, 25, None),
        ],
    )?;
    assert!(rt;
        prints(
            &table,
            rt.alloc(),
            &[
                (
                    0xc000_02c8,
                    "route 192.0.2.200/32 intra 0.0.0.0 32 0 direct:1"
                ),
                (0xc000_02c9, "discard 192.0.2.128/25"),
                (
                    0xc000_0201,
                    "route 192.0.2.0/24 intra 0.0.0.0 24 0 direct:1"
                ),
                (0xffff_ffff, "route 0.0.0.0/0 intra 0.0.0.0 1 0 direct:1"),
            ]
        )?
    );
    Ok(())
}

#[test]
fn a_route_under_a_discard_is_used(rt: HostRuntime) -> Result<(), Fail> {
    let rows = [(0x0a01_0000, 16, None), (0x0a01_0200, 24, Some(7))];
    let table = table_of(&rt, &rows)?;
    assert!(rt;
        prints(
            &table,
            rt.alloc(),
            &[
                (0x0a01_0203, "route 10.1.2.0/24 intra 0.0.0.0 7 0 direct:1"),
                (0x0a01_0303, "discard 10.1.0.0/16"),
                (0x0a02_0203, "none"),
            ]
        )?
    );
    Ok(())
}

/// Returns true if the table has these networks in this order, and the serial.
fn lists(table: &Table, serial: u64, networks: &[(u32, u8)]) -> bool {
    let mut left = networks.iter();
    let mut same = table.serial() == serial;
    for (network, _) in table.items() {
        same &= left.next() == Some(&(network.address(), network.length()));
    }
    same && left.next().is_none()
}

#[test]
fn items_ascend(rt: HostRuntime) -> Result<(), Fail> {
    let rows = [
        (0x0b00_0000, 8, None),
        (0x0a00_0000, 16, None),
        (0x0a00_0000, 8, Some(3)),
        (0x0a00_0000, 16, Some(4)),
    ];
    let mut table = table_of(&rt, &rows)?;
    let networks = [(0x0a00_0000, 8), (0x0a00_0000, 16), (0x0b00_0000, 8)];
    assert!(rt; lists(&table, 4, &networks));
    table.set_serial(5);
    assert!(rt; lists(&table, 5, &networks));
    Ok(())
}

/// Returns the cost of the route to the network.
fn cost_of(table: &Table, network: Prefix) -> Option<u32> {
    match table.get(network)? {
        Item::Route(entry) => Some(entry.cost),
        Item::Discard => None,
    }
}

/// Returns true if the longest match of each `10.0.N.1` has a route at cost N.
fn finds_each(table: &Table) -> bool {
    let mut all = true;
    for index in 0..200_u8 {
        let found = match table.lookup(u32::from_be_bytes([10, 0, index, 1])) {
            Match::Route(network, _) => cost_of(table, network),
            _ => None,
        };
        all &= found == Some(u32::from(index));
    }
    all
}

#[test]
fn finds_two_hundred_networks(rt: HostRuntime) -> Result<(), Fail> {
    let mut table = Table::new(rt.alloc(), 0, RandomState::new(&rt)?);
    for index in 0..200_u8 {
        let address = u32::from_be_bytes([10, 0, index, 0]);
        set(&mut table, rt.alloc(), address, 24, Some(u32::from(index)))?;
    }
    assert!(rt; finds_each(&table));
    Ok(())
}

#[test]
fn a_change_adds_replaces_and_removes(rt: HostRuntime) -> Result<(), Fail> {
    let rows = [
        (0x0a00_0000, 8, Some(1)),
        (0x0b00_0000, 8, Some(2)),
        (0x0c00_0000, 8, Some(3)),
    ];
    let mut table = table_of(&rt, &rows)?;
    let longer = NewItem::new(network(0x0a00_0000, 16)?, Some(item(rt.alloc(), Some(4))?));
    let discarded = NewItem::new(network(0x0b00_0000, 8)?, Some(item(rt.alloc(), None)?));
    let gone = NewItem::new(network(0x0c00_0000, 8)?, None);
    let changes = vec![in rt.alloc(); longer, discarded, gone]?;
    table.change(rt.alloc(), changes)?;
    assert!(rt;
        prints(
            &table,
            rt.alloc(),
            &[
                (0x0a00_0001, "route 10.0.0.0/16 intra 0.0.0.0 4 0 direct:1"),
                (0x0a01_0001, "route 10.0.0.0/8 intra 0.0.0.0 1 0 direct:1"),
                (0x0b00_0001, "discard 11.0.0.0/8"),
                (0x0c00_0001, "none"),
            ]
        )?
    );
    Ok(())
}
