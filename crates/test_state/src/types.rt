//! The basic types: their printed texts, their orders, and a copy of a configuration.
use ospf_types::address::Address;
use ospf_types::config::{AreaConfig, Areas, Config, Range, Ranges, Stub};
use ospf_types::entry::{Entry, PathType, Paths};
use ospf_types::hop::{NextHop, Path};
use ospf_types::key::{Key, Scope};
use ospf_types::listed::Listed;
use ospf_types::memory::Memory;
use ospf_types::prefix::Prefix;
use smallvec::SmallVec;
use std::alloc::{AllocError, Global};
use std::cmp::Ordering;
use std::test::Fail;

// Returns true if the address prints as the text, and the text parses as the address.
fn is_spelled(alloc: Global, address: u32, text: &str) -> Result<bool, AllocError> {
    let printed = format!(in alloc; "{}", Address(address))?;
    Ok(printed.as_str() == text && Address::parse(text) == Some(Address(address)))
}

#[test]
fn spells_addresses(rt: HostRuntime) -> Result<(), Fail> {
    let least = is_spelled(rt.alloc(), 0, "0.0.0.0")?;
    let some = is_spelled(rt.alloc(), 0xc633_6401, "198.51.100.1")?;
    let greatest = is_spelled(rt.alloc(), 0xffff_ffff, "255.255.255.255")?;
    assert!(rt; least && some && greatest);
    Ok(())
}

#[test]
fn parses_no_other_text(rt: HostRuntime) {
    for text in ["", "1.2.3", "1.2.3.256", "1.2.3.04", " 1.2.3.4", "+1.2.3.4"] {
        assert!(rt; Address::parse(text).is_none(), "at {text}");
    }
}

fn entry(alloc: Global, hop: NextHop, advertiser: Option<u32>) -> Result<Entry, Memory> {
    let path = Path { hop, advertiser };
    Ok(Entry {
        kind: PathType::External2,
        area: None,
        cost: 20,
        cost2: 5,
        paths: Paths::new(SmallVec::from_slice(alloc, &[path])?),
    })
}

#[test]
fn prints_entries(rt: HostRuntime) -> Result<(), Fail> {
    let direct = entry(rt.alloc(), NextHop::Direct(1), None)?;
    let router = entry(
        rt.alloc(),
        NextHop::Router(2, 0xc000_0202),
        Some(0x0a00_0003),
    )?;
    let printed = format!(in rt.alloc(); "{direct}; {router}")?;
    assert!(rt;
        printed.as_str() == "ext2 - 20 5 direct:1; ext2 - 20 5 router:2:192.0.2.2@10.0.0.3"
    );
    Ok(())
}

#[test]
fn masks_an_address(rt: HostRuntime) -> Result<(), Fail> {
    let prefix = Prefix::from_mask(0xc000_024d, 0xffff_ff00);
    let printed = format!(in rt.alloc(); "{prefix}")?;
    assert!(rt; printed.as_str() == "192.0.2.0/24" && Prefix::new(0xc000_0200, 24) == Some(prefix));
    Ok(())
}

fn key(kind: u8, id: u32) -> Key {
    Key {
        kind,
        id,
        router: 7,
    }
}

#[test]
fn compares(rt: HostRuntime) {
    let keys = key(1, 9).compare(key(2, 3));
    let scopes = Scope::Area(9).compare(Scope::As);
    let networks = Prefix::from_mask(9, 0).compare(Prefix::from_mask(9, 0xffff_ffff));
    assert!(rt; keys == Ordering::Less && scopes == Ordering::Less && networks == Ordering::Less);
}

fn ranges(alloc: Global, area: u32) -> Result<Ranges, Memory> {
    let mut ranges = Ranges::new(alloc);
    for i in 0..32 {
        ranges.push(Range {
            prefix: Prefix::from_mask((area << 24) | (i << 16), 0xffff_0000),
            advertise: i % 3 == 0,
        })?;
    }
    Ok(ranges)
}

// Returns 16 areas with 32 ranges each.
fn areas(alloc: Global) -> Result<Areas, Memory> {
    let mut areas = Areas::new(alloc);
    for id in 0..16 {
        areas.push(AreaConfig {
            id,
            stub: (id % 2 == 1).then_some(Stub {
                cost: id,
                summaries: id % 4 == 1,
            }),
            ranges: ranges(alloc, id)?,
        })?;
    }
    Ok(areas)
}

fn is_same_area(x: &AreaConfig, y: &AreaConfig) -> bool {
    x.id == y.id && x.stub == y.stub && x.ranges.as_slice() == y.ranges.as_slice()
}

fn are_same(xs: &[AreaConfig], ys: &[AreaConfig]) -> bool {
    xs.len() == ys.len() && xs.iter().zip(ys).all(|(x, y)| is_same_area(x, y))
}

#[test]
fn copies_a_large_configuration(rt: HostRuntime) -> Result<(), Fail> {
    let config = Config {
        router: 0x0a00_0001,
        compat: true,
        areas: areas(rt.alloc())?,
    };
    let copy = config.copy(rt.alloc())?;
    assert!(rt;
        copy.router == config.router
            && copy.compat
            && copy.areas.len() == 16
            && are_same(copy.areas.as_slice(), config.areas.as_slice())
    );
    Ok(())
}

// Returns true if an item is inserted, replaced and removed at its index.
fn changes_at_places(alloc: Global) -> Result<bool, Memory> {
    let mut ids = Listed::from_slice(alloc, &[1, 3])?;
    ids.insert(1, 2)?;
    ids.set(0, 4);
    let whole = ids.as_slice() == [4, 2, 3].as_slice();
    Ok(whole && ids.remove(1) == 2 && ids.as_slice() == [4, 3].as_slice())
}

#[test]
fn a_list_changes_at_places(rt: HostRuntime) -> Result<(), Fail> {
    assert!(rt; changes_at_places(rt.alloc())?);
    Ok(())
}
