//! The bytes of LSAs (RFC 2328, A.4): reading and writing them back, and the first fault of other
//! bytes.
ghost use Rattle.std.specs.Prelude.{◌≤◌};

use crate::bytes::{STUB, put, seal};
use lsa_codec::{Checked, ExternalFields, Link, LinkKind, Prefix, WireFault, read, sum_of, write};
use std::alloc::Global;
use std::test::Fail;

/// The router-LSA of 10.0.0.1 with a point-to-point link to 10.0.0.2.
const POINT_TO_POINT: [u8; 36] = [
    0, 1, 2, 1, 10, 0, 0, 1, 10, 0, 0, 1, 0x80, 0, 0, 1, 0xe6, 0xe2, 0, 0x24, 0, 0, 0, 1, 10, 0, 0,
    2, 198, 51, 100, 1, 1, 0, 0, 10,
];

/// The router-LSA of 10.0.0.2, a border router, with a point-to-point link to 10.0.0.1.
const BORDER: [u8; 36] = [
    0, 1, 2, 1, 10, 0, 0, 2, 10, 0, 0, 2, 0x80, 0, 0, 1, 0xdd, 0xe8, 0, 0x24, 1, 0, 0, 1, 10, 0, 0,
    1, 198, 51, 100, 2, 1, 0, 0, 10,
];

/// The router-LSA of 10.0.0.2 as an AS boundary router too, with the next sequence number.
const BOUNDARY: [u8; 36] = [
    0, 1, 2, 1, 10, 0, 0, 2, 10, 0, 0, 2, 0x80, 0, 0, 2, 0xe1, 0xe1, 0, 0x24, 3, 0, 0, 1, 10, 0, 0,
    1, 198, 51, 100, 2, 1, 0, 0, 10,
];

/// The network-LSA of 192.0.2.2/24 by 10.0.0.2, with 10.0.0.1 and 10.0.0.2.
const NETWORK: [u8; 32] = [
    0, 1, 2, 2, 192, 0, 2, 2, 10, 0, 0, 2, 0x80, 0, 0, 1, 0x02, 0x70, 0, 0x20, 255, 255, 255, 0,
    10, 0, 0, 1, 10, 0, 0, 2,
];

/// The summary-LSA of 10.0.0.2 for 10.1.0.0/16.
const SUMMARY: [u8; 28] = [
    0, 1, 2, 3, 10, 1, 0, 0, 10, 0, 0, 2, 0x80, 0, 0, 1, 0xda, 0x61, 0, 0x1c, 255, 255, 0, 0, 0, 0,
    0, 10,
];

/// The AS-external-LSA of 10.0.0.2 for 203.0.113.0/24, of type 2.
const EXTERNAL: [u8; 36] = [
    0, 1, 2, 5, 203, 0, 113, 0, 10, 0, 0, 2, 0x80, 0, 0, 1, 0x0c, 0x69, 0, 0x24, 255, 255, 255, 0,
    0x80, 0, 0, 20, 0, 0, 0, 0, 0, 0, 0, 0,
];

// Returns true if the bytes have their computed checksum, and a copy of the LSA read from them is
// written as the same bytes.
fn comes_back(alloc: Global, bytes: &[u8]) -> Result<bool, Fail> {
    let lsa = read(alloc, bytes)?;
    let mut written = Vec::new(alloc);
    write(&lsa.copy(alloc)?, &mut written)?;
    Ok(sum_of(bytes) == Some(lsa.header().sum) && written.as_slice() == bytes)
}

#[test]
fn vectors_come_back(rt: HostRuntime) -> Result<(), Fail> {
    for bytes in [
        POINT_TO_POINT.as_slice(),
        BORDER.as_slice(),
        BOUNDARY.as_slice(),
        STUB.as_slice(),
        NETWORK.as_slice(),
        SUMMARY.as_slice(),
        EXTERNAL.as_slice(),
    ] {
        assert!(rt; comes_back(rt.alloc(), bytes)?);
    }
    Ok(())
}

// Returns the router-LSA of 10.0.0.1 with `count` stub links to 192.0.2.0/24.
fn with_links(alloc: Global, count: u16) -> Result<Vec<u8>, Fail> {
    let mut bytes = Vec::from_slice(alloc, &STUB[..18])?;
    bytes.extend_from_slice(&(24 + count % 5460 * 12).to_be_bytes())?;
    bytes.extend_from_slice(&[0, 0])?;
    bytes.extend_from_slice(&count.to_be_bytes())?;
    for _ in 0..count {
        bytes.extend_from_slice(&STUB[24..])?;
    }
    seal(&mut bytes)?;
    Ok(bytes)
}

// The longest router-LSA has 65,532 bytes.
#[test]
fn large_ones_come_back(rt: HostRuntime) -> Result<(), Fail> {
    let large = with_links(rt.alloc(), 400)?;
    let longest = with_links(rt.alloc(), 5459)?;
    let come = comes_back(rt.alloc(), &large)? && comes_back(rt.alloc(), &longest)?;
    assert!(rt; come && longest.len() == 65532);
    Ok(())
}

// At the greatest length, 65,535, three bytes come after the links.
#[test]
fn bytes_behind_the_links_are_no_lsa(rt: HostRuntime) -> Result<(), Fail> {
    let mut longest = with_links(rt.alloc(), 5459)?;
    longest.extend_from_slice(&[0; 3])?;
    put(&mut longest, 18, &[0xff, 0xff])?;
    seal(&mut longest)?;
    assert!(rt;
        longest.len() == 65535 && read(rt.alloc(), &longest).err() == Some(WireFault::Shape)
    );
    Ok(())
}

fn shows_router(lsa: &Checked) -> bool {
    let link = Link {
        id: 0x0a00_0001,
        detail: 0xc633_6402,
        kind: LinkKind::PointToPoint,
        metric: 10,
    };
    lsa.flags() == Some(3) && lsa.link_count() == 1 && lsa.link(0) == Some(link)
}

fn shows_network(lsa: &Checked) -> bool {
    lsa.listed(0) == Some(0x0a00_0001)
        && lsa.listed(1) == Some(0x0a00_0002)
        && lsa.prefix() == Some(Prefix::from_mask(0xc000_0200, 0xffff_ff00))
}

fn shows_summary(lsa: &Checked) -> bool {
    lsa.prefix() == Some(Prefix::from_mask(0x0a01_0000, 0xffff_0000))
        && lsa.metric() == Some(10)
        && lsa.header().kind == 3
        && lsa.header().age == 1
}

fn shows_external(lsa: &Checked) -> bool {
    let first = ExternalFields {
        is_type_2: true,
        forwarding: 0,
    };
    lsa.external() == Some(first) && lsa.metric() == Some(20) && lsa.key().kind == 5
}

#[test]
fn readers(rt: HostRuntime) -> Result<(), Fail> {
    let router = read(rt.alloc(), &BOUNDARY)?;
    let network = read(rt.alloc(), &NETWORK)?;
    let summary = read(rt.alloc(), &SUMMARY)?;
    let external = read(rt.alloc(), &EXTERNAL)?;
    assert!(rt;
        shows_router(&router)
            && shows_network(&network)
            && shows_summary(&summary)
            && shows_external(&external)
    );
    Ok(())
}

// Returns true if the LSA, written at this age, is read back with this age and the same contents.
fn ages(alloc: Global, bytes: &[u8], age: u16) -> Result<bool, Fail>
    requires { age ≤ 3600 }
{
    let lsa = read(alloc, bytes)?;
    let mut aged = lsa.copy(alloc)?;
    aged.set_age(age);
    let mut written = Vec::new(alloc);
    write(&aged, &mut written)?;
    let again = read(alloc, &written)?;
    Ok(again.header().age == age && again.same_contents(&lsa) && again.body() == &bytes[20..])
}

#[test]
fn an_age_is_set(rt: HostRuntime) -> Result<(), Fail> {
    assert!(rt; ages(rt.alloc(), &STUB, 3600)? && ages(rt.alloc(), &SUMMARY, 0)?);
    Ok(())
}

// Returns true if the fault is the first of the bytes with these changes and a matching checksum.
fn has_fault(
    alloc: Global,
    bytes: &[u8],
    changes: &[(usize, u8)],
    fault: WireFault,
) -> Result<bool, Fail> {
    let mut changed = Vec::from_slice(alloc, bytes)?;
    for (place, byte) in changes {
        put(&mut changed, *place, &[*byte])?;
    }
    seal(&mut changed)?;
    Ok(read(alloc, &changed).err() == Some(fault))
}

#[test]
fn faults_of_bytes(rt: HostRuntime) -> Result<(), Fail> {
    let mut other = Vec::from_slice(rt.alloc(), &SUMMARY)?;
    *other.get_mut(27).ok_or("a byte")? = 11;
    let unsound = read(rt.alloc(), &other).err();
    let cut = read(rt.alloc(), &SUMMARY[..27]).err();
    assert!(rt; unsound == Some(WireFault::Checksum) && cut == Some(WireFault::Length));
    Ok(())
}

#[test]
fn faults(rt: HostRuntime) -> Result<(), Fail> {
    for (bytes, changes, fault) in [
        (SUMMARY.as_slice(), [(0, 14), (1, 17)], WireFault::Age),
        (&EXTERNAL, [(14, 0), (15, 0)], WireFault::Sequence),
        (&STUB, [(3, 0), (21, 1)], WireFault::Kind),
        (&SUMMARY, [(3, 6), (24, 1)], WireFault::Kind),
        (&STUB, [(21, 1), (29, 0)], WireFault::Reserved),
        (&SUMMARY, [(24, 1), (20, 0)], WireFault::Reserved),
        (&EXTERNAL, [(24, 0x81), (22, 1)], WireFault::Reserved),
        (&STUB, [(29, 0), (7, 2)], WireFault::Mask),
        (&SUMMARY, [(3, 4), (26, 1)], WireFault::Mask),
        (&POINT_TO_POINT, [(7, 2), (32, 5)], WireFault::RouterId),
        (&POINT_TO_POINT, [(32, 5), (23, 2)], WireFault::LinkType),
        (&POINT_TO_POINT, [(23, 2), (35, 9)], WireFault::Shape),
    ] {
        assert!(rt;
            has_fault(rt.alloc(), bytes, &changes, fault)?,
            "at {fault}"
        );
    }
    Ok(())
}
