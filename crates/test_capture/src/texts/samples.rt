//! Packets and their recorded LSAs.

use anyhow::{Result, bail};
use captured_lsas::{Recorded, Taken};
use lsa_codec::{Checked, WireFault, read};
use ospf_types::key::Scope;
use packets::{PacketKind, UpdateFault};
use std::alloc::Global;

/// The Router ID 10.0.0.2.
const ROUTER: u32 = 0x0a00_0002;

/// A network-LSA at MaxAge.
const NETWORK: [u8; 36] = [
    0x0e, 0x10, 0x02, 0x02, 0xc0, 0x00, 0x02, 0x02, 0x0a, 0x00, 0x00, 0x02, 0x80, 0x00, 0x00, 0x01,
    0xd6, 0x8a, 0x00, 0x24, 0xff, 0xff, 0xff, 0x00, 0x0a, 0x00, 0x00, 0x01, 0x0a, 0x00, 0x00, 0x02,
    0x0a, 0x00, 0x00, 0x03,
];

/// An AS-external-LSA.
const EXTERNAL: [u8; 36] = [
    0x00, 0x01, 0x02, 0x05, 0xac, 0x10, 0x00, 0x00, 0x0a, 0x00, 0x00, 0x02, 0x80, 0x00, 0x00, 0x01,
    0x14, 0x54, 0x00, 0x24, 0xff, 0xff, 0x00, 0x00, 0x00, 0x00, 0x00, 0x05, 0x0a, 0x01, 0x09, 0x09,
    0x00, 0x00, 0x00, 0x00,
];

/// Returns a packet without LSAs, of which only the seconds are recorded.
pub fn without_lsas(alloc: Global, kind: PacketKind, seconds: u64) -> Taken {
    taken(kind, seconds, Vec::new(alloc))
}

/// Returns a Link State Update after one second: an LSA, one that was given before, and one with a
/// fault.
pub fn one_each(alloc: Global) -> Result<Taken> {
    let mut recorded = Vec::new(alloc);
    recorded.push(external(alloc)?)?;
    recorded.push(Recorded::Repeated)?;
    recorded.push(Recorded::Fault(WireFault::Checksum))?;
    Ok(taken(PacketKind::LinkStateUpdate, 1, recorded))
}

/// Returns a Link State Update after two seconds: an LSA at MaxAge and one below it, two that were
/// given before, one with a fault, and one that is cut off.
pub fn two_each(alloc: Global) -> Result<Taken> {
    let mut recorded = Vec::new(alloc);
    recorded.push(network(alloc)?)?;
    recorded.push(Recorded::Repeated)?;
    recorded.push(Recorded::Fault(WireFault::Checksum))?;
    recorded.push(external(alloc)?)?;
    recorded.push(Recorded::Repeated)?;
    recorded.push(Recorded::Cut(UpdateFault::LsaLength { place: 184 }))?;
    Ok(taken(PacketKind::LinkStateUpdate, 2, recorded))
}

fn taken(kind: PacketKind, seconds: u64, recorded: Vec<Recorded>) -> Taken {
    Taken::Packet {
        kind,
        router: ROUTER,
        area: 1,
        back: 0,
        seconds,
        recorded,
    }
}

fn network(alloc: Global) -> Result<Recorded> {
    Ok(Recorded::Install {
        scope: Scope::Area(1),
        lsa: lsa(alloc, &NETWORK)?,
        purges: true,
    })
}

fn external(alloc: Global) -> Result<Recorded> {
    Ok(Recorded::Install {
        scope: Scope::As,
        lsa: lsa(alloc, &EXTERNAL)?,
        purges: false,
    })
}

fn lsa(alloc: Global, bytes: &[u8]) -> Result<Checked> {
    match read(alloc, bytes) {
        Ok(lsa) => Ok(lsa),
        Err(fault) => bail!("{fault}"),
    }
}
