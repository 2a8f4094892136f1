//! A table, and offers of its networks.

use explanation::{Candidate, LsaInstance, Offer, OfferKind, Step, Trace, TraceNode, Verdict};
use ospf_types::entry::{Entry, PathType, Paths, Vertex};
use ospf_types::hop::{NextHop, Path};
use ospf_types::key::{Key, Scope};
use ospf_types::lsa::ExternalFields;
use ospf_types::memory::Memory;
use ospf_types::prefix::Prefix;
use route_table::{Item, Table};
use smallvec::SmallVec;
use std::alloc::Global;

// The scope of the backbone, with the Area ID 0.0.0.0.
const BACKBONE: Scope = Scope::Area(0);

// The Router ID 10.0.0.1.
const ROOT: u32 = 0x0a00_0001;

// The Router ID 10.0.0.2.
const ROUTER: u32 = 0x0a00_0002;

// The Designated Router's address on the transit network, 203.0.113.1.
const DESIGNATED: u32 = 0xcb00_7101;

// The network 203.0.112.0, and its mask.
const WIDE: (u32, u32) = (0xcb00_7000, 0xffff_f000);

// The path to the transit network.
const PATH: Path = Path {
    hop: NextHop::Peer(2),
    advertiser: None,
};

// Returns 203.0.113.0/25.
fn transit() -> Prefix {
    Prefix::from_mask(0xcb00_7100, 0xffff_ff80)
}

/// Sets a route and a discard.
pub(crate) fn fill(alloc: Global, table: &mut Table) -> Result<(), Memory> {
    let entry = Entry {
        kind: PathType::Intra,
        area: Some(0),
        cost: 11,
        cost2: 0,
        paths: Paths::new(SmallVec::from_slice(alloc, &[PATH])?),
    };
    table.set(transit(), Item::Route(entry))?;
    table.set(Prefix::from_mask(WIDE.0, WIDE.1), Item::Discard)
}

/// Returns the candidates of networks that contain 203.0.113.9.
pub(crate) fn all_candidates(alloc: Global) -> Result<Vec<Candidate>, Memory> {
    let mut candidates = Vec::new(alloc);
    candidates.push(lost(alloc, external(), None, Verdict::NoBoundaryRouter))?;
    candidates.push(lost(alloc, summary(), None, Verdict::ActiveRange))?;
    candidates.push(taken(alloc)?)?;
    candidates.push(lost(alloc, stub(), Some(128), Verdict::Costlier))?;
    Ok(candidates)
}

fn lost(alloc: Global, offer: Offer, cost: Option<u32>, verdict: Verdict) -> Candidate {
    Candidate {
        offer,
        cost,
        verdict,
        traces: Vec::new(alloc),
    }
}

fn taken(alloc: Global) -> Result<Candidate, Memory> {
    let mut traces = Vec::new(alloc);
    traces.push(trace(alloc)?)?;
    let offer = offer(transit(), network_lsa(), OfferKind::Transit);
    Ok(Candidate {
        offer,
        cost: Some(11),
        verdict: Verdict::Taken,
        traces,
    })
}

fn trace(alloc: Global) -> Result<Trace, Memory> {
    let mut steps = Vec::new(alloc);
    steps.push(Step {
        from: router(ROOT),
        to: router(ROUTER),
        cost: 10,
        source: router_lsa(ROOT, 3),
    })?;
    steps.push(Step {
        from: router(ROUTER),
        to: network(),
        cost: 1,
        source: router_lsa(ROUTER, 2),
    })?;
    steps.push(Step {
        from: network(),
        to: TraceNode::Network(transit()),
        cost: 0,
        source: network_lsa(),
    })?;
    Ok(Trace { path: PATH, steps })
}

fn router(id: u32) -> TraceNode {
    TraceNode::Vertex(Vertex::Router(id))
}

fn network() -> TraceNode {
    TraceNode::Vertex(Vertex::Network(DESIGNATED))
}

fn offer(network: Prefix, source: LsaInstance, kind: OfferKind) -> Offer {
    Offer {
        network,
        source,
        age: 1,
        kind,
    }
}

fn stub() -> Offer {
    let mut source = router_lsa(0x0a00_0003, 1);
    source.scope = Scope::Area(1);
    offer(transit(), source, OfferKind::Stub(64))
}

fn summary() -> Offer {
    let network = Prefix::from_mask(WIDE.0, WIDE.1);
    let source = source_of(BACKBONE, 3, WIDE.0, 0x0a00_0004, 7);
    offer(network, source, OfferKind::Summary(5))
}

fn external() -> Offer {
    let source = source_of(Scope::As, 5, 0, 0x0a00_0005, 10);
    let kind = OfferKind::AsExternal(
        20,
        ExternalFields {
            is_type_2: true,
            forwarding: 0,
        },
    );
    offer(Prefix::from_mask(0, 0), source, kind)
}

fn network_lsa() -> LsaInstance {
    source_of(BACKBONE, 2, DESIGNATED, ROUTER, 1)
}

fn router_lsa(router: u32, number: u32) -> LsaInstance {
    source_of(BACKBONE, 1, router, router, number)
}

// Returns the instance with this number, counted from InitialSequenceNumber.
fn source_of(scope: Scope, kind: u8, id: u32, router: u32, number: u32) -> LsaInstance {
    LsaInstance {
        scope,
        key: Key { kind, id, router },
        seq: 0x8000_0000 | number,
    }
}
