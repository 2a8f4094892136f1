//! The text of a candidate: one line, and lines for each of its traces.
use anyhow::Result;
use explanation::{Candidate, LsaInstance, OfferKind, Trace, TraceNode};
use ospf_types::address::Address;
use ospf_types::entry::Vertex;
use ospf_types::key::Scope;
use ospf_types::prefix::Prefix;

pub(crate) fn print_candidate(rt: &HostRuntime, candidate: &Candidate) -> Result<()> {
    let offer = candidate.offer;
    print!(rt; "  {} ", offer.network)?;
    print_kind(rt, offer.kind)?;
    print_source(rt, offer.source)?;
    match candidate.cost {
        Some(cost) => print!(rt; " cost {cost}")?,
        None => {}
    }
    println!(rt; ": {:?}", candidate.verdict)?;
    for trace in &candidate.traces {
        print_trace(rt, trace)?;
    }
    Ok(())
}

fn print_kind(rt: &HostRuntime, kind: OfferKind) -> Result<()> {
    match kind {
        OfferKind::Stub(metric) => print!(rt; "stub {metric}")?,
        OfferKind::Transit => print!(rt; "transit")?,
        OfferKind::Summary(metric) => print!(rt; "summary {metric}")?,
        OfferKind::AsExternal(metric, external) => {
            let kind = if external.is_type_2 { 2 } else { 1 };
            let forwarding = Address(external.forwarding);
            print!(rt; "external {metric} of type {kind} to {forwarding}")?;
        }
    }
    Ok(())
}

fn print_source(rt: &HostRuntime, source: LsaInstance) -> Result<()> {
    let (id, router) = (Address(source.key.id), Address(source.key.router));
    match source.scope {
        Scope::Area(area) => print!(rt;
            " by {} {id} {router} of {}",
            source.key.kind,
            Address(area)
        )?,
        Scope::As => print!(rt; " by {} {id} {router} of the AS", source.key.kind)?,
    }
    Ok(())
}

fn print_trace(rt: &HostRuntime, trace: &Trace) -> Result<()> {
    print!(rt; "    {}:", trace.path)?;
    for step in &trace.steps {
        print_place(rt, step.from)?;
        print!(rt; " -{}->", step.cost)?;
    }
    if let Some(last) = trace.steps.last() {
        print_place(rt, last.to)?;
    }
    println!(rt; "")?;
    for step in &trace.steps {
        print!(rt; "     ")?;
        print_source(rt, step.source)?;
        println!(rt; ", {:x}", step.source.seq)?;
    }
    Ok(())
}

fn print_place(rt: &HostRuntime, place: TraceNode) -> Result<()> {
    match place {
        TraceNode::Vertex(vertex) => print_vertex(rt, vertex),
        TraceNode::Network(network) => print_network(rt, network),
    }
}

fn print_vertex(rt: &HostRuntime, vertex: Vertex) -> Result<()> {
    match vertex {
        Vertex::Router(id) => print!(rt; " {}", Address(id))?,
        Vertex::Network(id) => print!(rt; " network {}", Address(id))?,
    }
    Ok(())
}

fn print_network(rt: &HostRuntime, network: Prefix) -> Result<()> {
    print!(rt; " {network}")?;
    Ok(())
}
