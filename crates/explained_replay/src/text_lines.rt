//! The lines of an explanation as text.
ghost use Rattle.std.specs.Prelude.{◌≡◌, ◌++◌, OnOk, codes, option_copied, string_bytes};
ghost use Rattle.output_lines.specs.declared.format.Format.TheVariants as format_value;
ghost use Rattle.explained_replay.specs.Reasons as reasons;
ghost use Rattle.explained_replay.specs.Words.{cost_text, database_text};
ghost use Rattle.explained_replay.specs.Words.{external_type as type_of_external, offer_text};
ghost use Rattle.explained_replay.specs.Words.{offered_text, place_text, source_text, vertex_text};
ghost use Rattle.explained_replay.specs.Lines.{candidate_line, link_line, lookup_line};
ghost use Rattle.explained_replay.specs.Lines.{network_line, path_line};

use crate::lines::Lookup;
use crate::reasons::{is_taken, reason_of, step_of};
use explanation::{Candidate, LsaInstance, OfferKind, Step, TraceNode};
use ospf_types::address::Address;
use ospf_types::entry::Vertex;
use ospf_types::hop::Path;
use ospf_types::key::Scope;
use ospf_types::lsa::ExternalFields;
use ospf_types::memory::Memory;
use ospf_types::prefix::Prefix;
use output_lines::put_hexadecimal;
use route_table::{Item, Match};

pub(crate) fn put_lookup(lookup: Lookup, found: &Match, text: &mut String) -> Result<(), Memory>
    ensures { OnOk result (string_bytes text.new ≡ string_bytes text.old
        ++ lookup_line format_value.Text lookup.address lookup.serial found.now) }
{
    let (address, serial) = (Address(lookup.address), lookup.serial);
    writeln!(text, "lookup {address} {serial} {found}")?;
    Ok(())
}

pub(crate) fn put_network(
    network: Prefix,
    item: Option<&Item>,
    text: &mut String,
) -> Result<(), Memory>
    ensures { OnOk result (string_bytes text.new ≡ string_bytes text.old
        ++ network_line format_value.Text network (option_copied item.entry)) }
{
    match item {
        Some(Item::Route(entry)) => writeln!(text, "route {network} {entry}")?,
        Some(Item::Discard) => writeln!(text, "discard {network}")?,
        None => writeln!(text, "none {network}")?,
    }
    Ok(())
}

pub(crate) fn put_candidate(candidate: &Candidate, text: &mut String) -> Result<(), Memory>
    ensures { OnOk result (string_bytes text.new ≡ string_bytes text.old
        ++ candidate_line format_value.Text candidate.now) }
{
    if is_taken(candidate.verdict) {
        put_taken(candidate, text)
    } else {
        put_lost(candidate, text)
    }
}

fn put_taken(candidate: &Candidate, text: &mut String) -> Result<(), Memory>
    ensures { OnOk result (string_bytes text.new ≡ string_bytes text.old
        ++ (codes "taken " ++ offered_text candidate.now ++ codes "\n")) }
{
    text.push_str("taken ")?;
    put_offered(candidate, text)?;
    text.push_str("\n")?;
    Ok(())
}

fn put_lost(candidate: &Candidate, text: &mut String) -> Result<(), Memory>
    ensures { OnOk result (string_bytes text.new ≡ string_bytes text.old
        ++ (codes "lost " ++ offered_text candidate.now ++ codes " at "
        ++ reasons.step_text candidate.now.offer.kind candidate.now.verdict ++ codes ": "
        ++ reasons.reason_text candidate.now.verdict ++ codes "\n")) }
{
    let step = step_of(candidate.offer.kind, candidate.verdict);
    let reason = reason_of(candidate.verdict);
    text.push_str("lost ")?;
    put_offered(candidate, text)?;
    writeln!(text, " at {step}: {reason}")?;
    Ok(())
}

// Appends the cost of an offer, the offer and its LSA.
fn put_offered(candidate: &Candidate, text: &mut String) -> Result<(), Memory>
    ensures { OnOk result (string_bytes text.new ≡ string_bytes text.old
        ++ offered_text candidate.now) }
{
    put_cost(candidate.cost, text)?;
    text.push_str(" ")?;
    put_offer(candidate.offer.kind, text)?;
    text.push_str(" ")?;
    put_source(&candidate.offer.source, text)
}

// Appends the cost of an offer, or a dash if it has no path.
fn put_cost(cost: Option<u32>, text: &mut String) -> Result<(), Memory>
    ensures { OnOk result (string_bytes text.new ≡ string_bytes text.old ++ cost_text cost) }
{
    match cost {
        Some(cost) => write!(text, "{cost}")?,
        None => text.push_str("-")?,
    }
    Ok(())
}

fn put_offer(kind: OfferKind, text: &mut String) -> Result<(), Memory>
    ensures { OnOk result (string_bytes text.new ≡ string_bytes text.old ++ offer_text kind) }
{
    match kind {
        OfferKind::Stub(metric) => write!(text, "stub {metric}")?,
        OfferKind::Transit => text.push_str("transit")?,
        OfferKind::Summary(metric) => write!(text, "summary {metric}")?,
        OfferKind::AsExternal(metric, external) => {
            let external_type = external_type(external);
            let forwarding = Address(external.forwarding);
            write!(text, "external {external_type} {metric} {forwarding}")?;
        }
    }
    Ok(())
}

/// Returns the type of an external metric, 1 or 2.
pub(crate) fn external_type(external: ExternalFields) -> u8
    ensures { result ≡ type_of_external external }
{
    if external.is_type_2 { 2 } else { 1 }
}

// Appends the key of an LSA, and its sequence number in hexadecimal.
fn put_source(source: &LsaInstance, text: &mut String) -> Result<(), Memory>
    ensures { OnOk result (string_bytes text.new ≡ string_bytes text.old
        ++ source_text source.now) }
{
    put_database(source.scope, text)?;
    let (kind, id, router) = (
        source.key.kind,
        Address(source.key.id),
        Address(source.key.router),
    );
    write!(text, " {kind} {id} {router} ")?;
    put_hexadecimal(&source.seq.to_be_bytes(), text)?;
    Ok(())
}

fn put_database(scope: Scope, text: &mut String) -> Result<(), Memory>
    ensures { OnOk result (string_bytes text.new ≡ string_bytes text.old
        ++ (codes "lsa " ++ database_text scope)) }
{
    match scope {
        Scope::Area(area) => {
            let area = Address(area);
            write!(text, "lsa {area}")?;
        }
        Scope::As => text.push_str("lsa as")?,
    }
    Ok(())
}

pub(crate) fn put_path(path: &Path, text: &mut String) -> Result<(), Memory>
    ensures { OnOk result (string_bytes text.new ≡ string_bytes text.old
        ++ path_line format_value.Text path.now) }
{
    writeln!(text, "path {path}")?;
    Ok(())
}

pub(crate) fn put_link(step: &Step, text: &mut String) -> Result<(), Memory>
    ensures { OnOk result (string_bytes text.new ≡ string_bytes text.old
        ++ link_line format_value.Text step.now) }
{
    text.push_str("link ")?;
    put_place(step.from, text)?;
    text.push_str(" ")?;
    put_place(step.to, text)?;
    let cost = step.cost;
    write!(text, " {cost} ")?;
    put_source(&step.source, text)?;
    text.push_str("\n")?;
    Ok(())
}

// Appends a vertex or a network.
fn put_place(place: TraceNode, text: &mut String) -> Result<(), Memory>
    ensures { OnOk result (string_bytes text.new ≡ string_bytes text.old ++ place_text place) }
{
    match place {
        TraceNode::Vertex(vertex) => put_vertex(vertex, text),
        TraceNode::Network(network) => Ok(write!(text, "{network}")?),
    }
}

// Appends a router by its Router ID, or a transit network by its Link State ID.
fn put_vertex(vertex: Vertex, text: &mut String) -> Result<(), Memory>
    ensures { OnOk result (string_bytes text.new ≡ string_bytes text.old ++ vertex_text vertex) }
{
    match vertex {
        Vertex::Router(router) => {
            let router = Address(router);
            write!(text, "router:{router}")?;
        }
        Vertex::Network(id) => {
            let id = Address(id);
            write!(text, "network:{id}")?;
        }
    }
    Ok(())
}
