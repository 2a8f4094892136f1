//! The lines of an explanation as JSON objects.
ghost use Rattle.std.specs.Prelude.{◌≡◌, ◌++◌, IfOk, OnOk, codes, false, option_copied};
ghost use Rattle.std.specs.Prelude.{string_bytes};
ghost use Rattle.output_lines.specs.declared.format.Format.TheVariants as format_value;
ghost use Rattle.serde_json.specs.Data.{object};
ghost use Rattle.serde_json.specs.View.{view, members_view};
ghost use Rattle.serde_json.specs.Written.{has_float};
ghost use Rattle.output_lines.specs.Members.{PutsMember, members_in};
ghost use Rattle.explained_replay.specs.Objects.{candidate_data, cost_data, lookup_data};
ghost use Rattle.explained_replay.specs.Objects.{network_line_data, offered_members, place_data};
ghost use Rattle.explained_replay.specs.Objects.{source_data, vertex_data};
ghost use Rattle.explained_replay.specs.Lines.{candidate_line, link_line, lookup_line};
ghost use Rattle.explained_replay.specs.Lines.{network_line, path_line};

use crate::lines::Lookup;
use crate::reasons::{is_taken, reason_of, step_of};
use crate::text_lines::external_type;
use explanation::{Candidate, LsaInstance, Offer, OfferKind, Step, TraceNode};
use ospf_types::entry::Vertex;
use ospf_types::hop::Path;
use ospf_types::memory::Memory;
use ospf_types::prefix::Prefix;
use output_lines::Object;
use route_table::{Item, Match};
use serde_json::Value;
use std::alloc::Global;

pub(crate) fn put_lookup(lookup: Lookup, found: &Match, text: &mut String) -> Result<(), Memory>
    ensures { OnOk result (string_bytes text.new ≡ string_bytes text.old
        ++ lookup_line format_value.Json lookup.address lookup.serial found.now) }
{
    let object = lookup_object(*text.allocator(), lookup, found)?;
    object.append_to(text)
}

fn lookup_object(alloc: Global, lookup: Lookup, found: &Match) -> Result<Object, Memory>
    ensures { IfOk result (λ o. object (members_view o)
        ≡ lookup_data lookup.address lookup.serial found.now) }
{
    let mut object = Object::of_type(alloc, "lookup")?;
    object.put_address("address", lookup.address)?;
    object.put_number("serial", lookup.serial)?;
    match found {
        Match::Route(network, entry) => {
            object.put_text("match", "route")?;
            object.put_network("network", *network)?;
            object.put_route(entry)?;
        }
        Match::Discard(network) => {
            object.put_text("match", "discard")?;
            object.put_network("network", *network)?;
        }
        Match::None => object.put_text("match", "none")?,
    }
    Ok(object)
}

pub(crate) fn put_network(
    network: Prefix,
    item: Option<&Item>,
    text: &mut String,
) -> Result<(), Memory>
    ensures { OnOk result (string_bytes text.new ≡ string_bytes text.old
        ++ network_line format_value.Json network (option_copied item.entry)) }
{
    let object = network_object(*text.allocator(), network, item)?;
    object.append_to(text)
}

fn network_object(alloc: Global, network: Prefix, item: Option<&Item>) -> Result<Object, Memory>
    ensures { IfOk result (λ o. object (members_view o)
        ≡ network_line_data network (option_copied item.entry)) }
{
    let mut object = Object::new(alloc);
    object.put_network("network", network)?;
    match item {
        Some(Item::Route(entry)) => {
            object.put_text("type", "route")?;
            object.put_route(entry)?;
        }
        Some(Item::Discard) => object.put_text("type", "discard")?,
        None => object.put_text("type", "none")?,
    }
    Ok(object)
}

pub(crate) fn put_candidate(candidate: &Candidate, text: &mut String) -> Result<(), Memory>
    ensures { OnOk result (string_bytes text.new ≡ string_bytes text.old
        ++ candidate_line format_value.Json candidate.now) }
{
    let object = candidate_object(*text.allocator(), candidate)?;
    object.append_to(text)
}

fn candidate_object(alloc: Global, candidate: &Candidate) -> Result<Object, Memory>
    ensures { IfOk result (λ o. object (members_view o) ≡ candidate_data candidate.now) }
{
    let verdict = candidate.verdict;
    let mut object = offered_object(alloc, candidate.cost, &candidate.offer)?;
    if is_taken(verdict) {
        object.put_text("type", "taken")?;
        return Ok(object);
    }
    object.put_text("type", "lost")?;
    object.put_text("step", step_of(candidate.offer.kind, verdict))?;
    object.put_text("reason", reason_of(verdict))?;
    Ok(object)
}

// Returns an object with the offer and its cost.
fn offered_object(alloc: Global, cost: Option<u32>, offer: &Offer) -> Result<Object, Memory>
    ensures { IfOk result (λ o. members_view o ≡ members_in (offered_members cost offer.now)) }
{
    let mut object = Object::new(alloc);
    put_cost(&mut object, cost)?;
    put_source(&mut object, &offer.source)?;
    object.put_network("network", offer.network)?;
    match offer.kind {
        OfferKind::Stub(metric) => {
            object.put_text("offer", "stub")?;
            object.put_number("metric", u64::from(metric))?;
        }
        OfferKind::Transit => object.put_text("offer", "transit")?,
        OfferKind::Summary(metric) => {
            object.put_text("offer", "summary")?;
            object.put_number("metric", u64::from(metric))?;
        }
        OfferKind::AsExternal(metric, external) => {
            object.put_text("offer", "external")?;
            object.put_number("metric", u64::from(metric))?;
            object.put_number("external_type", u64::from(external_type(external)))?;
            object.put_address("forwarding", external.forwarding)?;
        }
    }
    Ok(object)
}

// Puts the cost of an offer into the object, or null if it has no path.
fn put_cost(object: &mut Object, cost: Option<u32>) -> Result<(), Memory>
    ensures { OnOk result (PutsMember (codes "cost") (cost_data cost) object.old object.new) }
{
    match cost {
        Some(cost) => object.put_number("cost", u64::from(cost)),
        None => object.put("cost", Value::Null),
    }
}

// Puts the key of an LSA, and its sequence number in hexadecimal, into the object as `lsa`.
fn put_source(object: &mut Object, source: &LsaInstance) -> Result<(), Memory>
    ensures { OnOk result (PutsMember (codes "lsa") (source_data source.now)
        object.old object.new) }
{
    let value = source_value(object.alloc(), source)?;
    object.put("lsa", value)
}

fn source_value(alloc: Global, source: &LsaInstance) -> Result<Value, Memory>
    ensures value { IfOk result (λ v. view v ≡ source_data source.now) }
    ensures without_fractions { IfOk result (λ v. has_float (view v) ≡ false) }
{
    let mut object = Object::new(alloc);
    object.put_scope(source.scope)?;
    object.put_number("kind", u64::from(source.key.kind))?;
    object.put_address("id", source.key.id)?;
    object.put_address("router", source.key.router)?;
    object.put_hexadecimal("sequence", &source.seq.to_be_bytes())?;
    Ok(object.into_value())
}

pub(crate) fn put_path(path: &Path, text: &mut String) -> Result<(), Memory>
    ensures { OnOk result (string_bytes text.new ≡ string_bytes text.old
        ++ path_line format_value.Json path.now) }
{
    let mut object = Object::of_type(*text.allocator(), "path")?;
    object.put_path(path)?;
    object.append_to(text)
}

pub(crate) fn put_link(step: &Step, text: &mut String) -> Result<(), Memory>
    ensures { OnOk result (string_bytes text.new ≡ string_bytes text.old
        ++ link_line format_value.Json step.now) }
{
    let mut object = Object::of_type(*text.allocator(), "link")?;
    put_place(&mut object, "from", step.from)?;
    put_place(&mut object, "to", step.to)?;
    object.put_number("cost", u64::from(step.cost))?;
    put_source(&mut object, &step.source)?;
    object.append_to(text)
}

// Puts an end of a step into the object under this name. A router is given by its Router ID, a
// transit network by its Link State ID, and a network by its prefix.
fn put_place(object: &mut Object, name: &str, place: TraceNode) -> Result<(), Memory>
    ensures { OnOk result (PutsMember name.now (place_data place) object.old object.new) }
{
    let value = place_value(object.alloc(), place)?;
    object.put(name, value)
}

fn place_value(alloc: Global, place: TraceNode) -> Result<Value, Memory>
    ensures value { IfOk result (λ v. view v ≡ place_data place) }
    ensures without_fractions { IfOk result (λ v. has_float (view v) ≡ false) }
{
    match place {
        TraceNode::Vertex(vertex) => vertex_value(alloc, vertex),
        TraceNode::Network(network) => {
            let mut object = Object::new(alloc);
            object.put_network("prefix", network)?;
            Ok(object.into_value())
        }
    }
}

fn vertex_value(alloc: Global, vertex: Vertex) -> Result<Value, Memory>
    ensures value { IfOk result (λ v. view v ≡ vertex_data vertex) }
    ensures without_fractions { IfOk result (λ v. has_float (view v) ≡ false) }
{
    let mut object = Object::new(alloc);
    match vertex {
        Vertex::Router(router) => object.put_address("router", router)?,
        Vertex::Network(id) => object.put_address("network", id)?,
    }
    Ok(object.into_value())
}
