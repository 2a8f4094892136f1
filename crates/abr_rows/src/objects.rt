//! Prints a JSON object of each kind, one a line.
mod samples;

use anyhow::Result;
use event_state::Refusal;
use lsa_codec::WireFault;
use ospf_types::address::BACKBONE;
use ospf_types::entry::PathType;
use ospf_types::key::{Dest, Scope};
use recording::{Fault, LineFault};
use replay::json_lines::{
    Lookup, put_behind, put_drop, put_due, put_fault, put_item, put_lookup, put_lsa, put_recorded,
    put_refused, put_serial, put_set, put_shown_due, put_undue,
};
use route_table::{Item, Match};
use samples::{HEADER, ROUTER, everything, route, wide};
use std::alloc::Global;
use summary_lists::DueSummary;

pub fn run(rt: &HostRuntime) -> Result<()> {
    let mut text = String::new(rt.alloc());
    put_changes(rt.alloc(), &mut text)?;
    put_lookups(rt.alloc(), &mut text)?;
    put_answers(&mut text)?;
    put_shown(rt.alloc(), &mut text)?;
    print!(rt; "{text}")?;
    Ok(())
}

fn put_changes(alloc: Global, text: &mut String) -> Result<()> {
    let item = Item::Route(route(alloc, PathType::Intra, Some(BACKBONE), 0)?);
    put_set(19, wide(), &item, text)?;
    put_set(24, wide(), &Item::Discard, text)?;
    put_drop(17, wide(), text)?;
    put_due(9, 1, DueSummary::of(Dest::Net(everything()), 10), text)?;
    put_due(10, BACKBONE, DueSummary::of(Dest::Router(ROUTER), 4), text)?;
    put_undue(24, BACKBONE, Dest::Net(wide()), text)?;
    put_undue(25, 1, Dest::Router(ROUTER), text)?;
    Ok(())
}

fn put_lookups(alloc: Global, text: &mut String) -> Result<()> {
    let lookup = Lookup {
        line: 27,
        address: 0xcb00_7001,
        serial: 14,
    };
    let route = route(alloc, PathType::External2, None, 20)?;
    put_lookup(lookup, &Match::Route(wide(), &route), text)?;
    put_lookup(lookup, &Match::Discard(wide()), text)?;
    put_lookup(lookup, &Match::None, text)?;
    Ok(())
}

fn put_answers(text: &mut String) -> Result<()> {
    let fault = Fault::Wire(WireFault::Checksum);
    put_refused(21, Refusal::Older, text)?;
    put_behind(12, text)?;
    put_fault(LineFault { line: 7, fault }, text)?;
    Ok(())
}

fn put_shown(alloc: Global, text: &mut String) -> Result<()> {
    put_serial(u64::MAX, 14, text)?;
    let inter = Item::Route(route(alloc, PathType::Inter, Some(BACKBONE), 0)?);
    put_item(wide(), &inter, text)?;
    let external = Item::Route(route(alloc, PathType::External1, None, 0)?);
    put_item(everything(), &external, text)?;
    put_item(wide(), &Item::Discard, text)?;
    put_shown_due(1, DueSummary::of(Dest::Net(everything()), 10), text)?;
    put_lsa(Scope::Area(1), &HEADER, text)?;
    put_lsa(Scope::As, &HEADER, text)?;
    put_recorded("second", text)?;
    put_recorded("\"\\\t", text)?;
    Ok(())
}
