//! The recording of a small network, events, and cores with their printed items, for the tests.
use event_core::table::{Item, Table};
use event_core::{Core, DueSummaries, DueSummary, Event};
use lsa_codec::{read, sum_of};
use ospf_types::config::Config;
use ospf_types::key::{Dest, Scope};
use ospf_types::prefix::Prefix;
use recording::{Line, parse};
use std::alloc::Global;
use std::hash::RandomState;
use std::test::Fail;

/// A recording of a network with a root, a leaf and a peer.
///
/// The root reaches the network 192.0.2.0/24 at 10 over interface 1, and the peer at 5 over
/// interface 2. The peer reaches the network at 5, and the leaf is on it. The leaf has a stub link
/// to 203.0.113.0/24, and the peer to 198.18.0.0/24.
pub const NETWORK: &str = "abr 1\n\
router 10.0.0.1\n\
area 0.0.0.0 normal\n\
interface 1 0.0.0.0 192.0.2.1 0.0.0.0 up\n\
interface 2 0.0.0.0 198.51.100.1 198.51.100.2 up\n\
install 0.0.0.0 000102010a0000010a00000180000001c06b003000000002c0000202c00002010200000a0a000003c633640101000005\n\
install 0.0.0.0 000102010a0000020a00000280000001b6ac003000000002c0000202c000020202000001cb007100ffffff0003000001\n\
install 0.0.0.0 000102010a0000030a00000380000001e35e003c000000030a000001c633640201000005c0000202c000020302000005c6120000ffffff0003000001\n\
install 0.0.0.0 00010202c00002020a00000280000001d68a0024ffffff000a0000010a0000020a000003\n";

// The start of the leaf's router-LSA, with its link to the network, before a hundred more links
// (RFC 2328, A.4.2).
const FRONT: [u8; 36] = [
    0, 1, 2, 1, 10, 0, 0, 2, 10, 0, 0, 2, 0x80, 0, 0, 2, 0, 0, 4, 0xd4, 0, 0, 0, 101, 192, 0, 2, 2,
    192, 0, 2, 2, 2, 0, 0, 1,
];

/// Returns the install of the router-LSA of 10.0.0.2 with a hundred stub links. One of them is at
/// metric `other`, and the others are at metric 1.
pub fn with_stubs(alloc: Global, seq: u8, other: u8) -> Result<Event, Fail> {
    let mut bytes = Vec::from_slice(alloc, &FRONT)?;
    for number in 0u8..100 {
        push_stub(&mut bytes, number, if number == 57 { other } else { 1 })?;
    }
    *bytes.get_mut(15).ok_or("a byte")? = seq;
    install(alloc, &mut bytes)
}

fn push_stub(bytes: &mut Vec<u8>, number: u8, metric: u8) -> Result<(), Fail> {
    bytes.extend_from_slice(&[20, number, 0, 0, 255, 255, 0, 0, 3, 0, 0, metric])?;
    Ok(())
}

// Returns the install of the LSA of these bytes, with its checksum.
fn install(alloc: Global, bytes: &mut [u8]) -> Result<Event, Fail> {
    let [high, low] = sum_of(bytes).ok_or("20 bytes")?.to_be_bytes();
    *bytes.get_mut(16).ok_or("a byte")? = high;
    *bytes.get_mut(17).ok_or("a byte")? = low;
    let lsa = read(alloc, bytes)?;
    let scope = Scope::Area(0);
    Ok(Event::Install { scope, lsa })
}

/// Returns the configuration and the events of a recording.
///
/// # Errors
///
/// Returns an error if the text is not a valid recording, or if memory runs out.
pub fn events_of(alloc: Global, text: &str) -> Result<(Config, Vec<Event>), Fail> {
    let Ok(recording) = parse(alloc, text.as_bytes()) else {
        return Err(Fail::from("a recording"));
    };
    let config = recording.config().copy(alloc)?;
    let (_, _, lines) = recording.into_parts();
    Ok((config, events_in(alloc, lines)?))
}

fn events_in(alloc: Global, lines: Vec<Line>) -> Result<Vec<Event>, Fail> {
    let mut events = Vec::new(alloc);
    for line in lines {
        if let Line::Event(event) = line {
            events.push(event)?;
        }
    }
    Ok(events)
}

/// Returns the core after all events of a recording.
///
/// # Errors
///
/// Returns an error if the text is not a valid recording, if the core cannot be opened, or if an
/// event is refused.
pub fn applied(alloc: Global, hashing: RandomState, text: &str) -> Result<Core, Fail> {
    let (config, events) = events_of(alloc, text)?;
    let mut core = Core::open(alloc, config, hashing)?;
    apply_all(&mut core, events)?;
    Ok(core)
}

fn apply_all(core: &mut Core, events: Vec<Event>) -> Result<(), Fail> {
    for event in events {
        core.apply(event)?;
    }
    Ok(())
}

/// Returns the text of the core's table and due summaries.
pub fn items(alloc: Global, core: &Core) -> Result<String, Fail> {
    let mut text = String::new(alloc);
    push_items(alloc, core.table(), &mut text)?;
    push_summaries(alloc, core.summaries(), &mut text)?;
    Ok(text)
}

/// Returns the number of networks in the table.
pub fn networks_of(table: &Table) -> usize {
    let mut count: usize = 0;
    for _ in table.items() {
        count = count.saturating_add(1);
    }
    count
}

fn push_items(alloc: Global, table: &Table, text: &mut String) -> Result<(), Fail> {
    for (network, item) in table.items() {
        let line = printed(alloc, network, item)?;
        text.push_str(line.as_str())?;
    }
    Ok(())
}

fn push_summaries(alloc: Global, summaries: &DueSummaries, text: &mut String) -> Result<(), Fail> {
    for area in summaries.areas() {
        push_area(alloc, area.area(), area.as_slice(), text)?;
    }
    Ok(())
}

fn push_area(alloc: Global, area: u32, list: &[DueSummary], text: &mut String) -> Result<(), Fail> {
    for due in list {
        let line = printed_due(alloc, area, due)?;
        text.push_str(line.as_str())?;
    }
    Ok(())
}

fn printed_due(alloc: Global, area: u32, due: &DueSummary) -> Result<String, Fail> {
    let (kind, metric) = (due.kind, due.metric);
    let line = match due.dest {
        Dest::Net(network) => format!(in alloc; "due {} {} {} {}\n", area, kind, network, metric)?,
        Dest::Router(router) => format!(in alloc; "due {} {} {} {}\n", area, kind, router, metric)?,
    };
    Ok(line)
}

fn printed(alloc: Global, network: Prefix, item: &Item) -> Result<String, Fail> {
    let line = match item {
        Item::Route(entry) => format!(in alloc; "{} {}\n", network, entry)?,
        Item::Discard => format!(in alloc; "{} discard\n", network)?,
    };
    Ok(line)
}
