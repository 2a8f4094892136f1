//! Tests of a core on recordings (RFC 2328, 16): the changes and the work of the last event, and a
//! core for which one request for memory is refused.
use super::*;
use event_core::{Core, Event, Refusal, Reply, Status};
use ospf_types::key::Dest;
use ospf_types::prefix::Prefix;
use std::alloc::Global;
use std::hash::RandomState;
use std::test::Fail;

// The peer's link to the network has metric 6.
const DEARER: &str =
    "install 0.0.0.0 000102010a0000030a00000380000002ff40003c000000030a000001c633640201000005c0000202c000020302000006c6120000ffffff0003000001\n";

// The leaf has another address on the network.
const MOVED: &str =
    "install 0.0.0.0 000102010a0000020a00000280000002d08f003000000002c0000202c000020402000001cb007100ffffff0003000001\n";

// The peer's link to the root is removed.
const APART: &str =
    "install 0.0.0.0 000102010a0000030a00000380000002b609003000000002c0000202c000020302000005c6120000ffffff0003000001\n";

// The peer's link to the network has metric 4.
const CHEAPER: &str =
    "install 0.0.0.0 000102010a0000030a00000380000002c37e003c000000030a000001c633640201000005c0000202c000020302000004c6120000ffffff0003000001\n";

// The network 192.0.2.0/24, and the stub networks of the leaf and of the peer.
const LAN: (u32, u8) = (0xc000_0200, 24);

const OF_LEAF: (u32, u8) = (0xcb00_7100, 24);

const OF_PEER: (u32, u8) = (0xc612_0000, 24);

fn after(rt: &HostRuntime, event: &str) -> Result<Core, Fail> {
    follows(rt, NETWORK, event)
}

// Returns the core after the events of the base and this event.
fn follows(rt: &HostRuntime, base: &str, event: &str) -> Result<Core, Fail> {
    let mut text = String::new(rt.alloc());
    text.push_str(base)?;
    text.push_str(event)?;
    applied(rt.alloc(), RandomState::new(rt)?, text.as_str())
}

// Returns true if the last event changed exactly the items of these networks.
fn changes(core: &Core, networks: &[(u32, u8)]) -> bool {
    let mut all = core.changes().len() == networks.len();
    for (network, (address, length)) in core.changes().iter().zip(networks) {
        all &= network.address() == *address && network.length() == *length;
    }
    all
}

// Returns true if the last event took some work, and at most this much.
fn works(core: &Core, most: usize) -> bool {
    let work = core.work();
    work.taken >= 1 && work.taken <= most && work.hop_sets <= most
}

// The bound is 2 * 3 + 4. The vertices that differ and the heads of the removed and added links
// count twice, and the links out of the vertices that differ once.
#[test]
fn a_dearer_link_takes_a_path_away(rt: HostRuntime) -> Result<(), Fail> {
    let core = after(&rt, DEARER)?;
    let text = items(rt.alloc(), &core)?;
    assert!(rt;
        text.as_str()
            == "192.0.2.0/24 intra 0.0.0.0 10 0 direct:1\n198.18.0.0/24 intra 0.0.0.0 6 0 peer:2\n203.0.113.0/24 intra 0.0.0.0 11 0 router:1:192.0.2.2\n"
    );
    assert!(rt; changes(&core, &[LAN, OF_LEAF]) && works(&core, 10) && core.work().hop_sets >= 2);
    Ok(())
}

// The bound is 2 * 3 + 2.
#[test]
fn another_address_is_another_hop(rt: HostRuntime) -> Result<(), Fail> {
    let core = after(&rt, MOVED)?;
    assert!(rt; changes(&core, &[OF_LEAF]) && works(&core, 8));
    Ok(())
}

// The bound is 2 * 5 + 5.
#[test]
fn a_link_that_goes_leaves_the_longer_way(rt: HostRuntime) -> Result<(), Fail> {
    let core = after(&rt, APART)?;
    assert!(rt; changes(&core, &[LAN, OF_PEER, OF_LEAF]) && works(&core, 15));
    Ok(())
}

// The bound is 2 * 5 + 8.
#[test]
fn a_cheaper_link_takes_all(rt: HostRuntime) -> Result<(), Fail> {
    let core = after(&rt, CHEAPER)?;
    assert!(rt; changes(&core, &[LAN, OF_LEAF]) && works(&core, 18));
    Ok(())
}

// A second in which no LSA reaches MaxAge takes no work and changes nothing.
#[test]
fn a_second_that_changes_nothing_is_no_work(rt: HostRuntime) -> Result<(), Fail> {
    let core = after(&rt, "second\n")?;
    assert!(rt; core.work().taken == 0 && core.work().hop_sets == 0 && changes(&core, &[]));
    Ok(())
}

#[test]
fn of_a_hundred_networks_one_changes(rt: HostRuntime) -> Result<(), Fail> {
    let mut core = after(&rt, "")?;
    core.apply(with_stubs(rt.alloc(), 2, 1)?)?;
    let came = core.changes().len() == 101;
    core.apply(with_stubs(rt.alloc(), 3, 7)?)?;
    assert!(rt; came && changes(&core, &[(0x1439_0000, 16)]) && core.work().taken == 0);
    Ok(())
}

// A router with two active areas.
//
// The peer 10.0.0.2 in the backbone is an area border router and an AS boundary router. It has a
// stub link to 10.4.0.0/16, for which a range is active. It advertises 10.1.0.0/16 and three
// external networks: one whose forwarding address has no route, one a second before MaxAge, and one
// at MaxAge.
const BORDER: &str = "abr 3\n\
router 10.0.0.1\n\
compat disabled\n\
serial 0\n\
area 0.0.0.0 normal\n\
range 0.0.0.0 10.4.0.0/14 advertise\n\
area 0.0.0.1 normal\n\
interface 1 0.0.0.0 198.51.100.1 198.51.100.2 up\n\
interface 2 0.0.0.1 198.51.100.5 198.51.100.6 up\n\
install 0.0.0.0 000102010a0000010a00000180000001e6e20024000000010a000002c63364010100000a\n\
install 0.0.0.0 000102010a0000020a00000280000001ddd00030030000020a000001c6336402010000010a040000ffff000003000001\n\
install 0.0.0.0 000102030a0100000a00000280000001a898001cffff000000000005\n\
install as 00010205cb0071000a0000028000000186710024ffffff00000000050a02000100000000\n\
install as 0e0f0205644000000a0000028000000126b40024ffc00000000000070000000000000000\n\
install as 000102050a0200000a0000028000000190a50024ffff0000000000050000000000000000\n\
install as 0e1002050a0200000a0000028000000190a50024ffff0000000000050000000000000000\n";

// Returns true if the last event changed exactly this in the due summaries of area 0.0.0.1, and
// nothing in those of the backbone.
fn changes_due(core: &Core, wanted: &[(Dest, Option<u32>)]) -> bool {
    let told = core.due_changes();
    told.get(1) == wanted && told.get(0).is_empty()
}

// Without the range, the network that it covered is due. With the range set again, the range is
// due.
#[test]
fn a_range_that_goes_changes_what_is_due(rt: HostRuntime) -> Result<(), Fail> {
    let range = Dest::Net(Prefix::from_mask(0x0a04_0000, 0xfffc_0000));
    let network = Dest::Net(Prefix::from_mask(0x0a04_0000, 0xffff_0000));
    let mut core = follows(&rt, BORDER, "range-drop 0.0.0.0 10.4.0.0/14\n")?;
    let is_told = changes_due(&core, &[(range, None), (network, Some(11))]);
    let answer = core.apply(event_of(&rt, "range-set 0.0.0.0 10.4.0.0/14 advertise\n")?);
    let is_back = changes_due(&core, &[(range, Some(11)), (network, None)]);
    assert!(rt; is_told && is_current(answer) && is_back);
    Ok(())
}

// An event that changes no route changes no due summary. A refused event leaves the changes of the
// event before.
#[test]
fn a_second_changes_nothing_of_what_is_due(rt: HostRuntime) -> Result<(), Fail> {
    let mut core = follows(&rt, BORDER, "range-drop 0.0.0.0 10.4.0.0/14\n")?;
    let refused = core.apply(event_of(&rt, "range-drop 0.0.0.0 10.4.0.0/14\n")?);
    let is_kept = core.due_changes().get(1).len() == 2;
    core.apply(Event::Second)?;
    assert!(rt; refused.is_err() && is_kept && core.due_changes().areas() == 0);
    assert!(rt; changes_due(&core, &[]) && core.due_changes().at(0).is_none());
    Ok(())
}

// Returns true if the table fits the answer. It has the old routes after a refusal or if the core
// is behind, else the new routes.
fn fits(core: &Core, answer: Result<Reply, Refusal>, is_old: bool, is_new: bool) -> bool {
    match answer {
        Err(refusal) => refusal == Refusal::Memory && is_old && core.serial() == 9,
        Ok(reply) if reply.state == Status::Behind => is_old && core.built() == 9,
        Ok(_) => is_new,
    }
}

fn is_current(answer: Result<Reply, Refusal>) -> bool {
    match answer {
        Ok(reply) => reply.state == Status::Current,
        Err(_) => false,
    }
}

fn has_items(rt: &HostRuntime, core: &Core, wanted: &str) -> Result<bool, Fail> {
    let now = items(rt.alloc(), core)?;
    Ok(now.as_str() == wanted)
}

// Returns true if the items of the core are the old ones or the new ones, as the answer requires.
fn is_as_answered(
    rt: &HostRuntime,
    core: &Core,
    answer: Result<Reply, Refusal>,
    old: &str,
    new: &str,
) -> Result<bool, Fail> {
    let is_old = has_items(rt, core, old)?;
    let is_new = has_items(rt, core, new)?;
    Ok(fits(core, answer, is_old, is_new))
}

// Returns true if a roll is refused with 37 NotCurrent exactly if the core is behind. The items and
// the serial have to be unchanged. A roll of a current core may run out of memory.
fn rolls(rt: &HostRuntime, core: &mut Core) -> Result<bool, Fail> {
    let (serial, is_current) = (core.serial(), core.is_current());
    let before = items(rt.alloc(), core)?;
    let answer = core.roll();
    let fits = match answer {
        Ok(rolled) => is_current && rolled == serial && core.journal().is_empty(),
        Err(Refusal::NotCurrent) => !is_current,
        Err(refusal) => is_current && refusal == Refusal::Memory,
    };
    Ok(fits && core.serial() == serial && has_items(rt, core, before.as_str())?)
}

// Catches up, or applies the event again if it was refused. Returns true if this succeeds, and
// `catch_up` rebuilds the table exactly if it was behind.
fn catches_up(
    rt: &HostRuntime,
    core: &mut Core,
    is_refused: bool,
    line: &str,
) -> Result<bool, Fail> {
    if is_refused {
        let event = event_of(rt, line)?;
        return Ok(core.apply(event).is_ok());
    }
    let is_behind = !core.is_current();
    let build_count = core.build_count();
    let is_current = core.catch_up() == Status::Current;
    Ok(is_current && (core.build_count() > build_count) == is_behind)
}

// Returns the items of a fresh core after the event, with ample memory.
fn fresh_items(rt: &HostRuntime, event: &str) -> Result<String, Fail> {
    let mut fresh = follows(rt, BORDER, event)?;
    fresh.catch_up();
    items(rt.alloc(), &fresh)
}

fn event_of(rt: &HostRuntime, line: &str) -> Result<Event, Fail> {
    let mut text = String::new(rt.alloc());
    text.push_str("abr 3\nrouter 10.0.0.1\ncompat disabled\nserial 0\narea 0.0.0.0 normal\n")?;
    text.push_str(line)?;
    let (_, mut events) = events_of(rt.alloc(), text.as_str())?;
    let event = events.pop().ok_or("an event")?;
    Ok(event)
}

// Applies one more event, for which memory may be refused.
//
// Returns true if one of three cases holds: the event is refused and nothing changed, the event is
// taken and the core is behind, or the event is followed without building anything. In the end the
// table and the due summaries have to be those of a fresh core.
fn withstands(rt: &HostRuntime, line: &str) -> Result<bool, Fail> {
    let mut core = follows(rt, BORDER, "")?;
    core.catch_up();
    let old = items(rt.alloc(), &core)?;
    let new = fresh_items(rt, line)?;
    goes_on(rt, &mut core, line, old.as_str(), new.as_str())
}

fn goes_on(
    rt: &HostRuntime,
    core: &mut Core,
    line: &str,
    old: &str,
    new: &str,
) -> Result<bool, Fail> {
    let event = event_of(rt, line)?;
    let build_count = core.build_count();
    let answer = core.apply(event);
    let followed = !is_current(answer) || core.build_count() == build_count;
    let right = is_as_answered(rt, core, answer, old, new)? && rolls(rt, core)?;
    let caught_up = catches_up(rt, core, answer.is_err(), line)?;
    let last = has_items(rt, core, new)? && rolls(rt, core)?;
    Ok(followed && right && caught_up && last && core.built() == 10)
}

// The peer's last network is removed, and the range becomes inactive.
#[test]
fn a_router_lsa_where_memory_may_be_refused(rt: HostRuntime) -> Result<(), Fail> {
    let line =
        "install 0.0.0.0 000102010a0000020a00000280000002e1e10024030000010a000001c63364020100000a\n";
    assert!(rt; withstands(&rt, line)?);
    Ok(())
}

// A route to the forwarding address is added.
#[test]
fn a_summary_where_memory_may_be_refused(rt: HostRuntime) -> Result<(), Fail> {
    let line = "install 0.0.0.0 000102030a0200000a0000028000000188b9001cffff000000000003\n";
    assert!(rt; withstands(&rt, line)?);
    Ok(())
}

#[test]
fn an_external_where_memory_may_be_refused(rt: HostRuntime) -> Result<(), Fail> {
    let line =
        "install as 00010205c61200000a00000280000001cd1a0024fffe0000800000070000000000000000\n";
    assert!(rt; withstands(&rt, line)?);
    Ok(())
}

#[test]
fn an_interface_where_memory_may_be_refused(rt: HostRuntime) -> Result<(), Fail> {
    let line = "interface 1 0.0.0.0 198.51.100.1 198.51.100.2 down\n";
    assert!(rt; withstands(&rt, line)?);
    Ok(())
}

#[test]
fn a_second_where_memory_may_be_refused(rt: HostRuntime) -> Result<(), Fail> {
    assert!(rt; withstands(&rt, "second\n")?);
    Ok(())
}

#[test]
fn a_flush_where_memory_may_be_refused(rt: HostRuntime) -> Result<(), Fail> {
    assert!(rt; withstands(&rt, "flush 0.0.0.0 1 10.0.0.1 10.0.0.1\n")?);
    Ok(())
}

#[test]
fn a_purge_where_memory_may_be_refused(rt: HostRuntime) -> Result<(), Fail> {
    assert!(rt; withstands(&rt, "purge as 5 10.2.0.0 10.0.0.2\n")?);
    Ok(())
}

// A range of the backbone is replaced and hidden, another range is set, and a range is dropped.
#[test]
fn a_range_where_memory_may_be_refused(rt: HostRuntime) -> Result<(), Fail> {
    assert!(rt; withstands(&rt, "range-set 0.0.0.0 10.4.0.0/14 hide\n")?);
    assert!(rt; withstands(&rt, "range-set 0.0.0.0 10.0.0.0/14 advertise\n")?);
    assert!(rt; withstands(&rt, "range-drop 0.0.0.0 10.4.0.0/14\n")?);
    Ok(())
}
