//! The replies of a core: serials, and if anything that is used changed. Also the number of
//! networks in the table after each event, and that no event builds anything from scratch.
use crate::{events_of, networks_of};
use event_core::{Core, Event, Refusal, Reply, Status};
use std::alloc::Global;
use std::hash::RandomState;
use std::test::Fail;

// The root's own router-LSA, one second before MaxAge. It is purged too early, ages, and is purged.
const AGED: &str = "abr 1\n\
router 10.0.0.1\n\
area 0.0.0.0 normal\n\
interface 1 0.0.0.0 192.0.2.1 0.0.0.0 up\n\
install 0.0.0.0 0e0f02010a0000010a00000180000001e986002400000001c0000200ffffff000300000a\n\
purge 0.0.0.0 1 10.0.0.1 10.0.0.1\n\
second\n\
second\n\
purge 0.0.0.0 1 10.0.0.1 10.0.0.1\n";

// Flushes: an LSA of another router, an LSA that is not in the database, and the root's own LSA
// twice.
const FLUSHED: &str = "abr 1\n\
router 10.0.0.1\n\
area 0.0.0.0 normal\n\
interface 1 0.0.0.0 192.0.2.1 0.0.0.0 up\n\
install 0.0.0.0 000102010a0000010a00000180000001e986002400000001c0000200ffffff000300000a\n\
install 0.0.0.0 000102030a0100000a00000280000001da61001cffff00000000000a\n\
flush 0.0.0.0 3 10.1.0.0 10.0.0.2\n\
flush 0.0.0.0 3 10.2.0.0 10.0.0.2\n\
flush 0.0.0.0 1 10.0.0.1 10.0.0.1\n\
flush 0.0.0.0 1 10.0.0.1 10.0.0.1\n";

// A border router between the backbone and an area with a transit network.
//
// The backbone has a router that is both an area border router and an AS boundary router. LSAs of
// each type are installed and changed. One reaches MaxAge by a second, one is flushed, and both are
// purged. An interface goes down and comes up.
pub const ALL: &str = "abr 1\n\
router 10.0.0.1\n\
area 0.0.0.0 normal\n\
area 0.0.0.1 normal\n\
interface 1 0.0.0.0 198.51.100.1 198.51.100.2 up\n\
interface 2 0.0.0.1 192.0.2.1 0.0.0.0 up\n\
install 0.0.0.0 000102010a0000010a00000180000001e9de0024010000010a000002c63364010100000a\n\
install 0.0.0.0 000102010a0000020a00000280000001f8a70030030000020a000001c63364020100000a0a070000ffff000003000003\n\
install 0.0.0.1 000102010a0000010a000001800000016c3d002401000001c0000203c00002010200000a\n\
install 0.0.0.1 000102010a0000030a000003800000018ef0003000000002c0000203c00002030200000a0a080000ffff000003000003\n\
install 0.0.0.1 00010202c00002030a00000380000001ff6f0020ffffff000a0000010a000003\n\
install 0.0.0.0 000102030a0100000a00000280000001da61001cffff00000000000a\n\
install 0.0.0.0 000102040a0000090a000002800000017eb4001c000000000000000a\n\
install as 00010205cb0071000a000002800000010c690024ffffff00800000140000000000000000\n\
install as 0e0f0205cb0072000a00000980000001539a0024ffffff00000000140000000000000000\n\
second\n\
purge as 5 203.0.114.0 10.0.0.9\n\
install 0.0.0.0 000102010a0000020a0000028000000215890030030000020a000001c63364020100000a0a070000ffff000003000004\n\
install 0.0.0.0 000102010a0000010a00000180000002b1190024010000010a000002c633640101000007\n\
install 0.0.0.1 00010202c00002030a000003800000025d22001cffffff000a000001\n\
install 0.0.0.0 000102030a0100000a00000280000002e257001cffff00000000000b\n\
install 0.0.0.0 000102040a0000090a000002800000021824001c0000000000ffffff\n\
install as 00010205cb0071000a00000280000002866e0024ffffff00000000140000000000000000\n\
interface 1 0.0.0.0 198.51.100.1 198.51.100.2 down\n\
interface 1 0.0.0.0 198.51.100.1 198.51.100.2 up\n\
flush 0.0.0.1 1 10.0.0.1 10.0.0.1\n\
purge 0.0.0.1 1 10.0.0.1 10.0.0.1\n";

fn opened(rt: &HostRuntime, text: &str) -> Result<(Core, Vec<Event>), Fail> {
    let (config, events) = events_of(rt.alloc(), text)?;
    let core = Core::open(rt.alloc(), config, RandomState::new(rt)?)?;
    Ok((core, events))
}

// Returns the text of the reply or refusal, with the number of networks.
fn printed(alloc: Global, answer: Result<Reply, Refusal>, networks: usize) -> Result<String, Fail> {
    let text = match answer {
        Ok(reply) => format!(in alloc; "{} {} {}\n", reply.serial, reply.changed, networks)?,
        Err(refusal) => format!(in alloc; "{}\n", refusal)?,
    };
    Ok(text)
}

fn answers(rt: &HostRuntime, text: &str) -> Result<String, Fail> {
    let (mut core, events) = opened(rt, text)?;
    let mut all = String::new(rt.alloc());
    for event in events {
        let answer = core.apply(event);
        let line = printed(rt.alloc(), answer, networks_of(core.table()))?;
        all.push_str(line.as_str())?;
    }
    Ok(all)
}

#[test]
fn what_no_longer_counts_changes_nothing(rt: HostRuntime) -> Result<(), Fail> {
    let aged = answers(&rt, AGED)?;
    let flushed = answers(&rt, FLUSHED)?;
    let right = aged.as_str()
        == "1 true 0\n2 true 1\n26 NotMaxAge\n3 true 0\n4 false 0\n5 false 0\n";
    assert!(rt;
        right
            && flushed.as_str()
                == "1 true 0\n2 true 1\n3 true 1\n25 NotOwn\n24 NoLsa\n4 true 0\n5 false 0\n"
    );
    Ok(())
}

// Returns true if the core is current after the event, and has built nothing since it was opened.
fn is_followed(core: &mut Core, event: Event) -> bool {
    match core.apply(event) {
        Ok(reply) => reply.state == Status::Current && core.build_count() == 1,
        Err(_) => false,
    }
}

#[test]
fn each_event_is_followed(rt: HostRuntime) -> Result<(), Fail> {
    let (mut core, events) = opened(&rt, ALL)?;
    let mut are_followed = true;
    for event in events {
        are_followed &= is_followed(&mut core, event);
    }
    assert!(rt; are_followed && core.built() == 23);
    Ok(())
}
