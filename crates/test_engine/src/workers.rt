//! Workers on one engine: the tokens that they get, the tables that their forwarders see, and the
//! journal of their events.
ghost use Rattle.std.specs.Prelude.{◌≡◌, IfSome};

use crate::trial::{BORDER, ROOT, install_of, look, opened, published, taken};
use engine::{Core, Engine, Forwarder, Told};
use ospf_types::memory::Memory;
use std::alloc::Global;
use std::hash::RandomState;
use std::sync::Wait;
use std::test::Fail;
use std::thread::{Threads, join};
use test_core::{items, networks_of};

// A forwarder, the serials of its tokens, and the serial that it saw last.
#[derive(Drop)]
pub struct Watch {
    forwarder: Forwarder,
    told: Vec<u64>,
    last: u64,
}

impl Watch {
    // Learns a token, and looks an address up. Returns `None` if the table is older than the
    // token's, or older than the table before.
    fn learn(self, token: Told) -> Option<Watch>
        requires { token.name ≡ self.forwarder.name }
        ensures { IfSome result (λ w. w.forwarder.name ≡ self.forwarder.name) }
    {
        let Watch {
            forwarder,
            mut told,
            last,
        } = self;
        let serial = token.serial();
        told.push(serial).ok()?;
        let (forwarder, seen) = look(forwarder.learn(token));
        let seen = seen?;
        if seen < serial || seen < last {
            return None;
        }
        let last = seen;
        Some(Watch {
            forwarder,
            told,
            last,
        })
    }
}

// Submits copies of `count` installs, and looks an address up after each.
fn watches<R: Wait + AllocGlobal>(
    rt: &R,
    engine: &Engine,
    forwarder: Forwarder,
    worker: u8,
    count: u8,
) -> Option<Watch>
    requires { forwarder.name ≡ engine.now }
    ensures { IfSome result (λ w. w.forwarder.name ≡ engine.now) }
{
    let (told, last) = (Vec::new(rt.alloc()), 0);
    let mut watch = Watch {
        forwarder,
        told,
        last,
    };
    for number in 0..count {
        let event = install_of(rt.alloc(), worker, number)?;
        let copy = event.copy(rt.alloc()).ok()?;
        watch = watch.learn(published(rt, engine, copy)?)?;
    }
    Some(watch)
}

// Submits 250 installs, and returns the token of the last one.
fn tells<R: Wait + AllocGlobal>(rt: &R, engine: &Engine, worker: u8) -> Option<Told>
    ensures { IfSome result (λ t. t.name ≡ engine.now) }
{
    let mut last = None;
    for number in 0..250 {
        let event = install_of(rt.alloc(), worker, number)?;
        last = Some(published(rt, engine, event)?);
    }
    last
}

// Runs the workers 1 and 2, with a forwarder each.
pub fn two_watch<R: Threads + Wait + Sync + AllocGlobal>(
    rt: &R,
    engine: &Engine,
    one: Forwarder,
    two: Forwarder,
    count: u8,
) -> (Option<Watch>, Option<Watch>)
    requires { (one.name ≡ engine.now) × (two.name ≡ engine.now) }
    ensures one { IfSome result.0 (λ w. w.forwarder.name ≡ engine.now) }
    ensures two { IfSome result.1 (λ w. w.forwarder.name ≡ engine.now) }
{
    join(
        rt,
        move || watches(rt, engine, one, 1, count),
        move || watches(rt, engine, two, 2, count),
    )
}

// Runs the workers 0 and 3, without forwarders.
fn two_tell<R: Threads + Wait + Sync + AllocGlobal>(
    rt: &R,
    engine: &Engine,
) -> (Option<Told>, Option<Told>)
    ensures one { IfSome result.0 (λ t. t.name ≡ engine.now) }
    ensures two { IfSome result.1 (λ t. t.name ≡ engine.now) }
{
    join(
        rt,
        move || tells(rt, engine, 0),
        move || tells(rt, engine, 3),
    )
}

// Returns true if these are the serials 1 to 200, without duplicates.
fn are_all(serials: &mut Vec<u64>) -> bool {
    serials.sort_unstable();
    let mut all = serials.len() == 200;
    for (place, serial) in serials.iter().enumerate() {
        all &= *serial == place as u64 + 1;
    }
    all
}

pub fn are_told_all(one: Watch, two: Watch) -> bool {
    let mut serials = one.told;
    serials.extend_from_slice(&two.told).is_ok() && are_all(&mut serials)
}

#[test]
fn two_workers_are_told_each_serial_once(rt: HostRuntime) -> Result<(), Fail> {
    let (engine, one, two) = opened(&rt, ROOT)?;
    let (one, two) = two_watch(&rt, &engine, one, two, 100);
    let count = taken(&rt, engine);
    let right = match (one, two) {
        (Some(one), Some(two)) => are_told_all(one, two),
        _ => false,
    };
    assert!(rt; right && count == 200);
    Ok(())
}

// Returns true if the forwarder sees the events of the token after it learns the token.
fn learns(engine: &Engine, watch: Option<Watch>, token: Option<Told>) -> bool
    requires watch { IfSome watch (λ w. w.forwarder.name ≡ engine.now) }
    requires token { IfSome token (λ t. t.name ≡ engine.now) }
{
    let _engine = engine;
    match (watch, token) {
        (Some(watch), Some(token)) => watch.learn(token).is_some(),
        _ => false,
    }
}

// Runs four workers, each of which submits 250 installs. Then each forwarder learns the last token
// of a worker without a forwarder.
fn thousand<R: Threads + Wait + Sync + AllocGlobal>(
    rt: &R,
    engine: &Engine,
    one: Forwarder,
    two: Forwarder,
) -> bool
    requires { (one.name ≡ engine.now) × (two.name ≡ engine.now) }
{
    let (watches, tokens) = join(
        rt,
        move ||
            requires { (one.name ≡ engine.now) × (two.name ≡ engine.now) }
        { two_watch(rt, engine, one, two, 250) },
        move || two_tell(rt, engine),
    );
    learns(engine, watches.0, tokens.0) && learns(engine, watches.1, tokens.1)
}

// Returns a core to which the same events were applied.
fn replayed(alloc: Global, hashing: RandomState, core: &Core) -> Result<Core, Fail> {
    let mut events = Vec::new(alloc);
    for event in core.journal() {
        events.push(event.copy(alloc)?)?;
    }
    let mut other = Core::open(alloc, core.config().copy(alloc)?, hashing)?;
    drop(other.run(events)?);
    Ok(other)
}

// Returns true if the databases are the same.
fn have_same_lsas(one: &Core, two: &Core) -> Result<bool, Memory> {
    let (one, two) = (one.lsas()?, two.lsas()?);
    let mut all = one.len() == two.len();
    for ((scope, lsa), (other_scope, other)) in one.iter().zip(&two) {
        all &= scope == other_scope && lsa.header() == other.header() && lsa.body() == other.body();
    }
    Ok(all)
}

// Returns true if a core with the same events has the same items and LSAs, and a network for each
// summary-LSA of three workers.
fn is_replayed(alloc: Global, hashing: RandomState, core: &Core) -> Result<bool, Fail> {
    let other = replayed(alloc, hashing, core)?;
    let (one, two) = (items(alloc, core)?, items(alloc, &other)?);
    let are_same = one.as_str() == two.as_str() && have_same_lsas(core, &other)?;
    Ok(are_same && networks_of(other.table()) == 750)
}

#[test]
fn four_workers_and_their_journal_replayed(rt: HostRuntime) -> Result<(), Fail> {
    let (engine, one, two) = opened(&rt, BORDER)?;
    let right = thousand(&rt, &engine, one, two);
    let core = engine.close(&rt);
    let count = core.journal().len();
    let hashing = RandomState::new(&rt)?;
    // Four events were taken before the events of the workers.
    assert!(rt; right && count == 1004 && is_replayed(rt.alloc(), hashing, &core)?);
    Ok(())
}
