//! How many changes of the published table an event makes.

use crate::trial::{opened, published, taken};
use engine::Forwarder;
use std::test::Fail;
use test_core::{NETWORK, with_stubs};

// Returns the number of changes that made the table that is seen.
fn changes(forwarder: Forwarder) -> (Forwarder, Option<u64>) {
    match forwarder.lookup(0) {
        Ok(seen) => {
            let changes = seen.changes();
            (seen.leave(), Some(changes))
        }
        Err(unseen) => (unseen.into_forwarder(), None),
    }
}

// A hundred networks replace one, which makes 101 changes and one for the serial. Then one of them
// gets another cost, which makes one change and one for the serial.
#[test]
fn of_a_hundred_networks_one_is_published(rt: HostRuntime) -> Result<(), Fail> {
    let hundred = with_stubs(rt.alloc(), 2, 1)?;
    let dearer = with_stubs(rt.alloc(), 3, 7)?;
    let (engine, one, _two) = opened(&rt, NETWORK)?;
    let (one, first) = changes(one);
    let are_many = published(&rt, &engine, hundred).is_some();
    let (one, second) = changes(one);
    let is_one = published(&rt, &engine, dearer).is_some();
    let (_one, third) = changes(one);
    let count = taken(&rt, engine);
    let first = first.ok_or("a look")?;
    assert!(rt; are_many && is_one && count == 8);
    assert!(rt; second == first.checked_add(102) && third == first.checked_add(104));
    Ok(())
}
