//! A choice of the least key, with all items offered at it.
use route_choice::Best;
use std::test::Fail;

#[test]
fn the_least_key_keeps_all_its_items_in_order(rt: HostRuntime) -> Result<(), Fail> {
    let mut best = Best::new(rt.alloc());
    for (cost, item) in [(9u32, 30u32), (5, 71), (6, 1), (5, 70), (5, 71)] {
        best.offer(cost, item)?;
    }
    let choice = best.into_choice().ok_or("a choice")?;
    let five = *choice.key() == 5;
    let (cost, items) = choice.into_parts();
    assert!(rt; five && cost == 5 && items.as_slice() == [70, 71].as_slice());
    Ok(())
}
