//! Results by key, of which `follow` recomputes those that may be out of date.
use ospf_types::memory::Memory;
use route_choice::{Choose, ResultMap};
use std::alloc::Global;
use std::hash::RandomState;
use std::test::*;

// A choice that gives a result only to this key.
struct Only {
    key: u32,
    value: u32,
}

impl Choose<u32, u32> for Only {
    ghost use Rattle.std.specs.Prelude.{◌≡◌, ◌==◌, Some, None, if◌then◌else◌};

    ghost IsChosen = { λ only key fresh. fresh ≡ (if key == only.key then Some only.value else None) };

    fn choose(
        &self,
        _alloc: Global,
        key: u32,
        _standing: Option<&u32>,
    ) -> Result<Option<u32>, Memory> {
        if key == self.key {
            Ok(Some(self.value))
        } else {
            Ok(None)
        }
    }
}

#[test]
fn results_follow_and_those_that_differ_are_told(rt: HostRuntime) -> Result<(), Fail> {
    let alloc = rt.alloc();
    let mut results = ResultMap::new(alloc, RandomState::new(&rt)?);
    let first = results.follow(
        alloc,
        Vec::from_slice(alloc, &[7, 7])?,
        &Only { key: 7, value: 1 },
    )?;
    let then = results.follow(
        alloc,
        Vec::from_slice(alloc, &[9, 7, 9])?,
        &Only { key: 9, value: 2 },
    )?;
    let again = results.follow(
        alloc,
        Vec::from_slice(alloc, &[9])?,
        &Only { key: 9, value: 2 },
    )?;
    let told = first.as_slice() == [7].as_slice() && then.as_slice() == [7, 9].as_slice();
    let kept = results.keys(alloc)?.as_slice() == [9].as_slice() && results.get(9) == Some(&2);
    let anew = !results.update(9, Some(2))? && results.update(9, None)?;
    assert!(rt; told && again.is_empty() && kept && anew && results.get(9).is_none());
    Ok(())
}
