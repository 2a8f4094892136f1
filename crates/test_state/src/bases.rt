//! States that are made from bases, and bases with a fault.

use crate::events::{BACKBONE, EXTERNAL, OTHER, ROOT, STUB, configured, install, sizes};
use event_state::{Base, BaseFault, EntryFault, Event, Limits, State, fault_in_base};
use lsa_codec::Checked;
use ospf_types::config::Interface;
use ospf_types::key::Scope;
use ospf_types::listed::Listed;
use std::alloc::Global;
use std::hash::RandomState;
use std::test::*;

fn lsa(alloc: Global, bytes: &[u8], router: u32) -> Result<Checked, Fail> {
    match install(alloc, bytes, router, 7, 1)? {
        Event::Install { lsa, .. } => Ok(lsa),
        _ => Err("an LSA")?,
    }
}

fn interface(area: u32, address: u32, up: bool) -> Interface {
    Interface {
        area,
        address,
        peer: 0,
        up,
    }
}

// Returns a base at serial 7, with these interfaces, and an LSA in each of these scopes.
fn base(
    alloc: Global,
    interfaces: &[(u8, Interface)],
    lsas: &[(Scope, u32)],
) -> Result<Base, Fail> {
    let mut listed = Listed::new(alloc);
    for (scope, router) in lsas {
        let bytes = match scope {
            Scope::Area(_) => STUB,
            Scope::As => EXTERNAL,
        };
        listed.push((*scope, lsa(alloc, &bytes, *router)?))?;
    }
    Ok(Base {
        config: configured(alloc)?,
        serial: 7,
        interfaces: Listed::from_slice(alloc, interfaces)?,
        lsas: listed,
    })
}

#[test]
fn a_state_goes_on_from_its_base(rt: HostRuntime) -> Result<(), Fail> {
    let alloc = rt.alloc();
    let lsas = [(Scope::As, OTHER), (BACKBONE, OTHER), (BACKBONE, ROOT)];
    let first = base(alloc, &[(2, interface(1, 9, true))], &lsas)?;
    let limits = Limits::STANDARD;
    if let Some(fault) = fault_in_base(alloc, &first, limits)? {
        return Err(fault)?;
    }
    let mut state = State::from_base(alloc, first, limits, RandomState::new(&rt)?)?;
    let made = sizes(&state) == (0, 2, 1) && state.serial() == 7;
    let told = state.step(Event::Second)? == (8, false) && sizes(&state) == (1, 2, 1);
    let copy = state.base().copy(alloc)?;
    assert!(rt; made && told && copy.serial == 7 && copy.lsas.len() == 3);
    Ok(())
}

#[test]
fn a_fault_of_a_base_is_the_first(rt: HostRuntime) -> Result<(), Fail> {
    let alloc = rt.alloc();
    let (one, two) = (interface(0, 9, true), interface(0, 9, false));
    let outside = interface(7, 8, true);
    let here = (BACKBONE, ROOT);
    let few = Limits {
        area_lsas: 1,
        ..Limits::STANDARD
    };
    let twice = base(alloc, &[(1, outside), (1, one)], &[])?;
    let doubled = base(alloc, &[(1, outside)], &[here, (Scope::As, OTHER), here])?;
    let lost = base(alloc, &[(1, outside)], &[])?;
    let full = base(alloc, &[], &[here, (BACKBONE, OTHER)])?;
    let shared = base(alloc, &[(1, one), (2, two), (3, one)], &[here])?;
    let apart = base(alloc, &[(1, one), (2, two)], &[here])?;
    let found = fault_in_base(alloc, &twice, few)? == Some(BaseFault::Doubled)
        && fault_in_base(alloc, &doubled, few)? == Some(BaseFault::Doubled)
        && fault_in_base(alloc, &lost, few)? == Some(BaseFault::EntryFault(EntryFault::NoArea))
        && fault_in_base(alloc, &full, few)? == Some(BaseFault::EntryFault(EntryFault::Full))
        && fault_in_base(alloc, &shared, few)?
            == Some(BaseFault::EntryFault(EntryFault::AddressTaken));
    assert!(rt; found && fault_in_base(alloc, &apart, few)?.is_none());
    Ok(())
}
