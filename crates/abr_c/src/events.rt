//! Events, catching up and rolling.
//!
//! Each call returns the number of its outcome: 0 Current, 11 Behind, or the number of a fault or a
//! refusal.
ghost use Rattle.std.specs.Prelude.{◌≡◌, option_map};
ghost use Rattle.event_state.specs.declared.event.Event.TheVariants as event_value;
ghost use Rattle.abr_c.specs.CTypes.{key_of, network_in, scope_of};
ghost use Rattle.abr_c.specs.Told.{CatchesUp, IsCallAnswered, IsEventAnswered, IsToldIf, Installs, RollsTo};
ghost use Rattle.abr_c.specs.Slots.{core_in};

use crate::c_types::{CKey, CPrefix, CScope};
use crate::numbers::{NO_CORE, NO_PREFIX, refusal_number, status_number, wire_number};
use crate::slot::{Slot, with_core};
use event_core::{Core, Event};
use std::alloc::Global;

/// Installs an LSA in the database of its scope.
#[unsafe(no_mangle)]
pub extern "C" fn abr_install_bytes(
    alloc: Global,
    slot: &mut Slot,
    scope: CScope,
    lsa: &[u8],
) -> u32
    ensures { Installs (scope_of scope) lsa.now (core_in slot.old) result (core_in slot.new) }
{
    let scope = scope.scope();
    let lsa = match lsa_codec::read(alloc, lsa) {
        Ok(lsa) => lsa,
        Err(fault) => return wire_number(fault),
    };
    apply(alloc, slot, Event::Install { scope, lsa })
}

/// Flushes one of the router's own LSAs: it is aged prematurely.
#[unsafe(no_mangle)]
pub extern "C" fn abr_flush(alloc: Global, slot: &mut Slot, scope: CScope, key: CKey) -> u32
    ensures { IsEventAnswered (event_value.Flush (scope_of scope) (key_of key)) (core_in slot.old) result
        (core_in slot.new) }
{
    let (scope, key) = (scope.scope(), key.key());
    apply(alloc, slot, Event::Flush { scope, key })
}

/// Removes an LSA at MaxAge from its database.
#[unsafe(no_mangle)]
pub extern "C" fn abr_purge(alloc: Global, slot: &mut Slot, scope: CScope, key: CKey) -> u32
    ensures { IsEventAnswered (event_value.Purge (scope_of scope) (key_of key)) (core_in slot.old) result
        (core_in slot.new) }
{
    let (scope, key) = (scope.scope(), key.key());
    apply(alloc, slot, Event::Purge { scope, key })
}

/// Sets the interface with the id. Addresses and the Area ID are in host order.
#[unsafe(no_mangle)]
pub extern "C" fn abr_interface(
    alloc: Global,
    slot: &mut Slot,
    id: u8,
    area: u32,
    address: u32,
    peer: u32,
    up: bool,
) -> u32
    ensures { IsEventAnswered (event_value.Interface id area address peer up) (core_in slot.old) result
        (core_in slot.new) }
{
    let event = Event::Interface {
        id,
        area,
        address,
        peer,
        up,
    };
    apply(alloc, slot, event)
}

/// Configures an area address range, or replaces the one with its prefix.
#[unsafe(no_mangle)]
pub extern "C" fn abr_range_set(
    alloc: Global,
    slot: &mut Slot,
    area: u32,
    prefix: CPrefix,
    advertise: bool,
) -> u32
    ensures { IsToldIf (option_map (λ p. event_value.RangeSet area p advertise) (network_in prefix))
        (core_in slot.old) result (core_in slot.new) }
{
    let Some(prefix) = prefix.network() else {
        return NO_PREFIX;
    };
    let event = Event::RangeSet {
        area,
        prefix,
        advertise,
    };
    apply(alloc, slot, event)
}

/// Removes an area address range from the configuration.
#[unsafe(no_mangle)]
pub extern "C" fn abr_range_drop(alloc: Global, slot: &mut Slot, area: u32, prefix: CPrefix) -> u32
    ensures { IsToldIf (option_map (λ p. event_value.RangeDrop area p) (network_in prefix))
        (core_in slot.old) result (core_in slot.new) }
{
    let Some(prefix) = prefix.network() else {
        return NO_PREFIX;
    };
    apply(alloc, slot, Event::RangeDrop { area, prefix })
}

/// Lets a second pass.
#[unsafe(no_mangle)]
pub extern "C" fn abr_second(alloc: Global, slot: &mut Slot) -> u32
    ensures { IsEventAnswered event_value.Second (core_in slot.old) result (core_in slot.new) }
{
    apply(alloc, slot, Event::Second)
}

/// Rebuilds the table and the due summary-LSAs, if they are behind.
#[unsafe(no_mangle)]
pub extern "C" fn abr_catch_up(alloc: Global, slot: &mut Slot) -> u32
    ensures { CatchesUp (core_in slot.old) result (core_in slot.new) }
{
    with_core!(
        alloc,
        slot,
        NO_CORE,
        |mut core| status_number(core.catch_up())
    )
}

/// Makes the present state the base, and empties the journal.
#[unsafe(no_mangle)]
pub extern "C" fn abr_roll(alloc: Global, slot: &mut Slot) -> u32
    ensures { RollsTo (core_in slot.old) result (core_in slot.new) }
{
    with_core!(alloc, slot, NO_CORE, |mut core| match core.roll() {
        Ok(_) => 0,
        Err(refusal) => refusal_number(refusal),
    })
}

// Applies the event to the core. Returns the number of its outcome.
fn apply(alloc: Global, slot: &mut Slot, event: Event) -> u32
    ensures { IsEventAnswered event (core_in slot.old) result (core_in slot.new) }
{
    with_core!(alloc, slot, NO_CORE, |mut core| answer(&mut core, event))
}

fn answer(core: &mut Core, event: Event) -> u32
    ensures { IsCallAnswered event core.old result core.new }
{
    match core.apply(event) {
        Ok(reply) => status_number(reply.state),
        Err(refusal) => refusal_number(refusal),
    }
}
