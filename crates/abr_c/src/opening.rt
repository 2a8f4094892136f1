//! Opening and closing of cores.
//!
//! A call that opens returns 0 or the number of a fault. The core that was open before is closed in
//! either case.
ghost use Rattle.std.specs.Prelude.{◌≡◌, ◌≤◌, None, IfOk, IfErr, OnOk, length};
ghost use Rattle.event_state.specs.BaseFaults.{base_fault_of};
ghost use Rattle.event_state.specs.Steps.{standard_limits};
ghost use Rattle.event_core.specs.Cores.{IsCore, IsOpening};
ghost use Rattle.abr_c.specs.Opening.{OpensCore, OpensBase, SaysBase, SaysConfig, IsBaseRefusal};
ghost use Rattle.abr_c.specs.Opening.{IsConfigRefusal, IsSeedRefusal};
ghost use Rattle.abr_c.specs.Slots.{core_in};

use crate::numbers::{MEMORY, ORDER, fault_number};
use crate::seed::hashing_of;
use crate::slot::Slot;
use event_core::{Base, Core, Limits};
use recording::parse;
use std::alloc::Global;

/// Opens a core with the configuration in the text.
#[unsafe(no_mangle)]
pub extern "C" fn abr_open_bytes(alloc: Global, config: &[u8], seed: &[u8], out: &mut Slot) -> u32
    ensures { OpensCore (SaysConfig config.now) (IsConfigRefusal config.now) seed.now result
        (core_in out.new) }
{
    let base = match config_in(alloc, config) {
        Ok(base) => base,
        Err(number) => return refuse(alloc, number, out),
    };
    open(alloc, base, seed, out)
}

/// Opens a core with the base in the text.
#[unsafe(no_mangle)]
pub extern "C" fn abr_open_base_bytes(
    alloc: Global,
    base: &[u8],
    seed: &[u8],
    out: &mut Slot,
) -> u32
    ensures { OpensCore (SaysBase base.now) (IsBaseRefusal base.now) seed.now result
        (core_in out.new) }
{
    let base = match base_in(alloc, base) {
        Ok(base) => base,
        Err(number) => return refuse(alloc, number, out),
    };
    open(alloc, base, seed, out)
}

/// Closes the core, if there is one.
#[unsafe(no_mangle)]
pub extern "C" fn abr_close(slot: Slot) {
    drop(slot);
}

// Opens a core with the base.
fn open(alloc: Global, base: Base, seed: &[u8], out: &mut Slot) -> u32
    requires { base_fault_of standard_limits base ≡ None }
    ensures { OpensBase base seed.now result (core_in out.new) }
{
    let core = match core_of(alloc, base, seed) {
        Ok(core) => core,
        Err(number) => return refuse(alloc, number, out),
    };
    out.put(core);
    0
}

// Opens no core, and closes the one that was open. Returns the number.
fn refuse(alloc: Global, number: u32, out: &mut Slot) -> u32
    ensures number { result ≡ number }
    ensures none { core_in out.new ≡ None }
{
    *out = Slot::none(alloc);
    number
}

// Parses the text as a configuration. Returns the number of its fault.
fn config_in(alloc: Global, text: &[u8]) -> Result<Base, u32>
    ensures says { IfOk result (SaysConfig text.now) }
    ensures sound { IfOk result (λ base. base_fault_of standard_limits base ≡ None) }
    ensures refused { IfErr result (IsConfigRefusal text.now) }
{
    let base = base_in(alloc, text)?;
    if base.has_config_only() {
        Ok(base)
    } else {
        Err(ORDER)
    }
}

// Parses the text as a base. Returns the number of its fault.
fn base_in(alloc: Global, text: &[u8]) -> Result<Base, u32>
    ensures says { IfOk result (SaysBase text.now) }
    ensures sound { IfOk result (λ base. base_fault_of standard_limits base ≡ None) }
    ensures refused { IfErr result (IsBaseRefusal text.now) }
{
    let recording = match parse(alloc, text) {
        Ok(recording) => recording,
        Err(fault) => return Err(fault_number(fault.fault)),
    };
    let (_, base, lines) = recording.into_parts();
    if lines.is_empty() {
        Ok(base)
    } else {
        Err(ORDER)
    }
}

// Creates a core with the base. The seed gives the keys of its hash maps.
fn core_of(alloc: Global, base: Base, seed: &[u8]) -> Result<Box<Core>, u32>
    requires { base_fault_of standard_limits base ≡ None }
    ensures opens { IfOk result (λ core. IsOpening base standard_limits core.value) }
    ensures kept { IfOk result (λ core. IsCore core.value) }
    ensures long { OnOk result (16 ≤ length seed.now) }
    ensures refused { IfErr result (IsSeedRefusal seed.now) }
{
    let hashing = hashing_of(seed)?;
    let Ok(core) = Core::open_with_limits(alloc, base, Limits::STANDARD, hashing) else {
        return Err(MEMORY);
    };
    match Box::new(alloc, core) {
        Ok(core) => Ok(core),
        Err(_) => Err(MEMORY),
    }
}
