//! The base: the state before the first event of the journal.
ghost use Rattle.std.specs.Prelude.{◌≡◌, Some, length, option_map, slice_get};
ghost use Rattle.abr_c.specs.CTypes as c;
ghost use Rattle.abr_c.specs.Given.{IsOutputGiven};
ghost use Rattle.abr_c.specs.Slots.{core_in};
ghost use Rattle.abr_c.specs.Views.{GivesLsa, GivesText, GivesTextOf, base_serial_in, interface_at};
ghost use Rattle.abr_c.specs.Views.{interfaces_in, lsa_at, lsas_in};

use crate::c_types::{CInterface, CScope};
use crate::given::{give, write_bytes};
use crate::lsas::write_lsa;
use crate::slot::{Slot, with_core};
use event_state::Base;
use lsa_codec::Checked;
use ospf_types::config::Interface;
use ospf_types::key::Scope;
use recording::{Version, append_preamble};
use std::alloc::Global;

/// Returns the serial of the base, or 0 if no core is open.
#[unsafe(no_mangle)]
pub extern "C" fn abr_base_serial(alloc: Global, slot: &mut Slot) -> u64
    ensures value { result ≡ base_serial_in (core_in slot.old) }
    ensures kept { core_in slot.new ≡ core_in slot.old }
{
    with_core!(alloc, slot, 0, |core| core.base().serial)
}

/// Returns the number of interfaces of the base.
#[unsafe(no_mangle)]
pub extern "C" fn abr_base_interfaces(alloc: Global, slot: &mut Slot) -> usize
    ensures count { result ≡ length (interfaces_in (core_in slot.old)) }
    ensures kept { core_in slot.new ≡ core_in slot.old }
{
    with_core!(alloc, slot, 0, |core| core.base().interfaces.len())
}

/// Writes interface number `n` of the base to `out`. Returns true if there is one.
#[unsafe(no_mangle)]
pub extern "C" fn abr_base_interface_at(
    alloc: Global,
    slot: &mut Slot,
    n: usize,
    out: &mut CInterface,
) -> bool
    ensures given { IsOutputGiven (interface_at (core_in slot.old) n) result out.old out.new }
    ensures kept { core_in slot.new ≡ core_in slot.old }
{
    let interface = with_core!(
        alloc,
        slot,
        false,
        |core| interface_among(core.base().interfaces.as_slice(), n)
    );
    give(out, interface)
}

/// Returns the number of LSAs of the base.
#[unsafe(no_mangle)]
pub extern "C" fn abr_base_lsas(alloc: Global, slot: &mut Slot) -> usize
    ensures count { result ≡ length (lsas_in (core_in slot.old)) }
    ensures kept { core_in slot.new ≡ core_in slot.old }
{
    with_core!(alloc, slot, 0, |core| core.base().lsas.len())
}

/// Writes LSA number `n` of the base, with its scope. Returns its length, or 0 if there is none.
///
/// The bytes are written if there is room for all of them.
#[unsafe(no_mangle)]
pub extern "C" fn abr_base_lsa_bytes(
    alloc: Global,
    slot: &mut Slot,
    n: usize,
    scope: &mut CScope,
    lsa: &mut [u8],
) -> usize
    ensures given { GivesLsa (lsa_at (core_in slot.old) n) result scope.old scope.new lsa.old
        lsa.new }
    ensures kept { core_in slot.new ≡ core_in slot.old }
{
    with_core!(
        alloc,
        slot,
        0,
        |core| match core.base().lsas.as_slice().get(n) {
            Some(found) => give_lsa(found, scope, lsa),
            None => 0,
        }
    )
}

/// Writes the base as text, if there is room for all of it. Returns the length of the text, or 0 if
/// no core is open or memory runs out.
#[unsafe(no_mangle)]
pub extern "C" fn abr_base_text_bytes(alloc: Global, slot: &mut Slot, text: &mut [u8]) -> usize
    ensures given { GivesText (core_in slot.old) result text.old text.new }
    ensures kept { core_in slot.new ≡ core_in slot.old }
{
    with_core!(alloc, slot, 0, |core| give_text(alloc, core.base(), text))
}

fn give_lsa(found: &(Scope, Checked), scope: &mut CScope, out: &mut [u8]) -> usize
    ensures { GivesLsa (Some found.now) result scope.old scope.new out.old out.new }
{
    *scope = CScope::of(found.0);
    write_lsa(&found.1, out)
}

fn give_text(alloc: Global, base: &Base, out: &mut [u8]) -> usize
    ensures { GivesTextOf base.now result out.old out.new }
{
    let mut text = String::new(alloc);
    match append_preamble(alloc, Version::Three, base, &mut text) {
        Ok(()) => {
            write_bytes(out, text.as_bytes());
            text.len()
        }
        Err(_) => 0,
    }
}

fn interface_among(interfaces: &[(u8, Interface)], n: usize) -> Option<CInterface>
    ensures { result ≡ option_map c.interface_of (slice_get interfaces.now n) }
{
    let (id, interface) = interfaces.get(n)?;
    Some(CInterface {
        id: *id,
        up: interface.up,
        area: interface.area,
        address: interface.address,
        peer: interface.peer,
    })
}
