//! The router's interfaces by their ids.
ghost use Rattle.std.specs.Prelude.{◌≡◌, false, OnOk, OnErr, IfOk};
ghost use Rattle.std.specs.List.{list_any};
ghost use Rattle.std.specs.Ordering.{nat_cmp};
ghost use Rattle.std.specs.BTreeMap.{IsOrdered};
ghost use Rattle.event_state.specs.Bases.{interfaces_in};
ghost use Rattle.event_state.specs.BaseFaults.{has_twice, is_same_id};
ghost use Rattle.event_state.specs.States.{interfaces_of, PutsInterface, TellsInterface};
ghost use Rattle.event_state.specs.Steps.{has_address};

use ospf_types::config::Interface;
use ospf_types::memory::Memory;
use std::alloc::Global;
use std::collections::BTreeMap;

// Returns true if another interface that is up has the address.
pub(crate) fn is_address_taken(interfaces: &BTreeMap<u8, Interface>, id: u8, address: u32) -> bool
    ensures value { result ≡ list_any (has_address id address) interfaces.now.entries }
    ensures in_order { IsOrdered nat_cmp interfaces.now }
{
    interfaces.iter().any(|(other, interface)| *other != id
        && interface.up
        && interface.address == address)
}

// Sets the interface in place of the previous one with this id. Returns true if it differs.
pub(crate) fn put_interface(
    interfaces: &mut BTreeMap<u8, Interface>,
    id: u8,
    interface: Interface,
) -> Result<bool, Memory>
    ensures unchanged { OnErr result (interfaces.new.entries ≡ interfaces.old.entries) }
    ensures done { OnOk result (PutsInterface interfaces.old interfaces.new id interface) }
    ensures changed { IfOk result (TellsInterface interfaces.old id interface) }
{
    match interfaces.insert(id, interface)? {
        None => Ok(true),
        Some(before) => Ok(before != interface),
    }
}

// Returns a map of the listed interfaces by their ids.
pub(crate) fn by_id(
    alloc: Global,
    interfaces: &[(u8, Interface)],
) -> Result<BTreeMap<u8, Interface>, Memory>
    requires { has_twice is_same_id interfaces.now ≡ false }
    ensures { IfOk result (λ tree. interfaces_of tree ≡ interfaces_in interfaces.now) }
{
    let mut tree = BTreeMap::new(alloc);
    for (id, interface) in interfaces {
        put_interface(&mut tree, *id, *interface)?;
    }
    Ok(tree)
}
