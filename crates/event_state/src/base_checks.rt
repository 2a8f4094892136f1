//! The checks of a base before a state is made from it.
ghost use Rattle.std.specs.Prelude.{◌≡◌, true, None, IfErr, IfOk, length, is_none, nat_lt};
ghost use Rattle.std.specs.List.{list_any};
ghost use Rattle.ospf_types.specs.Configs.{config_fault_of};
ghost use Rattle.event_state.specs.Bases.{lsas_under};
ghost use Rattle.event_state.specs.BaseFaults.{base_fault_of, unfit_of, unfit_fault, is_doubled};
ghost use Rattle.event_state.specs.BaseFaults.{has_twice, is_same_id, is_same_place};
ghost use Rattle.event_state.specs.BaseFaults.{is_same_address, has_interface_outside};
ghost use Rattle.event_state.specs.BaseFaults.{has_lsa_outside, has_overfull_area, lacks_an_area};
ghost use Rattle.event_state.specs.BaseFaults.{is_overfull};
ghost use Rattle.event_state.specs.Ascending.{scoped_key, scoped_cmp, is_ascending};
ghost use Rattle.event_state.specs.Ascending.{is_before_first, ids_ascend, is_before_first_id};
ghost use Rattle.event_state.specs.Ascending.{is_ordered};
ghost use Rattle.event_state.specs.States.{place_of};
ghost use Rattle.event_state.specs.Steps.{is_out_of_scope};

use crate::base::Base;
use crate::base_fault::{BaseFault, EntryFault};
use crate::limits::Limits;
use crate::scopes::{is_out_of_scope, is_scope, place_of};
use lsa_codec::Checked;
use ospf_types::config::{AreaConfig, Interface};
use ospf_types::fault_in;
use ospf_types::key::{Key, Scope};
use ospf_types::memory::Memory;
use std::alloc::Global;
use std::cmp::Ordering;
use std::collections::BTreeSet;

// The scope and the key under which an LSA is listed.
#[derive(Clone, Copy, Debug, PartialEq, Eq, PartialOrd, Ord)]
struct ScopedKey {
    scope: Scope,
    key: Key,
}

impl ScopedKey {
    fn of(scope: Scope, lsa: &Checked) -> ScopedKey
        ensures { result ≡ scoped_key (scope, lsa.now) }
    {
        ScopedKey {
            scope,
            key: lsa.key(),
        }
    }

    fn compare(self, other: ScopedKey) -> Ordering
        ensures { result ≡ scoped_cmp self other }
    {
        self.cmp(&other)
    }
}

/// Returns true if the interfaces ascend by id, and the LSAs by scope, LS type, Link State ID and
/// Advertising Router. Then nothing is listed twice.
pub fn is_ordered(base: &Base) -> bool
    ensures { result ≡ is_ordered base.now }
{
    ids_ascend(base.interfaces.as_slice()) && is_ascending(base.lsas.as_slice())
}

/// Returns the first fault of an ordered base, or `None`. It allocates no memory.
pub fn fault_in_ordered(base: &Base, limits: Limits) -> Option<BaseFault>
    requires { is_ordered base.now ≡ true }
    ensures { result ≡ base_fault_of limits base.now }
{
    if let Some(fault) = fault_in(&base.config) {
        return Some(BaseFault::Config(fault));
    }
    as_fault(entry_fault_in(base, limits))
}

fn as_fault(unfit: Option<EntryFault>) -> Option<BaseFault>
    ensures { result ≡ unfit_fault unfit }
{
    match unfit {
        Some(unfit) => Some(BaseFault::EntryFault(unfit)),
        None => None,
    }
}

/// Returns the first fault of the base, or `None`. No memory is allocated if the base is ordered.
///
/// # Errors
///
/// Returns `Memory` if memory runs out. The configuration has no fault then.
pub fn fault_in_base(
    alloc: Global,
    base: &Base,
    limits: Limits,
) -> Result<Option<BaseFault>, Memory>
    ensures fault { IfOk result (λ fault. fault ≡ base_fault_of limits base.now) }
    ensures memory { IfErr result (λ _. config_fault_of base.now.config ≡ None) }
{
    if is_ordered(base) {
        return Ok(fault_in_ordered(base, limits));
    }
    if let Some(fault) = fault_in(&base.config) {
        return Ok(Some(BaseFault::Config(fault)));
    }
    if is_doubled(alloc, base)? {
        return Ok(Some(BaseFault::Doubled));
    }
    match entry_fault_in(base, limits) {
        Some(unfit) => Ok(Some(BaseFault::EntryFault(unfit))),
        None => Ok(None),
    }
}

// Returns true if an interface id, or a key in a scope, is listed twice. Scopes that are not
// configured count too.
fn is_doubled(alloc: Global, base: &Base) -> Result<bool, Memory>
    ensures { IfOk result (λ doubled. doubled ≡ is_doubled base.now) }
{
    if has_doubled_id(alloc, base.interfaces.as_slice())? {
        return Ok(true);
    }
    has_doubled_lsa(alloc, base.lsas.as_slice())
}

// Returns true if two interfaces have the same id.
fn has_doubled_id(alloc: Global, interfaces: &[(u8, Interface)]) -> Result<bool, Memory>
    ensures { IfOk result (λ doubled. doubled ≡ has_twice is_same_id interfaces.now) }
{
    let mut ids = BTreeSet::new(alloc);
    for (id, _) in interfaces {
        if !ids.insert(*id)? {
            return Ok(true);
        }
    }
    Ok(false)
}

// Returns true if two LSAs have the same scope and key.
fn has_doubled_lsa(alloc: Global, lsas: &[(Scope, Checked)]) -> Result<bool, Memory>
    ensures { IfOk result (λ doubled. doubled ≡ has_twice is_same_place lsas.now) }
{
    let mut places = BTreeSet::new(alloc);
    for (scope, lsa) in lsas {
        if !places.insert(ScopedKey::of(*scope, lsa))? {
            return Ok(true);
        }
    }
    Ok(false)
}

// Returns true if the interfaces ascend by id.
fn ids_ascend(interfaces: &[(u8, Interface)]) -> bool
    ensures { result ≡ ids_ascend interfaces.now }
{
    for i in 0..interfaces.len() {
        if !is_before_first_id(interfaces[i], &interfaces[i + 1..]) {
            return false;
        }
    }
    true
}

fn is_before_first_id(interface: (u8, Interface), interfaces: &[(u8, Interface)]) -> bool
    ensures { result ≡ is_before_first_id interface interfaces.now }
{
    match interfaces.first() {
        None => true,
        Some(next) => interface.0 < next.0,
    }
}

// Returns true if the LSAs ascend by scope and then by key.
fn is_ascending(lsas: &[(Scope, Checked)]) -> bool
    ensures { result ≡ is_ascending lsas.now }
{
    for i in 0..lsas.len() {
        if !is_before_first(&lsas[i], &lsas[i + 1..]) {
            return false;
        }
    }
    true
}

fn is_before_first(lsa: &(Scope, Checked), lsas: &[(Scope, Checked)]) -> bool
    ensures { result ≡ is_before_first lsa.now lsas.now }
{
    match lsas.first() {
        None => true,
        Some(next) => {
            ScopedKey::of(lsa.0, &lsa.1).compare(ScopedKey::of(next.0, &next.1)) == Ordering::Less
        }
    }
}

/// Returns the first fault of the base's interfaces and LSAs, or `None`.
///
/// Faults of the configuration come before it, and so does an id or key that is listed twice. This
/// function does not look for them.
pub fn entry_fault_in(base: &Base, limits: Limits) -> Option<EntryFault>
    ensures { result ≡ unfit_of limits base.now }
{
    if lacks_an_area(base) {
        Some(EntryFault::NoArea)
    } else if has_misplaced(base.lsas.as_slice()) {
        Some(EntryFault::Scope)
    } else if is_overfull(base, limits) {
        Some(EntryFault::Full)
    } else if has_shared_address(base.interfaces.as_slice()) {
        Some(EntryFault::AddressTaken)
    } else {
        None
    }
}

// Returns true if the area of an interface, or of an LSA's scope, is not configured.
fn lacks_an_area(base: &Base) -> bool
    ensures { result ≡ lacks_an_area base.now }
{
    let areas = base.config.areas.as_slice();
    has_interface_outside(areas, base.interfaces.as_slice())
        || has_lsa_outside(areas, base.lsas.as_slice())
}

fn has_interface_outside(areas: &[AreaConfig], interfaces: &[(u8, Interface)]) -> bool
    ensures { result ≡ has_interface_outside areas.now interfaces.now }
{
    interfaces
        .iter()
        .any(|listed| is_outside(areas, Scope::Area(listed.1.area)))
}

fn has_lsa_outside(areas: &[AreaConfig], lsas: &[(Scope, Checked)]) -> bool
    ensures { result ≡ has_lsa_outside areas.now lsas.now }
{
    lsas.iter().any(|listed| is_outside(areas, listed.0))
}

fn is_outside(areas: &[AreaConfig], scope: Scope) -> bool
    ensures { result ≡ is_none (place_of areas.now scope) }
{
    place_of(areas, scope).is_none()
}

// Returns true if an LSA is listed for a scope that it does not belong to.
fn has_misplaced(lsas: &[(Scope, Checked)]) -> bool
    ensures { result ≡ list_any (λ x. is_out_of_scope x.0 x.1.header.kind) lsas.now }
{
    lsas.iter().any(|listed| is_misplaced(listed.0, &listed.1))
}

fn is_misplaced(scope: Scope, lsa: &Checked) -> bool
    ensures { result ≡ is_out_of_scope scope lsa.now.header.kind }
{
    is_out_of_scope(scope, lsa.header().kind)
}

// Returns true if a configured scope has more LSAs than it may have. A configuration without faults
// has at most 16 areas.
fn is_overfull(base: &Base, limits: Limits) -> bool
    ensures { result ≡ is_overfull limits base.now }
{
    let lsas = base.lsas.as_slice();
    has_overfull_area(base.config.areas.as_slice(), lsas, limits.area_lsas)
        || is_more(count_under(lsas, Scope::As), limits.externals)
}

fn has_overfull_area(areas: &[AreaConfig], lsas: &[(Scope, Checked)], most: u32) -> bool
    ensures { result ≡ has_overfull_area areas.now lsas.now most }
{
    areas.iter().any(|area| is_more(count_under(lsas, Scope::Area(area.id)), most))
}

fn is_more(count: usize, most: u32) -> bool
    ensures { result ≡ nat_lt most count }
{
    count as u64 > u64::from(most)
}

// Returns the number of LSAs of the scope.
fn count_under(lsas: &[(Scope, Checked)], scope: Scope) -> usize
    ensures { result ≡ length (lsas_under lsas.now scope) }
{
    let mut count = 0;
    for (other, _) in lsas {
        count += usize::from(is_scope(scope, *other));
    }
    count
}

// Returns true if two interfaces that are up have the same address. There are at most 256
// interfaces if no id is listed twice.
fn has_shared_address(interfaces: &[(u8, Interface)]) -> bool
    ensures { result ≡ has_twice is_same_address interfaces.now }
{
    for i in 0..interfaces.len() {
        if shares_address(interfaces[i], &interfaces[i + 1..]) {
            return true;
        }
    }
    false
}

fn shares_address(one: (u8, Interface), others: &[(u8, Interface)]) -> bool
    ensures { result ≡ list_any (is_same_address one) others.now }
{
    others.iter().any(|other| is_same_address(one, *other))
}

fn is_same_address(one: (u8, Interface), other: (u8, Interface)) -> bool
    ensures { result ≡ is_same_address one other }
{
    one.1.up && other.1.up && one.1.address == other.1.address
}
