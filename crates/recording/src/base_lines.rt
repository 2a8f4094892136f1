//! The interfaces and LSAs of the base, read from `has` lines one by one.
ghost use Rattle.std.specs.Prelude.{◌≡◌, true, Ok, OnOk, IfOk, IfErr, is_none};
ghost use Rattle.std.specs.List.{list_any};
ghost use Rattle.hex.specs.Hex.{decode_of};
ghost use Rattle.event_state.specs.States.{place_of};
ghost use Rattle.recording.specs.Forms.{HasInterfaceLine};
ghost use Rattle.recording.specs.Places.{IsRowUnder, is_of_base, is_next_interface, last_of};
ghost use Rattle.recording.specs.Places.{is_past_id, is_past_place, has_address, place_cmp};
ghost use Rattle.recording.specs.Places.{unfit_interface, unfit_under};
ghost use Rattle.recording.specs.Left.{AddsForm, IsCounted};
ghost use Rattle.recording.specs.Progress.{IsFormTaken, IsTakenIf, IsFormRefusal};
ghost use Rattle.recording.specs.Reading.{said_by, bytes_of, has_lsa_line, HasDigits};
ghost use Rattle.recording.specs.Recordings.{AreByPlaces};

use crate::body::read_lsa;
use crate::fault::Fault;
use crate::form::LineForm;
use crate::header::add_to;
use event_state::{Base, EntryFault, Limits};
use lsa_codec::Checked;
use ospf_types::config::{AreaConfig, Interface};
use ospf_types::key::{Key, Scope};
use ospf_types::lsa::AS_EXTERNAL_LSA;
use std::alloc::Global;
use std::cmp::Ordering;

/// A base that is being read.
#[derive(Drop)]
pub(crate) struct BaseLines {
    /// The base so far.
    pub(crate) base: Base,
    /// The number of LSAs in the scope of the last LSA.
    pub(crate) row: usize,
    /// A buffer for the bytes of an LSA.
    pub(crate) room: Vec<u8>,
}

impl BaseLines {
    /// Adds the line to the base. Returns false if it is not a `has` line.
    pub(crate) fn add(&mut self, alloc: Global, form: &LineForm<'_>) -> Result<bool, Fault>
        requires digits { HasDigits form.now }
        requires counted { IsCounted self.old }
        requires ordered { AreByPlaces self.old.base.lsas }
        ensures base { IfOk result (λ added. added ≡ is_of_base (said_by form.now)) }
        ensures taken { IfOk result (λ added. IsTakenIf added self.old.base (said_by form.now)) }
        ensures new { OnOk result (AddsForm self.old self.new (said_by form.now)) }
        ensures counted { OnOk result (IsCounted self.new) }
        ensures fault { IfErr result (IsFormRefusal self.old.base (said_by form.now)) }
        ensures refused { IfErr result (λ _. is_of_base (said_by form.now) ≡ true) }
    {
        match form {
            LineForm::HasInterface { id, interface } => self.add_interface(*id, *interface),
            LineForm::HasLsa { scope, digits } => self.add_lsa(alloc, *scope, digits),
            _ => Ok(false),
        }
    }

    fn add_interface(&mut self, id: u8, interface: Interface) -> Result<bool, Fault>
        ensures base { IfOk result (λ added. added ≡ true) }
        ensures taken { OnOk result (IsFormTaken self.old.base (HasInterfaceLine id interface)) }
        ensures new { OnOk result (AddsForm self.old self.new (HasInterfaceLine id interface)) }
        ensures row { OnOk result (self.new.row ≡ self.old.row) }
        ensures fault { IfErr result (IsFormRefusal self.old.base (HasInterfaceLine id interface)) }
    {
        if !is_next_interface(&self.base, id) {
            return Err(Fault::Order);
        }
        let (areas, others) = (
            self.base.config.areas.as_slice(),
            self.base.interfaces.as_slice(),
        );
        if let Some(unfit) = unfit_interface(areas, others, interface) {
            return Err(Fault::Base(unfit));
        }
        add_to(&mut self.base.interfaces, (id, interface))?;
        Ok(true)
    }

    fn add_lsa(&mut self, alloc: Global, scope: Scope, digits: &[u8]) -> Result<bool, Fault>
        requires digits { decode_of digits.now ≡ Ok (bytes_of digits.now) }
        requires counted { IsCounted self.old }
        requires ordered { AreByPlaces self.old.base.lsas }
        ensures base { IfOk result (λ added. added ≡ true) }
        ensures taken { OnOk result (IsFormTaken self.old.base (has_lsa_line scope digits.now)) }
        ensures new { OnOk result (AddsForm self.old self.new (has_lsa_line scope digits.now)) }
        ensures counted { OnOk result (IsCounted self.new) }
        ensures fault { IfErr result (IsFormRefusal self.old.base (has_lsa_line scope digits.now)) }
    {
        let Some(row) = self.row_under(scope) else {
            return Err(Fault::Order);
        };
        let lsa = read_lsa(alloc, digits, &mut self.room)?;
        let key = lsa.key();
        if !is_past_place(self.base.lsas.as_slice(), scope, key) {
            return Err(Fault::Order);
        }
        if let Some(unfit) = unfit_under(self.base.config.areas.as_slice(), scope, key.kind, row) {
            return Err(Fault::Base(unfit));
        }
        add_to(&mut self.base.lsas, (scope, lsa))?;
        self.row = row + 1;
        Ok(true)
    }

    // Returns the number of LSAs of the scope, or `None` if the scope comes before the scope of the
    // last LSA.
    fn row_under(&self, scope: Scope) -> Option<usize>
        requires counted { IsCounted self.now }
        requires ordered { AreByPlaces self.now.base.lsas }
        ensures { IsRowUnder self.now.base.lsas scope result }
    {
        let Some(last) = self.base.lsas.as_slice().last() else {
            return Some(0);
        };
        match scope.compare(last.0) {
            Ordering::Less => None,
            Ordering::Equal => Some(self.row),
            Ordering::Greater => Some(0),
        }
    }
}

// Returns true if an interface with this id may be next: no LSA was read yet, and the id is greater
// than the last one.
fn is_next_interface(base: &Base, id: u8) -> bool
    ensures { result ≡ is_next_interface base.now.lsas base.now.interfaces id }
{
    is_first(base.lsas.as_slice()) && is_past_id(base.interfaces.as_slice(), id)
}

fn is_first(lsas: &[(Scope, Checked)]) -> bool
    ensures { result ≡ is_none (last_of lsas.now) }
{
    match lsas.last() {
        None => true,
        Some(_) => false,
    }
}

// Returns true if the id is greater than the id of the last interface.
fn is_past_id(interfaces: &[(u8, Interface)], id: u8) -> bool
    ensures { result ≡ is_past_id (last_of interfaces.now) id }
{
    match interfaces.last() {
        None => true,
        Some(last) => last.0 < id,
    }
}

// Returns true if the LSA may come after the last one.
fn is_past_place(lsas: &[(Scope, Checked)], scope: Scope, key: Key) -> bool
    ensures { result ≡ is_past_place (last_of lsas.now) (scope, key) }
{
    match lsas.last() {
        None => true,
        Some(last) => compare_places(last.0, last.1.key(), scope, key) == Ordering::Less,
    }
}

/// Compares LSAs by scope, and then by key.
pub(crate) fn compare_places(scope: Scope, key: Key, other: Scope, other_key: Key) -> Ordering
    ensures { result ≡ place_cmp (scope, key) (other, other_key) }
{
    scope.compare(other).then(key.compare(other_key))
}

// Returns the reason why no event could set this interface after the others.
fn unfit_interface(
    areas: &[AreaConfig],
    interfaces: &[(u8, Interface)],
    interface: Interface,
) -> Option<EntryFault>
    ensures { result ≡ unfit_interface areas.now interfaces.now interface }
{
    if lacks_area(areas, interface.area) {
        Some(EntryFault::NoArea)
    } else if shares_address(interfaces, interface) {
        Some(EntryFault::AddressTaken)
    } else {
        None
    }
}

fn lacks_area(areas: &[AreaConfig], id: u32) -> bool
    ensures { result ≡ is_none (place_of areas.now (Scope.Area id)) }
{
    place_of(areas, id).is_none()
}

fn place_of(areas: &[AreaConfig], id: u32) -> Option<usize>
    ensures { result ≡ place_of areas.now (Scope.Area id) }
{
    areas.iter().position(|area| area.id == id)
}

// Returns true if the interface and one of the others are up and have the same address.
fn shares_address(interfaces: &[(u8, Interface)], interface: Interface) -> bool
    ensures { result ≡ list_any (λ y. has_address interface y.1) interfaces.now }
{
    for i in 0..interfaces.len() {
        if has_address(interface, interfaces[i].1) {
            return true;
        }
    }
    false
}

fn has_address(interface: Interface, other: Interface) -> bool
    ensures { result ≡ has_address interface other }
{
    other.up && interface.up && other.address == interface.address
}

// Returns the reason why no event could install an LSA of this LS type in a scope with `row` LSAs.
fn unfit_under(areas: &[AreaConfig], scope: Scope, kind: u8, row: usize) -> Option<EntryFault>
    ensures { result ≡ unfit_under areas.now scope kind row }
{
    let (lacks_area, is_out_of_scope, most) = match scope {
        Scope::Area(id) => (
            lacks_area(areas, id),
            kind == AS_EXTERNAL_LSA,
            Limits::STANDARD.area_lsas,
        ),
        Scope::As => (false, kind != AS_EXTERNAL_LSA, Limits::STANDARD.externals),
    };
    if lacks_area {
        Some(EntryFault::NoArea)
    } else if is_out_of_scope {
        Some(EntryFault::Scope)
    } else if u64::from(most) <= row as u64 {
        Some(EntryFault::Full)
    } else {
        None
    }
}
