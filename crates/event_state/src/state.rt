//! The state of a router: databases, interfaces, address ranges, base and journal. An event is
//! checked first, then appended to the journal, and then carried out.
ghost use Rattle.std.specs.Prelude.{◌≡◌, ◌<◌, ◌≤◌, None, IfErr, IfOk, IfSome, OnOk, OnErr};
ghost use Rattle.std.specs.Prelude.{option_map};
ghost use Rattle.std.specs.List.{list_any};
ghost use Rattle.std.specs.FinMap as map;
ghost use Rattle.ospf_types.specs.Configs.{config_fault_of};
ghost use Rattle.event_state.specs.Bases.{bare, most_serial};
ghost use Rattle.event_state.specs.BaseFaults.{base_fault_of};
ghost use Rattle.event_state.specs.Rolls.{since, BeginsAgain, CanBeRolled, IsBaseOf};
ghost use Rattle.event_state.specs.States.{TellsChange, serial_of, database_of};
ghost use Rattle.event_state.specs.Changes.{empty_values};
ghost use Rattle.event_state.specs.Steps.{changed_by, interface_event, range_set_event};
ghost use Rattle.event_state.specs.Steps.{with_interface, with_ranges_by, TellsChangeBy};
ghost use Rattle.event_state.specs.Steps.{TellsInterfaceChange, TellsRangeChange, refusal_of};
ghost use Rattle.event_state.specs.Steps.{IsAccepted, step, opening, has_address, limit_of};
ghost use Rattle.event_state.specs.Steps.{standard_limits};
ghost use Rattle.event_state.specs.Held.{HasFitDatabases};
ghost use Rattle.event_state.specs.Refusals.{IsRefusalOf};

use crate::area_databases::{age_all, age_out_at, purge_at, put_all, put_at};
use crate::base::Base;
use crate::event::Event;
use crate::interfaces::{by_id, is_address_taken, put_interface};
use crate::limits::Limits;
use crate::ranges::{
    RangeChange, drop_refusal, ranges_differ, ranges_of, set_refusal, with_ranges,
};
use crate::refusal::Refusal;
use crate::scopes::{is_out_of_scope, place_of};
use lsa_codec::Checked;
use lsdb::Database;
use ospf_types::config::{AreaConfig, Config, Interface, Range};
use ospf_types::key::{Key, Scope};
use ospf_types::lsa::MAX_AGE;
use ospf_types::memory::Memory;
use ospf_types::prefix::Prefix;
use std::alloc::Global;
use std::collections::{BTreeMap, btree_map};
use std::hash::RandomState;
use std::marker::Model;

// The number of events at which the journal reserves memory for all events that it may have: 40 MB
// of addresses, of which only the used part is memory. The C library's allocator gives a piece of
// that size back to the system in a roll. It kept a part of one that grew step by step (measured).
const MANY_EVENTS: usize = 65_536;

/// The link-state databases, the interfaces and the address ranges, with the base that they began
/// with and the journal of the events since.
pub struct State {
    base: Base,
    config: Config,
    limits: Limits,
    databases: Vec<Database>,
    interfaces: BTreeMap<u8, Interface>,
    journal: Vec<Event>,
}

// proof: a value is dropped by one call, not part by part at each exit of a function.
impl Drop for State {
    fn drop(self) {
        let State {
            base: _base,
            config: _config,
            limits: _limits,
            databases: _databases,
            interfaces: _interfaces,
            journal: _journal,
        } = self;
    }
}

impl Model for State {
    ghost use Rattle.event_state.specs.States.{State as StateValue};

    ghost Value = { StateValue };

    ghost use Rattle.std.specs.Prelude.{◌+◌, length};
    ghost use Rattle.std.specs.FinMap as map;
    ghost use Rattle.std.specs.Ordering.{nat_cmp};
    ghost use Rattle.std.specs.Coded.{Coded, codes, coded_ℕ};
    ghost use Rattle.ospf_types.specs.Keys.{key_code};
    ghost use Rattle.ospf_types.specs.declared.config.Interface.{Interface};
    ghost use Rattle.lsdb.specs.Databases.{Database as Lsas};

    ghost coded = { let database : Coded Lsas = map.code key_code (Prim.hlevel codes) in
        let interfaces : Coded (map.FinMap nat_cmp Interface) = map.code coded_ℕ (Prim.hlevel codes) in
        Prim.hlevel (codes, database, interfaces) };

    ghost use Rattle.event_state.specs.States.{interfaces_of};
    ghost use Rattle.event_state.specs.Changes.{lsas_in};
    ghost use Rattle.event_state.specs.Held.{IsState};

    ghost view = { λ s. record {
      base = s.base;
      config = s.config;
      limits = s.limits;
      databases = lsas_in s.databases.items;
      interfaces = interfaces_of s.interfaces;
      journal = s.journal.items;
    } };

    ghost invariant = { λ s. IsState s.config s.limits s.databases.items (interfaces_of s.interfaces) (s.base.serial + length s.journal.items) };
}

impl State {
    /// Creates a state with no interfaces, empty databases and an empty journal, within the
    /// standard limits. `hashing` supplies the keys of hash functions.
    ///
    /// # Errors
    ///
    /// Returns `Memory` if memory runs out.
    pub fn new(alloc: Global, config: Config, hashing: RandomState) -> Result<State, Memory>
        ensures { IfOk result (λ state. state ≡ opening (bare config) standard_limits) }
    {
        State::with_limits(alloc, config, Limits::STANDARD, hashing)
    }

    /// Creates a state with no interfaces, empty databases and an empty journal, within the given
    /// limits.
    ///
    /// # Errors
    ///
    /// Returns `Memory` if memory runs out.
    pub fn with_limits(
        alloc: Global,
        config: Config,
        limits: Limits,
        hashing: RandomState,
    ) -> Result<State, Memory>
        ensures { IfOk result (λ state. state ≡ opening (bare config) limits) }
    {
        let base = Base::bare(alloc, config.copy(alloc)?);
        let databases = empty_databases(alloc, config.areas.as_slice(), limits, hashing)?;
        Ok(State {
            base,
            config,
            limits,
            databases,
            interfaces: BTreeMap::new(alloc),
            journal: Vec::new(alloc),
        })
    }

    /// Creates a state with the base's databases, interfaces and ranges, and an empty journal.
    ///
    /// # Errors
    ///
    /// Returns `Memory` if memory runs out.
    pub fn from_base(
        alloc: Global,
        base: Base,
        limits: Limits,
        hashing: RandomState,
    ) -> Result<State, Memory>
        requires { base_fault_of limits base ≡ None }
        ensures { IfOk result (λ state. state ≡ opening base limits) }
    {
        let config = base.config.copy(alloc)?;
        let areas = base.config.areas.as_slice();
        let mut databases = empty_databases(alloc, areas, limits, hashing)?;
        put_all(alloc, &mut databases, &base, limits)?;
        let interfaces = by_id(alloc, base.interfaces.as_slice())?;
        Ok(State {
            base,
            config,
            limits,
            databases,
            interfaces,
            journal: Vec::new(alloc),
        })
    }

    /// Returns the base: the state before the first event of the journal.
    pub fn base(&self) -> &Base
        ensures value { result.now ≡ self.now.base }
        ensures sound { config_fault_of self.now.config ≡ None → CanBeRolled self.now }
    {
        &self.base
    }

    /// Returns the serial: the base's serial plus the number of events in the journal.
    pub fn serial(&self) -> u64
        ensures value { result ≡ serial_of self.now }
        ensures within { result ≤ most_serial }
    {
        self.base.serial + self.journal.len() as u64
    }

    /// Makes `base` the base, and empties the journal. `base` must describe the present state. The
    /// databases, interfaces and ranges are unchanged.
    pub fn set_base(&mut self, base: Base)
        requires { IsBaseOf self.old base }
        ensures since { self.new ≡ since base self.old }
        ensures again { BeginsAgain self.old base self.new }
    {
        self.base = base;
        self.journal = Vec::new(*self.journal.allocator());
    }

    /// Returns the configuration, with the present address ranges.
    pub fn config(&self) -> &Config
        ensures value { result.now ≡ self.now.config }
        ensures fit { HasFitDatabases self.now }
    {
        &self.config
    }

    /// Returns the interfaces with their ids, in ascending order of id.
    pub fn interfaces(&self) -> btree_map::Iter<'_, u8, Interface>
        ensures { result ≡ map.entries self.now.interfaces }
    {
        self.interfaces.iter()
    }

    /// Returns the events taken since the base, in order.
    pub fn journal(&self) -> &[Event]
        ensures value { result.now ≡ self.now.journal }
        ensures fit { HasFitDatabases self.now }
    {
        self.journal.as_slice()
    }

    /// Returns the database of the scope, or `None` for an area that is not configured.
    pub fn database(&self, scope: Scope) -> Option<&Database>
        ensures value { option_map (λ d. d.now.lsas) result ≡ database_of self.now scope }
        ensures limit { IfSome result (λ d. d.now.limit ≡ limit_of self.now.limits scope) }
    {
        let place = place_of(self.config.areas.as_slice(), scope)?;
        let databases = self.databases.as_slice();
        Some(&databases[place])
    }
}

impl State {
    /// Returns the first refusal that holds for the event, memory aside, or `None`.
    pub fn refusal(&self, event: &Event) -> Option<Refusal>
        ensures { result ≡ refusal_of self.now event.now }
    {
        match event {
            Event::Install { scope, lsa } => self.install_refusal(*scope, lsa),
            Event::Flush { scope, key } => self.flush_refusal(*scope, *key),
            Event::Purge { scope, key } => self.purge_refusal(*scope, *key),
            Event::Interface {
                id,
                area,
                address,
                peer,
                up,
            } => self.interface_refusal(
                *id,
                Interface {
                    area: *area,
                    address: *address,
                    peer: *peer,
                    up: *up,
                },
            ),
            Event::RangeSet {
                area,
                prefix,
                advertise,
            } => self.range_set_refusal(
                *area,
                &Range {
                    prefix: *prefix,
                    advertise: *advertise,
                },
            ),
            Event::RangeDrop { area, prefix } => self.range_drop_refusal(*area, *prefix),
            Event::Second => self.journal_refusal(),
        }
    }

    fn install_refusal(&self, scope: Scope, lsa: &Checked) -> Option<Refusal>
        ensures { result ≡ refusal_of self.now (Event.Install scope lsa.now) }
    {
        let Some(database) = self.database(scope) else {
            return Some(Refusal::NoArea);
        };
        if is_out_of_scope(scope, lsa.key().kind) {
            return Some(Refusal::Scope);
        }
        match database.install_refusal(lsa) {
            Some(refusal) => Some(Refusal::of_install(refusal)),
            None => self.journal_refusal(),
        }
    }

    fn flush_refusal(&self, scope: Scope, key: Key) -> Option<Refusal>
        ensures { result ≡ refusal_of self.now (Event.Flush scope key) }
    {
        let Some(database) = self.database(scope) else {
            return Some(Refusal::NoArea);
        };
        if is_out_of_scope(scope, key.kind) {
            return Some(Refusal::Scope);
        }
        if database.get(key).is_none() {
            return Some(Refusal::NoLsa);
        }
        if key.router != self.config.router {
            return Some(Refusal::NotOwn);
        }
        self.journal_refusal()
    }

    fn purge_refusal(&self, scope: Scope, key: Key) -> Option<Refusal>
        ensures { result ≡ refusal_of self.now (Event.Purge scope key) }
    {
        let Some(database) = self.database(scope) else {
            return Some(Refusal::NoArea);
        };
        if is_out_of_scope(scope, key.kind) {
            return Some(Refusal::Scope);
        }
        match database.get(key) {
            None => Some(Refusal::NoLsa),
            Some((_, age)) if age < MAX_AGE => Some(Refusal::NotMaxAge),
            Some(_) => self.journal_refusal(),
        }
    }

    fn interface_refusal(&self, id: u8, interface: Interface) -> Option<Refusal>
        ensures { result ≡ refusal_of self.now (interface_event id interface) }
    {
        let areas = self.config.areas.as_slice();
        if place_of(areas, Scope::Area(interface.area)).is_none() {
            return Some(Refusal::NoArea);
        }
        if let Some(refusal) = self.journal_refusal() {
            return Some(refusal);
        }
        if interface.up && self.is_taken(id, interface.address) {
            return Some(Refusal::AddressTaken);
        }
        None
    }

    fn is_taken(&self, id: u8, address: u32) -> bool
        ensures { result ≡ list_any (has_address id address) (map.entries self.now.interfaces) }
    {
        is_address_taken(&self.interfaces, id, address)
    }

    fn range_set_refusal(&self, area: u32, range: &Range) -> Option<Refusal>
        ensures { result ≡ refusal_of self.now (range_set_event area range.now) }
    {
        let Some(ranges) = ranges_of(self.config.areas.as_slice(), area) else {
            return Some(Refusal::NoArea);
        };
        match self.journal_refusal() {
            Some(refusal) => Some(refusal),
            None => set_refusal(range, ranges),
        }
    }

    fn range_drop_refusal(&self, area: u32, prefix: Prefix) -> Option<Refusal>
        ensures { result ≡ refusal_of self.now (Event.RangeDrop area prefix) }
    {
        let Some(ranges) = ranges_of(self.config.areas.as_slice(), area) else {
            return Some(Refusal::NoArea);
        };
        match self.journal_refusal() {
            Some(refusal) => Some(refusal),
            None => drop_refusal(prefix, ranges),
        }
    }

    fn journal_refusal(&self) -> Option<Refusal>
        ensures { result ≡ refusal_of self.now Event.Second }
    {
        if self.limits.events <= self.journal.len() as u64 || self.serial() == u64::MAX {
            Some(Refusal::JournalFull)
        } else {
            None
        }
    }
}

impl State {
    /// Takes the event. Returns its serial, and true if the usable LSAs (key, Options, body), the
    /// interfaces or the ranges differ from before.
    ///
    /// # Errors
    ///
    /// Returns the first refusal that holds for the event (20 to 29, 34 to 36), or 30 Memory if
    /// memory runs out. The state is then unchanged.
    pub fn step(&mut self, event: Event) -> Result<(u64, bool), Refusal>
        ensures refused { IfErr result (IsRefusalOf self.old event) }
        ensures unchanged { OnErr result (self.new ≡ self.old) }
        ensures accepted { OnOk result (refusal_of self.old event ≡ None) }
        ensures taken { OnOk result (self.new ≡ step self.old event) }
        ensures serial { IfOk result (λ answer. answer.0 ≡ serial_of self.new) }
        ensures changed { IfOk result (λ answer. TellsChange self.old self.new answer.1) }
    {
        if let Some(refusal) = self.refusal(&event) {
            return Err(refusal);
        }
        match self.take(event) {
            Ok(changed) => Ok((self.serial(), changed)),
            Err(Memory) => Err(Refusal::Memory),
        }
    }

    // Appends the event to the journal, and carries it out.
    fn take(&mut self, event: Event) -> Result<bool, Memory>
        requires accepted { IsAccepted self.old event }
        requires room { serial_of self.old < most_serial }
        ensures unchanged { OnErr result (self.new ≡ self.old) }
        ensures taken { OnOk result (self.new ≡ step self.old event) }
        ensures changed { IfOk result (TellsChangeBy self.old event) }
    {
        let entry = event.copy(*self.journal.allocator())?;
        make_room(&mut self.journal, self.limits.events);
        self.journal.push(entry)?;
        match self.carry_out(event) {
            Ok(changed) => Ok(changed),
            Err(Memory) => {
                self.journal.pop();
                Err(Memory)
            }
        }
    }

    // Changes the databases, the interfaces or the ranges as the event says.
    fn carry_out(&mut self, event: Event) -> Result<bool, Memory>
        requires { IsAccepted self.old event }
        ensures unchanged { OnErr result (self.new ≡ self.old) }
        ensures done { OnOk result (self.new ≡ changed_by self.old event) }
        ensures changed { IfOk result (TellsChangeBy self.old event) }
    {
        match event {
            // 13.2: the LSA is installed in the database.
            Event::Install { scope, lsa } => self.install(scope, lsa),
            // 14.1: premature ageing.
            Event::Flush { scope, key } => Ok(self.flush(scope, key)),
            // 14: an LSA at MaxAge is removed from the database.
            Event::Purge { scope, key } => Ok(self.purge(scope, key)),
            Event::Interface {
                id,
                area,
                address,
                peer,
                up,
            } => self.set_interface(
                id,
                Interface {
                    area,
                    address,
                    peer,
                    up,
                },
            ),
            Event::RangeSet {
                area,
                prefix,
                advertise,
            } => self.change_ranges(area, &RangeChange::Set(Range { prefix, advertise })),
            Event::RangeDrop { area, prefix } => {
                self.change_ranges(area, &RangeChange::Drop(prefix))
            }
            // 14: LSAs age.
            Event::Second => Ok(self.second()),
        }
    }

    fn install(&mut self, scope: Scope, lsa: Checked) -> Result<bool, Memory>
        requires { IsAccepted self.old (Event.Install scope lsa) }
        ensures unchanged { OnErr result (self.new ≡ self.old) }
        ensures done { OnOk result (self.new ≡ changed_by self.old (Event.Install scope lsa)) }
        ensures changed { IfOk result (TellsChangeBy self.old (Event.Install scope lsa)) }
    {
        match place_of(self.config.areas.as_slice(), scope) {
            Some(place) => put_at(self.databases.as_mut_slice(), place, lsa),
            None => Ok(false),
        }
    }

    // Returns true if the LSA was usable before.
    fn flush(&mut self, scope: Scope, key: Key) -> bool
        ensures done { self.new ≡ changed_by self.old (Event.Flush scope key) }
        ensures changed { TellsChangeBy self.old (Event.Flush scope key) result }
    {
        match place_of(self.config.areas.as_slice(), scope) {
            Some(place) => age_out_at(self.databases.as_mut_slice(), place, key),
            None => false,
        }
    }

    // Returns false: the LSA was not usable before.
    fn purge(&mut self, scope: Scope, key: Key) -> bool
        requires { IsAccepted self.old (Event.Purge scope key) }
        ensures done { self.new ≡ changed_by self.old (Event.Purge scope key) }
        ensures changed { TellsChangeBy self.old (Event.Purge scope key) result }
    {
        if let Some(place) = place_of(self.config.areas.as_slice(), scope) {
            purge_at(self.databases.as_mut_slice(), place, key);
        }
        false
    }

    fn set_interface(&mut self, id: u8, interface: Interface) -> Result<bool, Memory>
        requires { IsAccepted self.old (interface_event id interface) }
        ensures unchanged { OnErr result (self.new ≡ self.old) }
        ensures done { OnOk result (self.new ≡ with_interface self.old id interface) }
        ensures changed { IfOk result (TellsInterfaceChange self.old id interface) }
    {
        put_interface(&mut self.interfaces, id, interface)
    }

    fn change_ranges(&mut self, area: u32, change: &RangeChange) -> Result<bool, Memory>
        ensures unchanged { OnErr result (self.new ≡ self.old) }
        ensures done { OnOk result (self.new ≡ with_ranges_by self.old area change.now) }
        ensures changed { IfOk result (TellsRangeChange self.old area change.now) }
    {
        let areas = self.config.areas.as_slice();
        let new = with_ranges(*self.journal.allocator(), areas, area, change)?;
        let changed = ranges_differ(areas, new.as_slice());
        self.config.areas = new;
        Ok(changed)
    }

    fn second(&mut self) -> bool
        ensures done { self.new ≡ changed_by self.old Event.Second }
        ensures changed { TellsChangeBy self.old Event.Second result }
    {
        age_all(self.databases.as_mut_slice())
    }
}

// Reserves memory for all events that the journal may have, once it has many.
//
// An allocation of that size goes back to the system in a roll, and is not kept by the heap. If
// memory runs out here, the journal grows event by event.
fn make_room(journal: &mut Vec<Event>, most: u64)
    ensures { journal.new.items ≡ journal.old.items }
{
    if journal.len() != MANY_EVENTS {
        return;
    }
    let more = (most as usize).saturating_sub(MANY_EVENTS);
    match journal.reserve(more) {
        Ok(()) | Err(_) => {}
    }
}

// Creates an empty database for each area, and one for the AS.
fn empty_databases(
    alloc: Global,
    areas: &[AreaConfig],
    limits: Limits,
    hashing: RandomState,
) -> Result<Vec<Database>, Memory>
    ensures { IfOk result (λ v. v.items ≡ empty_values areas.now limits) }
{
    let mut databases = Vec::new(alloc);
    for _ in areas {
        databases.push(Database::new(alloc, limits.area_lsas, hashing))?;
    }
    databases.push(Database::new(alloc, limits.externals, hashing))?;
    Ok(databases)
}
