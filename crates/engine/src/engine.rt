//! The engine that threads share.
ghost use Rattle.std.specs.Prelude.{List, ◌≡◌, ◌⊎◌, ◌↔◌, ◌++◌, [], ◌∷◌, length, All, None, Ok, Err};
ghost use Rattle.std.specs.Prelude.{IfOk, IfErr, IfSome, OnOk, MatchResult};
ghost use Rattle.event_core.specs.Cores.{IsCore};
ghost use Rattle.event_core.specs.Configs.{config_fault_of};
ghost use Rattle.event_state.specs.Bases.{bare};
ghost use Rattle.event_state.specs.BaseFaults.{base_fault_of};
ghost use Rattle.event_state.specs.Rolls.{IsRolled};
ghost use Rattle.event_state.specs.Steps.{standard_limits};
ghost use Rattle.event_state.specs.declared.event.Event.{Event as EventValue};
ghost use Rattle.publication.specs.Forwarders.{ForwarderValue};
ghost use Rattle.publication.specs.Published.{IsLegalHistory};
ghost use Rattle.engine.specs.Answers.{IsAnswered, IsDueListOf, IsForArea};
ghost use Rattle.engine.specs.EngineStates.{AreReaders};
ghost use Rattle.engine.specs.Opens.{AreNew, CanOpen, CanOpenFrom, IsLastFault, IsNewAdded};
ghost use Rattle.engine.specs.Opens.{IsOpenFaultOf, IsOpenFaultFrom, IsRolledFrom, IsRolledSerial};
ghost use Rattle.engine.specs.Opens.{open_fault_of};
ghost use Rattle.engine.specs.declared.open_fault.OpenFault.TheVariants as open_value;
ghost use Rattle.event_core.specs.ConfigFault.TheVariants as fault;
ghost use Rattle.event_state.specs.declared.refusal.Refusal.TheVariants.{Memory as NoMemory};
ghost use Rattle.event_state.specs.declared.refusal.Refusal.TheVariants.{NoArea, NotCurrent};

use crate::open_fault::OpenFault;
use crate::slot::EngineSlot;
use crate::{Answer, DueList, EngineState, Gate, Open, Refused};
use event_core::{ConfigFault, Core, Event, Refusal, fault_in};
use event_state::{Base, BaseFault, Limits, fault_in_base};
use ospf_types::config::Config;
use ospf_types::memory::Memory;
use publication::{Forwarder, Told};
use std::alloc::Global;
use std::hash::RandomState;
use std::marker::Model;
use std::sync::{Mutex, Wait};

const MOST_READERS: usize = 64;

/// The databases, the routing table and the due summaries of an area border router, shared by
/// threads.
///
/// Each event is applied under the engine's lock. Contracts see the engine's name: its history, and
/// the base that it was opened with. It is not `Drop`, so it has to be ended by `close`.
pub struct Engine {
    alloc: Global,
    door: Mutex<()>,
    slot: EngineSlot,
}

impl Model for Engine {
    ghost use Rattle.publication.specs.Names.{Name};

    ghost Value = { Name };

    ghost view = { λ e. e.slot };
}

impl Engine {
    /// Opens an engine for the configuration, with no interfaces and empty databases. Returns it
    /// with `readers` forwarders, which know the empty history.
    ///
    /// # Errors
    ///
    /// Returns the first fault of the configuration (40 to 44), or 45 Readers if `readers` is not 1
    /// to 64. Then come 46 Place, if there is no place for a forwarder, and 30 Memory.
    pub fn open<R: Wait>(
        rt: &R,
        alloc: Global,
        config: Config,
        readers: usize,
        hashing: RandomState,
    ) -> Result<(Engine, Vec<Forwarder>), OpenFault>
        ensures fault { IfErr result (IsOpenFaultOf config readers) }
        ensures sound { IfOk result (λ _. CanOpen config readers) }
        ensures base { IfOk result (λ r. r.0.base ≡ bare config) }
        ensures count { IfOk result (λ r. length r.1.items ≡ readers) }
        ensures forwarders { IfOk result (λ r. AreNew r.0 r.1.items) }
    {
        if let Some(fault) = fault_in(&config) {
            return Err(OpenFault::Config(fault));
        }
        if readers == 0 || readers > MOST_READERS {
            return Err(OpenFault::Readers);
        }
        match Core::open(alloc, config, hashing) {
            Ok(core) => open_over(rt, alloc, core, readers),
            Err(fault) => Err(OpenFault::Config(fault)),
        }
    }

    /// Opens an engine with the ranges, the interfaces and the LSAs of the base. Serials continue
    /// from the base's serial. Returns it with `readers` forwarders, which know the empty history.
    ///
    /// # Errors
    ///
    /// Returns the first fault of the base: one of its configuration (40 to 44), 47 Doubled, or a
    /// fault of its interfaces and LSAs (20, 21, 27, 29). Then come 45 Readers, if `readers` is not
    /// 1 to 64, and 46 Place. If memory runs out, 30 Memory can come before all of these except a
    /// fault of the configuration.
    pub fn open_from<R: Wait>(
        rt: &R,
        alloc: Global,
        base: Base,
        readers: usize,
        hashing: RandomState,
    ) -> Result<(Engine, Vec<Forwarder>), OpenFault>
        ensures fault { IfErr result (IsOpenFaultFrom base readers) }
        ensures sound { IfOk result (λ _. CanOpenFrom base readers) }
        ensures base { IfOk result (λ r. r.0.base ≡ base) }
        ensures count { IfOk result (λ r. length r.1.items ≡ readers) }
        ensures forwarders { IfOk result (λ r. AreNew r.0 r.1.items) }
    {
        match fault_in_base(alloc, &base, Limits::STANDARD) {
            Ok(None) => {}
            Ok(Some(fault)) => return Err(of_base(fault)),
            Err(Memory) => return Err(OpenFault::Config(ConfigFault::Memory)),
        }
        if readers == 0 || readers > MOST_READERS {
            return Err(OpenFault::Readers);
        }
        open_sound(rt, alloc, base, readers, hashing)
    }

    /// Applies the event, and publishes the table.
    ///
    /// # Errors
    ///
    /// Returns the refusal of the event (20 to 29, 34 to 36), or 30 Memory, in a `Refused`. The
    /// event is then not taken.
    pub fn submit<R: Wait>(&self, rt: &R, event: Event) -> Result<Answer, Refused>
        ensures { IsAnswered self.now event result }
    {
        self.submit_gated(rt, event, &Open, 0, 0)
    }

    /// Applies the event like `submit`, and calls the hooks of the gate once each. They get
    /// `worker` and `place`.
    ///
    /// # Errors
    ///
    /// Returns the same refusals as `submit`. `Gate::inside` is not called then.
    pub fn submit_gated<R: Wait, G: Gate>(
        &self,
        rt: &R,
        event: Event,
        gate: &G,
        worker: usize,
        place: usize,
    ) -> Result<Answer, Refused>
        ensures answered { IsAnswered self.now event result }
        ensures gate { G.came gate.now worker place
            × IfOk result (λ _. G.passed gate.now worker place)
            × G.left gate.now worker place }
    {
        gate.before(worker, place);
        let door = self.door.lock(rt);
        let engine_state = self.slot.take(rt);
        let (engine_state, answer) = engine_state.submit(rt, event, gate, worker, place);
        self.slot.put(rt, engine_state);
        drop(door);
        gate.after(worker, place);
        answer
    }

    /// Publishes the whole table if the published one is behind, and rebuilds it before if the core
    /// is behind. Returns a token of the whole history if its table is published.
    pub fn catch_up<R: Wait>(&self, rt: &R) -> Option<Told>
        ensures { IfSome result (λ t. (t.name ≡ self.now) × IsLegalHistory self.now.base t.list) }
    {
        let door = self.door.lock(rt);
        let (engine_state, _state, told) = self.slot.take(rt).catch_up(rt);
        self.slot.put(rt, engine_state);
        drop(door);
        told
    }

    /// Returns a copy of the summary-LSAs due in the area (RFC 2328, 12.4.3).
    ///
    /// # Errors
    ///
    /// Returns 20 NoArea if the area is not configured, or 30 Memory.
    pub fn due<R: Wait>(&self, rt: &R, area: u32) -> Result<DueList, Refusal>
        ensures due { IfOk result (IsDueListOf self.now area) }
        ensures area { IsForArea self.now.base.config area result }
        ensures refused { IfErr result (λ e. (e ≡ NoArea) ⊎ (e ≡ NoMemory)) }
    {
        let door = self.door.lock(rt);
        let engine_state = self.slot.take(rt);
        let due = engine_state.due(area);
        self.slot.put(rt, engine_state);
        drop(door);
        due
    }

    /// Makes the present state the base, and empties the journal: a checkpoint, by which a router
    /// can run without end. The journal's memory is freed. Returns the serial, and serials
    /// continue.
    ///
    /// The published table is unchanged, and no forwarder waits.
    ///
    /// # Errors
    ///
    /// Returns 37 NotCurrent if the published table does not reflect the whole journal, or 30
    /// Memory. Nothing is changed then.
    pub fn roll<R: Wait>(&self, rt: &R) -> Result<u64, Refusal>
        ensures serial { IfOk result (IsRolledSerial self.now.base) }
        ensures refused { IfErr result (λ e. (e ≡ NotCurrent) ⊎ (e ≡ NoMemory)) }
    {
        let door = self.door.lock(rt);
        let (engine_state, done) = self.slot.take(rt).roll();
        self.slot.put(rt, engine_state);
        drop(door);
        done
    }

    pub(crate) fn alloc(&self) -> Global {
        self.alloc
    }

    /// Waits for the forwarders that are reading, and returns the core. Its base reflects the
    /// events up to the last roll, and its journal has the events since.
    pub fn close<R: Wait>(self, rt: &R) -> Core
        ensures core { IsCore result }
        ensures limits { result.limits ≡ standard_limits }
        ensures rolled { IsRolledFrom self.base result.base }
    {
        let Engine {
            alloc: _,
            door,
            slot,
        } = self;
        drop(door);
        let engine_state = slot.take(rt);
        slot.close(rt);
        engine_state.end(rt)
    }
}

// Returns the fault of a base as a fault of opening.
fn of_base(fault: BaseFault) -> OpenFault
    ensures { result ≡ open_fault_of fault }
{
    match fault {
        BaseFault::Config(fault) => OpenFault::Config(fault),
        BaseFault::Doubled => OpenFault::Doubled,
        BaseFault::EntryFault(unfit) => OpenFault::EntryFault(unfit),
    }
}

// Opens an engine with `readers` forwarders from a base without faults.
fn open_sound<R: Wait>(
    rt: &R,
    alloc: Global,
    base: Base,
    readers: usize,
    hashing: RandomState,
) -> Result<(Engine, Vec<Forwarder>), OpenFault>
    requires sound { base_fault_of standard_limits base ≡ None }
    requires readers { AreReaders readers }
    ensures fault { IfErr result (IsOpenFaultFrom base readers) }
    ensures base { IfOk result (λ r. r.0.base ≡ base) }
    ensures count { IfOk result (λ r. length r.1.items ≡ readers) }
    ensures forwarders { IfOk result (λ r. AreNew r.0 r.1.items) }
{
    match Core::open_with_limits(alloc, base, Limits::STANDARD, hashing) {
        Ok(core) => open_over(rt, alloc, core, readers),
        Err(Memory) => Err(OpenFault::Config(ConfigFault::Memory)),
    }
}

// Opens an engine with `readers` forwarders over a core that was just opened.
fn open_over<R: Wait>(
    rt: &R,
    alloc: Global,
    core: Core,
    readers: usize,
) -> Result<(Engine, Vec<Forwarder>), OpenFault>
    requires core { IsCore core }
    requires begun { core.journal ≡ [] }
    requires limits { core.limits ≡ standard_limits }
    requires readers { AreReaders readers }
    ensures fault { IfErr result IsLastFault }
    ensures base { IfOk result (λ r. r.0.base ≡ core.base) }
    ensures count { IfOk result (λ r. length r.1.items ≡ readers) }
    ensures forwarders { IfOk result (λ r. AreNew r.0 r.1.items) }
{
    match EngineState::open(rt, alloc, core, readers) {
        Ok(engine_state) => begin(rt, alloc, engine_state, readers),
        Err(_) => Err(OpenFault::Config(ConfigFault::Memory)),
    }
}

// Opens an engine with `readers` forwarders over its state.
fn begin<R: Wait>(
    rt: &R,
    alloc: Global,
    engine_state: EngineState,
    readers: usize,
) -> Result<(Engine, Vec<Forwarder>), OpenFault>
    requires { engine_state.published ≡ [] }
    ensures fault { IfErr result IsLastFault }
    ensures config { IfOk result (λ r. r.0 ≡ engine_state.name) }
    ensures count { IfOk result (λ r. length r.1.items ≡ readers) }
    ensures forwarders { IfOk result (λ r. AreNew r.0 r.1.items) }
{
    let mut engine_state = engine_state;
    match forwarders(&mut engine_state, alloc, readers) {
        Ok(all) => enter(rt, alloc, engine_state, all),
        Err(fault) => {
            drop(engine_state.end(rt));
            Err(fault)
        }
    }
}

// Opens an engine over its state, and returns it with its forwarders.
fn enter<R: Wait>(
    rt: &R,
    alloc: Global,
    engine_state: EngineState,
    all: Vec<Forwarder>,
) -> Result<(Engine, Vec<Forwarder>), OpenFault>
    ensures fault { IfErr result (λ e. e ≡ open_value.Config fault.Memory) }
    ensures config { IfOk result (λ r. r.0 ≡ engine_state.name) }
    ensures forwarders { IfOk result (λ r. r.1.items ≡ all.items) }
{
    match slot_of(rt, alloc, engine_state) {
        Ok(slot) => Ok((
            Engine {
                alloc,
                door: Mutex::new(()),
                slot,
            },
            all,
        )),
        Err(fault) => Err(fault),
    }
}

// Creates a slot with the engine's state in it.
fn slot_of<R: Wait>(
    rt: &R,
    alloc: Global,
    engine_state: EngineState,
) -> Result<EngineSlot, OpenFault>
    ensures fault { IfErr result (λ e. e ≡ open_value.Config fault.Memory) }
    ensures name { IfOk result (λ slot. slot ≡ engine_state.name) }
{
    match EngineSlot::open(alloc, &engine_state.tag()) {
        Ok(slot) => {
            slot.put(rt, engine_state);
            Ok(slot)
        }
        Err(_) => {
            drop(engine_state.end(rt));
            Err(OpenFault::Config(ConfigFault::Memory))
        }
    }
}

// Creates `count` forwarders, which know the empty history.
fn forwarders(
    engine_state: &mut EngineState,
    alloc: Global,
    count: usize,
) -> Result<Vec<Forwarder>, OpenFault>
    requires { engine_state.old.published ≡ [] }
    ensures same { engine_state.new ≡ engine_state.old }
    ensures count { IfOk result (λ v. length v.items ≡ count) }
    ensures forwarders { IfOk result (λ v. AreNew engine_state.old.name v.items) }
    ensures fault { IfErr result IsLastFault }
{
    let mut all = Vec::new(alloc);
    for _ in 0..count {
        add_forwarder(engine_state, &mut all)?;
    }
    Ok(all)
}

// Appends one more forwarder.
fn add_forwarder(engine_state: &mut EngineState, all: &mut Vec<Forwarder>) -> Result<(), OpenFault>
    requires { engine_state.old.published ≡ [] }
    ensures same { engine_state.new ≡ engine_state.old }
    ensures added { OnOk result (IsNewAdded engine_state.old.name all.old.items all.new.items) }
    ensures fault { IfErr result IsLastFault }
{
    let Ok(forwarder) = engine_state.forwarder() else {
        return Err(OpenFault::Place);
    };
    match all.push(forwarder) {
        Ok(()) => Ok(()),
        Err(_) => Err(OpenFault::Config(ConfigFault::Memory)),
    }
}
