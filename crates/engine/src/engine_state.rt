//! The state under an engine's lock: the core, and the writer of the published table.
ghost use Rattle.std.specs.Prelude.{List, ◌≡◌, ◌⊎◌, ◌↔◌, ◌≤◌, ◌+◌, ◌<◌, ◌^◌, [], ◌∷◌, ◌++◌, length};
ghost use Rattle.std.specs.Prelude.{drop, false, MatchBool, IfOk, IfErr, IfNone, IsTrue};
ghost use Rattle.std.specs.Prelude.{MatchOption, MatchResult, IfSome, OnOk};
ghost use mathlib.Core.List.{IsPrefix};
ghost use Rattle.left_right.specs.Sides.{view as known_to};
ghost use Rattle.event_state.specs.Steps.{standard_limits};
ghost use Rattle.event_state.specs.Rolls.{IsRolled};
ghost use Rattle.event_state.specs.declared.event.Event.{Event as EventValue};
ghost use Rattle.engine.specs.Answers.{IsAnswerTo, Refusals, IsDueListOf, IsForArea, IsReplyWith};
ghost use Rattle.event_core.specs.Cores.{IsCore};
ghost use Rattle.engine.specs.EngineStates.{AreReaders, IsAsBefore, IsEngineKept, IsHistoryBegun, IsListAfter};
ghost use Rattle.engine.specs.EngineStates.{IsOpenedOver, IsRollRefusal, IsSplitInto, IsStateOf};
ghost use Rattle.engine.specs.EngineStates.{IsTokenAt, IsTokenOfAll, KnowsPublished, CanFollow};
ghost use Rattle.engine.specs.EngineStates.{CatchesUp, IsTokenFor, built_serial, last_serial, list_of};
ghost use Rattle.engine.specs.EngineStates.{published_serial};
ghost use Rattle.publication.specs.Published.{IsLegalHistory, name_of};
ghost use Rattle.event_state.specs.declared.refusal.Refusal.TheVariants.{Memory as NoMemory};
ghost use Rattle.event_state.specs.declared.refusal.Refusal.TheVariants.{NoArea};
ghost use Rattle.event_core.specs.declared.reply.Status.TheVariants.{Current, Behind};

use crate::answer::{Answer, DueList, Refused};
use crate::gate::Gate;
use event_core::{Core, Event, Refusal, Reply, Status};
use ospf_types::memory::Memory;
use publication::{
    EngineName, Forwarder, History, HistoryPrefix, OpeningBase, PublishedTable, TableWriter,
    TellsName, Told, publish_table, publish_table_changes,
};
use std::alloc::{AllocError, Global};
use std::marker::Model;
use std::sync::Wait;

// The number of rolled events, or of events in the journal, at which a history is not followed any
// further. So many events take longer than a router runs.
const MOST_EVENTS: u64 = 1 << 61;

/// The core, and the writer of the published table.
///
/// If the state is not stale, nothing is pending and the published table reflects the whole
/// journal. If it is stale, less is published, and the next publication clears the table first.
pub struct EngineState {
    parts: EngineParts,
    stale: bool,
}

// The core, the history of its events, and the writer of the published table.
struct EngineParts {
    alloc: Global,
    core: Core,
    history: History,
    // The history at the last roll. The base of the core reflects it.
    rolled: HistoryPrefix,
    writer: TableWriter,
}

impl Model for EngineState {
    ghost use Rattle.std.specs.Prelude.{◌+◌, drop, length};
    ghost use Rattle.left_right.specs.Sides.{view as known_to};
    ghost use Rattle.event_core.specs.Cores.{IsCore};
    ghost use Rattle.engine.specs.EngineStates.{Held, IsEngineKept, IsFresh, list_of};
    ghost use Rattle.publication.specs.Published.{name_of};

    ghost Value = { Held };

    ghost view = { λ d. record { name = name_of d.parts.writer.desk.shown.value; list = list_of d.parts.rolled d.parts.core; built = length d.parts.rolled.list + d.parts.core.built; published = d.parts.writer.desk.shown.value.front.list } };

    ghost invariant = { λ d. IsCore d.parts.core × IsEngineKept d.parts.core d.parts.history d.parts.rolled d.parts.writer.desk.shown.value (known_to d.parts.writer.desk.place) × IsFresh d.stale d.parts.core d.parts.history d.parts.rolled d.parts.writer.desk.shown.value (drop d.parts.writer.behind d.parts.writer.log.items) };
}

// Appends to the history the events of the journal that it lacks. The journal comes after the
// events that were rolled.
fn follow(history: &mut History, rolled: &HistoryPrefix, journal: &[Event])
    requires begun { IsPrefix history.old.list (rolled.now.list ++ journal.now) }
    requires within { length rolled.now.list ≤ length history.old.list }
    requires short { length rolled.now.list + length journal.now < 2 ^ 62 }
    ensures book { history.new.book ≡ history.old.book }
    ensures whole { history.new.list ≡ rolled.now.list ++ journal.now }
{
    let first = (history.len() - rolled.len()) as usize;
    for k in first..journal.len() {
        history.add(&journal[k]);
    }
}

// Appends to the history the events of the journal that it lacks, and returns true if the core is
// current. Otherwise it returns false.
fn follow_built(history: &mut History, rolled: &HistoryPrefix, core: &Core) -> bool
    requires written { IsHistoryBegun rolled.now core.now history.old.list }
    ensures kept { IsCore core.now }
    ensures book { history.new.book ≡ history.old.book }
    ensures written { IsHistoryBegun rolled.now core.now history.new.list }
    ensures whole { IsTrue result → (history.new.list ≡ list_of rolled.now core.now)
        × (core.now.built ≡ length core.now.journal) }
{
    let journal = core.journal();
    let is_long = rolled.len() >= MOST_EVENTS || journal.len() as u64 >= MOST_EVENTS;
    if is_long || !core.is_current() {
        return false;
    }
    follow(history, rolled, journal);
    true
}

impl EngineParts {
    // Publishes the whole table if the core is current. The publication may fail.
    fn publish_whole<R: Wait>(self, rt: &R) -> EngineState
        requires kept { IsEngineKept self.core self.history self.rolled self.writer.desk.shown.value
            (known_to self.writer.desk.place) }
        requires behind { length self.writer.desk.shown.value.front.list
            < length (list_of self.rolled self.core) }
        ensures same { IsStateOf (name_of self.writer.desk.shown.value) self.rolled self.core
            result }
        ensures grows { IsPrefix self.writer.desk.shown.value.front.list result.published }
    {
        let mut parts = self;
        if !follow_built(&mut parts.history, &parts.rolled, &parts.core) {
            return EngineState { parts, stale: true };
        }
        let EngineParts {
            alloc,
            core,
            mut history,
            rolled,
            writer,
        } = parts;
        let (writer, done) = publish_table(rt, alloc, writer, core.table(), &mut history);
        let parts = EngineParts {
            alloc,
            core,
            history,
            rolled,
            writer,
        };
        EngineState {
            parts,
            stale: !done,
        }
    }

    // Publishes the changes of the table if the core is current. The publication may fail.
    fn publish_changes<R: Wait>(self, rt: &R) -> EngineState
        requires kept { IsEngineKept self.core self.history self.rolled self.writer.desk.shown.value
            (known_to self.writer.desk.place) }
        requires behind { length self.writer.desk.shown.value.front.list
            < length (list_of self.rolled self.core) }
        requires follows { CanFollow self.core self.writer.desk.shown.value
            (drop self.writer.behind self.writer.log.items) }
        ensures same { IsStateOf (name_of self.writer.desk.shown.value) self.rolled self.core
            result }
        ensures grows { IsPrefix self.writer.desk.shown.value.front.list result.published }
    {
        let mut parts = self;
        if !follow_built(&mut parts.history, &parts.rolled, &parts.core) {
            return EngineState { parts, stale: true };
        }
        let EngineParts {
            alloc,
            core,
            mut history,
            rolled,
            writer,
        } = parts;
        let (writer, done) = publish_table_changes(
            rt,
            writer,
            core.changes(),
            core.table(),
            &mut history,
        );
        let parts = EngineParts {
            alloc,
            core,
            history,
            rolled,
            writer,
        };
        EngineState {
            parts,
            stale: !done,
        }
    }

    // Publishes the changes of an event, or the whole table. `state` is the status of the core's
    // reply to the event.
    fn publish<R: Wait>(self, rt: &R, stale: bool, state: Status) -> EngineState
        requires kept { IsEngineKept self.core self.history self.rolled self.writer.desk.shown.value
            (known_to self.writer.desk.place) }
        requires behind { length self.writer.desk.shown.value.front.list
            < length (list_of self.rolled self.core) }
        requires follows { stale ≡ false → state ≡ Current
            → CanFollow self.core self.writer.desk.shown.value
            (drop self.writer.behind self.writer.log.items) }
        ensures same { IsStateOf (name_of self.writer.desk.shown.value) self.rolled self.core
            result }
        ensures grows { IsPrefix self.writer.desk.shown.value.front.list result.published }
    {
        if is_whole(stale, state) {
            self.publish_whole(rt)
        } else {
            self.publish_changes(rt)
        }
    }
}

impl EngineState {
    // Returns a token of the published history, if its serial is this one.
    fn told(&self, serial: u64) -> Option<Told>
        ensures none { IfNone result (¬ (serial ≡ published_serial self.now)) }
        ensures some { IfSome result (IsTokenFor self.now.name self.now.list serial) }
        ensures published { IfSome result (λ t. t.list ≡ self.now.published) }
    {
        let shown = self.parts.writer.published();
        if shown.table.serial() != serial {
            return None;
        }
        Some(Told::of(shown.front.again(), shown.base.again(), serial))
    }

    /// Applies an event, and publishes the table if the event was taken. It calls `gate.inside`
    /// between the two.
    ///
    /// # Errors
    ///
    /// Returns the core's refusal of the event, in a `Refused`. Nothing is changed or published
    /// then.
    pub fn submit<R: Wait, G: Gate>(
        self,
        rt: &R,
        event: Event,
        gate: &G,
        worker: usize,
        place: usize,
    ) -> (EngineState, Result<Answer, Refused>)
        ensures name { result.0.name ≡ self.name }
        ensures journal { IsListAfter self event result.1 result.0 }
        ensures answer { MatchResult result.1 (IsAnswerTo self.name event) (Refusals self.name event) }
        ensures told { IfErr result.1 (λ r. IsTokenOfAll result.0 r.told) }
        ensures grows { IsPrefix self.published result.0.published }
        ensures gate { IfOk result.1 (λ _. G.passed gate.now worker place) }
    {
        let EngineState { mut parts, stale } = self;
        match parts.core.apply(event) {
            Ok(reply) => {
                gate.inside(worker, place);
                let engine_state = parts.publish(rt, stale, reply.state);
                let told = engine_state.told(reply.serial);
                (engine_state, Ok(answer(reply, told)))
            }
            Err(refusal) => {
                let engine_state = EngineState { parts, stale };
                let told = engine_state.told(engine_state.parts.core.serial());
                (engine_state, Err(Refused { refusal, told }))
            }
        }
    }

    // Publishes the whole table if the state is stale, and rebuilds it before if the core is
    // behind. Returns the status of the core.
    fn follow_up<R: Wait>(self, rt: &R) -> (EngineState, Status)
        ensures same { (result.0.name ≡ self.name) × (result.0.list ≡ self.list) }
        ensures state { CatchesUp self result.1 result.0 }
        ensures grows { IsPrefix self.published result.0.published }
    {
        if !self.stale {
            return (self, Status::Current);
        }
        let EngineState {
            mut parts,
            stale: _,
        } = self;
        let state = parts.core.catch_up();
        let engine_state = parts.publish_whole(rt);
        (engine_state, state)
    }

    /// Publishes the whole table if the published one does not reflect the whole journal, and
    /// rebuilds it before if the core is behind. Returns the core's status, and a token of the
    /// whole journal if its table is published.
    pub fn catch_up<R: Wait>(self, rt: &R) -> (EngineState, Status, Option<Told>)
        ensures same { (result.0.name ≡ self.name) × (result.0.list ≡ self.list) }
        ensures state { CatchesUp self result.1 result.0 }
        ensures told { IfSome result.2 (λ t. (t.name ≡ self.name) × (t.list ≡ self.list)) }
        ensures none { IfNone result.2 (¬ (length result.0.list ≡ length result.0.published)) }
        ensures grows { IsPrefix self.published result.0.published }
    {
        let (engine_state, state) = self.follow_up(rt);
        let told = engine_state.told(engine_state.parts.core.serial());
        (engine_state, state, told)
    }

    /// Returns a copy of the summary-LSAs due in the area (RFC 2328, 12.4.3).
    ///
    /// # Errors
    ///
    /// Returns 20 NoArea if the area is not configured, or 30 Memory.
    pub fn due(&self, area: u32) -> Result<DueList, Refusal>
        ensures due { IfOk result (IsDueListOf self.now.name area) }
        ensures built { IfOk result (λ d. d.serial ≡ built_serial self.now) }
        ensures told { IfOk result (λ d. IsTokenAt self.now d.serial d.told) }
        ensures area { IsForArea self.now.name.base.config area result }
        ensures refused { IfErr result (λ e. (e ≡ NoArea) ⊎ (e ≡ NoMemory)) }
    {
        let Some(due) = self.parts.core.due(area) else {
            return Err(Refusal::NoArea);
        };
        let Ok(list) = Vec::from_slice(self.parts.alloc, due) else {
            return Err(Refusal::Memory);
        };
        let serial = self.parts.core.built();
        let told = self.told(serial);
        Ok(DueList { serial, list, told })
    }

    /// Opens the state of an engine over this core, whose journal is empty, with places for
    /// `readers` readers.
    ///
    /// # Errors
    ///
    /// Returns `Memory` if memory runs out.
    pub fn open<R: Wait>(
        rt: &R,
        alloc: Global,
        core: Core,
        readers: usize,
    ) -> Result<EngineState, Memory>
        requires readers { AreReaders readers }
        requires journal { core.journal ≡ [] }
        requires limits { core.limits ≡ standard_limits }
        ensures { IfOk result (IsOpenedOver core) }
    {
        let mut history = History::open();
        let rolled = history.front();
        let opening = OpeningBase::of(core.base());
        let first = PublishedTable::of(alloc, core.table(), &history.front(), &opening)?;
        let second = PublishedTable::of(alloc, core.table(), &history.front(), &opening)?;
        let writer = TableWriter::new(alloc, first, second, readers)?;
        let (writer, done) = publish_table(rt, alloc, writer, core.table(), &mut history);
        if !done {
            drop(writer.take(rt));
            return Err(Memory);
        }
        let parts = EngineParts {
            alloc,
            core,
            history,
            rolled,
            writer,
        };
        Ok(EngineState {
            parts,
            stale: false,
        })
    }

    /// Makes the present state the base of the core, and empties its journal: a checkpoint. The
    /// published table is unchanged, and serials continue. Returns the serial.
    ///
    /// # Errors
    ///
    /// Returns 37 NotCurrent if the published table does not reflect the whole journal, or 30
    /// Memory. Nothing is changed then.
    pub fn roll(self) -> (EngineState, Result<u64, Refusal>)
        ensures same { IsAsBefore self result.0 }
        ensures legal { IfOk result.1 (λ _. IsLegalHistory self.name.base self.list) }
        ensures serial { IfOk result.1 (λ serial. serial ≡ last_serial self) }
        ensures current { OnOk result.1 (self.published ≡ self.list) }
        ensures refused { IfErr result.1 (IsRollRefusal self) }
    {
        if self.stale {
            return (self, Err(Refusal::NotCurrent));
        }
        let EngineState { mut parts, stale } = self;
        match parts.core.roll() {
            Ok(serial) => {
                // proof: brings in what holds of every core.
                let _ = parts.core.base();
                parts.rolled = parts.history.front();
                (EngineState { parts, stale }, Ok(serial))
            }
            Err(refusal) => (EngineState { parts, stale }, Err(refusal)),
        }
    }

    /// Returns a new forwarder that knows the published history.
    ///
    /// # Errors
    ///
    /// Returns `AllocError` if no other reader can be created.
    pub fn forwarder(&mut self) -> Result<Forwarder, AllocError>
        ensures same { self.new ≡ self.old }
        ensures forwarder { IfOk result (KnowsPublished self.old) }
    {
        let mut reader = self.parts.writer.factory().reader()?;
        reader.learn::<TellsName>(self.parts.writer.tell::<TellsName>());
        let shown = self.parts.writer.published();
        Ok(Forwarder::of(reader, shown.front.again(), shown.base.again()))
    }

    /// Returns the engine's name, which is kept outside the lock.
    pub fn tag(&self) -> EngineName
        ensures { result ≡ self.now.name }
    {
        let shown = self.parts.writer.published();
        EngineName::of(&shown.front, &shown.base)
    }

    /// Waits for the readers, and returns the core.
    pub fn end<R: Wait>(self, rt: &R) -> Core
        ensures core { IsCore result }
        ensures limits { result.limits ≡ standard_limits }
        ensures list { IsSplitInto self result }
    {
        let EngineState { parts, stale: _ } = self;
        let EngineParts {
            alloc: _,
            core,
            history: _author,
            rolled: _rolled,
            writer,
        } = parts;
        drop(writer.take(rt));
        core
    }
}

// Returns true if the next publication has to publish the whole table.
fn is_whole(stale: bool, state: Status) -> bool
    ensures { result ≡ false → (stale ≡ false) × (state ≡ Current) }
{
    stale || state == Status::Behind
}

// Returns the reply with the token: `Current` if there is one, or else `Behind`.
fn answer(reply: Reply, told: Option<Told>) -> Answer
    ensures same { IsReplyWith reply told result }
    ensures state { MatchOption told (result.reply.state ≡ Behind)
        (λ _. result.reply.state ≡ Current) }
{
    let state = if told.is_some() {
        Status::Current
    } else {
        Status::Behind
    };
    Answer {
        reply: Reply { state, ..reply },
        told,
    }
}
