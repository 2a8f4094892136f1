//! The core: a state, the results calculated from it, the routing table and the due summaries. An
//! event changes them in this order.
ghost use Rattle.std.specs.Prelude.{◌≡◌, ◌≤◌, ◌<◌, ◌+◌, [], length, true, None, IfErr, IfNone};
ghost use Rattle.std.specs.Prelude.{IfOk, IfSome, MatchBool, OnOk, OnErr, option_map};
ghost use Rattle.vertex_graph.specs.Graphs.{max_routers};
ghost use Rattle.event_state.specs.BaseFaults.{base_fault_of};
ghost use Rattle.calculation.specs.Calculations.{IsCalculationOf};
ghost use Rattle.summaries.specs.DueSummaries.{lists_of};
ghost use Rattle.event_core.specs.Right.{IsDueIn, list_under};
ghost use Rattle.event_core.specs.Cores.{IsBaseFaultOf, IsCore, IsCurrent, IsOpening};
ghost use Rattle.event_core.specs.Cores.{IsQuietSecond, DoesNothing, IsConfigFaultOf, IsRollRefusal};
ghost use Rattle.event_core.specs.Cores.{Rolls, Applies, NamesChanges, HasBoundedWork};
ghost use Rattle.event_core.specs.Cores.{MatchesStatus, Runs, built_state, state_of};
ghost use Rattle.event_state.specs.Bases.{bare};
ghost use Rattle.event_state.specs.Rolls.{IsBaseOf};
ghost use Rattle.event_state.specs.States.{serial_of};
ghost use Rattle.event_state.specs.Steps.{standard_limits};
ghost use Rattle.event_state.specs.Listings.{AreLsas};

use crate::affected::affected_by;
use crate::calculated::Calculated;
use crate::listing::{base_of, lsas};
use crate::reply::{Reply, Status};
use crate::routes::Routes;
use event_state::{Base, BaseFault, Event, Limits, Refusal, State, fault_in_base};
use lsa_codec::Checked;
use ospf_types::config::Config;
use ospf_types::key::Scope;
use ospf_types::memory::Memory;
use ospf_types::prefix::Prefix;
use ospf_types::{ConfigFault, fault_in};
use route_table::Table;
use spf::Touched;
use std::alloc::Global;
use std::hash::RandomState;
use std::marker::Model;
use summaries::{DueChanges, DueSummaries, DueSummary};

/// An area border router on one thread: its link-state databases, interfaces and address ranges,
/// and the journal of the events that produced them. It also has what they give: the routing table
/// (RFC 2328, 16), and the summary-LSAs due in each area (12.4.3).
///
/// A core is *current* if the table and the due summaries reflect the whole journal. It is *behind*
/// only after memory ran out while they were being updated: both then reflect the first events, up
/// to the serial that `built` returns, until the next event or `catch_up` rebuilds them.
pub struct Core {
    alloc: Global,
    hashing: RandomState,
    state: State,
    routes: Routes,
    // The number of journal events that the table and the due summaries reflect.
    built: u64,
    // True if the base came from `roll`: it is then the state at that time.
    rolled: bool,
}

impl Model for Core {
    ghost use Rattle.std.specs.Coded.{Coded, codes};
    ghost use Rattle.route_table.specs.Tables.{TableValue, table_code};
    ghost use Rattle.event_core.specs.Cores.{CoreValue};

    ghost Value = { CoreValue };

    ghost coded = { let table : Coded TableValue = table_code in Prim.hlevel (codes, table) };

    ghost use Rattle.event_core.specs.Kept.{core_of, IsCoherent, IsBaseItself};

    ghost view = { λ c. core_of c.state c.routes c.built };

    ghost invariant = { λ c. IsCoherent c.state c.routes c.built × IsBaseItself c.rolled c.state };
}

// proof: a value is dropped by one call, not part by part at each exit of a function.
impl Drop for Core {
    fn drop(self) {
        let Core {
            alloc: _,
            hashing: _,
            state: _state,
            routes: _routes,
            built: _,
            rolled: _,
        } = self;
    }
}

impl Core {
    /// Opens a core for the configuration, with no interfaces, empty databases and an empty
    /// journal. The first event gets serial 1.
    ///
    /// # Errors
    ///
    /// Returns the first fault of the configuration (40 to 44), or 30 Memory.
    pub fn open(alloc: Global, config: Config, hashing: RandomState) -> Result<Core, ConfigFault>
        ensures fault { IfErr result (IsConfigFaultOf config) }
        ensures opens { IfOk result (IsOpening (bare config) standard_limits) }
        ensures kept { IfOk result IsCore }
    {
        Core::open_within(alloc, config, Limits::STANDARD, hashing)
    }

    /// Opens a core for the configuration, with the given limits.
    fn open_within(
        alloc: Global,
        config: Config,
        limits: Limits,
        hashing: RandomState,
    ) -> Result<Core, ConfigFault>
        requires { limits.area_lsas ≤ max_routers }
        ensures fault { IfErr result (IsConfigFaultOf config) }
        ensures opens { IfOk result (IsOpening (bare config) limits) }
        ensures kept { IfOk result IsCore }
    {
        if let Some(fault) = fault_in(&config) {
            return Err(fault);
        }
        match Core::open_with_limits(alloc, Base::bare(alloc, config), limits, hashing) {
            Ok(core) => Ok(core),
            Err(Memory) => Err(ConfigFault::Memory),
        }
    }

    /// Opens a core from a base, with an empty journal. Serials continue from the base's serial.
    ///
    /// # Errors
    ///
    /// Returns the first fault of the base: one of its configuration (40 to 44), 47 Doubled, or an
    /// interface or LSA that an event would have refused (20, 21, 27, 29). If memory runs out, that
    /// is `BaseFault::Config(ConfigFault::Memory)`.
    pub fn open_from(alloc: Global, base: Base, hashing: RandomState) -> Result<Core, BaseFault>
        ensures fault { IfErr result (IsBaseFaultOf standard_limits base) }
        ensures opens { IfOk result (IsOpening base standard_limits) }
        ensures kept { IfOk result IsCore }
    {
        let opened = match fault_in_base(alloc, &base, Limits::STANDARD) {
            Ok(Some(fault)) => return Err(fault),
            Ok(None) => Core::open_with_limits(alloc, base, Limits::STANDARD, hashing),
            Err(Memory) => Err(Memory),
        };
        match opened {
            Ok(core) => Ok(core),
            Err(Memory) => Err(BaseFault::Config(ConfigFault::Memory)),
        }
    }

    /// Opens a core from a base in which `fault_in_base` has found no fault, with the given limits.
    ///
    /// # Errors
    ///
    /// Returns `Memory` if memory runs out.
    pub fn open_with_limits(
        alloc: Global,
        base: Base,
        limits: Limits,
        hashing: RandomState,
    ) -> Result<Core, Memory>
        requires sound { base_fault_of limits base ≡ None }
        requires few { limits.area_lsas ≤ max_routers }
        ensures opens { IfOk result (IsOpening base limits) }
        ensures kept { IfOk result IsCore }
    {
        let state = State::from_base(alloc, base, limits, hashing)?;
        let routes = Routes::build(alloc, &state, hashing)?;
        Ok(Core {
            alloc,
            hashing,
            state,
            routes,
            built: 0,
            rolled: false,
        })
    }

    /// Applies an event to the databases, interfaces and ranges, and updates the table and the due
    /// summaries.
    ///
    /// The cost follows what the event changes: a second in which no LSA reaches MaxAge does no SPF
    /// work. If the core was behind, everything is rebuilt. If memory runs out after the event was
    /// taken, the reply is `Behind`, and the table and the due summaries are unchanged.
    ///
    /// # Errors
    ///
    /// Returns the first refusal that holds for the event (20 to 29, 34 to 36), or 30 Memory if
    /// memory runs out before the event is taken. The core is then unchanged.
    pub fn apply(&mut self, event: Event) -> Result<Reply, Refusal>
        ensures applied { Applies self.old event result self.new }
        ensures changes { IfOk result (λ reply. NamesChanges self.old reply.state self.new) }
        ensures work { IfOk result (λ reply. HasBoundedWork self.old reply.state self.new) }
        ensures quiet { IfOk result (λ reply. IsQuietSecond self.old event →
            DoesNothing reply self.new) }
    {
        let is_current = self.built == self.state.journal().len() as u64;
        let named = affected_by(self.alloc, &self.state, &event)?;
        let (serial, changed) = self.state.step(event)?;
        let settled = if is_current {
            self.routes.settle(self.alloc, &self.state, changed, named)
        } else {
            self.routes
                .start_anew(self.alloc, &self.state, self.hashing)
        };
        let state = match settled {
            Ok(()) => {
                self.built = self.state.journal().len() as u64;
                Status::Current
            }
            Err(Memory) => Status::Behind,
        };
        Ok(Reply {
            serial,
            changed,
            state,
        })
    }

    /// Rebuilds the table and the due summaries if the core is behind. Everything else is
    /// unchanged, including `changes`, `due_changes` and `work`.
    ///
    /// Returns `Behind` if memory runs out again; the table and the due summaries are then
    /// unchanged.
    pub fn catch_up(&mut self) -> Status
        ensures journal { self.new.journal ≡ self.old.journal }
        ensures base { self.new.base ≡ self.old.base }
        ensures limits { self.new.limits ≡ self.old.limits }
        ensures changes { self.new.changes ≡ self.old.changes }
        ensures due_changes { self.new.due_changes ≡ self.old.due_changes }
        ensures work { self.new.work ≡ self.old.work }
        ensures stands { MatchesStatus self.old result self.new }
    {
        let count = self.state.journal().len() as u64;
        if self.built == count {
            return Status::Current;
        }
        match self.routes.rebuild(self.alloc, &self.state, self.hashing) {
            Ok(_) => {
                self.built = count;
                Status::Current
            }
            Err(Memory) => Status::Behind,
        }
    }

    /// Applies the events in order, as `apply` does, and returns their replies and refusals in the
    /// same order. `changes`, `due_changes` and `work` then describe the last event taken; if none
    /// was, they are unchanged.
    ///
    /// # Errors
    ///
    /// Returns `Memory` if there is no memory for the list of replies. No event is applied then.
    pub fn run(&mut self, events: Vec<Event>) -> Result<Vec<Result<Reply, Refusal>>, Memory>
        ensures runs { IfOk result (λ replies. Runs self.old events.items replies.items self.new) }
        ensures err { OnErr result (self.new ≡ self.old) }
    {
        let mut replies = Vec::with_capacity(self.alloc, events.len())?;
        for event in events {
            match replies.push(self.apply(event)) {
                Ok(()) => {}
                Err(_) => unreachable!(),
            }
        }
        Ok(replies)
    }

    /// Makes the present state the base, and empties the journal: a checkpoint. The table, the due
    /// summaries, `changes`, `due_changes` and `work` are unchanged, and serials continue. Returns
    /// the serial.
    ///
    /// A second roll with no event in between copies nothing.
    ///
    /// A roll is no event and takes no serial. The base is the configuration with its ranges, the
    /// serial, the interfaces, and each LSA at its present age. A core that is opened from the base
    /// and applies the journal equals this one. 37 comes before 30: nothing is tried while the core
    /// is behind.
    ///
    /// # Errors
    ///
    /// Returns 37 NotCurrent if the core is behind, or 30 Memory. The core is then unchanged.
    pub fn roll(&mut self) -> Result<u64, Refusal>
        ensures rolled { OnOk result (Rolls self.old self.new) }
        ensures serial { IfOk result (λ serial. serial ≡ serial_of (state_of self.old)) }
        ensures current { OnOk result (IsCurrent self.old) }
        ensures refused { IfErr result (IsRollRefusal self.old) }
        ensures unchanged { OnErr result (self.new ≡ self.old) }
    {
        if self.built != self.state.journal().len() as u64 {
            return Err(Refusal::NotCurrent);
        }
        if self.is_base_itself() {
            return Ok(self.state.serial());
        }
        // proof: a base made from the present state has no fault.
        let _ = self.state.base();
        let Ok(base) = base_of(self.alloc, &self.state) else {
            return Err(Refusal::Memory);
        };
        self.state.set_base(base);
        self.built = 0;
        self.rolled = true;
        Ok(self.state.serial())
    }

    // Returns true if the base came from a roll, and no event was taken since.
    fn is_base_itself(&self) -> bool
        ensures { result ≡ true → (self.now.journal ≡ []) × IsBaseOf (state_of self.now) self.now.base }
    {
        self.state.journal().is_empty() & self.rolled
    }

    /// Returns the routing table (RFC 2328, 11).
    pub fn table(&self) -> &Table
        ensures value { result.now ≡ self.now.table }
        ensures kept { IsCore self.now }
    {
        self.routes.table()
    }

    /// Returns the summary-LSAs due in the area (RFC 2328, 12.4.3), in the order of LS type and
    /// destination, or `None` if the area is not configured. They reflect the same events as the
    /// table.
    pub fn due(&self, area: u32) -> Option<&[DueSummary]>
        ensures value { option_map (λ list. list.now) result ≡ list_under self.now.summaries area }
        ensures right { IsDueIn (built_state self.now) area (option_map (λ list. list.now) result) }
        ensures kept { IsCore self.now }
    {
        self.routes.summaries().get(area)
    }

    /// Returns the due summaries of all areas.
    pub fn summaries(&self) -> &DueSummaries
        ensures value { lists_of result.now ≡ self.now.summaries }
        ensures kept { IsCore self.now }
    {
        self.routes.summaries()
    }

    /// Returns the networks whose table item the last taken event changed, in ascending order.
    ///
    /// The list is empty if the core was behind before that event or after it. Compare the whole
    /// table in that case.
    pub fn changes(&self) -> &[Prefix]
        ensures { result.now ≡ self.now.changes }
    {
        self.routes.changes()
    }

    /// Returns what the last taken event changed in the due summaries of each area (RFC 2328,
    /// 12.4.3).
    ///
    /// There are no changes if the core was behind before that event or after it. Compare the whole
    /// lists in that case.
    pub fn due_changes(&self) -> &DueChanges
        ensures { result.now ≡ self.now.due_changes }
    {
        self.routes.due_changes()
    }

    /// Returns the SPF work of the last taken event, summed over the areas: vertices taken from the
    /// queue, and next-hop sets written. If the core was behind before the event, it is the work of
    /// rebuilding the trees; if the core was behind afterwards, it is zero.
    pub fn work(&self) -> Touched
        ensures { result ≡ self.now.work }
    {
        self.routes.work()
    }

    /// Returns the state, with the trees and routes that the table and the due summaries are made
    /// of, or `None` if the core is behind.
    pub fn calculated(&self) -> Option<Calculated<'_>>
        ensures state { IfSome result (λ found. found.state.now ≡ state_of self.now) }
        ensures right { IfSome result (λ found.
            IsCalculationOf found.state.now found.calculation.now) }
        ensures current { IfSome result (λ _. IsCurrent self.now) }
        ensures none { IfNone result (IsCurrent self.now → ⊥) }
    {
        if self.built != self.state.journal().len() as u64 {
            return None;
        }
        Some(Calculated {
            state: &self.state,
            calculation: self.routes.calculation(),
        })
    }

    /// Returns the base: the state before the first event of the journal.
    pub fn base(&self) -> &Base
        ensures value { result.now ≡ self.now.base }
        ensures kept { IsCore self.now }
    {
        self.state.base()
    }

    /// Returns the serial: the base's serial plus the number of events in the journal.
    pub fn serial(&self) -> u64
        ensures value { result ≡ self.now.base.serial + length self.now.journal }
        ensures state { result ≡ serial_of (state_of self.now) }
    {
        self.state.serial()
    }

    /// Returns the events taken since the base, in order.
    pub fn journal(&self) -> &[Event]
        ensures value { result.now ≡ self.now.journal }
        ensures kept { IsCore self.now }
    {
        self.state.journal()
    }

    /// Returns the serial of the last event that the table and the due summaries reflect. It equals
    /// `serial` if the core is current.
    pub fn built(&self) -> u64
        ensures value { result ≡ self.now.base.serial + self.now.built }
        ensures kept { IsCore self.now }
    {
        self.state.serial() - (self.state.journal().len() as u64 - self.built)
    }

    /// Returns true if the table and the due summaries reflect the whole journal.
    pub fn is_current(&self) -> bool
        ensures value { MatchBool result (IsCurrent self.now)
            (self.now.built < length self.now.journal) }
        ensures kept { IsCore self.now }
    {
        self.built == self.state.journal().len() as u64
    }

    /// Returns copies of all LSAs with their scopes, at their present age: areas by Area ID and
    /// then the AS, and within a database by LS type, Link State ID and Advertising Router.
    ///
    /// # Errors
    ///
    /// Returns `Memory` if memory runs out.
    pub fn lsas(&self) -> Result<Vec<(Scope, Checked)>, Memory>
        ensures { IfOk result (λ found. AreLsas (state_of self.now) found.items) }
    {
        lsas(self.alloc, &self.state)
    }

    /// Returns the configuration, with the present address ranges.
    pub fn config(&self) -> &Config
        ensures value { result.now ≡ (state_of self.now).config }
        ensures kept { IsCore self.now }
    {
        self.state.config()
    }

    /// Returns how often everything was built: once by opening, and once for each rebuild of a core
    /// that was behind. It has no contract; it is for tests and monitoring.
    pub fn build_count(&self) -> u64 {
        self.routes.build_count()
    }
}
