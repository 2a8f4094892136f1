//! The slot for an engine's state, next to the lock.
//!
//! Contracts know the content of a plain lock only by its type, so it has no name. The slot knows
//! the name of its engine.
ghost use Rattle.std.specs.Prelude.{◌≡◌, IfOk, IfSome};
ghost use Rattle.engine.specs.EngineSlots.{FitsSlot};

use crate::EngineState;
use atomic_table::{Play, Table, TableRule};
use publication::EngineName;
use std::alloc::{AllocError, Global};
use std::marker::Model;
use std::sync::Wait;
use std::thread;

/// The rule of the slot: its content has the slot's name.
pub struct SlotRule;

impl TableRule<Option<EngineState>, EngineName, EngineName> for SlotRule {
    ghost use Rattle.engine.specs.EngineSlots.{Locks};

    ghost holds = { Locks };

    ghost first = { λ name. name };
}

/// The step that gives a thread the right to exchange the content of the slot.
pub struct TakesOut;

impl Play<Option<EngineState>, EngineName> for TakesOut {
    ghost use Rattle.engine.specs.EngineSlots.{Took};

    ghost then = { Took };
}

/// The step that gives that right back.
pub struct PutsBack;

impl Play<Option<EngineState>, EngineName> for PutsBack {
    ghost use Rattle.engine.specs.EngineSlots.{Gave};

    ghost then = { Gave };
}

/// A slot for the state of an engine. Contracts see its name.
pub struct EngineSlot {
    table: Table<Option<EngineState>, EngineName, EngineName, SlotRule, Global>,
}

impl Model for EngineSlot {
    ghost use Rattle.std.specs.Prelude.{◌≡◌};
    ghost use Rattle.publication.specs.Names.{Name};

    ghost Value = { Name };

    ghost view = { λ r. r.table.shared.key };

    ghost invariant = { λ r. (r.table.shared.table_id.words ≡ 1) × (r.table.shared.table_id.slots ≡ 1) };
}

impl EngineSlot {
    /// Creates an empty slot.
    ///
    /// # Errors
    ///
    /// Returns `AllocError` if memory runs out.
    pub fn open(alloc: Global, name: &EngineName) -> Result<EngineSlot, AllocError>
        ensures { IfOk result (λ r. r ≡ name.now) }
    {
        let (table, seat) = Table::vacant(alloc, &[0], 1, name)?;
        drop(seat.into_badge());
        Ok(EngineSlot { table })
    }

    // Puts the new content into the slot, and returns the old one.
    fn swap<R: Wait>(&self, rt: &R, new: Option<EngineState>) -> Option<EngineState>
        requires { FitsSlot self.now new }
        ensures { FitsSlot self.now result }
    {
        let shared = &self.table.shared;
        for _ in rt.forever() {
            let (found, mut seat) = shared.swap_new_seat::<TakesOut>(0, 1);
            if found == 0 {
                let old = shared.exchange(&mut seat, 0, new);
                shared.store::<PutsBack>(&mut seat, 0, 0);
                drop(seat.into_badge());
                return old;
            }
            drop(seat.into_badge());
            thread::yield_now();
        }
        unreachable!()
    }

    /// Takes the engine's state from the slot. A thread that holds the lock always finds it there.
    pub fn take<R: Wait>(&self, rt: &R) -> EngineState
        ensures { result.name ≡ self.now }
    {
        for _ in rt.forever() {
            if let Some(engine_state) = self.swap(rt, None) {
                return engine_state;
            }
            thread::yield_now();
        }
        unreachable!()
    }

    /// Puts the engine's state back into the slot.
    pub fn put<R: Wait>(&self, rt: &R, engine_state: EngineState)
        requires { engine_state.name ≡ self.now }
    {
        if let Some(other) = self.swap(rt, Some(engine_state)) {
            drop(other.end(rt));
        }
    }

    /// Closes an empty slot.
    pub fn close<R: Wait>(self, rt: &R) {
        let EngineSlot { table } = self;
        let mut closed = table.close();
        if let Some(other) = closed.take(0) {
            drop(other.end(rt));
        }
        closed.free();
    }
}
