//! The published table, and the history that it reflects.
ghost use Rattle.std.specs.Prelude.{◌≡◌, IfOk};
ghost use Rattle.publication.specs.Updates.{shown_state_of};

use crate::history::HistoryPrefix;
use crate::opening_base::OpeningBase;
use event_state::Base;
use left_right::Absorb;
use ospf_types::memory::Memory;
use route_table::{Change, Table};
use std::alloc::{AllocError, Global};
use std::marker::Model;

/// The name of an engine, for contracts only.
pub struct EngineName {
    front: HistoryPrefix,
    base: OpeningBase,
}

// proof: a value is dropped by one call, not part by part at each exit of a function.
impl Drop for EngineName {
    fn drop(self) {
        let EngineName {
            front: _front,
            base: _base,
        } = self;
    }
}

impl Model for EngineName {
    ghost use Rattle.publication.specs.Names.{Name};

    ghost Value = { Name };

    ghost view = { λ t. record { book = t.front.book; base = t.base } };
}

impl EngineName {
    /// Returns the name of the engine with this history and base.
    pub fn of(front: &HistoryPrefix, base: &OpeningBase) -> EngineName
        ensures { result ≡ record { book = front.now.book; base = base.now } }
    {
        EngineName {
            front: front.again(),
            base: base.again(),
        }
    }
}

/// The table that readers see, with the history that it reflects and the base of the engine. Only
/// the length of the history is stored.
pub struct PublishedTable {
    pub table: Table,
    pub front: HistoryPrefix,
    pub base: OpeningBase,
    /// The number of changes made to the table since the engine was opened.
    pub changes: u64,
}

// proof: a value is dropped by one call, not part by part at each exit of a function.
impl Drop for PublishedTable {
    fn drop(self) {
        let PublishedTable {
            table: _table,
            front: _front,
            base: _base,
            changes: _,
        } = self;
    }
}

impl PublishedTable {
    /// Creates a copy of the table, with the history that it reflects and the base that the engine
    /// was opened with.
    ///
    /// # Errors
    ///
    /// Returns `Memory` if memory runs out.
    pub fn of(
        alloc: Global,
        table: &Table,
        front: &HistoryPrefix,
        base: &OpeningBase,
    ) -> Result<PublishedTable, Memory>
        ensures { IfOk result (λ shown. shown_state_of shown
            ≡ record { table = table.now; front = front.now; base = base.now }) }
    {
        Ok(PublishedTable {
            table: copy_of(alloc, table)?,
            front: front.again(),
            base: base.again(),
            changes: 0,
        })
    }

    fn count(&mut self)
        ensures { shown_state_of self.new ≡ shown_state_of self.old }
    {
        self.changes = self.changes.wrapping_add(1);
    }
}

fn copy_of(alloc: Global, table: &Table) -> Result<Table, Memory>
    ensures { IfOk result (λ copy. copy ≡ table.now) }
{
    let mut copy = table.empty_copy(alloc);
    for (prefix, item) in table.items() {
        copy.set(prefix, item.copy(alloc)?)?;
    }
    Ok(copy)
}

/// A change of the published table, or of its history.
#[derive(Drop)]
pub enum Update {
    Change(Change),
    List(HistoryPrefix),
}

/// The state that the two copies have in common. No value of this type is created.
pub struct PublishedState {
    pub table: Table,
    pub front: HistoryPrefix,
    pub base: Base,
}

impl Absorb<Update> for PublishedTable {
    ghost use Rattle.publication.specs.Updates.{updated, shown_state_of};

    type State = PublishedState;

    ghost state = { shown_state_of };

    ghost applied = { updated };

    fn absorb_first(
        &mut self,
        operation: &Update,
        other: &PublishedTable,
    ) -> Result<(), AllocError> {
        match operation {
            Update::Change(change) => {
                self.table.absorb_first(change, &other.table)?;
                self.count();
            }
            Update::List(front) => self.front = front.again(),
        }
        Ok(())
    }

    fn absorb_second(&mut self, operation: Update, other: &PublishedTable) -> Result<(), Update> {
        match operation {
            Update::Change(change) => match self.table.absorb_second(change, &other.table) {
                Ok(()) => {
                    self.count();
                    Ok(())
                }
                Err(change) => Err(Update::Change(change)),
            },
            Update::List(front) => {
                self.front = front;
                Ok(())
            }
        }
    }
}
