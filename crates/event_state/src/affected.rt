//! The LSAs that an event may affect, listed before the event is taken.
//!
//! They are listed first because a second ages the LSAs that it brings to MaxAge: afterwards they
//! are like the LSAs that were at MaxAge before.
ghost use Rattle.std.specs.Prelude.{◌≡◌, ◌++◌, [], ◌∷◌, IfOk, OnOk};
ghost use Rattle.event_state.specs.Affected.{AreListed, IsAmong, NamesAll, with_scope};

use crate::event::Event;
use crate::state::State;
use ospf_types::key::{Key, Scope};
use ospf_types::lsa::MAX_AGE;
use ospf_types::memory::Memory;
use std::alloc::Global;

impl State {
    /// Returns the scopes and keys of the LSAs that the event may bring into use, take out of use,
    /// or change.
    ///
    /// They are the LSA of the event, or each LSA that a second brings to MaxAge (RFC 2328, 14).
    ///
    /// The list may have an LSA whose use does not change, such as one that is at MaxAge when it is
    /// flushed. The use of an LSA that is not listed never changes.
    pub fn affected_lsas(&self, alloc: Global, event: &Event) -> Result<Vec<(Scope, Key)>, Memory>
        ensures { IfOk result (λ named. NamesAll self.now event.now named.items) }
    {
        match event {
            Event::Install { scope, lsa } => one(alloc, *scope, lsa.key()),
            Event::Flush { scope, key } | Event::Purge { scope, key } => one(alloc, *scope, *key),
            Event::Interface { .. } | Event::RangeSet { .. } | Event::RangeDrop { .. } => {
                Ok(Vec::new(alloc))
            }
            Event::Second => self.coming(alloc),
        }
    }

    // Returns the LSAs of all scopes that a second brings to MaxAge.
    fn coming(&self, alloc: Global) -> Result<Vec<(Scope, Key)>, Memory>
        ensures { IfOk result (λ named. (at : Scope) → AreListed named.items self.now at) }
    {
        let mut named = Vec::new(alloc);
        for area in self.config().areas.as_slice() {
            self.add_coming(Scope::Area(area.id), &mut named)?;
        }
        self.add_coming(Scope::As, &mut named)?;
        Ok(named)
    }

    // Appends the LSAs of one scope that a second brings to MaxAge.
    fn add_coming(&self, scope: Scope, named: &mut Vec<(Scope, Key)>) -> Result<(), Memory>
        ensures kept { OnOk result (IsAmong named.old.items named.new.items) }
        ensures listed { OnOk result (AreListed named.new.items self.now scope) }
    {
        let Some(database) = self.database(scope) else {
            return Ok(());
        };
        if database.len() == 0 {
            return Ok(());
        }
        let mut keys = Vec::new(*named.allocator());
        database.at_age(MAX_AGE - 1, &mut keys)?;
        add_all(scope, &keys, named)
    }
}

fn one(alloc: Global, scope: Scope, key: Key) -> Result<Vec<(Scope, Key)>, Memory>
    ensures { IfOk result (λ named. named.items ≡ (scope, key) ∷ []) }
{
    Ok(Vec::from_slice(alloc, &[(scope, key)])?)
}

// Appends the keys, each with the scope.
fn add_all(scope: Scope, keys: &[Key], named: &mut Vec<(Scope, Key)>) -> Result<(), Memory>
    ensures { OnOk result (named.new.items ≡ named.old.items ++ with_scope scope keys.now) }
{
    for key in keys {
        named.push((scope, *key))?;
    }
    Ok(())
}
