//! Tokens of an engine's published history.
//!
//! A token holds a prefix of the history, a book that only grows (`logbook`). Two tokens of one
//! book are prefixes of one history: that is the rule of the book, and takes no step.
ghost use Rattle.std.specs.Prelude.{◌≡◌, ◌+◌, length};
ghost use Rattle.publication.specs.Published.{IsLegalHistory};
ghost use Rattle.publication.specs.Told.{TokenValue};

use crate::history::HistoryPrefix;
use crate::opening_base::OpeningBase;
use std::fmt;
use std::marker::Model;

/// A token: proof that the engine of this name published this history of events.
///
/// Any thread may pass it on. Only the length of the history and its serial are stored.
pub struct Told {
    front: HistoryPrefix,
    base: OpeningBase,
    serial: u64,
}

// proof: a value is dropped by one call, not part by part at each exit of a function.
impl Drop for Told {
    fn drop(self) {
        let Told {
            front: _front,
            base: _base,
            serial: _,
        } = self;
    }
}

impl Model for Told {
    ghost use Rattle.std.specs.Prelude.{◌≡◌, ◌+◌, length};
    ghost use Rattle.publication.specs.Published.{IsLegalHistory};
    ghost use Rattle.publication.specs.Told.{TokenValue};

    ghost Value = { TokenValue };

    ghost view = { λ t. record { name = record { book = t.front.book; base = t.base }; list = t.front.list } };

    ghost invariant = { λ t. IsLegalHistory t.base t.front.list × (t.serial ≡ t.base.serial + length t.front.list) };
}

/// The token with its serial, such as `Told(3)`.
impl fmt::Debug for Told {
    fn fmt<W: fmt::Write>(&self, f: &mut fmt::Formatter<W>) -> fmt::Result {
        let serial = self.serial();
        write!(f, "Told({serial})")
    }
}

impl Told {
    /// Creates a token for the history.
    pub fn of(front: HistoryPrefix, base: OpeningBase, serial: u64) -> Told
        requires legal { IsLegalHistory base front.list }
        requires serial { serial ≡ base.serial + length front.list }
        ensures { result ≡ record {
          name = record { book = front.book; base = base };
          list = front.list;
        } }
    {
        Told {
            front,
            base,
            serial,
        }
    }

    /// Returns the serial of the last event of the history: the base's serial plus the number of
    /// events.
    pub fn serial(&self) -> u64
        ensures serial { result ≡ self.now.name.base.serial + length self.now.list }
        ensures legal { IsLegalHistory self.now.name.base self.now.list }
    {
        self.serial
    }

    pub(crate) fn into_front(self) -> HistoryPrefix
        ensures { (result.book ≡ self.name.book) × (result.list ≡ self.list) }
    {
        let Told {
            front,
            base: _,
            serial: _,
        } = self;
        front
    }
}
