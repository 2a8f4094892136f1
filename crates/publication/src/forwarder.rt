//! Forwarders: readers of the published table that take no lock, never wait and allocate nothing.
ghost use Rattle.std.specs.Prelude.{◌≡◌, ◌⊎◌, ◌+◌, length, Some, MatchResult};
ghost use mathlib.Core.List.{IsPrefix};
ghost use Rattle.left_right.specs.Sides.{view};
ghost use Rattle.route_table.specs.Tables.{IsMatch};
ghost use Rattle.publication.specs.Published.{IsLegalHistory, IsTableFor};
ghost use Rattle.publication.specs.Forwarders.{IsLookup};
ghost use Rattle.publication.specs.LookupError.{IsLookupError};

use crate::history::HistoryPrefix;
use crate::lookup_error::LookupError;
use crate::opening_base::OpeningBase;
use crate::rule::{PublishStep, TableReader, TableReading};
use crate::token::Told;
use route_table::Match;
use std::marker::Model;

/// A reader of the published routing table, used by one thread at a time.
///
/// A forwarder never goes back: each lookup uses a table at least as new as the newest one that it
/// has seen, or has learned of by a token. Contracts see its engine's name, and the longest history
/// of events that it knows.
pub struct Forwarder {
    reader: TableReader,
    known: HistoryPrefix,
    base: OpeningBase,
}

// proof: a value is dropped by one call, not part by part at each exit of a function.
impl Drop for Forwarder {
    fn drop(self) {
        let Forwarder {
            reader: _reader,
            known: _known,
            base: _base,
        } = self;
    }
}

impl Model for Forwarder {
    ghost use Rattle.std.specs.Prelude.{◌≡◌, Some};
    ghost use Rattle.left_right.specs.Sides.{view as known_to};
    ghost use Rattle.publication.specs.Published.{IsLegalHistory};
    ghost use Rattle.publication.specs.Forwarders.{ForwarderValue};

    ghost Value = { ForwarderValue };

    ghost view = { λ f. record { name = record { book = f.known.book; base = f.base }; known = f.known.list } };

    ghost invariant = { λ f. (known_to f.reader.place ≡ Some (record { book = f.known.book; base = f.base })) × IsLegalHistory f.base f.known.list };
}

/// A forwarder's access to the published table, from `lookup` until `leave`. The table does not
/// change in between.
///
/// The next publication waits until it ends. It is not `Drop`, so it has to be ended by `leave`.
/// One that is never ended blocks the writer, and all threads that submit events, for ever.
pub struct Seen {
    reading: TableReading,
    front: HistoryPrefix,
    base: OpeningBase,
    address: u32,
}

impl Model for Seen {
    ghost use Rattle.std.specs.Prelude.{◌≡◌, Some};
    ghost use Rattle.left_right.specs.Sides.{view as known_to};
    ghost use Rattle.publication.specs.Published.{IsTableFor};
    ghost use Rattle.publication.specs.Forwarders.{SeenValue};
    ghost use Rattle.std.specs.Coded.{Coded, codes};
    ghost use Rattle.route_table.specs.Tables.{TableValue, table_code};

    ghost Value = { SeenValue };

    ghost coded = { let table : Coded TableValue = table_code in Prim.hlevel (codes, table) };

    ghost view = { λ s. record { name = record { book = s.front.book; base = s.base }; list = s.front.list; address = s.address; table = s.reading.part.value.table } };

    ghost invariant = { λ s. (known_to s.reading.place ≡ Some (record { book = s.front.book; base = s.base })) × IsTableFor s.base s.front.list s.reading.part.value.table };
}

impl Forwarder {
    /// Creates a forwarder that knows the given history.
    pub fn of(reader: TableReader, known: HistoryPrefix, base: OpeningBase) -> Forwarder
        requires named { view reader.place ≡ Some (record { book = known.book; base = base }) }
        requires legal { IsLegalHistory base known.list }
        ensures { result ≡ record {
          name = record { book = known.book; base = base };
          known = known.list;
        } }
    {
        Forwarder {
            reader,
            known,
            base,
        }
    }

    /// Makes every later lookup use a table that contains the token's events. The token must come
    /// from the same engine.
    pub fn learn(self, told: Told) -> Forwarder
        requires { told.name ≡ self.name }
        ensures name { result.name ≡ self.name }
        ensures before { IsPrefix self.known result.known }
        ensures told { IsPrefix told.list result.known }
        ensures one { (result.known ≡ self.known) ⊎ (result.known ≡ told.list) }
        ensures legal { IsLegalHistory result.name.base result.known }
    {
        let Forwarder {
            reader,
            known,
            base,
        } = self;
        let front = told.into_front();
        Forwarder {
            reader,
            known: known.longer(&front),
            base,
        }
    }

    /// Looks an address (in host order) up in the table that is published now. `Seen::found` is the
    /// match.
    ///
    /// # Errors
    ///
    /// Returns the forwarder, unchanged, in a `LookupError`. It is `NoEntry` if the table could not
    /// be entered. It is `Shorter` if the published table is older than the forwarder's history,
    /// which does not happen (no clause says so).
    pub fn lookup(self, address: u32) -> Result<Seen, LookupError>
        ensures { MatchResult result (IsLookup self address) (IsLookupError self) }
    {
        let Forwarder {
            reader,
            known,
            base,
        } = self;
        match reader.enter_as::<PublishStep>() {
            Ok(reading) => {
                let front = reading.get().front.again();
                if front.len() < known.len() {
                    // A token exists only for a published history, so this does not happen.
                    let told = Told::of(
                        front,
                        reading.get().base.again(),
                        reading.get().table.serial(),
                    );
                    let reader = reading.leave();
                    let forwarder = Forwarder {
                        reader,
                        known,
                        base,
                    };
                    return Err(LookupError::Shorter(forwarder, told));
                }
                Ok(Seen {
                    reading,
                    front: front.longer(&known),
                    base,
                    address,
                })
            }
            Err(reader) => Err(LookupError::NoEntry(Forwarder {
                reader,
                known,
                base,
            })),
        }
    }
}

impl Seen {
    /// Returns the longest match of the address that was looked up (RFC 2328, 11.1).
    pub fn found(&self) -> Match<'_>
        ensures found { IsMatch self.now.table.items self.now.address result }
        ensures right { IsTableFor self.now.name.base self.now.list self.now.table }
    {
        self.reading.get().table.lookup(self.address)
    }

    /// Returns the longest match of another address (in host order), in the same table.
    pub fn find(&self, address: u32) -> Match<'_>
        ensures found { IsMatch self.now.table.items address result }
        ensures right { IsTableFor self.now.name.base self.now.list self.now.table }
    {
        self.reading.get().table.lookup(address)
    }

    /// Returns the serial of the table: that of the last event that it reflects.
    pub fn serial(&self) -> u64
        ensures value { result ≡ self.now.name.base.serial + length self.now.list }
        ensures table { result ≡ self.now.table.serial }
    {
        self.reading.get().table.serial()
    }

    /// Returns the number of changes made to the published table since the engine was opened: for
    /// each event, one for each network whose item changed and one for the serial. For tests.
    pub fn changes(&self) -> u64 {
        self.reading.get().changes
    }

    /// Ends the access, and returns the forwarder. Its later lookups use this table or a newer one.
    pub fn leave(self) -> Forwarder
        ensures { result ≡ record { name = self.name; known = self.list } }
    {
        let Seen {
            reading,
            front,
            base,
            address: _,
        } = self;
        Forwarder {
            reader: reading.leave(),
            known: front,
            base,
        }
    }
}
