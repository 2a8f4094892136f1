//! The refusals of events, with their numbers and names.
ghost use Rattle.std.specs.Prelude.{◌≡◌, Some};
ghost use Rattle.event_state.specs.Texts.{refusal_text};
ghost use Rattle.event_state.specs.Refusals.{refusal_for};

use lsdb::InstallRefusal;
use std::fmt;
use thiserror::Error;

/// The reason why an event was not taken: the first of these variants, in this order, that holds.
/// Nothing is changed.
///
/// 28 JournalFull comes before 29, so a full journal refuses an interface before its address is
/// compared. 34 compares a range with ranges of other prefixes only, and 36 never refuses a range
/// that replaces the one with its prefix.
///
/// The last three variants never refuse a single event. `Spawn` and `Workers` refuse the lists of
/// several workers, and `NotCurrent` refuses a roll.
#[derive(Clone, Copy, Debug, PartialEq, Eq, Error)]
pub enum Refusal {
    /// The area of the scope, of the interface or of the range is not configured.
    NoArea,
    /// The key of an AS-external-LSA for an area, or a key of another LS type for the AS.
    /// It does not depend on the LSAs that the database has.
    Scope,
    /// The database instance is newer (RFC 2328, 13.1).
    Older,
    /// The database instance is the same (RFC 2328, 13.1).
    Same,
    /// The database has no LSA with this key.
    NoLsa,
    /// The LSA to be flushed is not one of the router's own (RFC 2328, 14.1).
    NotOwn,
    /// The LSA to be purged is not at MaxAge (RFC 2328, 14).
    NotMaxAge,
    /// The LSA has a new key, and the database is at its limit.
    Full,
    /// The journal has as many events as it may have, or the serial has no successor.
    JournalFull,
    /// The interface is up, and another interface that is up has its address.
    AddressTaken,
    /// Another range of the area covers the new range, or is covered by it (RFC 2328, 3.5).
    RangeOverlaps,
    /// The area has no range with the prefix to be dropped.
    NoRange,
    /// The range has a new prefix, and the area has as many ranges as it may have.
    RangeFull,
    /// Memory ran out.
    Memory,
    /// The thread of a worker could not be started. Only several workers return this.
    Spawn,
    /// There are more lists than there may be workers. Only several workers return this.
    Workers,
    /// The table, the due summaries or the publication are behind. Only a roll returns this.
    NotCurrent,
}

impl Refusal {
    // Returns the refusal of an event that installs an LSA, for the database's refusal of the LSA.
    pub(crate) fn of_install(refusal: InstallRefusal) -> Refusal
        ensures { result ≡ refusal_for refusal }
    {
        match refusal {
            InstallRefusal::Older => Refusal::Older,
            InstallRefusal::Same => Refusal::Same,
            InstallRefusal::Full => Refusal::Full,
            InstallRefusal::Memory => Refusal::Memory,
        }
    }
}

/// The refusal as a number and a name, such as `23 Same`.
impl fmt::Display for Refusal {
    ghost output = { λ refusal. Some (refusal_text refusal) };

    fn fmt<W: fmt::Write>(&self, f: &mut fmt::Formatter<W>) -> fmt::Result {
        f.write_str(match self {
            Refusal::NoArea => "20 NoArea",
            Refusal::Scope => "21 Scope",
            Refusal::Older => "22 Older",
            Refusal::Same => "23 Same",
            Refusal::NoLsa => "24 NoLsa",
            Refusal::NotOwn => "25 NotOwn",
            Refusal::NotMaxAge => "26 NotMaxAge",
            Refusal::Full => "27 Full",
            Refusal::JournalFull => "28 JournalFull",
            Refusal::AddressTaken => "29 AddressTaken",
            Refusal::RangeOverlaps => "34 RangeOverlaps",
            Refusal::NoRange => "35 NoRange",
            Refusal::RangeFull => "36 RangeFull",
            Refusal::Memory => "30 Memory",
            Refusal::Spawn => "31 Spawn",
            Refusal::Workers => "32 Workers",
            Refusal::NotCurrent => "37 NotCurrent",
        })
    }
}
