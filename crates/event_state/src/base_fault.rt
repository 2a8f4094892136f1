//! The faults of a base, with their numbers and names.
ghost use Rattle.std.specs.Prelude.{Some};
ghost use Rattle.event_state.specs.Texts.{unfit_text, base_fault_text};

use ospf_types::ConfigFault;
use std::fmt;
use thiserror::Error;

/// A fault in the interfaces and LSAs of a base, which no events could have led to: the first of
/// these, in this order, that holds.
#[derive(Clone, Copy, Debug, PartialEq, Eq, Error)]
pub enum EntryFault {
    /// The area of an interface, or of an LSA's scope, is not configured.
    NoArea,
    /// An AS-external-LSA is listed for an area, or an LSA of another type for the AS.
    Scope,
    /// A scope has more LSAs than its database may have.
    Full,
    /// Two interfaces that are up have the same address.
    AddressTaken,
}

/// The fault as the number and name of the refusal that an event would get, such as `20 NoArea`.
impl fmt::Display for EntryFault {
    ghost output = { λ unfit. Some (unfit_text unfit) };

    fn fmt<W: fmt::Write>(&self, f: &mut fmt::Formatter<W>) -> fmt::Result {
        f.write_str(match self {
            EntryFault::NoArea => "20 NoArea",
            EntryFault::Scope => "21 Scope",
            EntryFault::Full => "27 Full",
            EntryFault::AddressTaken => "29 AddressTaken",
        })
    }
}

/// A fault of a base: the first of these, in this order, that holds.
#[derive(Clone, Copy, Debug, PartialEq, Eq, Error)]
pub enum BaseFault {
    /// The configuration has a fault.
    Config(ConfigFault),
    /// An interface id, or a key in a scope, is listed twice.
    Doubled,
    /// No events could have led to the interfaces and LSAs of the base.
    EntryFault(EntryFault),
}

/// The fault as a number and a name, such as `47 Doubled`.
impl fmt::Display for BaseFault {
    ghost output = { λ fault. Some (base_fault_text fault) };

    fn fmt<W: fmt::Write>(&self, f: &mut fmt::Formatter<W>) -> fmt::Result {
        match self {
            BaseFault::Config(fault) => write!(f, "{fault}"),
            BaseFault::Doubled => f.write_str("47 Doubled"),
            BaseFault::EntryFault(unfit) => write!(f, "{unfit}"),
        }
    }
}
