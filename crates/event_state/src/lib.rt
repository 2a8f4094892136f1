//! The state of an OSPF area border router (RFC 2328): its link-state databases, its interfaces and
//! address ranges, and the journal of the events that made them.
//!
//! `State::step` takes one event:
//!
//! 1. It looks for the first refusal that holds for the event, in the order of `Refusal`.
//! 2. It appends a copy of the event to the journal.
//! 3. It changes a database, the interfaces or the ranges. If memory runs out here, the copy is
//!    removed again, so the state is unchanged.
//!
//! The second value that `step` returns is true if the usable LSAs (key, Options, body), the
//! interfaces or the ranges differ from before, and false if not. So it is false for an LSA at
//! MaxAge that is flushed, purged, or replaced by another instance at MaxAge: no calculation uses
//! any of these.
//!
//! A state begins with a base: a configuration with its ranges, a serial, interfaces, and LSAs at
//! their present age. A roll makes the present state the base: interfaces by id, and LSAs by area
//! and key, those of the AS last. If the base has no fault, no event leads to a state whose base
//! would have one.
//!
//! A state does not check its configuration. If two areas have the same Area ID, a scope means the
//! first of them, and the database of the second stays empty. A core is opened only for a
//! configuration without faults, in which no two areas do.
#![tactic(auto)]

mod affected;
mod area_databases;
mod base;
mod base_checks;
mod base_fault;
mod event;
mod interfaces;
mod limits;
mod ranges;
mod refusal;
mod scopes;
mod state;

pub use base::Base;
pub use base_checks::{entry_fault_in, fault_in_base, fault_in_ordered, is_ordered};
pub use base_fault::{BaseFault, EntryFault};
pub use event::Event;
pub use limits::Limits;
pub use refusal::Refusal;
pub use state::State;
