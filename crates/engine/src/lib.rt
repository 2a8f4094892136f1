//! The engine of an OSPF area border router (RFC 2328), which threads share. Any thread submits
//! events, under a lock. The engine publishes the changes of the routing table, and forwarders look
//! addresses up in it without a lock.
//!
//! `EngineState` is the state under the lock: the core, the history, and the writer of the table
//! that forwarders read. It is kept in a slot next to the lock, which has the engine's name.
//!
//! ```text
//!  submit ── lock ── the state is moved from its slot
//!                      │ the core applies the event
//!                      │ Gate::inside
//!                      │ publish: the changes, or the whole table if the state is stale
//!                    the state is moved back ── unlock ──> the reply, with a token if Current
//! ```
//!
//! - If the table is current before and after an event, only its changes are published, as
//!   `Core::changes` names them, with the serial and the history.
//! - The state is *stale* if the core is or was behind, or if memory ran out during a publication.
//!   The next publication then clears the table, and publishes all of it.
//! - The reply to an event is `Current`, with a token, exactly if the event was published.
//! - A refused event has a token exactly if the published table reflects the whole journal. The
//!   contract of `EngineState` says so. The public contract says less, and tests show the rest. The
//!   same holds for `due` and `catch_up`.
//!
//! `roll` keeps the history at the last roll, of which only the length is stored. The events since
//! the engine was opened are this history and the journal. So tokens remain valid, nothing is
//! published, and no forwarder waits. A core that is opened from the base and given the journal
//! equals the core that was rolled.
//!
//! The hooks of a gate cannot change what an engine promises. Contracts say that each hook was
//! called with the worker and the place, by a fact that only its call gives. No fact says how often
//! or in which order: tests count the calls. `Gate::inside` runs under the lock, so it must not
//! wait for a `submit`.
//!
//! Contracts state a refusal over all events since the engine was opened, across rolls. There 28
//! says only that no refusal that is tested before it holds.
//!
//! `submit_all` reserves memory for all answers before a thread starts. All threads that were
//! started are joined, even if one could not be started (31 Spawn).
#![tactic(auto)]

mod answer;
mod bytes;
mod bytes_fault;
mod engine;
mod engine_state;
mod gate;
mod open_fault;
mod slot;
mod workers;

pub use answer::{Answer, DueList, Refused};
pub use bytes_fault::BytesFault;
pub use engine::Engine;
pub use engine_state::EngineState;
pub use event_core::{ConfigFault, Core, DueSummary, Event, Refusal, Reply, Status};
pub use event_state::{Base, BaseFault, EntryFault};
pub use gate::{Gate, Open};
pub use open_fault::OpenFault;
pub use publication::{Forwarder, LookupError, Seen, Told};
