//! Replays over several workers.
//!
//! The events of a recording are dealt in turn to the threads of an engine, and the outcome is
//! printed in the order of the lines.
//!
//! - `replay_many` opens an engine with one forwarder, and runs each worker on a thread of its own.
//! - After all events, the engine is rolled once if a line asks for it.
//! - The forwarder learns the token of each answer. Then it enters the published table once, and
//!   all lookups are answered from it.
//! - The state shown at the end comes from the core that the engine returns when it is closed.
#![tactic(auto)]

mod asking;
mod dealing;
mod fault;
mod learning;
mod output;
mod printing;
mod replaying;
mod running;

pub use fault::WorkerReplayFault;
pub use replaying::{ReplayOptions, replay_many};
