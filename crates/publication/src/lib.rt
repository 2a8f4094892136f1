//! Publication: an engine publishes its routing table with the history of events that the table
//! reflects, and forwarders look addresses up in it.
//!
//! The published table exists twice, and the two copies share no memory:
//!
//! ```text
//!  writer ── changes ──> the other copy
//!                            │ publish: one step
//!                            ▼
//!  forwarders ─────────> the published copy: enter, look up, leave
//! ```
//!
//! 1. The writer waits for readers that are still in the copy that is not published.
//! 2. It repeats the changes of the last publication there, and makes the new ones.
//! 3. It publishes that copy in one step. Forwarders that enter afterwards read it.
//!
//! A forwarder takes no lock, waits for nobody and allocates nothing.
//!
//! `publish_table_changes` makes one change for each network that changed: set, drop or discard.
//! Its cost follows the changes. `publish_table` clears the table and publishes all of it, so its
//! result does not depend on updates that were pending. An engine that always published all of it
//! would meet every clause. So `Seen::changes` counts the changes, and tests compare the counts.
//!
//! A token (`Told`) stands for a published history, of which only the length and the serial are
//! stored. A forwarder keeps the longest history that it has seen or learned of. It never accepts a
//! table with a shorter one. All of these histories are prefixes of one, which exists only in the
//! proofs.
//!
//! The published history only grows. It is never longer than the history that the core's table
//! reflects: a publication follows the core.
//!
//! The name of an engine is its history and the base that it was opened with. It has no bytes.
//! Tokens and forwarders carry it, and `learn` requires that the two names are equal.
//!
//! A token is given only after its publication. So a published table never lacks events that its
//! forwarder knows, but no clause of the two copies says so: `LookupError` has that case too. Tests
//! show that `NoEntry` comes only after the writer has gone.
#![tactic(auto)]

mod forwarder;
mod history;
mod lookup_error;
mod opening_base;
mod published_table;
mod publishing;
mod rule;
mod token;

pub use forwarder::{Forwarder, Seen};
pub use history::{History, HistoryPrefix};
pub use lookup_error::LookupError;
pub use opening_base::OpeningBase;
pub use published_table::{EngineName, PublishedTable};
pub use publishing::{publish_table, publish_table_changes};
pub use rule::{TableWriter, TellsName};
pub use token::Told;
