//! The names for a program that links the router: the databases, the routing table and the due
//! summary-LSAs of an OSPF area border router (RFC 2328).
//!
//! This crate has no code of its own. Each name comes from a crate below it.
#![tactic(auto)]

// The router: a core on one thread, or an engine that threads share, with its forwarders.
pub use engine::{
    Answer, Base, BaseFault, BytesFault, ConfigFault, Core, DueList, DueSummary, Engine,
    EntryFault, Event, Forwarder, Gate, LookupError, Open, OpenFault, Refusal, Refused, Reply,
    Seen, Status, Told,
};
// The base, from which a router is opened again.
pub use event_state::{Limits, fault_in_base};
pub use ospf_types::listed::Listed;
// The other results of a core: due summaries, changes and work.
pub use event_core::{DueChanges, DueSummaries, Touched, fault_in};
pub use summary_lists::AreaSummaries;
// LSAs and their bytes (A.4).
pub use lsa_codec::{
    Checked, ExternalFields, Header, Link, LinkKind, Links, Routers, WireFault, read, sum_of, write,
};
// Configurations, keys and routes.
pub use ospf_types::address::Address;
pub use ospf_types::config::{AreaConfig, Areas, Config, Interface, Range, Ranges, Stub};
pub use ospf_types::entry::{Entry, PathType, Paths};
pub use ospf_types::hop::{NextHop, Path};
pub use ospf_types::key::{Dest, Key, Scope};
pub use ospf_types::memory::Memory;
pub use ospf_types::prefix::Prefix;
// The routing table (11).
pub use route_table::{Item, Items, Match, Table};
