//! External routes (RFC 2328, 16.4): the entries of networks outside the AS, by AS-external-LSAs,
//! and the preferred route of each AS boundary router.
//!
//! An AS-external-LSA counts if its AS boundary router has a preferred route. It leads to this
//! router, or to its forwarding address. Both have results of their own: the preferred route of
//! each router, and the longest match of each forwarding address with the path there. An update has
//! three steps:
//!
//! 1. It recomputes the preferred routes of the routers that layers below list as changed.
//! 2. It looks up the forwarding addresses of LSAs that changed, and the addresses in a listed
//!    network that is no shorter than their match. A shorter network does not change the match.
//! 3. It recomputes the entries of networks.
//!
//! The entry of a network is recomputed in these cases:
//!
//! - an LSA for it was added or removed, or advertises something else;
//! - the router or the forwarding address of an LSA for it has another result;
//! - an LSA leads to it, and a layer below lists it.
//!
//! A listed network without an LSA has no entry, and had none before. A router or address that is
//! looked up again with the same result affects no network.
//!
//! A forwarding address is looked up once for all LSAs that name it.
#![tactic(auto)]

mod choose;
mod class;
mod external;
mod forward;
mod inputs;
mod preferred;
mod update;

pub use class::{ExternalType, PathClass};
pub use external::External;
pub use forward::{ForwardingMatch, ForwardingPath};
pub use inputs::ExternalInputs;
pub use preferred::AsbrRoute;
