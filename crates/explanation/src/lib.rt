//! The explanation of the routing table's items for an address (RFC 2328, 11.1 and 16): the LSAs
//! that offer networks which contain it, and the verdict on each offer. The offers that are taken
//! have traces: the links that their paths lead over.
//!
//! An explanation is made on demand, from the results that a core keeps. Nothing is recorded for it
//! in advance.
//!
//! - All LSAs are read once, for the offers of networks that contain the address. If an offer has a
//!   forwarding address, all are read a second time, for the networks that contain that address.
//! - Each offer is judged by the distances and routes of the core. If several tests of the RFC
//!   reject an offer, the verdict is the first of them. LSInfinity comes before MaxAge, which the
//!   RFC has in one step.
//! - Offers are grouped by network, in the order of the table. So the longest match is the last
//!   network with a route. The offers for shorter networks are explained too.
//! - Two stub links of one LSA to one network are two offers, each with its traces.
//! - Summary-LSAs and AS-external-LSAs of the router itself have the verdict `Own`. They are not
//!   left out.
//! - A transit network has the verdict `LesserId` only in the area of the route and at its cost.
//! - A stub network that costs more is lost at 16.1. The second stage has no step for this test.
//! - A trace names the LSA of each link's tail, which states the link and its cost. The LSA of the
//!   head is in the same database, and is not shown.
#![tactic(auto)]

mod all_offers;
mod explained;
mod forward;
mod grouping;
mod judging;
mod layers;
mod networks;
mod offer;
mod offered;
mod offers;
mod outside;
mod own_traces;
mod trace;
mod traces;
mod verdict;

pub use explained::{Candidate, explain};
pub use offer::{LsaInstance, Offer, OfferKind};
pub use trace::{Step, Trace, TraceNode};
pub use verdict::Verdict;
