//! The configuration of one router of a captured network, as its LSAs show it: its areas, which of
//! them are stub areas, and its interfaces; and the preamble of a recording from it. This crate
//! does no input or output: a caller reads the capture, and prints the lines that are appended to a
//! text.
//!
//! Only the facts about the router are kept of each LSA: the router's own links, the point-to-point
//! links that lead to it, and a few words of other LSAs.
//!
//! - An area is a stub area if a router-LSA in it has the E-bit clear (RFC 2328, 12.1.2): its
//!   routers have to agree on that (10.5). Any instance of any router counts. The backbone is never
//!   a stub area (3.6).
//! - The default cost of a stub area is the metric of the last default route that the router
//!   advertised into it (12.4.3), LSInfinity aside. If there was none, it is taken to be 1, and
//!   `put_unknown` says so.
//! - If a default route was captured and no other summary of the router, the area is taken to get
//!   no other summaries.
//! - An interface with neighbours has the Link Data of its link as its address. An interface
//!   without neighbours has the number of its network, as its router-LSA has only that and a mask
//!   (12.4.1).
//! - The neighbour on a point-to-point link is the address that a stub link of the router reaches:
//!   a host route, or a network with both ends in it (12.4.1.1). Otherwise there is no neighbour
//!   address.
//! - All instances of the router's own router-LSAs count, since links come and go in a capture. All
//!   interfaces are up from the beginning.
//! - No LSA has address ranges or RFC1583Compatibility. There are no ranges, and it is disabled.
#![tactic(auto)]

mod area_facts;
mod area_links;
mod areas;
mod config;
mod fact;
mod facts;
mod fault;
mod finding;
mod found;
mod hosts;
mod links;
mod preamble;
mod telling;
mod unknown;

pub use areas::SeenAreas;
pub use config::CapturedConfig;
pub use fault::PreambleFault;
pub use ospf_types::ConfigFault;
pub use ospf_types::memory::Memory;
