//! Address ranges at area boundaries (RFC 2328, 3.5 and 16.2): the active ranges, and the networks
//! of each. They follow the intra-area routes.
//!
//! A network with an intra-area route is a member of the ranges of the route's area that cover it,
//! at the cost of its entry. A range is active if it has a member. When routes change, `update`
//! sets the members of the networks that changed. It returns the prefixes of ranges that became
//! active or inactive.
//!
//! Ranges are read here, and in no layer below: no graph, tree or intra-area route depends on them.
//! An event that sets or drops a range lists no LSA and no interface, and its work is 0. It names
//! the range by its Area ID and its prefix, and `reconfigure` updates the range:
//!
//! - If the range has members, they are the networks of the area that the prefix covers. They are
//!   removed if the area no longer has this range.
//! - If it has none, all intra-area entries are read once. The networks found become members if the
//!   area has this range.
//!
//! No other member changes. The layers above use the prefix as they use the prefixes that other
//! events change. Due summaries are recomputed for the prefix and for the networks that it covers:
//! a range hides them, or no longer does.
//!
//! Members have their costs, so one structure gives both the active ranges and the cost at which
//! each is due. Each range has its own list of networks, in order: a change finds its place by a
//! binary search, and the greatest cost is found by a pass over the list. A network is a member of
//! every range of its area that covers it (C.2).
#![tactic(auto)]

mod active;
mod covered_members;
mod member;
mod networks;
mod within;

pub use active::ActiveRanges;
pub use member::RangeMember;
