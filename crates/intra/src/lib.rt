//! Intra-area routes (RFC 2328, 16.1 and 16.8): the entries of networks, and the area border
//! routers and AS boundary routers that are reached in each area.
//!
//! The offers with the least key make the entry of a network, with all their paths. An index of
//! each area has the prefixes that each vertex offers, with their metrics. A router offers the
//! prefixes of its stub links, and a transit network its own prefix. The index also has the
//! vertices that offer each prefix. It depends on the area's LSAs only, not on distances. A prefix
//! that no vertex offers is removed from it.
//!
//! An entry is chosen from the vertices that offer its prefix, by their present distances and next
//! hops in the tree. So an update recomputes the entry of a prefix in these cases:
//!
//! - an LSA that offers it was added or removed, or offers it differently;
//! - a vertex that offers it has another distance or other next hops;
//! - an interface changed, and the root offers it.
//!
//! All other prefixes have the same offers as before, and keep their entries. Building is an update
//! of an empty index that lists every LSA.
//!
//! A router other than the root is kept if bit B or bit E of its router-LSA is set and the tree
//! reaches it. An update looks at the routers among the changed vertices, and at the routers of
//! changed router-LSAs. A router with neither bit is not looked up in the tree.
//!
//! The index keeps the offers of an LSA, as they cannot be read after the LSA is removed. They are
//! in ascending order without duplicates. So another order of the links in an LSA is no change, and
//! no prefix has a source twice. The source of a prefix has the place of its vertex in the graph as
//! a hint, and an entry has the place of its sources: usually only the entry itself is hashed.
//!
//! Contracts state the offers as a relation, not as a list, so that the parts of a loop compose.
#![tactic(auto)]

mod affected;
mod area;
mod area_index;
mod choose;
mod dirty;
mod entry;
mod inputs;
mod intra;
mod offered;

pub use dirty::Dirty;
pub use entry::IntraEntry;
pub use inputs::{AreaInputs, IntraInputs};
pub use intra::Intra;
pub use route_choice::ReachedRouter;
