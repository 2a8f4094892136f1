//! Tests of an area's graph together with its shortest-path tree (RFC 2328, 16.1 and 16.1.1).
//!
//! A `Trial` passes router-LSAs, network-LSAs and interfaces to a graph. Its tree is repaired with
//! the links that were removed and added.
//!
//! - A broadcast network and a point-to-point link, over which two paths have equal cost.
//! - Parallel links, and a link that only one end lists.
//! - One network-LSA after another for the same network.
//! - A repair that is refused memory.
//! - A walk of 400 changes that compares each repaired tree with a tree that is built.
//! - The layers under a tree: sets of next hops, the queue of a search, and the links of a graph.
//! - The tree of an area that follows its database.
//! - Paths link by link, in the first network and in a line of 600 routers.
#![tactic(auto)]

#[cfg(test)]
mod areas;
#[cfg(test)]
mod hops;
#[cfg(test)]
mod links;
#[cfg(test)]
mod network;
#[cfg(test)]
mod paths;
#[cfg(test)]
mod places;
#[cfg(test)]
mod queue;
#[cfg(test)]
mod tests;
#[cfg(test)]
mod trial;
#[cfg(test)]
mod walk;
