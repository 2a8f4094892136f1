//! Sets of next hops, for equal-cost multipath (RFC 2328, 16.1.1). Nine sets in ten have one hop,
//! and a set of up to two allocates no memory.
#![tactic(auto)]

mod set;

pub use set::HopSet;
