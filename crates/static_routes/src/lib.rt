//! An example of one more layer of routes, which is not part of the product: static routes. A
//! static route is used if no other route leads to its network.
#![tactic(auto)]

mod routes;

pub use routes::{StaticInputs, StaticRoutes};
