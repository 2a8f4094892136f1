//! Tests of the engine, for what no contract says.
//!
//! Workers run side by side, lookups do not wait for a lock, and calls succeed with ample memory.
//! The tests also cover the answers if memory is refused, how much an event publishes, and that a
//! roll stops neither workers nor lookups.
#![tactic(auto)]

#[cfg(test)]
mod answers;
#[cfg(test)]
mod gates;
#[cfg(test)]
mod memory;
#[cfg(test)]
mod publishing;
#[cfg(test)]
mod rolls;
#[cfg(test)]
mod trial;
#[cfg(test)]
mod workers;
