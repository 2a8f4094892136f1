//! Tests of the event core on recordings: the changes of the table by the last event, the work of
//! that event, and the replies; and tests of the layers of routes, one by one.
//!
//! The latter cover a choice, results that are recomputed, and the destinations that summary-LSAs
//! and AS-external-LSAs advertise (RFC 2328, 12.4.3 and 12.4.4). They also cover an active range
//! (3.5), an inter-area route (16.2), and the example of one more layer. Most layers are built, and
//! then updated.
#![tactic(auto)]

#[cfg(test)]
mod answers;
#[cfg(test)]
mod backbone;
#[cfg(test)]
mod choices;
#[cfg(test)]
mod inter_area;
#[cfg(test)]
mod offers;
#[cfg(test)]
mod ranges;
#[cfg(test)]
mod results;
#[cfg(test)]
mod rolls;
#[cfg(test)]
mod statics;
#[cfg(test)]
mod tests;
mod trial;

pub use trial::{NETWORK, applied, events_of, items, networks_of, with_stubs};
