//! The replay of a recording, and an HTML page about its end: the areas, the routing table, the due
//! summaries, and the last changes. The page loads nothing from elsewhere.
//!
//! The page is made in memory and then written, so nothing is written if memory runs out. A page of
//! 1,000 routers has less than a megabyte.
//!
//! - The changes of the last ten lines are listed as `abr changes` prints them. Refused events are
//!   not listed.
//! - An area with more than 200 vertices has no picture, as it could not be read. The page then has
//!   their number.
#![tactic(auto)]

mod ending;
mod paging;
mod pictures;
mod sections;

pub use paging::page_one;
