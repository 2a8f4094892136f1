//! The parts of an HTML page that shows the routing table of an area border router and its due
//! summaries.
//!
//! The page is one file: it contains its style and its script, and it loads nothing from elsewhere.
//! Its head tells the browser to load nothing. Its text is made of numbers, addresses and fixed
//! words only, so no recording can put markup into it. Two parts take text of the same kind that
//! another crate has made. These are a picture as SVG, between `put_picture_beginning` and
//! `put_picture_end`, and the lines between `put_changes_beginning` and `put_changes_end`.
//!
//! The parts have this order: `put_beginning`, `put_areas_heading` and then each area,
//! `put_ranges`, `put_routes`, `put_summaries`, the last changes and `put_end`.
#![tactic(auto)]

mod areas;
mod frame;
mod ranges;
mod routes;
mod script;
mod style;
mod summaries;

pub use areas::{
    put_area_heading, put_areas_heading, put_left_out, put_picture_beginning, put_picture_end,
};
pub use frame::{put_beginning, put_changes_beginning, put_changes_end, put_end};
pub use ranges::put_ranges;
pub use routes::put_routes;
pub use summaries::put_summaries;
