//! The report of why a journey goes on or does not: where it is, its next want, what is free of each night of it, and
//! what a step would do.
//!
//! The *next step* of a journey is the item that a step makes if the next want fits: the next transaction of a running
//! journey, or the compensation of one that goes back. What a step makes now is that item, or a refused turn if the want
//! does not fit. A finished journey has no next step, and a step makes nothing.
//!
//! Nothing here reads a store: the caller hands in the journey, the cells of the want, and the items of a journey that
//! goes back.
#![tactic(auto)]

mod bodies;
mod lines;
mod nights;
mod objects;
mod records;
mod steps;
mod whys;

pub use bodies::why_body;
pub use nights::{FreeNight, nights_shown, read_nights};
pub use steps::{NextStep, Preview, latest_option, look_ahead, next_step};
pub use whys::why_text;
