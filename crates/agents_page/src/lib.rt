//! The page for agents, as the program serves it to browsers: `web/desk.html`, with its style and script in it.
//!
//! `scripts/page.py` makes `page.rt` from it, and the gate compares the two.
#![tactic(auto)]

mod page;

pub use page::{PAGE, POLICY};
