//! Readers and writers for the tests of other crates: they give and take bytes in small pieces, with interruptions, and
//! fail at a chosen byte.
//!
//! The program does not stand on this crate.
#![tactic(auto)]

mod pieces;
mod sinks;

pub use pieces::Pieces;
pub use sinks::Sink;
