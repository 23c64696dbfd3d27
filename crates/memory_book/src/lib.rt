//! The book in memory, for tests and other programs. Its store never fails: the only fault is out of memory.
//!
//! Beside the items of each journey it keeps the state that follows from them, and the places of all cells. A move
//! therefore costs time by the nights of its want, and not by the length of the ledger. All growth comes before any
//! change, so that out of memory changes nothing. The program `desk` does not depend on this crate.
#![tactic(auto)]

mod answers;
mod journeys;
mod keys;
mod mem_book;
mod next;
mod stock;

pub use mem_book::MemBook;
