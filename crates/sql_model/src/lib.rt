//! The state that the tables of a database represent: a ledger with its kept replies; and how each event moves it.
//!
//! The definitions give the rows that are expected of a ledger, as sets: neither the order of the rows nor their rowids
//! count; and they combine the changes of single statements, in the order in which one transaction makes them (`Moving`,
//! `Loading`). The lemmas say that tables which represent a ledger, so changed, represent the ledger with one more event, and
//! what found rows imply for the ledger. The crates that read and write the tables cite both. The only code in this crate is
//! its laws, and the fault that an error of the store is reported as.
//!
//! Words: the tables *represent* a state (`StandsFor`) if their rows are those *expected* of its ledger and kept
//! replies; a journey *stands at* a cursor; an option is *taken* or not.
#![tactic(auto)]

mod faults;
mod laws;
mod one_schema;

pub use faults::fault_of;
pub use laws::{desk_after_a_crash, desks, new_desk_is_found, openings};
pub use one_schema::{schema_of_notes, schemas};
