//! Batches from allotment files.
//!
//! A file is a heading and a record for each row: `kind,supplier,product,night,places`. `read_batch` returns the batch
//! of a file's bytes under a name, or reports the first thing that is wrong with them, in the order of the definition:
//! a bad name, the size, the heading, each row in turn, and last that there is no row.
//!
//! `wrong_field` finds the field because of which a row was refused, so that a user can be shown it.
//!
//! Words: a *record* is what `csv` reads, with its default delimiter and quoting; a *row* is a record after the
//! heading, counted from 1; the *front* of a file is the prefix of its rows up to the first record that is none.
#![tactic(auto)]

mod faults;
mod fields;
mod files;
mod fronts;
mod records;
mod rows;
mod wrong_fields;

pub use faults::CsvFault;
pub use files::read_batch;
pub use wrong_fields::{Column, WrongField, wrong_field};
