//! The reports of a desk: what each is of a ledger, and the call of a book that returns one.
//!
//! `saga_core::Report` names a report with its filter and format, and `specs/Texts.antt` says which text it has. A book that
//! keeps the contract of `Reporting` returns that text.
#![tactic(auto)]

mod reporting;

pub use reporting::Reporting;
