//! The reports of the book in memory.
use crate::mem_book::MemBook;
use commands::Fault;
use report_kinds::Reporting;
use saga_core::Report;

/// The book in memory makes no report: whoever asks for one is told that it is out of memory.
impl Reporting for MemBook {
    fn report(&mut self, _report: &Report) -> Result<Option<Vec<u8>>, Fault> {
        Err(Fault::Memory)
    }
}
