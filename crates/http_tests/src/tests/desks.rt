//! The desk that the tests use, and their checks.
ghost use Rattle.std.specs.Prelude.{IsTrue};

use memory_book::MemBook;
use recovery::{Ready, recover};
use saga_core::Book;
use std::alloc::Global;
use std::process::Abort;
use std::str;

/// A new desk in memory, recovered.
pub fn new_desk(rt: &impl Abort, alloc: Global) -> Ready<MemBook> {
    recovered(rt, MemBook::new(alloc))
}

/// The desk of a book that has nothing to recover.
pub fn recovered(rt: &impl Abort, book: MemBook) -> Ready<MemBook> {
    match recover(book) {
        Ok((desk, made)) => {
            holds(rt, "nothing is recovered", made == 0);
            desk
        }
        Err((_, fault)) => panic!(rt; "{fault:?}"),
    }
}

/// Stops the test if this is false.
pub fn holds(rt: &impl Abort, case: &str, is_so: bool)
    ensures { IsTrue is_so }
{
    assert!(rt; is_so, "{case}");
}

/// Stops the test if the bytes are not these.
pub fn reads(rt: &impl Abort, case: &str, found: &[u8], expected: &[u8]) {
    let text = str::from_utf8(found);
    assert!(rt; found == expected, "{case}: {text:?}");
}

/// Stops the test if the desk has another number of journeys.
pub fn has_journeys(rt: &impl Abort, case: &str, desk: &mut Ready<MemBook>, count: u64) {
    let next = desk.journey(count.saturating_add(1)).expect(rt, "memory");
    let last = desk.journey(count).expect(rt, "memory");
    holds(rt, case, next.is_none() && last.is_some() == (count > 0));
}

/// Stops the test if a new desk has changed.
pub fn is_as_new(rt: &impl Abort, case: &str, desk: &mut Ready<MemBook>) {
    has_journeys(rt, case, desk, 0);
    let stock = desk.stock().expect(rt, "memory");
    holds(rt, case, stock.is_empty());
}
