//! The desk that the tests use, and their checks.
ghost use Rattle.std.specs.Prelude.{IsTrue};

use memory_book::MemBook;
use recovery::{Ready, recover};
use std::alloc::Global;
use std::process::Abort;
use std::test::Fail;

/// A new desk in memory, recovered.
pub fn new_desk(alloc: Global) -> Result<Ready<MemBook>, Fail> {
    match recover(MemBook::new(alloc)) {
        Ok((desk, _)) => Ok(desk),
        Err(_) => Err(Fail::from("a new desk is not recovered")),
    }
}

/// Stops the test if this is false.
pub fn holds(rt: &impl Abort, case: &str, is_so: bool)
    ensures { IsTrue is_so }
{
    assert!(rt; is_so, "{case}");
}

/// Stops the test if the bytes are not those of this text.
pub fn reads(rt: &impl Abort, case: &str, found: &[u8], expected: &str) {
    assert!(rt; found == expected.as_bytes(), "{case}: {found:?}");
}
