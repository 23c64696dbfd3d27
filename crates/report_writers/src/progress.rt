//! How far a source of rows has come.
//!
//! A source is written where it is used, as `FoundRows { rows, progress: Progress::new() }`: the check follows a loan
//! into a struct only there. What it counts stays private.

ghost use Rattle.std.specs.Prelude.{◌≡◌, false};

/// How many rows a source has returned, and whether it failed.
#[derive(Clone, Copy, Debug)]
pub struct Progress {
    pub(crate) given: u64,
    // A row could not be read, or has a value out of range, and no row may be returned after it.
    pub(crate) failed: bool,
}

impl Progress {
    /// No row was returned yet.
    pub fn new() -> Progress
        ensures none { result.given ≡ 0 }
        ensures going { result.failed ≡ false }
    {
        Progress {
            given: 0,
            failed: false,
        }
    }

    /// How many rows were returned.
    pub fn given(&self) -> u64
        ensures given { result ≡ self.now.given }
    {
        self.given
    }
}
