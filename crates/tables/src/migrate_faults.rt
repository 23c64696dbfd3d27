//! Why a file could not be migrated.
ghost use Rattle.tables.specs.MigrateReasons.{IsFaultOf};

use sqlite::{Error, ErrorCode};

/// Why a file could not be migrated. The first two are refusals, which change nothing.
#[derive(Clone, Copy, Debug, PartialEq, Eq)]
pub enum MigrateFault {
    /// The tables are of the newest version.
    AlreadyNew,
    /// The tables are of an unknown version, or 0 if there are no tables.
    UnknownSchema(u64),
    /// The store failed, its tables have no readable version, or they have numbers that no file has.
    Store,
    /// Out of memory before the commit.
    Memory,
}

/// The fault of an error before the commit. Nothing was committed, so out of memory is reported as such.
pub(crate) fn fault_of(error: &Error) -> MigrateFault
    ensures { IsFaultOf error.now result }
{
    match error {
        Error::SqliteFailure(ErrorCode::OutOfMemory) => MigrateFault::Memory,
        _ => MigrateFault::Store,
    }
}
