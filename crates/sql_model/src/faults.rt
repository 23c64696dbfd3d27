//! Faults of the store, as the desk reports them.
ghost use Rattle.std.specs.Prelude.{◌≡◌, ◌↔◌};

use commands::Fault;
use sqlite::{Error, ErrorCode};

/// The fault of an error before the commit: nothing has changed, so out of memory is reported as such.
pub fn fault_of(error: &Error) -> Fault
    ensures memory { result ≡ Fault.Memory ↔ error.now ≡ Error.SqliteFailure ErrorCode.OutOfMemory }
{
    match error {
        Error::SqliteFailure(ErrorCode::OutOfMemory) => Fault::Memory,
        _ => Fault::Store,
    }
}
