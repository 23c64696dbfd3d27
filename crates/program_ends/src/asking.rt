//! The end of the program if the desk at a Unix socket cannot be asked.
ghost use Rattle.std.specs.Prelude.{◌≡◌, ◌≢◌, Some};
ghost use Rattle.program_ends.specs.Ends.{EndsBadly};

use crate::causes::Cause;
use crate::ended::Ended;
use crate::ends::End;
use crate::faults::ProgramFault;
use std::io::ErrorKind;

/// The end for an error of the connection to the socket of a desk that serves.
pub fn end_of_connecting(error: ErrorKind) -> Ended
    ensures memory { error ≡ ErrorKind.OutOfMemory →
        result.end ≡ End.Fault ProgramFault.Memory }
    ensures net { error ≢ ErrorKind.OutOfMemory → result.end ≡ End.Fault ProgramFault.Net }

    ensures permission { error ≡ ErrorKind.PermissionDenied →
        result.cause ≡ Some Cause.NotPermitted }
    ensures desk { error ≢ ErrorKind.OutOfMemory → error ≢ ErrorKind.PermissionDenied →
        result.cause ≡ Some Cause.NoDesk }

    ensures bad { EndsBadly result.end }
{
    let (fault, cause) = match error {
        ErrorKind::OutOfMemory => (ProgramFault::Memory, None),
        ErrorKind::PermissionDenied => (ProgramFault::Net, Some(Cause::NotPermitted)),
        _ => (ProgramFault::Net, Some(Cause::NoDesk)),
    };
    Ended {
        end: End::Fault(fault),
        cause,
    }
}
