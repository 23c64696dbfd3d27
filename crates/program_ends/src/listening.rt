//! The end of the program if the port, or the path of the house's socket, cannot be listened on.
ghost use Rattle.std.specs.Prelude.{◌≡◌, ◌≢◌, Some, None, true, false};
ghost use Rattle.program_ends.specs.Ends.{EndsBadly};

use crate::causes::Cause;
use crate::ended::Ended;
use crate::ends::End;
use crate::faults::ProgramFault;
use std::io::ErrorKind;

/// The end for an error of listening. Where a socket stands at the path, it may be the path that is in use.
pub fn end_of_listening(error: ErrorKind, has_socket: bool) -> Ended
    ensures memory { error ≡ ErrorKind.OutOfMemory →
        result.end ≡ End.Fault ProgramFault.Memory }
    ensures net { error ≢ ErrorKind.OutOfMemory → result.end ≡ End.Fault ProgramFault.Net }

    ensures port { error ≡ ErrorKind.AddrInUse → has_socket ≡ false →
        result.cause ≡ Some Cause.PortInUse }
    ensures either { error ≡ ErrorKind.AddrInUse → has_socket ≡ true →
        result.cause ≡ Some Cause.AddressInUse }
    ensures path { error ≡ ErrorKind.AlreadyExists → result.cause ≡ Some Cause.NoSocket }
    ensures unknown { error ≢ ErrorKind.AddrInUse → error ≢ ErrorKind.AlreadyExists →
        result.cause ≡ None }

    ensures bad { EndsBadly result.end }
{
    let fault = match error {
        ErrorKind::OutOfMemory => ProgramFault::Memory,
        _ => ProgramFault::Net,
    };
    let cause = match error {
        ErrorKind::AddrInUse if has_socket => Some(Cause::AddressInUse),
        ErrorKind::AddrInUse => Some(Cause::PortInUse),
        ErrorKind::AlreadyExists => Some(Cause::NoSocket),
        _ => None,
    };
    Ended {
        end: End::Fault(fault),
        cause,
    }
}
