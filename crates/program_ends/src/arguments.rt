//! The end of the program if the words of its command line cannot be read.
ghost use Rattle.std.specs.Prelude.{◌≡◌, ◌≢◌};
ghost use Rattle.program_ends.specs.Ends.{not_text, IsUsageFor};

use crate::ends::End;
use crate::faults::ProgramFault;
use std::alloc::Global;
use std::io::ErrorKind;

/// The text that is printed if a word is not UTF-8.
const NOT_TEXT: &str =
    "error: invalid UTF-8 was detected in one or more arguments\n\nFor more information, try '--help'.\n";

/// The end for an error of the words. A word that is not UTF-8 is wrong usage.
pub fn end_of_arguments(alloc: Global, error: ErrorKind) -> End
    ensures text { error ≡ ErrorKind.InvalidData → IsUsageFor not_text result }
    ensures memory { error ≡ ErrorKind.OutOfMemory → result ≡ End.Fault ProgramFault.Memory }
    ensures read { error ≢ ErrorKind.InvalidData → error ≢ ErrorKind.OutOfMemory →
        result ≡ End.Fault ProgramFault.Read }
{
    match error {
        ErrorKind::InvalidData => usage(alloc),
        ErrorKind::OutOfMemory => End::Fault(ProgramFault::Memory),
        _ => End::Fault(ProgramFault::Read),
    }
}

/// The end for a word that is not UTF-8.
fn usage(alloc: Global) -> End
    ensures text { IsUsageFor not_text result }
{
    match String::from_str(alloc, NOT_TEXT) {
        Ok(text) => End::Usage(text),
        Err(_) => End::Fault(ProgramFault::Memory),
    }
}
