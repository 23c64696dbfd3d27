//! The end of a job whose store could not be opened.
ghost use Rattle.std.specs.Prelude.{◌≡◌};
ghost use Rattle.desk_jobs.specs.OpeningEnds.{end_of_open};
ghost use Rattle.program_ends.specs.Ends.{EndsBadly};

use commands::Refusal;
use program_ends::{End, ProgramFault};
use tables::OpenFault;

/// The end if a store could not be opened as a desk.
pub fn end_of_opening(fault: OpenFault) -> End
    ensures end { result ≡ end_of_open fault }
    ensures bad { EndsBadly result }
{
    match fault {
        OpenFault::UnknownSchema(version) => End::Refused(Refusal::UnknownSchema { version }),
        OpenFault::Store => End::Fault(ProgramFault::OpeningStore),
        OpenFault::Memory => End::Fault(ProgramFault::OpeningMemory),
    }
}
