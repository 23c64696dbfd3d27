//! Lines that say what a job did.
ghost use Rattle.std.specs.Prelude.{◌≡◌, ℕ, List, IfOk};
ghost use Rattle.std.specs.String.{string_bytes};
ghost use Rattle.desk_jobs.specs.Ends.{SendsLine, TellsLine};

use program_ends::End;
use saga_core::{ServeFault, send};
use std::alloc::AllocError;
use std::io::Write;

/// Writes a line that was made, and flushes it. At a fault a prefix of the line was written.
pub fn send_line<O: Write>(line: Result<String, AllocError>, out: &mut O) -> Result<(), ServeFault>
    ensures sends { (text : List ℕ) → IfOk line (λ l. string_bytes l ≡ text) →
        SendsLine (O.contents out.old) (O.contents out.new) text result }
{
    let line = line?;
    Ok(send(out, line.as_bytes())?)
}

/// Does the same as the last of a job, and returns its end.
pub(crate) fn tell_line<O: Write>(line: Result<String, AllocError>, out: &mut O) -> End
    ensures tells { (text : List ℕ) → IfOk line (λ l. string_bytes l ≡ text) →
        TellsLine (O.contents out.old) (O.contents out.new) text result }
{
    match send_line(line, out) {
        Ok(()) => End::Done,
        Err(fault) => End::Fault(fault.into()),
    }
}
