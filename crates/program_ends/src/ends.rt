//! Ends of the program: exit statuses, and what is printed.
//!
//! A refusal is printed on standard output; a fault, and the usage, on standard error.
ghost use Rattle.std.specs.Prelude.{◌≡◌};
ghost use Rattle.saga_core.specs.Written.{WroteFront};
ghost use Rattle.commands.specs.Texts.{refusal_line};
ghost use Rattle.saga_core.specs.StreamScenes.{ended};
ghost use Rattle.program_ends.specs.Ends.{end_of_both, end_of_job, end_of_result, status_of, told_out, TellsError, TellsNoneOrFault};

use crate::faults::ProgramFault;
use command_line::JobFault;
use commands::Refusal;
use saga_core::{ServeFault, send};
use std::alloc::Global;
use std::io::Write;

/// An end of the program.
#[derive(Debug, Drop)]
pub enum End {
    /// All was done.
    Done,
    /// The request is refused.
    Refused(Refusal),
    /// A fault came.
    Fault(ProgramFault),
    /// The words have no job. The text is printed for the user.
    Usage(String),
}

impl From<JobFault> for End {
    ghost from_gives = { λ fault end. end ≡ end_of_job fault };

    fn from(fault: JobFault) -> End {
        match fault {
            JobFault::Usage(text) => End::Usage(text),
            JobFault::Memory => End::Fault(ProgramFault::Memory),
        }
    }
}

impl From<Result<(), ProgramFault>> for End {
    ghost from_gives = { λ done end. end ≡ end_of_result done };

    fn from(done: Result<(), ProgramFault>) -> End {
        match done {
            Ok(()) => End::Done,
            Err(fault) => End::Fault(fault),
        }
    }
}

impl End {
    /// This end; or, if all was done, the end of what came after it.
    pub fn then(self, after: End) -> End
        ensures end { result ≡ end_of_both self after }
    {
        match self {
            End::Done => after,
            end => end,
        }
    }

    /// The exit status: 0 done, 1 refused or fault, 2 usage.
    pub fn status(&self) -> u8
        ensures status { result ≡ status_of self.now }
    {
        match self {
            End::Done => 0,
            End::Refused(_) | End::Fault(_) => 1,
            End::Usage(_) => 2,
        }
    }

    /// Prints the end on the outputs, and returns the exit status.
    ///
    /// If a refusal cannot be printed, the fault because of which is printed instead.
    pub fn tell<O: Write, E: Write>(&self, alloc: Global, out: &mut O, err: &mut E) -> u8
        ensures status { result ≡ status_of self.now }
        ensures out { WroteFront (O.contents out.old) (O.contents out.new) (told_out self.now) }
        ensures err { TellsError self.now (E.contents err.old) (E.contents err.new) }
    {
        match self {
            End::Done => {}
            End::Refused(refusal) => tell_refusal(alloc, refusal, out, err),
            End::Fault(fault) => tell_text(fault.line(), err),
            End::Usage(text) => tell_text(text.as_str(), err),
        }
        self.status()
    }
}

/// Prints a refusal, or the fault because of which it could not be printed.
fn tell_refusal<O: Write, E: Write>(alloc: Global, refusal: &Refusal, out: &mut O, err: &mut E)
    ensures out { WroteFront (O.contents out.old) (O.contents out.new)
        (ended (refusal_line refusal.now)) }
    ensures err { TellsNoneOrFault (E.contents err.old) (E.contents err.new) }
{
    match send_refusal(alloc, refusal, out) {
        Ok(()) => {}
        Err(fault) => tell_text(ProgramFault::from(fault).line(), err),
    }
}

/// Writes the line of a refusal, with a line feed at its end, and flushes it.
fn send_refusal<O: Write>(alloc: Global, refusal: &Refusal, out: &mut O) -> Result<(), ServeFault>
    ensures front { WroteFront (O.contents out.old) (O.contents out.new)
        (ended (refusal_line refusal.now)) }
{
    let mut line = refusal.line(alloc)?;
    line.push('\n')?;
    Ok(send(out, line.as_bytes())?)
}

/// Prints a text. A failure of that is ignored, since no output is left to report it.
fn tell_text<E: Write>(text: &str, err: &mut E)
    ensures front { WroteFront (E.contents err.old) (E.contents err.new) text.now }
{
    let _ = send(err, text.as_bytes());
}
