//! An end of the program with its cause.
ghost use Rattle.std.specs.Prelude.{◌≡◌};
ghost use Rattle.std.specs.Option.{option_or};
ghost use Rattle.std.specs.Io.KnownBytes.{Keeps};
ghost use Rattle.saga_core.specs.Written.{WroteFront};
ghost use Rattle.program_ends.specs.Causes.{cause_of_end, cause_of_load, Explains, TellsCause};
ghost use Rattle.program_ends.specs.Ends.{end_of_both, status_of, told_out};

use crate::causes::Cause;
use crate::ends::End;
use saga_core::send;
use std::alloc::Global;
use std::io::Write;

/// An end of the program, and why it came, as far as that is known.
#[derive(Debug, Drop)]
pub struct Ended {
    pub end: End,
    pub cause: Option<Cause>,
}

impl From<End> for Ended {
    ghost from_gives = { λ end ended. ended ≡ record { end = end; cause = cause_of_end end } };

    fn from(end: End) -> Ended {
        let cause = Cause::of_end(&end);
        Ended { end, cause }
    }
}

impl Ended {
    /// The end of a load, with the cause that it shows.
    pub fn of_load(end: End) -> Ended
        ensures end { result.end ≡ end }
        ensures cause { result.cause ≡ cause_of_load end }
    {
        let cause = Cause::of_load(&end);
        Ended { end, cause }
    }

    /// The end of a job; or, if all was done, this end, which came after it. The cause is this one's, or that of the job.
    pub fn after(self, job: Ended) -> Ended
        ensures end { result.end ≡ end_of_both job.end self.end }
        ensures cause { result.cause ≡ option_or self.cause job.cause }
    {
        Ended {
            end: job.end.then(self.end),
            cause: self.cause.or(job.cause),
        }
    }

    /// Prints the end as `End::tell` does, and then the line of its cause on standard error. Returns the exit status.
    pub fn explain<O: Write, E: Write>(&self, alloc: Global, out: &mut O, err: &mut E) -> u8
        ensures status { result ≡ status_of self.now.end }
        ensures out { WroteFront (O.contents out.old) (O.contents out.new) (told_out self.now.end) }
        ensures err { Explains self.now.end self.now.cause (E.contents err.old)
            (E.contents err.new) }
    {
        let status = self.end.tell(alloc, out, err);
        tell_cause(self.cause, err);
        status
    }
}

/// Prints the line of a cause, if there is one. A failure of that is ignored, since no output is left to report it.
fn tell_cause<E: Write>(cause: Option<Cause>, err: &mut E)
    ensures cause { TellsCause cause (E.contents err.old) (E.contents err.new) }
{
    if let Some(cause) = cause {
        let _ = send(err, cause.line().as_bytes());
    }
}
