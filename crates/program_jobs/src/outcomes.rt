//! What a job came to, and its end once the connection was closed.
ghost use Rattle.std.specs.Prelude.{◌≡◌};
ghost use Rattle.desk_jobs.specs.Ends.{TellsLine};
ghost use Rattle.program_jobs.specs.Outcomes.{Closes, IsReported, count_line, end_of, end_or, outcome_of};

use desk_jobs::{Recovered, tell_indexed, tell_migrated};
use program_ends::{End, Ended};
use std::alloc::Global;
use std::io::Write;
use tables::{Indexed, Migrated};

/// What a job counted, which is printed once the connection is closed.
#[derive(Clone, Copy, Debug)]
pub enum Count {
    /// The events that a recovery made.
    Recovered(Recovered),
    /// The events that were migrated.
    Migrated(Migrated),
    /// The journeys that are indexed.
    Indexed(Indexed),
}

/// What a job came to before the connection is closed.
#[derive(Debug, Drop)]
pub enum Outcome {
    /// It ended so.
    Ended(Ended),
    /// A report was written whole. Nothing has changed, so it stays written however the closing ends.
    Shown,
    /// All was done, and this is to be printed if the connection is closed in order.
    Counted(Count),
}

impl Count {
    /// Writes the line of the count, and flushes it. At a fault a prefix of it was written.
    fn tell<O: Write>(self, alloc: Global, out: &mut O) -> End
        ensures tells { TellsLine (O.contents out.old) (O.contents out.new) (count_line self) result }
    {
        match self {
            Count::Recovered(made) => made.tell(alloc, out),
            Count::Migrated(migrated) => tell_migrated(alloc, migrated, out),
            Count::Indexed(indexed) => tell_indexed(alloc, indexed, out),
        }
    }
}

impl Outcome {
    /// What a recovery counted, or why it failed.
    pub(crate) fn of_recovery(recovered: Result<Recovered, End>) -> Outcome
        ensures outcome { result ≡ outcome_of (λ made. Count.Recovered made) recovered }
    {
        match recovered {
            Ok(made) => Outcome::Counted(Count::Recovered(made)),
            Err(end) => Outcome::Ended(Ended::from(end)),
        }
    }

    /// What a migration counted, or why it failed.
    pub(crate) fn of_migration(migrated: Result<Migrated, End>) -> Outcome
        ensures outcome { result ≡ outcome_of (λ events. Count.Migrated events) migrated }
    {
        match migrated {
            Ok(events) => Outcome::Counted(Count::Migrated(events)),
            Err(end) => Outcome::Ended(Ended::from(end)),
        }
    }

    /// What an index counted, or why there is none.
    pub(crate) fn of_index(indexed: Result<Indexed, End>) -> Outcome
        ensures outcome { result ≡ outcome_of (λ journeys. Count.Indexed journeys) indexed }
    {
        match indexed {
            Ok(journeys) => Outcome::Counted(Count::Indexed(journeys)),
            Err(end) => Outcome::Ended(Ended::from(end)),
        }
    }

    /// The end of a report: one that was written whole was shown.
    pub(crate) fn of_report(end: End) -> Outcome
        ensures end { end_of result ≡ end }
        ensures shown { IsReported result }
    {
        match end {
            End::Done => Outcome::Shown,
            End::Refused(why) => Outcome::Ended(Ended::from(End::Refused(why))),
            End::Fault(fault) => Outcome::Ended(Ended::from(End::Fault(fault))),
            End::Usage(text) => Outcome::Ended(Ended::from(End::Usage(text))),
        }
    }

    /// The end of the job before its connection is closed, by which that is closed; where all was done, the end that is given.
    pub fn end_or<'a>(&'a self, done: &'a End) -> &'a End
        ensures end { result.now ≡ end_or self.now done.now }
    {
        match self {
            Outcome::Ended(job) => &job.end,
            Outcome::Shown | Outcome::Counted(_) => done,
        }
    }

    /// The end of the job, whose connection was closed with this end. What it counted is printed if that was done.
    pub fn report<O: Write>(self, closed: Ended, alloc: Global, out: &mut O) -> Ended
        ensures closes { Closes self closed (O.contents out.old) (O.contents out.new) result }
    {
        match self {
            Outcome::Ended(job) => closed.after(job),
            Outcome::Shown => Ended::from(End::Done),
            Outcome::Counted(count) => match closed {
                Ended { end: End::Done, .. } => Ended::from(count.tell(alloc, out)),
                closed => closed,
            },
        }
    }
}
