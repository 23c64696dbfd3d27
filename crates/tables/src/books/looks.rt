//! Looks for the unfinished journeys of a book, and what the book remembers of them.
ghost use Rattle.std.specs.Prelude.{◌≡◌};
ghost use Rattle.std.specs.Option.{option_copied};
ghost use Rattle.sql_reads.specs.Reads.{Read};
ghost use Rattle.tables.specs.FinishedJourneys.{finished_by};

use crate::books::TableBook;
use crate::brief_lists::read_unfinished;
use crate::counting::count_if_unknown;
use commands::Fault;
use saga_core::{Brief, Counts};
use sql_commands::read_counts;
use sql_reads::{LARGEST, read_first_unfinished};
use sqlite::{Alter, Connection};

/// Returns up to which number all journeys have finished, if this is the first one that has not, or there is none.
fn finished_before<S: Alter>(conn: &mut Connection<S>, first: Option<&Brief>) -> Result<u64, Fault>
    ensures { Read S.Store conn.old conn.new result
        (λ s n. n ≡ finished_by s.ledger (option_copied first.entry)) }
{
    match first {
        Some(brief) => Ok(brief.id.saturating_sub(1)),
        None => {
            let now = read_counts(conn)?;
            Ok(now.journeys)
        }
    }
}

impl<S: Alter> TableBook<S> {
    ghost use Rattle.saga_core.specs.Views.{counts_of, first_unfinished, unfinished_of};
    ghost use Rattle.tables.specs.Reading.{Looks};

    /// Returns the first unfinished journey. The book remembers that the journeys before it have finished.
    fn look_on(&mut self) -> Result<Option<Brief>, Fault>
        ensures { Looks S.Store self.old self.new result
            (λ s found. found ≡ first_unfinished s.ledger self.old.finished) }
    {
        let found = read_first_unfinished(&mut self.conn, self.finished)?;
        let finished = finished_before(&mut self.conn, found.as_ref())?;
        self.finished = finished;
        Ok(found)
    }

    /// Returns the unfinished journey with the least number above `after`. Journeys that are known to have finished are
    /// not read again.
    pub(super) fn look(&mut self, after: u64) -> Result<Option<Brief>, Fault>
        ensures { Looks S.Store self.old self.new result
            (λ s found. found ≡ first_unfinished s.ledger after) }
    {
        if after <= self.finished {
            self.look_on()
        } else {
            read_first_unfinished(&mut self.conn, after)
        }
    }

    /// Returns the unfinished journeys, in order of number. The book remembers that the journeys before the first of them
    /// have finished.
    pub(super) fn look_at_all(&mut self) -> Result<Vec<Brief>, Fault>
        ensures { Looks S.Store self.old self.new result
            (λ s briefs. briefs.items ≡ unfinished_of s.ledger) }
    {
        let known = self.finished.min(LARGEST);
        let briefs = read_unfinished(self.alloc, &mut self.conn, known)?;
        let finished = finished_before(&mut self.conn, briefs.first())?;
        self.finished = finished;
        Ok(briefs)
    }

    /// Returns the numbers of events, journeys and unfinished journeys. The unfinished ones are counted once, and the book
    /// remembers their number; from then on one row is read.
    pub(super) fn tally(&mut self) -> Result<Counts, Fault>
        ensures { Looks S.Store self.old self.new result (λ s counts. counts ≡ counts_of s.ledger) }
    {
        let unfinished = count_if_unknown(&mut self.conn, self.unfinished, self.finished)?;
        let meta = read_counts(&mut self.conn)?;
        self.unfinished = Some(unfinished);
        Ok(Counts {
            events: meta.events,
            journeys: meta.journeys,
            unfinished,
        })
    }
}
