//! Briefs of journeys, in order of number, read one at a time.

ghost use Rattle.std.specs.Prelude.{◌≡◌, IfOk};
ghost use Rattle.std.specs.Borrow.{sem};
ghost use Rattle.saga_core.specs.Views.{unfinished_of};
ghost use Rattle.saga_core.specs.JourneyFilters.{asked_of};
ghost use Rattle.sql_reads.specs.Lending.{LeavesIfErr};
ghost use Rattle.sql_lists.specs.ListedRows.{AreGoodBriefsRest, BriefsRest};
ghost use Rattle.report_writers.specs.Ready.{StartsList};

use crate::found_rows::FoundRow;
use commands::Fault;
use saga_core::{Brief, JourneyFilter};
use sql_lists::{hand_journeys, hand_unfinished, next_journey};
use sql_model::fault_of;
use sql_reads::brief_of;
use sqlite::{Alter, Connection, Error, Rows};

/// Starts to read all unfinished journeys, in order of number. If that fails, nothing has changed.
pub fn start_unfinished<S: Alter>(conn: &mut Connection<S>) -> Result<Rows<'_, S>, Error>
    ensures* fault { sem 𝓛 (LeavesIfErr S.row S.Store conn.entry result) }
    ensures starts { IfOk result (λ it. StartsList S.Store conn.entry it
        (λ s briefs. briefs ≡ unfinished_of s.ledger) (BriefsRest S.Store)
        (AreGoodBriefsRest S.Store)) }
{
    hand_unfinished(conn, 0)
}

/// Starts to read the journeys that a filter lets through, in order of number. If that fails, nothing has changed.
pub fn start_journeys<'a, S: Alter>(
    conn: &'a mut Connection<S>,
    filter: &JourneyFilter,
) -> Result<Rows<'a, S>, Error>
    ensures* fault { sem 𝓛 (LeavesIfErr S.row S.Store conn.entry result) }
    ensures starts { IfOk result (λ it. StartsList S.Store conn.entry it
        (λ s briefs. briefs ≡ asked_of filter.now s.ledger) (BriefsRest S.Store)
        (AreGoodBriefsRest S.Store)) }
{
    hand_journeys(conn, filter)
}

impl<S: Alter> FoundRow<S> for Brief {
    ghost rests = { BriefsRest S.Store };

    ghost are_good = { AreGoodBriefsRest S.Store };

    fn next_found(rows: &mut Rows<'_, S>) -> Result<Option<Brief>, Fault> {
        match next_journey(rows) {
            Ok(Some(found)) => match brief_of(&found) {
                Some(brief) => Ok(Some(brief)),
                None => Err(Fault::Store),
            },
            Ok(None) => Ok(None),
            Err(error) => Err(fault_of(&error)),
        }
    }
}
