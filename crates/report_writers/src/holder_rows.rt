//! The holders of a cell, in order of journey and step, read one at a time.

ghost use Rattle.std.specs.Prelude.{◌≡◌, IfOk};
ghost use Rattle.std.specs.Borrow.{sem};
ghost use Rattle.reports.specs.Holders.{holders_of};
ghost use Rattle.sql_reads.specs.Lending.{LeavesIfErr};
ghost use Rattle.report_writers.specs.HoldersLeft.{AreHoldersRest, HoldersLeft, found_of};
ghost use Rattle.report_writers.specs.Ready.{StartsList};

use crate::found_rows::FoundRow;
use allotment::Cell;
use commands::Fault;
use reports::Holder;
use sql_lists::{HolderFound, hand_holders, next_holder};
use sql_model::fault_of;
use sqlite::{Alter, Connection, Error, Rows};

/// Starts to read the holders of a cell, in order of journey and step. If that fails, nothing has changed.
pub fn start_holders<'a, S: Alter>(
    conn: &'a mut Connection<S>,
    cell: &Cell,
) -> Result<Rows<'a, S>, Error>
    ensures* fault { sem 𝓛 (LeavesIfErr S.row S.Store conn.entry result) }
    ensures starts { IfOk result (λ it. StartsList S.Store conn.entry it
        (λ s holders. holders ≡ holders_of s.ledger cell.now) (HoldersLeft S.Store)
        (AreHoldersRest S.Store)) }
{
    hand_holders(conn, cell)
}

/// The holder of a row.
fn holder_of(found: &HolderFound) -> Holder
    ensures told { found_of result ≡ found.now }
{
    Holder {
        journey: found.journey,
        step: found.place,
        option: found.opt,
        places: found.places,
    }
}

impl<S: Alter> FoundRow<S> for Holder {
    ghost rests = { HoldersLeft S.Store };

    ghost are_good = { AreHoldersRest S.Store };

    fn next_found(rows: &mut Rows<'_, S>) -> Result<Option<Holder>, Fault> {
        match next_holder(rows) {
            Ok(Some(found)) => Ok(Some(holder_of(&found))),
            Ok(None) => Ok(None),
            Err(error) => Err(fault_of(&error)),
        }
    }
}
