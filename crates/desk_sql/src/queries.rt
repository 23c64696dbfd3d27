//! A SELECT outside of a transaction: it changes nothing, whatever the store does.

ghost use Rattle.std.specs.Prelude.{IfOk, IfErr};
ghost use Rattle.sqlite.specs.Values.{bound};
ghost use Rattle.sqlite.specs.Held.{state};
ghost use Rattle.sqlite.specs.State.{HasCleanDisk, FailsToQuery};
ghost use Rattle.desk_sql.specs.Calls.{Quiet};
ghost use Rattle.desk_sql.specs.Queries.{IsSelect, GivesRow, GivesRows};

use sqlite::types::ValueRef;
use sqlite::{Alter, Connection, Error, Row};

/// Returns the first row of a SELECT, if there is one.
pub fn first_row<S: Alter>(
    conn: &mut Connection<S>,
    text: &str,
    params: &[ValueRef<'_>],
) -> Result<Option<Row>, Error>
    requires { IsSelect text.now }

    ensures row { HasCleanDisk (state S.Store conn.new) → IfOk result (λ found.
        GivesRow text.now (bound params.now) (state S.Store conn.old)
        (state S.Store conn.new) found) }
    ensures reason { HasCleanDisk (state S.Store conn.new) → IfErr result (λ e.
        FailsToQuery text.now (bound params.now) (state S.Store conn.old)
        (state S.Store conn.new) e) }
    ensures quiet { Quiet S.Store conn.old conn.new }
{
    match conn.query_row(text, params) {
        Ok(row) => Ok(Some(row)),
        Err(error) => match error {
            Error::QueryReturnedNoRows => Ok(None),
            _ => Err(error),
        },
    }
}

/// Returns all rows of a SELECT.
pub(crate) fn all_rows<S: Alter>(
    conn: &mut Connection<S>,
    text: &str,
    params: &[ValueRef<'_>],
) -> Result<Vec<Row>, Error>
    requires { IsSelect text.now }

    ensures rows { HasCleanDisk (state S.Store conn.new) → IfOk result (λ rows.
        GivesRows text.now (bound params.now) (state S.Store conn.old)
        (state S.Store conn.new) rows.items) }
    ensures reason { HasCleanDisk (state S.Store conn.new) → IfErr result (λ e.
        FailsToQuery text.now (bound params.now) (state S.Store conn.old)
        (state S.Store conn.new) e) }
    ensures quiet { Quiet S.Store conn.old conn.new }
{
    conn.query_all(text, params)
}
