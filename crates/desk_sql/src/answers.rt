//! Replies that are kept under an agent's key.

ghost use Rattle.std.specs.Prelude.{IfOk, IfErr};
ghost use Rattle.desk_sql.specs.Changes.{adds_answer, kept};
ghost use Rattle.desk_sql.specs.FoundRows.{FindsAnswer, IfRow, ReadsOne, shows_answer, two_of};
ghost use Rattle.desk_sql.specs.Causes.{IsMemory};
ghost use Rattle.desk_sql.specs.Readable.{HasReplyText, IsReplyText, ShowsOne, answer_shown, Any};
ghost use Rattle.desk_sql.specs.Writable.{MayKeep};
ghost use Rattle.desk_sql.specs.Statements.{Queries, WritesNumbered};

use crate::queries::first_row;
use sqlite::types::ValueRef;
use sqlite::{Alter, Connection, Error, Row, Transaction};

/// A kept reply, with the text of its ask.
#[derive(Debug, Drop)]
pub struct KeptAnswer {
    /// The text of the ask: the bytes that a retry under the key must repeat.
    pub ask: Vec<u8>,
    /// The line of the reply.
    pub reply: String,
}

// The reply of a row, if there is a row.
fn answer_of(row: Option<Row>) -> Result<Option<KeptAnswer>, Error>
    ensures shown { IfOk result (ReadsOne shows_answer two_of row) }

    ensures reason { IfRow (ShowsOne answer_shown IsReplyText) row → IfErr result IsMemory }
{
    let Some(row) = row else {
        return Ok(None);
    };
    let ask = row.get(0)?;
    let reply = row.get(1)?;
    Ok(Some(KeptAnswer { ask, reply }))
}

/// Returns what is kept under an agent's key, if anything is.
pub fn find_answer<'x, S: Alter>(
    conn: &mut Connection<S>,
    agent: &'x str,
    mark: &'x str,
) -> Result<Option<KeptAnswer>, Error>
    ensures queries { Queries S.Store conn.old conn.new result
        (FindsAnswer agent.now mark.now) (HasReplyText agent.now mark.now) }
{
    let row = first_row(
        conn,
        "SELECT ask, reply FROM answer WHERE agent = ?1 AND mark = ?2",
        &[
            ValueRef::Text(agent.as_bytes()),
            ValueRef::Text(mark.as_bytes()),
        ],
    )?;
    answer_of(row)
}

/// Keeps a reply: `mark` is the agent's key, `ask` the text of the ask. Returns the number of rows.
pub fn insert_answer<'x, S: Alter>(
    tx: &mut Transaction<'_, S>,
    agent: &'x str,
    mark: &'x str,
    ask: &'x [u8],
    reply: &'x str,
) -> Result<usize, Error>
    ensures writes { WritesNumbered S.Store tx.old.conn tx.new.conn result
        Any (MayKeep (kept agent.now mark.now ask.now reply.now)) Any 1
        (adds_answer (kept agent.now mark.now ask.now reply.now)) }
{
    tx.execute(
        "INSERT INTO answer VALUES (?1, ?2, ?3, ?4)",
        &[
            ValueRef::Text(agent.as_bytes()),
            ValueRef::Text(mark.as_bytes()),
            ValueRef::Blob(ask),
            ValueRef::Text(reply.as_bytes()),
        ],
    )
}
