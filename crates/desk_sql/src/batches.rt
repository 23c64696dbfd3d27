//! Loaded batches.

ghost use Rattle.std.specs.Prelude.{◌<◌, ◌^◌, IfOk, IfErr, ⊤};
ghost use Rattle.desk_sql.specs.Changes.{adds_batch};
ghost use Rattle.desk_sql.specs.FoundRows.{FindsBatch, IfRow, ReadsOne, shows_batch, two_of};
ghost use Rattle.desk_sql.specs.Causes.{IsMemory};
ghost use Rattle.desk_sql.specs.Writable.{MayAddBatch};
ghost use Rattle.desk_sql.specs.Readable.{Any, ShowsOne, batch_shown};
ghost use Rattle.desk_sql.specs.Statements.{Queries, WritesNumbered};

use crate::queries::first_row;
use sqlite::types::ValueRef;
use sqlite::{Alter, Connection, Error, Row, Transaction};

/// A loaded batch.
#[derive(Debug, Drop)]
pub struct BatchFound {
    /// The number of its event.
    pub num: u64,
    /// The texts of its rows, each ended by a line feed.
    pub content: Vec<u8>,
}

// The batch of a row, if there is a row.
fn read_batch(row: Option<Row>) -> Result<Option<BatchFound>, Error>
    ensures shown { IfOk result (ReadsOne shows_batch two_of row) }

    ensures reason { IfRow (ShowsOne batch_shown (λ _. ⊤)) row → IfErr result IsMemory }
{
    let Some(row) = row else {
        return Ok(None);
    };
    let num = row.get(0)?;
    let content = row.get(1)?;
    Ok(Some(BatchFound { num, content }))
}

/// Returns the batch with a name, if there is one.
pub fn find_batch<S: Alter>(
    conn: &mut Connection<S>,
    name: &str,
) -> Result<Option<BatchFound>, Error>
    ensures queries { Queries S.Store conn.old conn.new result (FindsBatch name.now) Any }
{
    let row = first_row(
        conn,
        "SELECT num, content FROM batch WHERE name = ?1",
        &[ValueRef::Text(name.as_bytes())],
    )?;
    read_batch(row)
}

/// Inserts a batch: its name, the number of its event, and its text.
pub fn insert_batch<'x, S: Alter>(
    tx: &mut Transaction<'_, S>,
    name: &'x str,
    num: u64,
    content: &'x [u8],
) -> Result<usize, Error>
    requires { num < 2 ^ 63 }

    ensures writes { WritesNumbered S.Store tx.old.conn tx.new.conn result
        Any (MayAddBatch (record { name = name.now; num = num; content = content.now })) Any 1
        (adds_batch (record { name = name.now; num = num; content = content.now })) }
{
    tx.execute(
        "INSERT INTO batch VALUES (?1, ?2, ?3)",
        &[
            ValueRef::Text(name.as_bytes()),
            ValueRef::Int(num as i64),
            ValueRef::Blob(content),
        ],
    )
}
