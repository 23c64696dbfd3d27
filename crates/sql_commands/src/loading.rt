//! The reply to a load for whose ask no reply is kept.
//!
//! All reads come first: the numbers of `meta`, the batch of that name, and how many places of each cell are held; of
//! nights of one product that follow in order by one look-up. Then the batch is written in one commit, with the places of
//! its cells, and with its reply if there is an ask.
ghost use Rattle.std.specs.Prelude.{◌≡◌, false, string_bytes, IfErr, IfOk, MatchResult};
ghost use Rattle.std.specs.Option.{option_copied as asked_by};
ghost use Rattle.commands.specs.Request.{Load};
ghost use Rattle.ledger.specs.Replies.{loaded as reply_to};
ghost use Rattle.sql_model.specs.ExpectedRows.{batch_text};
ghost use Rattle.sql_commands.specs.Loading.{TellsName, AnswersKnown, LeavesPlaces};
ghost use Rattle.sql_commands.specs.Loading.{HavePlaces, TellsBelow, IsNewName, IsLoadDue};
ghost use Rattle.sql_commands.specs.Executing.{Replies};
ghost use Rattle.sql_commands.specs.Failing.{IsNewTo};
ghost use Rattle.sql_reads.specs.GoodRows.{IsMemory};
ghost use Rattle.sql_reads.specs.Reads.{Read};

use crate::answering::{commit_answered, next_numbers};
use allotment::{Cell, Held, Row};
use commands::{Ask, Batch, Fault, Refusal, Reply};
use desk_sql::{BatchFound, find_batch};
use sql_model::fault_of;
use sql_reads::nights_with;
use sql_writes::{BatchLoaded, Event, Numbers};
use sqlite::{Alter, Connection};
use std::alloc::{AllocError, Global};

/// The texts of rows, each ended by a line feed.
fn content_of(alloc: Global, rows: &[Row]) -> Result<String, AllocError>
    ensures text { IfOk result (λ content. string_bytes content ≡ batch_text rows.now) }
{
    let mut content = String::new(alloc);
    for row in rows {
        let line = row.text(alloc)?;
        content.push_str(line.as_str())?;
        content.push('\n')?;
    }
    Ok(content)
}

/// The reply to a loaded batch.
fn loaded(batch: &Batch) -> Reply
    ensures loaded { result ≡ reply_to batch.now.name batch.now.rows }
{
    Reply::Loaded {
        name: batch.name(),
        rows: batch.rows().len(),
    }
}

/// Returns the batch with a name, if there is one.
fn find_known<S: Alter>(conn: &mut Connection<S>, name: &str) -> Result<Option<BatchFound>, Fault>
    ensures { Read S.Store conn.old conn.new result (TellsName name.now) }
{
    match find_batch(conn, name) {
        Ok(found) => Ok(found),
        Err(error) => Err(fault_of(&error)),
    }
}

/// The places of a row's cell, of which so many are held; `None` if the row has fewer.
fn places_left(row: &Row, held: u32) -> Option<Held>
    ensures places { LeavesPlaces row.now held result }
{
    let allot = row.places();
    if allot < held {
        return None;
    }
    Some(Held {
        allot,
        free: allot - held,
    })
}

/// Reads the cells of rows with the places that they get, or refuses a row with fewer places than journeys hold.
fn cells_of<S: Alter>(
    alloc: Global,
    conn: &mut Connection<S>,
    rows: &[Row],
) -> Result<Result<Vec<(Cell, Held)>, Refusal>, Fault>
    ensures { Read S.Store conn.old conn.new result
        (λ s r. MatchResult r
        (λ cells. HavePlaces rows.now s cells.items) (TellsBelow rows.now s)) }
{
    let mut cells = Vec::new(alloc);
    let mut read = None;
    for (place, row) in rows.iter().enumerate() {
        let cell = row.cell();
        let nights = nights_with(alloc, conn, read, &cell, &rows[place + 1..])?;
        let left = places_left(row, nights.held(cell.night()));
        read = Some(nights);
        let Some(places) = left else {
            return Ok(Err(Refusal::BelowHeld { row: place + 1 }));
        };
        if cells.push((cell, places)).is_err() {
            return Err(Fault::Memory);
        }
    }
    Ok(Ok(cells))
}

/// The reply to a batch whose name is known with this content.
fn answer_known(alloc: Global, batch: &Batch, content: &[u8]) -> Result<Reply, Fault>
    ensures known { IfOk result (AnswersKnown batch.now content.now) }
    ensures memory { IfErr result IsMemory }
{
    let Ok(text) = content_of(alloc, batch.rows()) else {
        return Err(Fault::Memory);
    };
    if text.as_bytes() == content {
        Ok(loaded(batch))
    } else {
        Ok(Reply::Refused(Refusal::BatchDiffers))
    }
}

/// Loads a batch with a new name, whose cells get these places, unless the ledger is full.
fn load_cells<S: Alter>(
    alloc: Global,
    conn: &mut Connection<S>,
    numbers: Numbers,
    batch: &Batch,
    cells: &[(Cell, Held)],
    ask: Option<&Ask>,
) -> Result<Reply, Fault>
    requires outside { conn.old.in_transaction ≡ false }

    ensures { Replies S.Store conn.old conn.new (asked_by ask.entry)
        (Load batch.now.name batch.now.rows)
        (IsLoadDue (asked_by ask.entry) numbers batch.now.name batch.now.rows cells.now) result }
{
    let Ok(content) = content_of(alloc, batch.rows()) else {
        return Err(Fault::Memory);
    };
    let name = batch.name();
    let event = Event::Load(BatchLoaded {
        name: name.as_str(),
        content: content.as_str(),
        cells,
    });
    commit_answered(alloc, conn, numbers, &event, loaded(batch), ask)
}

/// Loads a batch with a new name, unless a row has fewer places than journeys hold.
fn load_new<S: Alter>(
    alloc: Global,
    conn: &mut Connection<S>,
    numbers: Numbers,
    batch: &Batch,
    ask: Option<&Ask>,
) -> Result<Reply, Fault>
    requires outside { conn.old.in_transaction ≡ false }

    ensures { Replies S.Store conn.old conn.new (asked_by ask.entry)
        (Load batch.now.name batch.now.rows)
        (IsNewName (asked_by ask.entry) numbers batch.now.name) result }
{
    match cells_of(alloc, conn, batch.rows()) {
        Ok(Ok(cells)) => load_cells(alloc, conn, numbers, batch, &cells, ask),
        Ok(Err(refusal)) => Ok(Reply::Refused(refusal)),
        Err(fault) => Err(fault),
    }
}

/// Executes a load for whose ask no reply is kept.
pub(crate) fn answer_load<S: Alter>(
    alloc: Global,
    conn: &mut Connection<S>,
    batch: &Batch,
    ask: Option<&Ask>,
) -> Result<Reply, Fault>
    requires outside { conn.old.in_transaction ≡ false }

    ensures { Replies S.Store conn.old conn.new (asked_by ask.entry)
        (Load batch.now.name batch.now.rows) (IsNewTo (asked_by ask.entry)) result }
{
    let numbers = next_numbers(conn)?;
    let name = batch.name();
    match find_known(conn, name.as_str()) {
        Ok(Some(found)) => answer_known(alloc, batch, found.content.as_slice()),
        Ok(None) => load_new(alloc, conn, numbers, batch, ask),
        Err(fault) => Err(fault),
    }
}
