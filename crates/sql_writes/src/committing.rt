//! The transaction of one event, with one commit.
ghost use Rattle.sql_writes.specs.Commits.{CommitsEvent};
ghost use Rattle.sql_writes.specs.Did.{Did};
ghost use Rattle.sql_writes.specs.Kinds.{IsSmall, Fits, KeepsLine, event_rows, asks, rows_after};
ghost use Rattle.sql_writes.specs.Permits.{Permits, PermitsEvent, event_rowids, rowids_of};
ghost use Rattle.std.specs.Prelude.{◌≡◌, ℕ, List, false, Some, suc};

use crate::begins::write_begin;
use crate::events::{Event, Keeping, Numbers};
use crate::journeys::{write_compensation, write_save, write_transaction, write_turn};
use crate::loads::write_load;
use commands::Fault;
use desk_sql::insert_answer;
use sql_model::fault_of;
use sqlite::{Alter, Connection, Error, Transaction};

/// Writes an event, and the reply that is kept with it, in one transaction, whose commit is the last call of the store.
pub fn commit_event<S: Alter>(
    conn: &mut Connection<S>,
    numbers: Numbers,
    event: &Event<'_>,
    keeping: Option<Keeping<'_>>,
) -> Result<(), Fault>
    requires outside { conn.old.in_transaction ≡ false }
    requires small { IsSmall event.now }

    ensures commits { (line : List ℕ) → KeepsLine keeping.entry line
        → CommitsEvent S.Store conn.old conn.new numbers event.now (asks keeping.entry) line result }
{
    let mut tx = conn.transaction();
    if let Err(error) = write_event(&mut tx, numbers, event, keeping) {
        tx.rollback();
        return Err(fault_of(&error));
    }
    match tx.commit() {
        Ok(()) => Ok(()),
        Err(_) => Err(Fault::Store),
    }
}

/// Writes the rows of an event, without a reply.
fn write_rows<S: Alter>(
    tx: &mut Transaction<'_, S>,
    numbers: Numbers,
    event: &Event<'_>,
) -> Result<(), Error>
    requires { IsSmall event.now }

    ensures did { Did S.Store tx.old.conn tx.new.conn result
        (Fits numbers event.now) (Permits numbers event.now)
        (rowids_of numbers event.now) (rows_after numbers event.now) }
{
    match *event {
        Event::Begin(begun) => write_begin(tx, numbers, begun),
        Event::Transaction(made) => write_transaction(tx, numbers, made),
        Event::Compensation(made) => write_compensation(tx, numbers, made),
        Event::Turn(made) => write_turn(tx, numbers, made),
        Event::Save(made) => write_save(tx, numbers, made),
        Event::Load(batch) => write_load(tx, numbers, batch),
    }
}

/// Writes the rows of an event, and the row of the reply that is kept with it.
fn write_kept<S: Alter>(
    tx: &mut Transaction<'_, S>,
    numbers: Numbers,
    event: &Event<'_>,
    keeping: Keeping<'_>,
) -> Result<(), Error>
    requires { IsSmall event.now }

    ensures did { (line : List ℕ) → keeping.entry.line.now ≡ line
        → Did S.Store tx.old.conn tx.new.conn result
        (Fits numbers event.now) (PermitsEvent numbers event.now (Some keeping.entry.ask.now) line)
        (suc (rowids_of numbers event.now))
        (event_rows numbers event.now (Some keeping.entry.ask.now) line) }
{
    write_rows(tx, numbers, event)?;
    let ask = keeping.ask;
    let agent = ask.agent();
    let key = ask.key();
    insert_answer(tx, agent.as_str(), key.as_str(), ask.text(), keeping.line)?;
    Ok(())
}

/// Writes the rows of an event, and the row of its reply if one is kept.
pub fn write_event<S: Alter>(
    tx: &mut Transaction<'_, S>,
    numbers: Numbers,
    event: &Event<'_>,
    keeping: Option<Keeping<'_>>,
) -> Result<(), Error>
    requires { IsSmall event.now }

    ensures did { (line : List ℕ) → KeepsLine keeping.entry line
        → Did S.Store tx.old.conn tx.new.conn result
        (Fits numbers event.now) (PermitsEvent numbers event.now (asks keeping.entry) line)
        (event_rowids numbers event.now (asks keeping.entry))
        (event_rows numbers event.now (asks keeping.entry) line) }
{
    match keeping {
        None => write_rows(tx, numbers, event),
        Some(keeping) => write_kept(tx, numbers, event, keeping),
    }
}
