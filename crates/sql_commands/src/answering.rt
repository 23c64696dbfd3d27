//! The reply to a command, and the transaction of its event, with one commit.

ghost use Rattle.std.specs.Prelude.{◌≡◌, false, IfErr, IfOk, IsTrue, Some};
ghost use Rattle.std.specs.Option.{option_copied as asker};
ghost use Rattle.commands.specs.Orders.{request_of};
ghost use Rattle.commands.specs.Request.{Request};
ghost use Rattle.ledger.specs.Answer.{is_request};
ghost use Rattle.sql_commands.specs.Answering.{AnswersAgain, AreNext, IsKeptLine, Finds, TellsNew, Counts, IsCounted};
ghost use Rattle.sql_commands.specs.Executing.{Executes, IsAnswered, Replies};
ghost use Rattle.sql_commands.specs.Failing.{IsNewTo};
ghost use Rattle.sql_model.specs.Standing.{IsDesk};
ghost use Rattle.sql_reads.specs.GoodRows.{IsMemory};
ghost use Rattle.sql_reads.specs.Reads.{Read};
ghost use Rattle.commands.specs.Texts.{reply_line};
ghost use Rattle.sql_writes.specs.Commits.{CommitsEvent};
ghost use Rattle.sql_writes.specs.Kinds.{IsSmall};

use crate::begins::answer_begin;
use crate::kept_replies::reply_in;
use crate::loading::answer_load;
use crate::moves::{Motion, answer_move};
use crate::step_outcome::answer_step;
use commands::{Ask, Command, Fault, MOST_EVENTS, Refusal, Reply};
use desk_sql::{KeptAnswer, Meta, find_answer, read_meta};
use sql_model::fault_of;
use sql_writes::{Event, Keeping, Numbers, commit_event};
use sqlite::{Alter, Connection};
use std::alloc::Global;

/// The reply to a command.
#[derive(Clone, Copy, Debug, PartialEq, Eq)]
pub struct Answered {
    pub reply: Reply,
    /// Whether no reply was kept for the ask. Else the command changed nothing.
    pub is_new: bool,
}

/// The reply under a known key: the kept one if the text is the same, else a refusal. A kept line that is no reply is a
/// fault of the store.
fn again(alloc: Global, kept: &KeptAnswer, ask: &Ask) -> Result<Reply, Fault>
    ensures again { IfOk result (AnswersAgain kept.now ask.now) }
    ensures there { IsKeptLine kept.now → IfErr result IsMemory }
{
    if kept.ask.as_slice() != ask.text() {
        return Ok(Reply::Refused(Refusal::KeyReused));
    }
    reply_in(alloc, kept)
}

/// Returns the reply to an ask whose key is known; `None` if the key is new, or if there is no ask.
fn find_reply<S: Alter>(
    alloc: Global,
    conn: &mut Connection<S>,
    ask: Option<&Ask>,
) -> Result<Option<Reply>, Fault>
    ensures { Read S.Store conn.old conn.new result (λ s found. Finds s (asker ask.entry) found) }
{
    match ask {
        None => Ok(None),
        Some(ask) => match find_answer(conn, ask.agent().as_str(), ask.key().as_str()) {
            Ok(None) => Ok(None),
            Ok(Some(kept)) => match again(alloc, &kept, ask) {
                Ok(reply) => Ok(Some(reply)),
                Err(fault) => Err(fault),
            },
            Err(error) => Err(fault_of(&error)),
        },
    }
}

/// Executes a command for whose ask no reply is kept.
fn answer_new<S: Alter>(
    alloc: Global,
    conn: &mut Connection<S>,
    command: &Command,
    ask: Option<&Ask>,
) -> Result<Reply, Fault>
    requires outside { conn.old.in_transaction ≡ false }

    ensures { Replies S.Store conn.old conn.new (asker ask.entry) (request_of command.now)
        (IsNewTo (asker ask.entry)) result }
{
    match command {
        Command::Load(batch) => answer_load(alloc, conn, batch, ask),
        Command::Begin(plan) => answer_begin(alloc, conn, plan, ask),
        Command::Step(id) => answer_step(alloc, conn, *id, ask),
        Command::Abort(id, position) => {
            answer_move(alloc, conn, *id, Motion::Abort(*position), ask)
        }
        Command::Stop(id) => answer_move(alloc, conn, *id, Motion::Stop, ask),
        Command::Save(id) => answer_move(alloc, conn, *id, Motion::Save, ask),
    }
}

/// Executes a command of the agent who asks, or of the house if there is no ask. A retry under the agent's key gets the kept
/// reply, or a refusal if its text differs.
pub fn answer<S: Alter>(
    alloc: Global,
    conn: &mut Connection<S>,
    command: &Command,
    ask: Option<&Ask>,
) -> Result<Answered, Fault>
    requires outside { conn.old.in_transaction ≡ false }

    ensures executes { Executes S.Store conn.old conn.new (asker ask.entry) (request_of command.now)
        IsDesk (λ answered. answered.reply) result }
    ensures new { TellsNew S.Store conn.old conn.new (asker ask.entry) result }
{
    let known = find_reply(alloc, conn, ask)?;
    if let Some(reply) = known {
        return Ok(Answered {
            reply,
            is_new: false,
        });
    }
    let reply = answer_new(alloc, conn, command, ask)?;
    Ok(Answered {
        reply,
        is_new: true,
    })
}

/// The request of a command keeps the limits, as each value of its type does. A call does nothing at run time.
pub fn know_limits(command: &Command)
    ensures limits { IsTrue (is_request (request_of command.now)) }
{
    match command {
        Command::Begin(plan) => {
            let _steps = plan.steps();
        }
        Command::Load(batch) => {
            let _rows = batch.rows();
        }
        _ => {}
    }
}

/// Writes an event in one commit, with its reply if there is an ask.
fn commit_kept<S: Alter>(
    alloc: Global,
    conn: &mut Connection<S>,
    numbers: Numbers,
    event: &Event<'_>,
    reply: &Reply,
    ask: Option<&Ask>,
) -> Result<(), Fault>
    requires outside { conn.old.in_transaction ≡ false }
    requires small { IsSmall event.now }

    ensures { CommitsEvent S.Store conn.old conn.new numbers event.now
        (asker ask.entry) (reply_line reply.now) result }
{
    match ask {
        None => commit_event(conn, numbers, event, None),
        Some(ask) => match reply.line(alloc) {
            Ok(line) => {
                let line = line.as_str();
                commit_event(conn, numbers, event, Some(Keeping { ask, line }))
            }
            Err(_) => Err(Fault::Memory),
        },
    }
}

/// Writes the event that the rules answer in one commit, with its reply if there is an ask, unless the ledger is full.
pub(crate) fn commit_answered<S: Alter>(
    alloc: Global,
    conn: &mut Connection<S>,
    numbers: Numbers,
    event: &Event<'_>,
    reply: Reply,
    ask: Option<&Ask>,
) -> Result<Reply, Fault>
    requires outside { conn.old.in_transaction ≡ false }
    requires small { IsSmall event.now }

    ensures { (asked : Request) → Replies S.Store conn.old conn.new (asker ask.entry) asked
        (IsAnswered numbers event.now (asker ask.entry) asked reply) result }
{
    if numbers.num > MOST_EVENTS {
        return Ok(Reply::Refused(Refusal::Limit));
    }
    commit_kept(alloc, conn, numbers, event, &reply, ask)?;
    Ok(reply)
}

/// Reads the numbers that `meta` has after the next event, if it begins no journey.
pub(crate) fn next_numbers<S: Alter>(conn: &mut Connection<S>) -> Result<Numbers, Fault>
    ensures { Read S.Store conn.old conn.new result AreNext }
{
    let counts = read_counts(conn)?;
    Ok(Numbers {
        num: counts.events + 1,
        journeys: counts.journeys,
    })
}

/// Reads the numbers of `meta`. Numbers greater than those of any ledger are a fault of the store.
pub fn read_counts<S: Alter>(conn: &mut Connection<S>) -> Result<Meta, Fault>
    ensures read { Read S.Store conn.old conn.new result Counts }
    ensures small { IfOk result IsCounted }
{
    match read_meta(conn) {
        Ok(meta) if meta.events <= MOST_EVENTS && meta.journeys <= MOST_EVENTS => Ok(meta),
        Ok(_) => Err(Fault::Store),
        Err(error) => Err(fault_of(&error)),
    }
}
