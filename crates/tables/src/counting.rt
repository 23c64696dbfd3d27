//! How many journeys are unfinished: counted once, and from then on by what each new reply tells.
ghost use Rattle.std.specs.Prelude.{◌≡◌, IfSome, length};
ghost use Rattle.saga_core.specs.Views.{unfinished_of};
ghost use Rattle.sql_reads.specs.Reads.{Read};
ghost use Rattle.tables.specs.FinishedJourneys.{AreFinishedTo};
ghost use Rattle.tables.specs.UnfinishedCount.{CountsOn, FollowsCount, IsCount, unfinished_above};

use commands::{Fault, MOST_EVENTS, Reply};
use saga_core::is_finished;
use sql_commands::Answered;
use sql_reads::read_first_unfinished;
use sqlite::{Alter, Connection};

/// How many journeys are unfinished after a new reply. Returns `None` if the number before it cannot be right.
fn counted_on(before: u64, reply: &Reply) -> Option<u64>
    ensures count { IfSome result (CountsOn reply.now before) }
{
    match reply {
        Reply::Begun { .. } => before.checked_add(1),
        Reply::Moved { phase, .. } => {
            if is_finished(*phase) {
                before.checked_sub(1)
            } else {
                Some(before)
            }
        }
        Reply::Loaded { .. } | Reply::Refused(_) => Some(before),
    }
}

/// How many journeys are unfinished after an answer, if so many were before it.
pub(crate) fn counted_after(before: Option<u64>, answered: &Answered) -> Option<u64>
    ensures count { FollowsCount answered.now before result }
{
    match before {
        None => None,
        Some(count) => {
            if answered.is_new {
                counted_on(count, &answered.reply)
            } else {
                Some(count)
            }
        }
    }
}

/// Counts the unfinished journeys above `after`, one after another.
fn count_unfinished<S: Alter>(conn: &mut Connection<S>, after: u64) -> Result<u64, Fault>
    ensures { Read S.Store conn.old conn.new result (λ s n. n ≡ unfinished_above s.ledger after) }
{
    let mut last = after;
    for count in 0..MOST_EVENTS + 1 {
        let Some(brief) = read_first_unfinished(conn, last)? else {
            return Ok(count);
        };
        last = brief.id;
    }
    Err(Fault::Store)
}

/// Returns how many journeys are unfinished: as many as are known, or else those above `finished`, up to which all have finished.
pub(crate) fn count_if_unknown<S: Alter>(
    conn: &mut Connection<S>,
    known: Option<u64>,
    finished: u64,
) -> Result<u64, Fault>
    ensures { Read S.Store conn.old conn.new result (λ s n. IsCount s.ledger known
        → AreFinishedTo s.ledger finished → n ≡ length (unfinished_of s.ledger)) }
{
    if let Some(count) = known {
        return Ok(count);
    }
    count_unfinished(conn, finished)
}
