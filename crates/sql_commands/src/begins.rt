//! The reply to a begin for whose ask no reply is kept.
ghost use Rattle.std.specs.Prelude.{◌≡◌, false, unwrap_or};
ghost use Rattle.std.specs.Option.{option_copied as asked_by};
ghost use Rattle.commands.specs.Names.{house};
ghost use Rattle.commands.specs.Request.{Begin};
ghost use Rattle.ledger.specs.Answer.{asker};
ghost use Rattle.sql_commands.specs.Executing.{Replies};
ghost use Rattle.sql_commands.specs.Failing.{IsNewTo};

use crate::answering::{commit_answered, read_counts};
use commands::{Agent, Ask, Fault, Reply};
use plan::Plan;
use sql_writes::{Event, JourneyBegun, Numbers};
use sqlite::{Alter, Connection};
use std::alloc::Global;

/// The agent of a new journey: the agent who asks, or the house.
fn beginner(ask: Option<&Ask>) -> Agent
    ensures agent { result ≡ unwrap_or (asker (asked_by ask.entry)) house }
{
    match ask {
        None => Agent::house(),
        Some(ask) => ask.agent(),
    }
}

/// Executes a begin for whose ask no reply is kept.
pub(crate) fn answer_begin<S: Alter>(
    alloc: Global,
    conn: &mut Connection<S>,
    plan: &Plan,
    ask: Option<&Ask>,
) -> Result<Reply, Fault>
    requires outside { conn.old.in_transaction ≡ false }

    ensures { Replies S.Store conn.old conn.new (asked_by ask.entry) (Begin plan.now)
        (IsNewTo (asked_by ask.entry)) result }
{
    let _steps = plan.steps();
    let counts = read_counts(conn)?;
    let numbers = Numbers {
        num: counts.events + 1,
        journeys: counts.journeys + 1,
    };
    let agent = beginner(ask);
    let event = Event::Begin(JourneyBegun {
        agent: agent.as_str(),
        plan,
    });
    let reply = Reply::Begun {
        id: numbers.journeys,
    };
    commit_answered(alloc, conn, numbers, &event, reply, ask)
}
