//! Runs of commands over any book.
ghost use Rattle.std.specs.Prelude.{◌≡◌, IfOk, OnOk, IfErr, IsTrue};
ghost use Rattle.commands.specs.Orders.{request_of};
ghost use Rattle.ledger.specs.Answer.{is_request};
ghost use Rattle.saga_core.specs.Calls.{Stays};
ghost use Rattle.saga_core.specs.Reasons.{ActsOnAfter, FailsAmong};
ghost use Rattle.saga_core.specs.Runs.{AreReplies, MovesOnBy, Stops, asks_of};
ghost use Rattle.saga_core.specs.Worlds.{GoesOnWith, GoesOnAmong};

use crate::books::Book;
use commands::{Ask, Command, Fault, Reply};
use std::alloc::Global;

/// A command keeps the limits, as each value of its type does. A call does nothing at run time.
fn keep_limits(command: &Command)
    ensures limits { IsTrue (is_request (request_of command.now)) }
{
    match command {
        Command::Load(batch) => {
            let _rows = batch.rows();
        }
        Command::Begin(plan) => {
            let _steps = plan.steps();
        }
        Command::Step(_) | Command::Abort(_, _) | Command::Stop(_) | Command::Save(_) => {}
    }
}

/// Executes commands in order and returns their replies. A fault is returned with the replies so far.
pub fn run<B: Book>(
    alloc: Global,
    book: &mut B,
    commands: &[(Command, Option<Ask>)],
) -> Result<Vec<Reply>, (Vec<Reply>, Fault)>
    ensures replies { B.is_sound book.new →
        IfOk result (λ replies. AreReplies (B.stands book.old) (asks_of commands.now)
        replies.items) }
    ensures after { B.is_sound book.new →
        OnOk result (MovesOnBy (B.stands book.old) (B.stands book.new) (asks_of commands.now)) }

    ensures fault { B.is_sound book.new → IfErr result (λ e. Stops
        (B.stands book.old) (B.stands book.new) (B.leaves book.new) (asks_of commands.now)
        e.0.items e.1) }
    ensures failed { IfErr result (λ e. e.1 ≡ Fault.Store → IsTrue (B.has_failed book.new)) }

    ensures world { B.is_sound book.new → OnOk result
        (GoesOnWith (B.stands book.old) (B.stands book.new) (B.leaves book.new)
        (asks_of commands.now)) }
    ensures world_at_fault { B.is_sound book.new → IfErr result (λ e. GoesOnAmong
        (B.stands book.old) (B.stands book.new) (B.leaves book.new) (asks_of commands.now)
        e.0.items e.1) }

    ensures may_act { B.is_sound book.new → (first : B) → OnOk result (ActsOnAfter
        (B.may_act first book.old) (B.may_act first book.new) (asks_of commands.now)) }
    ensures reason { B.is_sound book.new → (first : B) → IfErr result (λ e. e.1 ≡ Fault.Store →
        FailsAmong (B.may_act first book.old) (B.has_reason first book.new)
        (asks_of commands.now)) }

    ensures stays { Stays B.is_sound B.leaves B.has_failed book.old book.new }
{
    let mut replies = match Vec::with_capacity(alloc, commands.len()) {
        Ok(replies) => replies,
        Err(_) => return Err((Vec::new(alloc), Fault::Memory)),
    };
    for (command, ask) in commands {
        keep_limits(command);
        match book.act(command, ask.as_ref()) {
            Ok(reply) => replies.push_reserved(reply),
            Err(fault) => return Err((replies, fault)),
        }
    }
    Ok(replies)
}
