//! The laws of messages, applied to an example. A call does nothing at run time.
ghost use Rattle.std.specs.Prelude.{◌≡◌, [], ◌∷◌, ℕ, List, Ok};
ghost use Rattle.ledger.specs.KeyExamples.{ann_began};
ghost use Rattle.ledger.specs.World.{Reopened};
ghost use Rattle.http_messages.specs.Heads.{Parts};
ghost use Rattle.desk_http.specs.Demands.{SeeMetrics, demand_of};
ghost use Rattle.desk_http.specs.Examples.{step_message};
ghost use Rattle.desk_http.specs.Laws.{AnswersAgain, HasShortAsk, IsForWhomIsMeant};

use crate::doors::Door;
use crate::laws::{
    again, asks_are_short, commands_are_for_whom_is_meant, reports_are_for_the_house,
};

/// The law of messages, applied to a step at the port that is retried after the desk was opened again.
///
/// The proof applies the law to that message. A law with one more premise, which the message does not meet, is refused
/// here.
pub fn step_is_retried()
    ensures again { AnswersAgain Door.Port ann_began step_message (Reopened ∷ []) }
{
    again();
}

/// The law of the text of an ask, applied to the same step, alone in its stream.
///
/// The proof applies the law to that stream. A law with one more premise, which it does not meet, is refused here.
pub fn step_has_a_short_ask()
    ensures short { HasShortAsk Door.Port step_message }
{
    asks_are_short();
}

/// The law of whom is meant, applied to the same step.
///
/// The proof applies the law to that message. A law with one more premise, which it does not meet, is refused here.
pub fn step_is_for_whom_it_is_meant()
    ensures meant { IsForWhomIsMeant Door.Port step_message }
{
    commands_are_for_whom_is_meant();
}

/// The law of reports, applied to the port, where nobody reads what is counted.
///
/// The proof applies the law to each request. A law with one more premise, which a request there does not meet, is refused here.
pub fn nobody_reads_metrics_at_the_port()
    ensures nobody { (parts : Parts) → (body : List ℕ) →
        demand_of Door.Port parts body ≡ Ok SeeMetrics → ⊥ }
{
    reports_are_for_the_house();
}
