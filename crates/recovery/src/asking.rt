//! One command of recovery, sent by the house.
ghost use Rattle.std.specs.Prelude.{◌≡◌, MatchResult, Option, is_some};
ghost use Rattle.saga_core.specs.Calls.{Serves};
ghost use Rattle.saga_core.specs.Runs.{Asks};
ghost use Rattle.recovery.specs.Asking.{phase_told, Stops, StopsOrNot, Steps, StepsOrNot};
ghost use Rattle.recovery.specs.Following.{AfterMove, LeftAt, MayGoOn};

use commands::{Command, Fault, Phase, Reply};
use saga_core::Book;

/// The phase that a reply reports. Returns `None` if no journey moved.
fn phase_told(reply: Reply) -> Option<Phase>
    ensures { result ≡ phase_told reply }
{
    match reply {
        Reply::Moved { phase, .. } => Some(phase),
        Reply::Loaded { .. } | Reply::Begun { .. } | Reply::Refused(_) => None,
    }
}

/// Turns a running journey back to its last save-point. Returns false if the ledger is full, and then nothing changed.
pub fn stop<B: Book>(book: &mut B, id: u64) -> Result<bool, Fault>
    ensures made { B.is_sound book.new → (following : Option (B × Asks)) → MatchResult result
        (λ made. Stops (MayGoOn B.stands B.may_act following book.old)
        (AfterMove B.stands B.may_act following book.new made) id made)
        (λ f. StopsOrNot (MayGoOn B.stands B.may_act following book.old)
        (LeftAt B.stands B.leaves B.has_reason following book.new f) id f) }
    ensures serves { Serves B.is_sound B.leaves B.has_failed book.old book.new Fault.Store result }
{
    let command = Command::Stop(id);
    match book.act(&command, None) {
        Ok(reply) => Ok(phase_told(reply).is_some()),
        Err(fault) => Err(fault),
    }
}

/// Makes one step of an unfinished journey. Returns the phase of the journey after the step, or `None` if the ledger is
/// full, and then nothing changed.
pub fn step<B: Book>(book: &mut B, id: u64) -> Result<Option<Phase>, Fault>
    ensures made { B.is_sound book.new → (following : Option (B × Asks)) → MatchResult result
        (λ phase. Steps (MayGoOn B.stands B.may_act following book.old)
        (AfterMove B.stands B.may_act following book.new (is_some phase)) id phase)
        (λ f. StepsOrNot (MayGoOn B.stands B.may_act following book.old)
        (LeftAt B.stands B.leaves B.has_reason following book.new f) id f) }
    ensures serves { Serves B.is_sound B.leaves B.has_failed book.old book.new Fault.Store result }
{
    let command = Command::Step(id);
    match book.act(&command, None) {
        Ok(reply) => Ok(phase_told(reply)),
        Err(fault) => Err(fault),
    }
}
