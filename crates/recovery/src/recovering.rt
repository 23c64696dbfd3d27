//! The whole of recovery.
ghost use Rattle.std.specs.Prelude.{◌≡◌, IfOk, IfErr, MatchResult, IsTrue, Option};
ghost use Rattle.saga_core.specs.Calls.{Serves, Stays};
ghost use Rattle.saga_core.specs.Runs.{Asks};
ghost use Rattle.recovery.specs.Following.{HasCome, LeftAt, MayGoOn};
ghost use Rattle.recovery.specs.Reasons.{MayActThen, MayRecover, NoState};
ghost use Rattle.recovery.specs.Recovers.{Recovers, Finishes, RecoversPart, RecoversSome, IsWithinBound};
ghost use Rattle.recovery.specs.Worlds.{GoesOnRecovered, GoesOnRecovering};

use crate::passes::{Came, Pass, carry, turn_back};
use crate::ready::Ready;
use commands::Fault;
use saga_core::Book;

/// Runs the three passes, one after another, until one of them finds the ledger full. Returns how many events they
/// made.
fn recover_all<B: Book>(book: &mut B) -> Result<u64, Fault>
    ensures recovered { B.is_sound book.new → (following : Option (B × Asks)) → MatchResult result
        (λ made. Recovers (MayGoOn B.stands B.may_act following book.old)
        (HasCome B.stands B.may_act following book.new) made)
        (λ f. RecoversPart (MayGoOn B.stands B.may_act following book.old)
        (LeftAt B.stands B.leaves B.has_reason following book.new f) f) }
    ensures serves { Serves B.is_sound B.leaves B.has_failed book.old book.new Fault.Store result }
{
    let turned = match turn_back(book) {
        Ok(Came::Through(made)) => made,
        Ok(Came::Full(made)) => return Ok(made),
        Err(fault) => return Err(fault),
    };
    let back = match carry(book, Pass::Back) {
        Ok(Came::Through(made)) => turned.saturating_add(made),
        Ok(Came::Full(made)) => return Ok(turned.saturating_add(made)),
        Err(fault) => return Err(fault),
    };
    match carry(book, Pass::On) {
        Ok(came) => Ok(back.saturating_add(came.made())),
        Err(fault) => Err(fault),
    }
}

/// Takes every unfinished journey back to its last save-point, or to its start, and from there to its end. Recovery
/// ends early if the ledger becomes full.
///
/// Returns the book, ready for commands, and how many events recovery made. At a fault, returns the book as it is then,
/// and the fault.
pub fn recover<B: Book>(book: B) -> Result<(Ready<B>, u64), (B, Fault)>
    ensures recovered { IfOk result (λ r.
        B.is_sound r.0 → Recovers (B.stands book) (B.stands r.0) r.1) }
    ensures finished { IfOk result (λ r.
        B.is_sound r.0 → Finishes (B.stands book) (B.stands r.0)) }
    ensures bound { IfOk result (λ r.
        B.is_sound r.0 → IsWithinBound (B.stands book) r.1) }

    ensures fault { IfErr result (λ e.
        B.is_sound e.0 → RecoversSome (B.stands book) (B.stands e.0) (B.leaves e.0) e.1) }
    ensures failed { IfErr result (λ e. e.1 ≡ Fault.Store → IsTrue (B.has_failed e.0)) }

    ensures world { IfOk result (λ r.
        B.is_sound r.0 → GoesOnRecovered (B.stands book) (B.stands r.0) (B.leaves r.0)) }
    ensures world_at_fault { IfErr result (λ e.
        B.is_sound e.0 → GoesOnRecovering (B.stands book) (B.stands e.0) (B.leaves e.0) e.1) }

    ensures may_act { IfOk result (λ r. B.is_sound r.0 → (first : B) (later : Asks) → Recovers
        (MayRecover (B.stands book) (B.may_act first book) later)
        (MayActThen (B.stands r.0) (B.may_act first r.0) later) r.1) }
    ensures reason { IfErr result
        (λ e. B.is_sound e.0 → (first : B) (later : Asks) → e.1 ≡ Fault.Store →
        RecoversSome (MayRecover (B.stands book) (B.may_act first book) later) NoState
        (B.has_reason first e.0) Fault.Store) }

    ensures stays { IfOk result (λ r. Stays B.is_sound B.leaves B.has_failed book r.0) }
    ensures stays_at_fault { IfErr result
        (λ e. Stays B.is_sound B.leaves B.has_failed book e.0) }
{
    let mut book = book;
    match recover_all(&mut book) {
        Ok(made) => Ok((Ready::new(book), made)),
        Err(fault) => Err((book, fault)),
    }
}
