//! Laws of recovery, whichever program runs it.
//!
//! A law is the contract of a function that does nothing: a caller of the function may use the law.
ghost use Rattle.std.specs.Prelude.{◌≡◌, ◌≤◌, List, length};
ghost use Rattle.ledger.specs.Answer.{State};
ghost use Rattle.ledger.specs.Ledger.{Event, IsLegal};
ghost use Rattle.ledger.specs.Recovery.{bound};
ghost use Rattle.recovery.specs.Examples.{room_changes_hands, room_is_wanted_twice};
ghost use Rattle.recovery.specs.Recovers.{HasOneRecovery, IsRecovery};

/// Recovery is deterministic: each state with a legal ledger has just one recovery, with no more events than its bound.
pub fn one_recovery()
    ensures one { (s : State) → IsLegal s.ledger → HasOneRecovery s }
{}

/// The law of recovery, used on two journeys that want one room: their worked recovery is the only one, and is within the
/// bound.
///
/// Its proof hands the law that state. So a premise more in the law, which this state does not meet, is refused here.
pub fn recovery_of_one_room()
    ensures alone { (other : List Event) → IsRecovery room_is_wanted_twice other →
        other ≡ room_changes_hands }
    ensures bounded { length room_changes_hands ≤ bound room_is_wanted_twice.ledger }
{
    one_recovery();
}
