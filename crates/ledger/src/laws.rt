//! Laws of each legal ledger, and of each world, whatever was asked.
//!
//! A law is the contract of a function that does nothing: a caller of it may use the law.
ghost use Rattle.std.specs.Prelude.{◌≡◌, ◌+◌, ◌<◌, ◌≤◌, ◌++◌, ◌∷◌, [], ℕ, List, map, length, false, unwrap_or};
ghost use Rattle.allotment.specs.Cells.{numbers_from};
ghost use Rattle.plan.specs.PlanModel.{step_count};
ghost use Rattle.ledger.specs.Answer.{start};
ghost use Rattle.ledger.specs.Examples.{done};
ghost use Rattle.ledger.specs.History.{net};
ghost use Rattle.ledger.specs.JourneyExamples.{begun_unmarked, one_aborted, saved_after_1_and_3, saved_and_stopped, stopped_twice};
ghost use Rattle.ledger.specs.KeyExamples.{ann, step_cut_off};
ghost use Rattle.ledger.specs.LawExamples.{begun_from_2, flight_and_transfer, recovered_from_2, seat};
ghost use Rattle.ledger.specs.Laws.{AtMostOneIsRecovered};
ghost use Rattle.ledger.specs.Laws.{EachOpenJourneyHasOneStep, EachPlainJourneyIsAllOrNothing};
ghost use Rattle.ledger.specs.Laws.{EachRecoveryGoesOn};
ghost use Rattle.ledger.specs.Laws.{EveryJourneyIsUpAndDown, HasOneStep, IsRecoverable, IsSound};
ghost use Rattle.ledger.specs.Laws.{NoCellIsOverfull, NoFinishedJourneyGoesOn};
ghost use Rattle.ledger.specs.Ledger.{Event, IsLegal, allotment, held, history, is_item_allowed};
ghost use Rattle.ledger.specs.Recovery.{BeginsRecovered, bound};
ghost use Rattle.ledger.specs.RecoveryExamples.{aborted_to_2};
ghost use Rattle.ledger.specs.Word.{GoesToEnd, down, up, word};
ghost use Rattle.ledger.specs.World.{IsWorld, Moment, after, events_of, times_acted};

/// In each legal ledger no cell holds more than its allotment, each journey reads as an up-and-down
/// word, and a journey without save-points is all or nothing.
pub fn words()
    ensures places { (l : List Event) → IsLegal l → NoCellIsOverfull l }
    ensures words { (l : List Event) → IsLegal l → EveryJourneyIsUpAndDown l }
    ensures plain { (l : List Event) → IsLegal l → EachPlainJourneyIsAllOrNothing l }
{}

/// In each legal ledger a journey that runs or goes back has just one step, and one that has ended
/// or is undone does not go on.
pub fn steps()
    ensures one { (l : List Event) → IsLegal l → EachOpenJourneyHasOneStep l }
    ensures finished { (l : List Event) → NoFinishedJourneyGoesOn l }
{}

/// Recovery is deterministic and terminates: of each ledger at most one is the recovered one, and of each legal ledger
/// there is one, with no more new events than its bound. Each ledger that recovery passes through is a prefix of that
/// one.
pub fn recoveries()
    ensures unique { (l : List Event) → AtMostOneIsRecovered l }
    ensures exists { (l : List Event) → IsLegal l → IsRecoverable l }
    ensures under_way { (l : List Event) → IsLegal l → EachRecoveryGoesOn l }
{}

/// After each world, with any stops and reopenings, the ledger is legal and is the list of the events that were made,
/// and no key has acted twice.
pub fn worlds()
    ensures sound { (w : List Moment) → IsWorld w → IsSound w }
{}

/// The laws of words, used on a journey that was aborted, and on one that was stopped twice.
///
/// Here as in the next three, the proof hands the laws an example and what they ask of it. So a premise more in a law,
/// which the example does not meet, is refused here.
pub fn words_of_journeys_that_turn_back()
    ensures places { held one_aborted.ledger seat
        ≤ unwrap_or (allotment one_aborted.ledger seat) 0 }
    ensures words { GoesToEnd saved_after_1_and_3 (history stopped_twice.ledger 1) }
    ensures holds { map (λ t. t.0) (net (history stopped_twice.ledger 1)) ≡ numbers_from 1 6 }
    ensures plain { (top : ℕ) × (top < step_count flight_and_transfer)
        × (word (history one_aborted.ledger 1) ≡ up 0 top ++ down top 0) }
{
    words();
}

/// The laws of steps, used on a journey before its first step, and on one that has ended after a stop.
pub fn steps_of_a_stopped_journey()
    ensures one { HasOneStep begun_unmarked.ledger 1 }
    ensures finished { is_item_allowed saved_and_stopped.ledger 1 (done 3) ≡ false }
{
    steps();
}

/// The laws of recovery, used on a journey that goes back: one ledger is the recovered one, and it is the one that exists.
pub fn recovery_of_a_journey_that_goes_back()
    ensures within { length recovered_from_2 ≤ length aborted_to_2 + bound aborted_to_2 }
    ensures cut_off { IsLegal begun_from_2 }
    ensures under_way { BeginsRecovered aborted_to_2 begun_from_2 }
{
    recoveries();
}

/// The law of worlds, used on a step that a stop cut off, and that is retried under its key.
pub fn world_of_a_step_cut_off()
    ensures legal { IsLegal (after start step_cut_off).ledger }
    ensures events { (after start step_cut_off).ledger ≡ events_of start step_cut_off }
    ensures once { times_acted ann (109 ∷ []) start step_cut_off ≤ 1 }
{
    worlds();
}
