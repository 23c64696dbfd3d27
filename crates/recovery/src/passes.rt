//! The passes of recovery, each over the unfinished journeys by rising number.
ghost use Rattle.std.specs.Prelude.{◌≡◌, MatchResult, Option};
ghost use Rattle.ledger.specs.History.{is_running};
ghost use Rattle.saga_core.specs.Calls.{Serves};
ghost use Rattle.saga_core.specs.Runs.{Asks};
ghost use Rattle.recovery.specs.Following.{AfterPass, LeftAt, MayGoOn};
ghost use Rattle.recovery.specs.Passes.{made_by, goes_on, MadeStops, MadeSomeStops, CarriedAll, CarriedSome, CarriedOne, CarriedOneSome};

use crate::asking::{step, stop};
use commands::{Fault, Phase};
use saga_core::Book;

/// The result of a pass, with the number of events that it made.
#[derive(Clone, Copy)]
pub enum Came {
    /// The pass completed.
    Through(u64),
    /// The ledger is full, and the pass had another event to make.
    Full(u64),
}

impl Came {
    /// How many events the pass made.
    pub fn made(self) -> u64
        ensures { result ≡ made_by self }
    {
        match self {
            Came::Through(made) | Came::Full(made) => made,
        }
    }
}

/// The passes that step journeys.
#[derive(Clone, Copy)]
pub enum Pass {
    /// Steps the journeys that go back, each until it has reached the position that it goes back to.
    Back,
    /// Steps all unfinished journeys, each until it has ended or is undone.
    On,
}

impl Pass {
    /// Whether the pass goes on with a journey in this phase.
    fn goes_on(self, phase: Phase) -> bool
        ensures { result ≡ goes_on self phase }
    {
        match (self, phase) {
            (_, Phase::Back(_)) | (Pass::On, Phase::Run) => true,
            (_, Phase::Ended | Phase::Undone) | (Pass::Back, Phase::Run) => false,
        }
    }
}

/// Whether a journey in this phase goes forward.
fn is_running(phase: Phase) -> bool
    ensures { result ≡ is_running phase }
{
    match phase {
        Phase::Run => true,
        Phase::Back(_) | Phase::Ended | Phase::Undone => false,
    }
}

/// Turns each running journey back to its last save-point, once.
pub fn turn_back<B: Book>(book: &mut B) -> Result<Came, Fault>
    ensures came { B.is_sound book.new → (following : Option (B × Asks)) → MatchResult result
        (λ came. MadeStops (MayGoOn B.stands B.may_act following book.old)
        (AfterPass B.stands B.may_act following book.new came) came)
        (λ f. MadeSomeStops (MayGoOn B.stands B.may_act following book.old)
        (LeftAt B.stands B.leaves B.has_reason following book.new f) f) }
    ensures serves { Serves B.is_sound B.leaves B.has_failed book.old book.new Fault.Store result }
{
    let mut after = 0;
    let mut made = 0u64;
    for _round in 0..u64::MAX {
        let brief = match book.first_unfinished(after) {
            Ok(Some(brief)) => brief,
            Ok(None) => return Ok(Came::Through(made)),
            Err(fault) => return Err(fault),
        };
        if is_running(brief.cursor.phase) {
            match stop(book, brief.id) {
                Ok(true) => made += 1,
                Ok(false) => return Ok(Came::Full(made)),
                Err(fault) => return Err(fault),
            }
        }
        after = brief.id;
    }
    Ok(Came::Full(made))
}

/// Steps a journey until the pass is done with it.
fn carry_one<B: Book>(book: &mut B, pass: Pass, id: u64) -> Result<Came, Fault>
    ensures came { B.is_sound book.new → (following : Option (B × Asks)) → MatchResult result
        (λ came. CarriedOne (MayGoOn B.stands B.may_act following book.old)
        (AfterPass B.stands B.may_act following book.new came) pass id came)
        (λ f. CarriedOneSome (MayGoOn B.stands B.may_act following book.old)
        (LeftAt B.stands B.leaves B.has_reason following book.new f) pass id f) }
    ensures serves { Serves B.is_sound B.leaves B.has_failed book.old book.new Fault.Store result }
{
    for made in 0..u64::MAX {
        match step(book, id) {
            Ok(None) => return Ok(Came::Full(made)),
            Ok(Some(phase)) => {
                if !pass.goes_on(phase) {
                    return Ok(Came::Through(made + 1));
                }
            }
            Err(fault) => return Err(fault),
        }
    }
    Ok(Came::Full(u64::MAX))
}

/// Steps each journey with which the pass goes on, until the pass is done with it.
pub fn carry<B: Book>(book: &mut B, pass: Pass) -> Result<Came, Fault>
    ensures came { B.is_sound book.new → (following : Option (B × Asks)) → MatchResult result
        (λ came. CarriedAll (MayGoOn B.stands B.may_act following book.old)
        (AfterPass B.stands B.may_act following book.new came) pass came)
        (λ f. CarriedSome (MayGoOn B.stands B.may_act following book.old)
        (LeftAt B.stands B.leaves B.has_reason following book.new f) pass f) }
    ensures serves { Serves B.is_sound B.leaves B.has_failed book.old book.new Fault.Store result }
{
    let mut after = 0;
    let mut made = 0u64;
    for _round in 0..u64::MAX {
        let brief = match book.first_unfinished(after) {
            Ok(Some(brief)) => brief,
            Ok(None) => return Ok(Came::Through(made)),
            Err(fault) => return Err(fault),
        };
        if pass.goes_on(brief.cursor.phase) {
            match carry_one(book, pass, brief.id) {
                Ok(Came::Through(more)) => made = made.saturating_add(more),
                Ok(Came::Full(more)) => return Ok(Came::Full(made.saturating_add(more))),
                Err(fault) => return Err(fault),
            }
        }
        after = brief.id;
    }
    Ok(Came::Full(made))
}
