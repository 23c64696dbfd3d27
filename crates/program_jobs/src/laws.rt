//! What is promised of the ledger after each world.
//!
//! A law is the contract of a function that does nothing: who calls it may use the law.
ghost use Rattle.std.specs.Prelude.{List};
ghost use Rattle.ledger.specs.World.{IsWorld, Moment};
ghost use Rattle.saga_core.specs.ChainExamples.{crashed_within_the_step};
ghost use Rattle.saga_core.specs.Chains.{reopened};
ghost use Rattle.program_jobs.specs.Promises.{IsKeptPromise};

use ledger::{words, worlds};
use saga_core::session_that_crashes;

/// After each world the ledger is legal, its events are those of the answered, accepted commands in order, each once, its
/// places add up, and where recovery of it is complete each journey's word is a whole one.
pub fn promises()
    ensures kept { (w : List Moment) → IsWorld w → IsKeptPromise w }
{
    words();
    worlds();
}

/// The law, used on a session that crashes within a step, and is reopened.
///
/// Its proof hands that world to the law. So a premise more in it, which this world does not meet, is refused here.
pub fn session_that_crashes_keeps_it()
    ensures kept { IsKeptPromise (reopened crashed_within_the_step) }
{
    session_that_crashes();
    promises();
}
