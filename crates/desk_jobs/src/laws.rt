//! The law of reopenings.
//!
//! A law is the contract of a function that does nothing: who calls it may use the law.
ghost use Rattle.saga_core.specs.ChainExamples.{crashed_within_the_step};
ghost use Rattle.saga_core.specs.Chains.{reopened};
ghost use Rattle.desk_jobs.specs.Executions.{EachMayReopen, MayReopen};

use recovery::one_recovery;
use saga_core::{chains, session_that_crashes};
use sql_model::desks;

/// Each execution may be reopened: that changes no state, and the desk has one recovery.
pub fn reopenings()
    ensures reopens { EachMayReopen }
{
    chains();
    desks();
    one_recovery();
}

/// The law, used on a session that crashes within a step.
///
/// Its proof hands that execution to the law. So a premise more in it, which this execution does not meet, is refused here.
pub fn session_that_crashes_may_reopen()
    ensures reopens { MayReopen (reopened crashed_within_the_step) }
{
    session_that_crashes();
    reopenings();
}
