//! Laws of executions that go on, by which calls chain.
//!
//! A law is the contract of a function that does nothing: a caller of the function may use the law.
ghost use Rattle.std.specs.Prelude.{[], ◌++◌, IsTrue};
ghost use Rattle.saga_core.specs.ChainExamples.{begun, stepped, crashed_within_the_step};
ghost use Rattle.saga_core.specs.Chains.{Adds, Begins, Crashes, GoesOnAll, GoesOnTo, IsReopened, Reopens, StaysWhole, StaysWorld};
ghost use Rattle.saga_core.specs.Worlds.{continued, is_whole};

/// An execution goes on with asks: with all of them, or with a prefix and perhaps the next one cut off. The result is
/// an execution, and after a reopening it goes on again. Asks that were all answered, followed by more asks, are one
/// list of asks; a prefix of some asks is a prefix of any longer list.
pub fn chains()
    ensures all { GoesOnAll }
    ensures crashes { Crashes }
    ensures world { StaysWorld }
    ensures whole { StaysWhole }
    ensures reopens { Reopens }
    ensures adds { Adds }
    ensures begins { Begins }
{}

/// The laws of chains, applied to a session that crashes within a step.
///
/// The proof applies each law to that session. A law with one more premise, which the session does not meet, is refused
/// here.
pub fn session_that_crashes()
    ensures all { GoesOnTo [] begun (continued [] begun []) }
    ensures whole { IsTrue (is_whole (continued [] begun [])) }
    ensures reopened { IsReopened crashed_within_the_step }
    ensures begins { GoesOnTo [] (begun ++ stepped ++ stepped) crashed_within_the_step }
{
    chains();
}
