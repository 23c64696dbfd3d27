//! Keys of the maps of a book in memory.
use commands::{Agent, Ask, Key};
use std::cmp::Ordering;

/// An agent and one of his keys, ordered by the texts of both.
#[derive(Clone, Copy, PartialEq, Eq)]
pub struct AskKey {
    pub agent: Agent,
    pub key: Key,
}

impl AskKey {
    ghost use Rattle.std.specs.Prelude.{◌≡◌};

    /// The agent and the key of a request.
    pub fn of(ask: &Ask) -> AskKey
        ensures agent { result.agent ≡ ask.now.agent }
        ensures key { result.key ≡ ask.now.key }
    {
        AskKey {
            agent: ask.agent(),
            key: ask.key(),
        }
    }
}

impl Ord for AskKey {
    ghost use Rattle.std.proofs.Common.{rules};
    ghost use Rattle.std.specs.Cmp.Rules.{comparing};
    ghost use Rattle.std.specs.Cmp.Lexicographic.{slice_cmp};
    ghost use Rattle.std.specs.Ordering.{nat_cmp, on, then_cmp};

    ghost cmp = { then_cmp (on (λ k. k.agent) (slice_cmp nat_cmp))
        (on (λ k. k.key) (slice_cmp nat_cmp)) };

    ghost total = { Prim.search (comparing, rules) };

    ghost matches_partial_cmp = { Prim.search (comparing, rules) };

    ghost matches_eq = { Prim.search (comparing, rules) };

    fn cmp(&self, other: &AskKey) -> Ordering {
        let agent = self.agent.as_str().cmp(other.agent.as_str());
        agent.then(self.key.as_str().cmp(other.key.as_str()))
    }
}

impl PartialOrd for AskKey {
    ghost use Rattle.std.proofs.Common.{rules};
    ghost use Rattle.std.specs.Cmp.{partial_order_from_own_ties};
    ghost use Rattle.std.specs.Cmp.Rules.{comparing};
    ghost use Rattle.std.specs.Cmp.Lexicographic.{slice_cmp};
    ghost use Rattle.std.specs.Ordering.{nat_cmp, on, then_cmp, as_partial_cmp};

    ghost partial_cmp = { as_partial_cmp (then_cmp (on (λ k. k.agent) (slice_cmp nat_cmp))
        (on (λ k. k.key) (slice_cmp nat_cmp))) };

    ghost laws = { partial_order_from_own_ties (Prim.search (comparing, rules) depth 9) (Prim.search (comparing, rules)) };

    fn partial_cmp(&self, other: &AskKey) -> Option<Ordering> {
        Some(self.cmp(other))
    }
}
