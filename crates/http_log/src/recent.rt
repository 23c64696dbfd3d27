//! The requests under a key that were answered last.
ghost use Rattle.std.specs.Prelude.{◌≡◌, [], IfOk, OnErr, OnOk};
ghost use Rattle.http_log.specs.Recent.{is_among, with_pair};

use commands::{Agent, Key};
use std::alloc::{AllocError, Global};
use std::collections::VecDeque;
use std::marker::Model;

/// How many of them are remembered.
pub const MOST_RECENT: usize = 1024;

/// The agents and keys of the requests that were answered last, each once. To a contract it is their list, the oldest
/// first.
#[derive(Drop)]
pub struct Recent {
    pairs: VecDeque<(Agent, Key)>,
}

impl Model for Recent {
    ghost use Rattle.std.specs.Prelude.{ℕ, ◌≤◌, List, length};
    ghost use Rattle.http_log.specs.Recent.{most_recent};

    ghost Value = { List (List ℕ × List ℕ) };

    ghost view = { λ r. r.pairs.items };

    ghost invariant = { λ r. length r.pairs.items ≤ most_recent };
}

impl Recent {
    /// None was answered.
    pub fn new(alloc: Global) -> Recent
        ensures none { result ≡ [] }
    {
        Recent {
            pairs: VecDeque::new(alloc),
        }
    }

    /// Whether the agent's key is remembered. If it is not, it is from now on, and the oldest is forgotten where there
    /// were as many as may be.
    #[tactic(auto, using(crate::proofs::RecentLemmas::one_over, crate::proofs::RecentLemmas::none_over))]
    pub fn put(&mut self, agent: Agent, key: Key) -> Result<bool, AllocError>
        ensures again { IfOk result (λ again. again ≡ is_among self.old (agent, key)) }
        ensures kept { OnOk result (self.new ≡ with_pair self.old (agent, key)) }

        ensures memory { OnErr result (self.new ≡ self.old) }
    {
        if self.pairs.contains(&(agent, key)) {
            return Ok(true);
        }
        self.pairs.push_back((agent, key))?;
        if self.pairs.len() > MOST_RECENT {
            let _ = self.pairs.pop_front();
        }
        Ok(false)
    }
}
