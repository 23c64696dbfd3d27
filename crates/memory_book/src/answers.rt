//! Kept replies, by agent and key.
use crate::keys::AskKey;
use commands::{Agent, Ask, Key, Refusal, Reply};
use std::alloc::{AllocError, Global};
use std::collections::BTreeMap;

/// A kept reply, with the text of its request.
#[derive(Drop)]
pub struct KeptAnswer {
    text: Vec<u8>,
    reply: Reply,
}

impl KeptAnswer {
    ghost use Rattle.std.specs.Prelude.{◌≡◌};
    ghost use Rattle.ledger.specs.Answer.{State, answered_again};
    ghost use Rattle.memory_book.specs.MemoryAnswers.{kept_said};

    /// The reply to this text under a known key: the kept reply, if it is the same text.
    fn again(&self, text: &[u8]) -> Reply
        ensures reply { (s : State) → result
            ≡ (answered_again s text.now (kept_said self.now)).reply }
    {
        if self.text.as_slice() == text {
            self.reply
        } else {
            Reply::Refused(Refusal::KeyReused)
        }
    }
}

/// The kept replies, by agent and key.
#[derive(Drop)]
pub struct Answers {
    kept: BTreeMap<AskKey, KeptAnswer>,
}

impl Answers {
    ghost use Rattle.std.specs.Prelude.{◌≡◌, OnOk, OnErr, option_map};
    ghost use Rattle.std.specs.Option.{option_copied};
    ghost use Rattle.ledger.specs.Answer.{KeptReply, State, nothing_kept, kept_after, answered_again, text_of};
    ghost use Rattle.memory_book.specs.MemoryAnswers.{kept_in, found_for, AreKeptAlike};

    /// No kept replies.
    pub fn new(alloc: Global) -> Answers
        ensures nothing { AreKeptAlike (kept_in result) nothing_kept }
    {
        Answers {
            kept: BTreeMap::new(alloc),
        }
    }

    /// The reply to a request whose key is known. Returns `None` if its key is new, or if it has none.
    pub fn again(&self, ask: Option<&Ask>) -> Option<Reply>
        ensures { (s : State) → result
            ≡ option_map (λ k. (answered_again s (text_of (option_copied ask.entry)) k).reply)
            (found_for (kept_in self.now) (option_copied ask.entry)) }
    {
        match ask {
            Some(ask) => self.again_to(ask),
            None => None,
        }
    }

    /// The reply to a request with a key. Returns `None` if the key is new.
    fn again_to(&self, ask: &Ask) -> Option<Reply>
        ensures { (s : State) → result
            ≡ option_map (λ k. (answered_again s ask.now.text k).reply)
            (kept_in self.now ask.now.agent ask.now.key) }
    {
        match self.kept.get(&AskKey::of(ask)) {
            Some(kept) => Some(kept.again(ask.text())),
            None => None,
        }
    }

    /// The reply that is kept for an agent under a key, if one is.
    pub fn reply_under(&self, agent: &Agent, key: &Key) -> Option<Reply>
        ensures reply { result ≡ option_map (λ (k : KeptReply). k.reply)
            (kept_in self.now agent.now key.now) }
    {
        let (agent, key) = (*agent, *key);
        match self.kept.get(&AskKey { agent, key }) {
            Some(kept) => Some(kept.reply),
            None => None,
        }
    }

    /// Keeps the reply to a request, if the request has a key.
    pub fn keep(&mut self, alloc: Global, ask: Option<&Ask>, reply: Reply) -> Result<(), AllocError>
        ensures kept { OnOk result (AreKeptAlike (kept_in self.new)
            (kept_after (kept_in self.old) (option_copied ask.entry) reply)) }

        ensures memory { OnErr result (AreKeptAlike (kept_in self.new) (kept_in self.old)) }
    {
        let Some(ask) = ask else {
            return Ok(());
        };
        let text = Vec::from_slice(alloc, ask.text())?;
        self.kept
            .insert(AskKey::of(ask), KeptAnswer { text, reply })?;
        Ok(())
    }
}
