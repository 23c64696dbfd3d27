//! Names of batches, agents and keys.

use crate::limits::{LONGEST_AGENT, LONGEST_BATCH_NAME, LONGEST_KEY};
use allotment::Short;
use std::marker::Model;

/// The name of a batch: 1 to 24 of `a`-`z`, `0`-`9` and `-`. To a contract it is its bytes.
#[derive(Clone, Copy, Debug, PartialEq, Eq)]
pub struct Name {
    text: Short<LONGEST_BATCH_NAME>,
}

impl Model for Name {
    ghost use Rattle.std.specs.Prelude.{ℕ, List, IsTrue};
    ghost use Rattle.commands.specs.Names.{is_batch_name};

    ghost Value = { List ℕ };

    ghost view = { λ a. a.text };

    ghost invariant = { λ a. IsTrue (is_batch_name a.text) };

    ghost inverse = { λ bytes. record { text = bytes } };
}

impl Name {
    ghost use Rattle.std.specs.Prelude.{◌≡◌, IsTrue};
    ghost use Rattle.std.specs.List.{list_all};
    ghost use Rattle.allotment.specs.Texts.{keep_if};
    ghost use Rattle.commands.specs.Names.{is_batch_byte, is_batch_name};

    /// Reads the name of a batch from its text. Returns `None` for any other text.
    #[tactic(auto, using(crate::proofs::NameLemmas::batch_is_short))]
    pub fn parse(text: &str) -> Option<Name>
        ensures form { result ≡ keep_if is_batch_name text.now }
    {
        if !Name::has_form(text) {
            return None;
        }
        let text = Short::new(text)?;
        Some(Name { text })
    }

    /// The text of the name.
    pub fn as_str(&self) -> &str
        ensures text { result.now ≡ self.now }
        ensures form { IsTrue (is_batch_name self.now) }
    {
        self.text.as_str()
    }

    /// Whether the text has the form of a batch.
    fn has_form(text: &str) -> bool
        ensures form { result ≡ is_batch_name text.now }
    {
        let bytes = text.as_bytes();
        !bytes.is_empty() && bytes.len() <= LONGEST_BATCH_NAME && Name::are_bytes(bytes)
    }

    /// Whether each of the bytes may stand in it.
    fn are_bytes(bytes: &[u8]) -> bool
        ensures bytes { result ≡ list_all is_batch_byte bytes.now }
    {
        bytes.iter().all(|byte| Name::is_byte(*byte))
    }

    /// Whether the byte may stand in a batch's name.
    fn is_byte(byte: u8) -> bool
        ensures byte { result ≡ is_batch_byte byte }
    {
        matches!(byte, b'a'..=b'z' | b'0'..=b'9' | b'-')
    }
}

/// An agent: 1 to 16 of `a`-`z` and `0`-`9`. To a contract it is its bytes.
#[derive(Clone, Copy, Debug, PartialEq, Eq)]
pub struct Agent {
    text: Short<LONGEST_AGENT>,
}

impl Model for Agent {
    ghost use Rattle.std.specs.Prelude.{ℕ, List, IsTrue};
    ghost use Rattle.commands.specs.Names.{is_agent};

    ghost Value = { List ℕ };

    ghost view = { λ a. a.text };

    ghost invariant = { λ a. IsTrue (is_agent a.text) };

    ghost inverse = { λ bytes. record { text = bytes } };
}

impl Agent {
    ghost use Rattle.std.specs.Prelude.{◌≡◌, IsTrue};
    ghost use Rattle.std.specs.List.{list_all};
    ghost use Rattle.allotment.specs.Texts.{keep_if};
    ghost use Rattle.commands.specs.Names.{is_agent_byte, is_agent, house};

    /// Reads an agent from its text. Returns `None` for any other text.
    #[tactic(auto, using(crate::proofs::NameLemmas::agent_is_short))]
    pub fn parse(text: &str) -> Option<Agent>
        ensures form { result ≡ keep_if is_agent text.now }
    {
        if !Agent::has_form(text) {
            return None;
        }
        let text = Short::new(text)?;
        Some(Agent { text })
    }

    /// The house, `desk`: the agent of a command that comes without an ask.
    pub fn house() -> Agent
        ensures house { result ≡ house }
    {
        match Agent::parse("desk") {
            Some(agent) => agent,
            None => unreachable!(),
        }
    }

    /// The text of the agent.
    pub fn as_str(&self) -> &str
        ensures text { result.now ≡ self.now }
        ensures form { IsTrue (is_agent self.now) }
    {
        self.text.as_str()
    }

    /// Whether the text has the form of an agent.
    fn has_form(text: &str) -> bool
        ensures form { result ≡ is_agent text.now }
    {
        let bytes = text.as_bytes();
        !bytes.is_empty() && bytes.len() <= LONGEST_AGENT && Agent::are_bytes(bytes)
    }

    /// Whether each of the bytes may stand in it.
    fn are_bytes(bytes: &[u8]) -> bool
        ensures bytes { result ≡ list_all is_agent_byte bytes.now }
    {
        bytes.iter().all(|byte| Agent::is_byte(*byte))
    }

    /// Whether the byte may stand in an agent.
    fn is_byte(byte: u8) -> bool
        ensures byte { result ≡ is_agent_byte byte }
    {
        matches!(byte, b'a'..=b'z' | b'0'..=b'9')
    }
}

/// A key: 1 to 32 of the letters and digits of ASCII and `-`. To a contract it is its bytes.
#[derive(Clone, Copy, Debug, PartialEq, Eq)]
pub struct Key {
    text: Short<LONGEST_KEY>,
}

impl Model for Key {
    ghost use Rattle.std.specs.Prelude.{ℕ, List, IsTrue};
    ghost use Rattle.commands.specs.Names.{is_key};

    ghost Value = { List ℕ };

    ghost view = { λ a. a.text };

    ghost invariant = { λ a. IsTrue (is_key a.text) };

    ghost inverse = { λ bytes. record { text = bytes } };
}

impl Key {
    ghost use Rattle.std.specs.Prelude.{◌≡◌, IsTrue};
    ghost use Rattle.std.specs.List.{list_all};
    ghost use Rattle.allotment.specs.Texts.{keep_if};
    ghost use Rattle.commands.specs.Names.{is_key_byte, is_key};

    /// Reads a key from its text. Returns `None` for any other text.
    #[tactic(auto, using(crate::proofs::NameLemmas::key_is_short))]
    pub fn parse(text: &str) -> Option<Key>
        ensures form { result ≡ keep_if is_key text.now }
    {
        if !Key::has_form(text) {
            return None;
        }
        let text = Short::new(text)?;
        Some(Key { text })
    }

    /// The text of the key.
    pub fn as_str(&self) -> &str
        ensures text { result.now ≡ self.now }
        ensures form { IsTrue (is_key self.now) }
    {
        self.text.as_str()
    }

    /// Whether the text has the form of a key.
    fn has_form(text: &str) -> bool
        ensures form { result ≡ is_key text.now }
    {
        let bytes = text.as_bytes();
        !bytes.is_empty() && bytes.len() <= LONGEST_KEY && Key::are_bytes(bytes)
    }

    /// Whether each of the bytes may stand in it.
    fn are_bytes(bytes: &[u8]) -> bool
        ensures bytes { result ≡ list_all is_key_byte bytes.now }
    {
        bytes.iter().all(|byte| Key::is_byte(*byte))
    }

    /// Whether the byte may stand in a key.
    fn is_byte(byte: u8) -> bool
        ensures byte { result ≡ is_key_byte byte }
    {
        matches!(byte, b'A'..=b'Z' | b'a'..=b'z' | b'0'..=b'9' | b'-')
    }
}
