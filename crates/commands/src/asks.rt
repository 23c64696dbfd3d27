//! Commands, and asks: who asks, under which key and with which text.
ghost use Rattle.std.specs.Prelude.{◌≡◌};

use crate::batches::Batch;
use crate::names::{Agent, Key};
use plan::Plan;
use std::marker::Model;

/// Who asks, under which key, and with which text. To a contract it is the record of these.
#[derive(Drop)]
pub struct Ask {
    agent: Agent,
    key: Key,
    text: Vec<u8>,
}

impl Model for Ask {
    ghost use Rattle.commands.specs.Asks.{Asked};

    ghost Value = { Asked };

    ghost view = { λ a. record { agent = a.agent; key = a.key; text = a.text.items } };
}

impl Ask {
    /// The ask of this agent, under this key and with this text.
    pub fn new(agent: Agent, key: Key, text: Vec<u8>) -> Ask
        ensures agent { result.agent ≡ agent }
        ensures key { result.key ≡ key }
        ensures text { result.text ≡ text.items }
    {
        Ask { agent, key, text }
    }

    /// Who asks.
    pub fn agent(&self) -> Agent
        ensures agent { result ≡ self.now.agent }
    {
        self.agent
    }

    /// Under which key.
    pub fn key(&self) -> Key
        ensures key { result ≡ self.now.key }
    {
        self.key
    }

    /// With which text: the bytes that a retry under the key must repeat.
    pub fn text(&self) -> &[u8]
        ensures text { result.now ≡ self.now.text }
    {
        &self.text
    }
}

/// A command to the desk. Journeys are named by their numbers, from 1.
#[derive(Drop)]
pub enum Command {
    /// Set the allotments of the cells of a batch.
    Load(Batch),
    /// Begin a journey.
    Begin(Plan),
    /// Do a journey's next step, or its next compensation.
    Step(u64),
    /// Turn a journey back to a position.
    Abort(u64, usize),
    /// Turn a running journey back to its last save-point, as recovery does.
    Stop(u64),
    /// Take a save-point where a journey is.
    Save(u64),
}
