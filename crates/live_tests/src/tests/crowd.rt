//! A source of turns over few slots: peers come at any time, some in place of others, go on in a random order, and some
//! are cut off.
ghost use Rattle.std.specs.Prelude.{◌≡◌};
ghost use Rattle.http_conversations.specs.declared.modes.Mode.TheVariants.{Strict};

use crate::tests::dice::Dice;
use crate::tests::ends::{Notes, Pieces, Sink};
use crate::tests::peers::Peer;
use http_conversations::Mode;
use http_live::{Metrics, Standing, Turn, Turns};

/// How many slots the peers share.
const SHARED: u64 = 3;

/// How a peer fared.
#[derive(Clone, Copy, PartialEq, Eq)]
pub enum Fate {
    /// It has not come, or it is here.
    Open,
    /// Its connection ended in a turn of its own.
    Over,
    /// It was ended, or another one took its slot.
    Cut,
}

#[derive(Drop)]
pub struct Crowd<'a> {
    pub peers: &'a [Peer],
    pub notes: &'a Notes,
    pub dice: Dice,
    /// The peer of each slot.
    pub slotted: [Option<usize>; 3],
    /// How many peers came.
    pub came: usize,
    /// How many turns are left.
    pub left: u64,
    /// The peers whose messages were answered, in order.
    pub order: Vec<usize>,
    pub fates: Vec<Fate>,
}

impl<'a> Crowd<'a> {
    /// Nobody is at a slot any more.
    fn leaves(&mut self, slot: usize, fate: Fate) {
        let peer = match self.slotted.get_mut(slot) {
            Some(slotted) => slotted.take(),
            None => None,
        };
        if let Some(peer) = peer {
            if let Some(found) = self.fates.get_mut(peer) {
                *found = fate;
            }
        }
    }

    /// The next peer comes, if there is one more: its two ends.
    fn comes(&mut self, slot: usize) -> Option<(Pieces<'a>, Sink<'a>)> {
        let at = self.came;
        let peer = self.peers.get(at)?;
        self.came = at.saturating_add(1);
        self.leaves(slot, Fate::Cut);
        if let Some(slotted) = self.slotted.get_mut(slot) {
            *slotted = Some(at);
        }
        let reader = Pieces {
            door: peer.door,
            left: peer.sent.as_slice(),
            step: peer.read_step,
            fails: peer.fails,
            dice: Dice::new(self.dice.roll(1_000_000)),
        };
        let writer = Sink {
            slot: at,
            notes: self.notes,
            room: peer.room,
            step: peer.write_step,
            dice: Dice::new(self.dice.roll(1_000_000)),
        };
        Some((reader, writer))
    }
}

impl<'a> Turns for Crowd<'a> {
    type Reader = Pieces<'a>;

    type Writer = Sink<'a>;

    ghost is_at = { λ reader door. reader.door ≡ door };

    ghost is_by = { λ reader mode. mode ≡ Strict };

    ghost is_pair = { λ reader writer. Unit {0} };

    ghost is_over = { λ crowd. crowd.left ≡ 0 };

    fn next_turn(&mut self) -> Turn<Pieces<'a>, Sink<'a>> {
        if self.left == 0 {
            return Turn::End;
        }
        self.left -= 1;
        let slot = self.dice.roll(SHARED) as usize;
        match self.dice.roll(80) {
            0 => {
                self.leaves(slot, Fate::Cut);
                Turn::Leaves(slot)
            }
            1..=6 => match self.comes(slot) {
                Some((reader, writer)) => {
                    Turn::Comes(slot, reader.door, Mode::Strict, reader, writer)
                }
                None => Turn::Ready(slot),
            },
            _ => Turn::Ready(slot),
        }
    }

    fn metrics(&self) -> Metrics {
        Metrics::new()
    }

    fn hear(&mut self, slot: usize, standing: Standing) {
        match standing {
            Standing::Answered | Standing::Stopped => {
                if let Some(Some(peer)) = self.slotted.get(slot) {
                    let _ = self.order.push(*peer);
                }
            }
            Standing::Over => self.leaves(slot, Fate::Over),
            _ => {}
        }
    }
}
