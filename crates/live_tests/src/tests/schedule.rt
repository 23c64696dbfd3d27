//! A source of turns: every peer comes, and then one after another may go on, in a random order or in turn.
ghost use Rattle.std.specs.Prelude.{◌≡◌};
ghost use Rattle.http_conversations.specs.declared.modes.Mode.TheVariants.{Strict};

use crate::tests::dice::Dice;
use crate::tests::ends::{Notes, Pieces, Sink};
use crate::tests::peers::Peer;
use http_conversations::Mode;
use http_live::{Metrics, Standing, Turn, Turns};

#[derive(Drop)]
pub struct Schedule<'a> {
    pub peers: &'a [Peer],
    pub notes: &'a Notes,
    pub dice: Dice,
    /// Whether the slots go on in turn.
    pub is_fair: bool,
    /// How many peers came.
    pub came: usize,
    /// How many turns are left.
    pub left: u64,
    /// The slots whose messages were answered, in order.
    pub order: Vec<usize>,
}

impl<'a> Turns for Schedule<'a> {
    type Reader = Pieces<'a>;

    type Writer = Sink<'a>;

    ghost is_at = { λ reader door. reader.door ≡ door };

    ghost is_by = { λ reader mode. mode ≡ Strict };

    ghost is_pair = { λ reader writer. Unit {0} };

    ghost is_over = { λ schedule. schedule.left ≡ 0 };

    fn next_turn(&mut self) -> Turn<Pieces<'a>, Sink<'a>> {
        let slot = self.came;
        if let Some(peer) = self.peers.get(slot) {
            self.came = slot.saturating_add(1);
            let reader = Pieces {
                door: peer.door,
                left: peer.sent.as_slice(),
                step: peer.read_step,
                fails: peer.fails,
                dice: Dice::new(self.dice.roll(1_000_000)),
            };
            let writer = Sink {
                slot,
                notes: self.notes,
                room: peer.room,
                step: peer.write_step,
                dice: Dice::new(self.dice.roll(1_000_000)),
            };
            return Turn::Comes(slot, peer.door, Mode::Strict, reader, writer);
        }
        if self.left == 0 {
            return Turn::End;
        }
        self.left -= 1;
        let count = self.peers.len() as u64;
        if self.is_fair && count > 0 {
            return Turn::Ready((self.left % count) as usize);
        }
        Turn::Ready(self.dice.roll(count) as usize)
    }

    fn metrics(&self) -> Metrics {
        Metrics::new()
    }

    fn hear(&mut self, slot: usize, standing: Standing) {
        if standing == Standing::Answered || standing == Standing::Stopped {
            let _ = self.order.push(slot);
        }
    }
}
