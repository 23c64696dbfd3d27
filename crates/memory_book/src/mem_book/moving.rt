//! Moves of journeys: steps, turns and save-points.
ghost use Rattle.std.specs.Prelude.{◌≡◌};
ghost use Rattle.memory_book.specs.MemoryStock.{IsInPlan, ChangesFor};

use crate::mem_book::MemBook;
use crate::next::{Motion, moved_by};
use crate::stock::{Change, Stock};
use commands::{Ask, Cursor, Item, Refusal, Reply};
use plan::Plan;
use saga_core::{cursor_after, is_running};
use std::alloc::AllocError;

/// The reply to the journey with this number, which made this item and is now at this cursor.
fn moved(id: u64, item: Item, cursor: &Cursor) -> Reply
    ensures moved { result ≡ Reply.Moved id item cursor.now.pos cursor.now.phase }
{
    Reply::Moved {
        id,
        item,
        pos: cursor.pos,
        phase: cursor.phase,
    }
}

/// Takes or gives back the places of an item's want.
fn change_stock(stock: &mut Stock, plan: &Plan, item: Item)
    requires in_plan { IsInPlan plan.now item }

    ensures changed { ChangesFor plan.now item stock.old stock.new }
{
    match item {
        Item::Transaction { step, option } => {
            stock.change(&plan.want(step, option), Change::Take);
        }
        Item::Compensation { step, option } => {
            stock.change(&plan.want(step, option), Change::GiveBack);
        }
        Item::Turn { .. } | Item::Save { .. } => {}
    }
}

impl MemBook {
    ghost use Rattle.std.specs.Prelude.{◌≡◌, ◌<◌, suc, length, slice_get, Some, IfSome, IfNone, IsTrue};
    ghost use Rattle.std.specs.Option.{option_copied};
    ghost use Rattle.commands.specs.Request.{Request};
    ghost use Rattle.ledger.specs.Answer.{State, asker, answer, answer_within, is_request, most_events};
    ghost use Rattle.ledger.specs.Ledger.{Did, is_allowed};
    ghost use Rattle.ledger.specs.AnswerChanges.{moves};
    ghost use Rattle.plan.specs.Rules as rules;
    ghost use Rattle.commands.specs.declared.items.Phase.TheVariants as Phase;
    ghost use Rattle.memory_book.specs.MemoryStock.{fits_some};
    ghost use Rattle.memory_book.specs.MemoryNext.{request_for};
    ghost use Rattle.memory_book.specs.Memory.{StandsFor, Carried, CarriesOut};
    ghost use Rattle.memory_book.specs.Memory.{IsSeenAt, IsSeenNowhere, IsMove, MayBeMade};
    ghost use Rattle.memory_book.specs.declared.journeys.Journey.{Journey};

    /// The place of the journey with this number. Returns `None` if the asker sees no such journey.
    fn seen(&self, id: u64, ask: Option<&Ask>) -> Option<usize>
        ensures seen { IfSome result (IsSeenAt self.now (asker (option_copied ask.entry)) id) }

        ensures none { IfNone result
            (IsSeenNowhere self.now (asker (option_copied ask.entry)) id) }
    {
        let place = self.place_of(id)?;
        if self.journeys[place].is_seen_by(ask) {
            Some(place)
        } else {
            None
        }
    }

    /// Whether the journey at this place is running and its next want fits.
    fn next_fits(&self, place: usize) -> bool
        requires within { place < length self.now.journeys.items }

        ensures fits { (k : Journey) → slice_get self.now.journeys.items place ≡ Some k →
            k.cursor.phase ≡ Phase.Run → result ≡ fits_some self.now.stock
            (rules.next_want k.plan k.cursor.pos k.cursor.used) }
    {
        let journey = &self.journeys[place];
        if !is_running(journey.cursor.phase) {
            return false;
        }
        let want = journey.next_want();
        self.stock.fits(&want)
    }

    /// Moves a journey as a request asks.
    pub fn go(&mut self, id: u64, motion: Motion, ask: Option<&Ask>) -> Result<Reply, AllocError>
        ensures { CarriesOut self.old self.new (option_copied ask.entry)
            (request_for motion id) result }
    {
        let Some(place) = self.seen(id, ask) else {
            return Ok(Reply::Refused(Refusal::NoJourney));
        };
        let fits = self.next_fits(place);
        let next = moved_by(&self.journeys[place], motion, fits);
        self.carry_out(place, next, ask)
    }

    /// Replies why there is no item, or makes the item.
    fn carry_out(
        &mut self,
        place: usize,
        next: Result<Item, Refusal>,
        ask: Option<&Ask>,
    ) -> Result<Reply, AllocError>
        requires within { place < length self.old.journeys.items }
        requires next { MayBeMade self.old place next }

        ensures { (s : State) → StandsFor self.old s →
            (asked : Request) → IsTrue (is_request asked) →
            IsMove self.old place
            (answer_within s.ledger (asker (option_copied ask.entry)) asked) next →
            Carried self.new s (option_copied ask.entry)
            (answer s.ledger (asker (option_copied ask.entry)) asked) result }
    {
        match next {
            Err(refusal) => Ok(Reply::Refused(refusal)),
            Ok(item) => {
                if self.is_full() {
                    return Ok(Reply::Refused(Refusal::Limit));
                }
                self.make(place, item, ask)
            }
        }
    }

    /// Makes an item and keeps the reply. The precondition says that the ledger has room.
    fn make(&mut self, place: usize, item: Item, ask: Option<&Ask>) -> Result<Reply, AllocError>
        requires within { place < length self.old.journeys.items }
        requires next { MayBeMade self.old place (Ok item) }
        requires room { self.old.events < most_events }

        ensures { (s : State) → StandsFor self.old s →
            (k : Journey) → slice_get self.old.journeys.items place ≡ Some k →
            IsTrue (is_allowed s.ledger (Did (suc place) item)) →
            Carried self.new s (option_copied ask.entry)
            (moves (suc place) k.plan k.cursor item) result }
    {
        let journey = &mut self.journeys[place];
        let cursor = cursor_after(&journey.plan, journey.cursor, item);
        let id = journey.id;
        journey.reserve()?;
        self.answers
            .keep(self.alloc, ask, moved(id, item, &cursor))?;
        change_stock(&mut self.stock, &journey.plan, item);
        journey.make(item);
        self.events += 1;
        Ok(moved(id, item, &cursor))
    }
}
