//! The contract of every book.
//!
//! A book *represents* a state (`stands`): a ledger with kept replies, which is then also all that a crash leaves. A
//! book is *sound* while its store has returned what was written; soundness may end at any call, and never returns. A
//! book has *failed* once a call returned `Store`; every later call returns `Store` too.
ghost use Rattle.std.specs.Prelude.{◌≡◌, List, Bool, Option, take};
ghost use Rattle.std.specs.Option.{option_copied};
ghost use Rattle.commands.specs.Orders.{request_of};
ghost use Rattle.ledger.specs.Ledger.{IsLegal, history};
ghost use Rattle.ledger.specs.Answer.{State};
ghost use Rattle.saga_core.specs.Books.{Shows, LeavesJust};
ghost use Rattle.saga_core.specs.Calls.{Acts, Reads};
ghost use Rattle.saga_core.specs.Runs.{Asks};
ghost use Rattle.saga_core.specs.Views.{record_of, first_unfinished, owned_above, counts_of, ShowsCells, IsStock};
ghost use Rattle.saga_core.specs.Views.{TracesBrief, TracesItems, kept_under, unfinished_of};

use crate::records::{Brief, Counts, Record, Trace};
use allotment::{Cell, Held, Night, Want};
use commands::{Agent, Ask, Command, Fault, Item, Key, Reply};

pub trait Book {
    /// The store has returned what was written, so far.
    ghost is_sound: { Self → Type 0 };

    /// The book represents this state, and a crash leaves just that state.
    ghost stands: { Self → State → Type 0 };

    /// Whatever a crash leaves now represents one of these two states.
    ghost leaves: { Self → State → State → Type 0 };

    /// A call has returned `Store`.
    ghost has_failed: { Self → Bool };

    /// Since the first of the two books, the store has failed or refused; or the second book represents this state, and
    /// executes these asks in order, unless its store fails or refuses. What that takes, each book says; by default, no
    /// book may act so.
    ghost may_act: { Self → Self → State → Asks → Type 0 } = { λ _ _ _ _. ⊥ };

    /// Since the first of the two books, its store has failed or refused, or could not commit the step from the one
    /// state to the other: why the second one returned `Store`. By default, there is no reason.
    ghost has_reason: { Self → Self → State → State → Type 0 } = { λ _ _ _ _. ⊥ };

    /// Executes one command for the agent of the ask, or for the house if there is no ask.
    ///
    /// An accepted command adds one event, and its reply is kept with it if there is an ask. A refusal changes
    /// nothing.
    fn act(&mut self, command: &Command, ask: Option<&Ask>) -> Result<Reply, Fault>
        ensures { Acts is_sound stands leaves has_failed may_act has_reason self.old self.new
            (option_copied ask.entry) (request_of command.now) result };

    /// Returns the journey of that number, if there is one.
    fn journey(&mut self, id: u64) -> Result<Option<Record>, Fault>
        ensures journey { is_sound self.new →
            Shows (stands self.old) (λ s found. found ≡ record_of s.ledger id) result }
        ensures reads { Reads is_sound stands leaves has_failed may_act has_reason self.old self.new
            result };

    /// Returns the items of the journey of that number, in order; none if there is no such journey.
    fn history(&mut self, id: u64) -> Result<Vec<Item>, Fault>
        ensures items { is_sound self.new →
            Shows (stands self.old) (λ s items. items.items ≡ history s.ledger id) result }
        ensures reads { Reads is_sound stands leaves has_failed may_act has_reason self.old self.new
            result };

    /// Returns the unfinished journey with the least number above `after`.
    fn first_unfinished(&mut self, after: u64) -> Result<Option<Brief>, Fault>
        ensures first { is_sound self.new →
            Shows (stands self.old) (λ s found. found ≡ first_unfinished s.ledger after) result }
        ensures reads { Reads is_sound stands leaves has_failed may_act has_reason self.old self.new
            result };

    /// Returns the journeys of this agent with numbers above `after`, finished ones too, by rising number, at most so many.
    fn owned(&mut self, agent: &Agent, after: u64, most: usize) -> Result<Vec<Brief>, Fault>
        ensures owned { is_sound self.new →
            Shows (stands self.old) (λ s briefs.
            briefs.items ≡ take most (owned_above s.ledger agent.now after)) result }
        ensures reads { Reads is_sound stands leaves has_failed may_act has_reason self.old self.new
            result };

    /// Returns the reply that is kept for this agent under this key, if one is.
    fn kept(&mut self, agent: &Agent, key: &Key) -> Result<Option<Reply>, Fault>
        ensures kept { is_sound self.new →
            Shows (stands self.old) (λ s found. found ≡ kept_under s agent.now key.now) result }
        ensures reads { Reads is_sound stands leaves has_failed may_act has_reason self.old self.new
            result };

    /// Returns how many events, journeys and unfinished journeys there are.
    fn counts(&mut self) -> Result<Counts, Fault>
        ensures counts { is_sound self.new →
            Shows (stands self.old) (λ s counts. counts ≡ counts_of s.ledger) result }
        ensures reads { Reads is_sound stands leaves has_failed may_act has_reason self.old self.new
            result };

    /// Returns the places of a want's nights, in order of night, without the nights that have no allotment.
    fn cells(&mut self, want: &Want) -> Result<Vec<(Night, Held)>, Fault>
        ensures cells { is_sound self.new →
            Shows (stands self.old) (λ s cells. ShowsCells want.now s cells.items) result }
        ensures reads { Reads is_sound stands leaves has_failed may_act has_reason self.old self.new
            result };

    /// Returns the places of every cell that has an allotment, in order of kind, supplier, product and night.
    fn stock(&mut self) -> Result<Vec<(Cell, Held)>, Fault>
        ensures stock { is_sound self.new →
            Shows (stands self.old) (λ s rows. IsStock s.ledger rows.items) result }
        ensures reads { Reads is_sound stands leaves has_failed may_act has_reason self.old self.new
            result };

    // What pages show of journeys, by as few looks at the store as that takes.

    /// Returns the journey of that number with its items, in order, if there is one. Its plan is not read.
    fn trace(&mut self, id: u64) -> Result<Option<Trace>, Fault>
        ensures brief { is_sound self.new → Shows (stands self.old) (TracesBrief id) result }
        ensures items { is_sound self.new → Shows (stands self.old) (TracesItems id) result }
        ensures reads { Reads is_sound stands leaves has_failed may_act has_reason self.old self.new
            result };

    /// Returns the unfinished journeys, in order of number.
    fn unfinished(&mut self) -> Result<Vec<Brief>, Fault>
        ensures briefs { is_sound self.new →
            Shows (stands self.old) (λ s briefs. briefs.items ≡ unfinished_of s.ledger) result }
        ensures reads { Reads is_sound stands leaves has_failed may_act has_reason self.old self.new
            result };

    /// If a book represents a state, the ledger of that state is legal.
    ghost legal: { (book : Self) (s : State) → stands book s → IsLegal s.ledger };

    /// If a book represents a state, a crash leaves just that state.
    ghost settled: { (book : Self) (s : State) → stands book s → LeavesJust (leaves book) s };
}
