//! The calls of the book over tables. After the store has failed, no call reaches it.
ghost use Rattle.std.specs.Prelude.{◌≡◌, take};
ghost use Rattle.std.specs.Option.{option_copied};
ghost use Rattle.commands.specs.Orders.{request_of};
ghost use Rattle.tables.specs.Asking.{HasAgent};
ghost use Rattle.ledger.specs.Ledger.{history};
ghost use Rattle.saga_core.specs.Views.{ShowsCells, IsStock, counts_of, first_unfinished, owned_above, record_of};
ghost use Rattle.saga_core.specs.Views.{kept_under, unfinished_of};
ghost use Rattle.sql_reads.specs.Reading.{IsTraceAt};

use crate::books::TableBook;
use crate::brief_lists::read_owned;
use crate::counting::counted_after;
use crate::stock_lists::read_stock;
use crate::traces::read_trace;
use allotment::{Cell, Held, Night, Want};
use commands::{Agent, Ask, Command, Fault, Item, Key, Reply};
use desk_sql::Version;
use saga_core::{Book, Brief, Counts, Record, Trace};
use sql_commands::{answer, know_limits, read_kept};
use sql_reads::{read_cells, read_history, read_journey};
use sqlite::Alter;

/// The agent of an ask has its form, as each value of its type does. A call does nothing at run time.
fn know_agent(ask: Option<&Ask>)
    ensures form { HasAgent (option_copied ask.entry) }
{
    if let Some(ask) = ask {
        let agent = ask.agent();
        let _text = agent.as_str();
    }
}

/// A look at the tables of a book. What it shows is so of each state that the book represents.
pub(super) trait Look<S: Alter>: Drop {
    ghost use Rattle.ledger.specs.Answer.{State};
    ghost use Rattle.tables.specs.Reading.{Looks};

    /// What the look returns.
    type Shown;

    /// The look shows this of a state.
    ghost shows: { Self → State → Self.Shown → Type 0 };

    /// Looks at the tables of a book that has not failed. At `Store` the book does not remember yet that it failed.
    fn look(self, book: &mut TableBook<S>) -> Result<Self::Shown, Fault>
        ensures { Looks S.Store book.old book.new result (shows self) };
}

/// The journey of that number, if there is one.
#[derive(Drop)]
struct JourneyOf {
    id: u64,
}

impl<S: Alter> Look<S> for JourneyOf {
    type Shown = Option<Record>;

    ghost shows = { λ look s found. found ≡ record_of s.ledger look.id };

    fn look(self, book: &mut TableBook<S>) -> Result<Option<Record>, Fault> {
        read_journey(book.alloc, &mut book.conn, Version::Two, self.id)
    }
}

/// The items of the journey of that number, in order.
#[derive(Drop)]
struct HistoryOf {
    id: u64,
}

impl<S: Alter> Look<S> for HistoryOf {
    type Shown = Vec<Item>;

    ghost shows = { λ look s items. items.items ≡ history s.ledger look.id };

    fn look(self, book: &mut TableBook<S>) -> Result<Vec<Item>, Fault> {
        read_history(book.alloc, &mut book.conn, self.id)
    }
}

/// The unfinished journey with the least number above `after`.
#[derive(Drop)]
struct FirstUnfinished {
    after: u64,
}

impl<S: Alter> Look<S> for FirstUnfinished {
    type Shown = Option<Brief>;

    ghost shows = { λ look s found. found ≡ first_unfinished s.ledger look.after };

    fn look(self, book: &mut TableBook<S>) -> Result<Option<Brief>, Fault> {
        book.look(self.after)
    }
}

/// The journeys of this agent with numbers above `after`, finished ones too, at most so many.
#[derive(Drop)]
struct OwnedAbove<'a> {
    agent: &'a Agent,
    after: u64,
    most: usize,
}

impl<'a, S: Alter> Look<S> for OwnedAbove<'a> {
    type Shown = Vec<Brief>;

    ghost shows = { λ look s briefs.
        briefs.items ≡ take look.most (owned_above s.ledger look.agent.now look.after) };

    fn look(self, book: &mut TableBook<S>) -> Result<Vec<Brief>, Fault> {
        read_owned(
            book.alloc,
            &mut book.conn,
            self.agent,
            self.after,
            self.most,
        )
    }
}

/// The reply that is kept for this agent under this key.
#[derive(Drop)]
struct KeptUnder<'a> {
    agent: &'a Agent,
    key: &'a Key,
}

impl<'a, S: Alter> Look<S> for KeptUnder<'a> {
    type Shown = Option<Reply>;

    ghost shows = { λ look s found. found ≡ kept_under s look.agent.now look.key.now };

    fn look(self, book: &mut TableBook<S>) -> Result<Option<Reply>, Fault> {
        read_kept(book.alloc, &mut book.conn, self.agent, self.key)
    }
}

/// How many events, journeys and unfinished journeys there are.
#[derive(Drop)]
struct CountsOfAll;

impl<S: Alter> Look<S> for CountsOfAll {
    type Shown = Counts;

    ghost shows = { λ _ s counts. counts ≡ counts_of s.ledger };

    fn look(self, book: &mut TableBook<S>) -> Result<Counts, Fault> {
        book.tally()
    }
}

/// The places of a want's nights.
#[derive(Drop)]
struct CellsOf<'a> {
    want: &'a Want,
}

impl<'a, S: Alter> Look<S> for CellsOf<'a> {
    type Shown = Vec<(Night, Held)>;

    ghost shows = { λ look s cells. ShowsCells look.want.now s cells.items };

    fn look(self, book: &mut TableBook<S>) -> Result<Vec<(Night, Held)>, Fault> {
        read_cells(book.alloc, &mut book.conn, self.want)
    }
}

/// The places of every cell that has an allotment.
#[derive(Drop)]
struct StockOfAll;

impl<S: Alter> Look<S> for StockOfAll {
    type Shown = Vec<(Cell, Held)>;

    ghost shows = { λ _ s rows. IsStock s.ledger rows.items };

    fn look(self, book: &mut TableBook<S>) -> Result<Vec<(Cell, Held)>, Fault> {
        read_stock(book.alloc, &mut book.conn)
    }
}

/// What a page shows of the journey of that number.
#[derive(Drop)]
struct TraceOf {
    id: u64,
}

impl<S: Alter> Look<S> for TraceOf {
    type Shown = Option<Trace>;

    ghost shows = { λ look s found. IsTraceAt look.id s found };

    fn look(self, book: &mut TableBook<S>) -> Result<Option<Trace>, Fault> {
        read_trace(book.alloc, &mut book.conn, self.id)
    }
}

/// The unfinished journeys, in order of number.
#[derive(Drop)]
struct AllUnfinished;

impl<S: Alter> Look<S> for AllUnfinished {
    type Shown = Vec<Brief>;

    ghost shows = { λ _ s briefs. briefs.items ≡ unfinished_of s.ledger };

    fn look(self, book: &mut TableBook<S>) -> Result<Vec<Brief>, Fault> {
        book.look_at_all()
    }
}

impl<S: Alter> TableBook<S> {
    ghost use Rattle.tables.specs.Reading.{Executes, Reads};

    /// Looks at the tables, unless the store has failed. Where it fails now, the book remembers that.
    pub(super) fn read<L: Look<S>>(&mut self, look: L) -> Result<L::Shown, Fault>
        ensures { Reads S.Store self.old self.new result (L.shows look) }
    {
        if self.failed {
            return Err(Fault::Store);
        }
        match look.look(self) {
            Ok(shown) => Ok(shown),
            Err(Fault::Memory) => Err(Fault::Memory),
            Err(Fault::Store) => {
                self.failed = true;
                Err(Fault::Store)
            }
        }
    }

    /// Executes a command. After the store has failed, no call reaches it.
    fn carry_out(&mut self, command: &Command, ask: Option<&Ask>) -> Result<Reply, Fault>
        ensures executes { Executes S.Store self.old self.new ask.entry (request_of command.now)
            result }
    {
        if self.failed {
            return Err(Fault::Store);
        }
        know_limits(command);
        know_agent(ask);
        match answer(self.alloc, &mut self.conn, command, ask) {
            Ok(answered) => {
                self.unfinished = counted_after(self.unfinished, &answered);
                Ok(answered.reply)
            }
            Err(Fault::Memory) => Err(Fault::Memory),
            Err(Fault::Store) => {
                self.failed = true;
                Err(Fault::Store)
            }
        }
    }
}

impl<S: Alter> Book for TableBook<S> {
    ghost use Rattle.tables.specs.Acting.{HasReasonSince, MayActSince};
    ghost use Rattle.tables.specs.Reading.{Executes, Reads};
    ghost use Rattle.sqlite.specs.State.{HasCleanDisk};
    ghost use Rattle.sqlite.specs.Held.{state};
    ghost use Rattle.tables.specs.Keeping.{MayLeave, Stands, settles};

    ghost is_sound = { λ b. HasCleanDisk (state S.Store b.conn) };

    ghost stands = { λ b s. Stands b.failed b.finished b.unfinished (state S.Store b.conn) s };

    ghost leaves = { λ b s t. MayLeave (state S.Store b.conn) s t };

    ghost has_failed = { λ b. b.failed };

    ghost may_act = { λ first b s asks. MayActSince S.Store first b s asks };

    ghost has_reason = { λ first b s next. HasReasonSince S.Store first b s next };

    ghost legal = { λ b s h. h.desk.legal };

    ghost settled = { λ b s h. settles h };

    fn act(&mut self, command: &Command, ask: Option<&Ask>) -> Result<Reply, Fault>
        ensures executes { Executes S.Store self.old self.new ask.entry (request_of command.now)
            result }
    {
        self.carry_out(command, ask)
    }

    fn journey(&mut self, id: u64) -> Result<Option<Record>, Fault>
        ensures { Reads S.Store self.old self.new result
            (λ s found. found ≡ record_of s.ledger id) }
    {
        self.read(JourneyOf { id })
    }

    fn history(&mut self, id: u64) -> Result<Vec<Item>, Fault>
        ensures { Reads S.Store self.old self.new result
            (λ s items. items.items ≡ history s.ledger id) }
    {
        self.read(HistoryOf { id })
    }

    fn first_unfinished(&mut self, after: u64) -> Result<Option<Brief>, Fault>
        ensures { Reads S.Store self.old self.new result
            (λ s found. found ≡ first_unfinished s.ledger after) }
    {
        self.read(FirstUnfinished { after })
    }

    fn owned(&mut self, agent: &Agent, after: u64, most: usize) -> Result<Vec<Brief>, Fault>
        ensures { Reads S.Store self.old self.new result
            (λ s briefs. briefs.items ≡ take most (owned_above s.ledger agent.now after)) }
    {
        self.read(OwnedAbove { agent, after, most })
    }

    fn kept(&mut self, agent: &Agent, key: &Key) -> Result<Option<Reply>, Fault>
        ensures { Reads S.Store self.old self.new result
            (λ s found. found ≡ kept_under s agent.now key.now) }
    {
        self.read(KeptUnder { agent, key })
    }

    fn counts(&mut self) -> Result<Counts, Fault>
        ensures { Reads S.Store self.old self.new result
            (λ s counts. counts ≡ counts_of s.ledger) }
    {
        self.read(CountsOfAll)
    }

    fn cells(&mut self, want: &Want) -> Result<Vec<(Night, Held)>, Fault>
        ensures { Reads S.Store self.old self.new result
            (λ s cells. ShowsCells want.now s cells.items) }
    {
        self.read(CellsOf { want })
    }

    fn stock(&mut self) -> Result<Vec<(Cell, Held)>, Fault>
        ensures { Reads S.Store self.old self.new result
            (λ s rows. IsStock s.ledger rows.items) }
    {
        self.read(StockOfAll)
    }

    fn trace(&mut self, id: u64) -> Result<Option<Trace>, Fault>
        ensures { Reads S.Store self.old self.new result (IsTraceAt id) }
    {
        self.read(TraceOf { id })
    }

    fn unfinished(&mut self) -> Result<Vec<Brief>, Fault>
        ensures { Reads S.Store self.old self.new result
            (λ s briefs. briefs.items ≡ unfinished_of s.ledger) }
    {
        self.read(AllUnfinished)
    }
}
