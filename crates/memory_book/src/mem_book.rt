//! The book in memory: its parts, and the commands that it answers.
mod loading;
mod moving;
mod reporting;

use crate::answers::Answers;
use crate::journeys::Journey;
use crate::next::{Motion, is_owned_above, is_unfinished_above};
use crate::stock::Stock;
use allotment::{Cell, Held, Night, Want};
use commands::{Agent, Ask, Batch, Command, Fault, Item, Key, MOST_EVENTS, Refusal, Reply};
use plan::Plan;
use saga_core::{Book, Brief, Counts, Record, Trace};
use std::alloc::{AllocError, Global};

/// The desk in memory.
#[derive(Drop)]
pub struct MemBook {
    /// Journeys in order of their numbers, which count from 1.
    journeys: Vec<Journey>,
    stock: Stock,
    /// Batches in the order in which they were loaded.
    batches: Vec<Batch>,
    answers: Answers,
    /// The number of events in the ledger.
    events: u64,
    alloc: Global,
}

impl MemBook {
    ghost use Rattle.std.specs.Prelude.{◌≡◌, ◌≤◌, ◌<◌, ◌⊎◌, ◌↔◌, suc, length, filter, find, map, take, IfOk, IfSome, IfNone, IsTrue};
    ghost use Rattle.std.specs.Option.{option_copied};
    ghost use Rattle.commands.specs.Orders.{request_of};
    ghost use Rattle.commands.specs.Request as request;
    ghost use Rattle.ledger.specs.Answer.{State, outcome, start};
    ghost use Rattle.memory_book.specs.Memory.{StandsFor, CarriesOut, Comes, Finds, brief_kept};
    ghost use Rattle.saga_core.specs.Views.{is_owned_above as is_owned_above_rule, is_unfinished_above as is_unfinished_above_rule};

    /// A new desk: no event, and no reply kept. Allocates nothing.
    pub fn new(alloc: Global) -> MemBook
        ensures start { StandsFor result start }
    {
        MemBook {
            journeys: Vec::new(alloc),
            stock: Stock::new(alloc),
            batches: Vec::new(alloc),
            answers: Answers::new(alloc),
            events: 0,
            alloc,
        }
    }

    /// Whether the ledger has as many events as it may have.
    fn is_full(&self) -> bool
        ensures full { IsTrue result ↔ (MOST_EVENTS ≤ self.now.events) }
    {
        self.events >= MOST_EVENTS
    }

    /// The place of the journey with this number. Returns `None` if there is none.
    fn place_of(&self, id: u64) -> Option<usize>
        ensures within { IfSome result (λ place. place < length self.now.journeys.items) }
        ensures number { IfSome result (λ place. id ≡ suc place) }

        ensures none { IfNone result ((id ≡ 0) ⊎ (length self.now.journeys.items < id)) }
    {
        if id == 0 || id > self.journeys.len() as u64 {
            return None;
        }
        Some(id as usize - 1)
    }

    /// The journey with this number. Returns `None` if there is none.
    fn journey_of(&self, id: u64) -> Option<&Journey>
        ensures { Finds self.now id (option_copied result) }
    {
        match self.place_of(id) {
            Some(place) => Some(&self.journeys[place]),
            None => None,
        }
    }

    /// How many of the journeys above this number are unfinished. Looks at each journey.
    fn unfinished_count(&self, after: u64) -> usize
        ensures number { result ≡ length (filter (is_unfinished_above_rule after)
            (map brief_kept self.now.journeys.items)) }
    {
        self.journeys
            .iter()
            .map(|journey| journey.brief())
            .filter(|brief| is_unfinished_above(brief, after))
            .count()
    }

    /// The summaries of the unfinished journeys above this number.
    fn unfinished_briefs(&self, after: u64) -> Result<Vec<Brief>, AllocError>
        ensures briefs { IfOk result (λ briefs. briefs.items ≡ filter (is_unfinished_above_rule after)
            (map brief_kept self.now.journeys.items)) }
    {
        self.journeys
            .iter()
            .map(|journey| journey.brief())
            .filter(|brief| is_unfinished_above(brief, after))
            .collect(self.alloc)
    }

    /// The summary of the first unfinished journey above this number, if there is one.
    fn unfinished_above(&self, after: u64) -> Option<Brief>
        ensures first { result ≡ find (is_unfinished_above_rule after)
            (map brief_kept self.now.journeys.items) }
    {
        self.journeys
            .iter()
            .map(|journey| journey.brief())
            .find(|brief| is_unfinished_above(brief, after))
    }

    /// The summaries of the agent's journeys above this number, at most so many.
    fn owned_briefs(&self, agent: &Agent, after: u64, most: usize) -> Result<Vec<Brief>, AllocError>
        ensures briefs { IfOk result (λ briefs. briefs.items
            ≡ take most (filter (is_owned_above_rule agent.now after)
            (map brief_kept self.now.journeys.items))) }
    {
        self.journeys
            .iter()
            .map(|journey| journey.brief())
            .filter(|brief| is_owned_above(brief, agent, after))
            .take(most)
            .collect(self.alloc)
    }

    /// Begins a journey of the asker.
    fn begin(&mut self, plan: &Plan, ask: Option<&Ask>) -> Result<Reply, AllocError>
        ensures { CarriesOut self.old self.new (option_copied ask.entry)
            (request.Begin plan.now) result }
    {
        if self.is_full() {
            return Ok(Reply::Refused(Refusal::Limit));
        }
        let agent = match ask {
            Some(ask) => ask.agent(),
            None => Agent::house(),
        };
        let plan = plan.clone(self.alloc)?;
        let id = self.journeys.len() as u64 + 1;
        self.journeys.reserve(1)?;
        self.answers.keep(self.alloc, ask, Reply::Begun { id })?;
        let journey = Journey::new(self.alloc, id, agent, plan);
        self.journeys.push_reserved(journey);
        self.events += 1;
        Ok(Reply::Begun { id })
    }

    /// Answers a request whose key is not known.
    fn answer(&mut self, command: &Command, ask: Option<&Ask>) -> Result<Reply, AllocError>
        ensures { CarriesOut self.old self.new (option_copied ask.entry)
            (request_of command.now) result }
    {
        match command {
            Command::Load(batch) => self.load(batch, ask),
            Command::Begin(plan) => self.begin(plan, ask),
            Command::Step(id) => self.go(*id, Motion::Step, ask),
            Command::Abort(id, p) => self.go(*id, Motion::Abort(*p), ask),
            Command::Stop(id) => self.go(*id, Motion::Stop, ask),
            Command::Save(id) => self.go(*id, Motion::Save, ask),
        }
    }

    /// Answers a request, by the kept reply if its key is known.
    fn execute(&mut self, command: &Command, ask: Option<&Ask>) -> Result<Reply, AllocError>
        ensures { (s : State) → StandsFor self.old s → Comes self.new s
            (outcome s (option_copied ask.entry) (request_of command.now)) result }
    {
        match self.answers.again(ask) {
            Some(reply) => Ok(reply),
            None => self.answer(command, ask),
        }
    }
}

impl Book for MemBook {
    ghost use Rattle.std.specs.Prelude.{◌⊎◌, false, ⊤};
    ghost use Rattle.std.proofs.Common.{inl};
    ghost use Rattle.memory_book.specs.Memory.{StandsFor};

    ghost is_sound = { λ _. ⊤ };

    ghost stands = { λ m s. StandsFor m s };

    ghost leaves = { λ m s t. StandsFor m s ⊎ StandsFor m t };

    ghost has_failed = { λ _. false };

    ghost legal = { λ m s h. h.legal };

    ghost settled = { λ m s h. inl h };

    fn act(&mut self, command: &Command, ask: Option<&Ask>) -> Result<Reply, Fault> {
        match self.execute(command, ask) {
            Ok(reply) => Ok(reply),
            Err(_) => Err(Fault::Memory),
        }
    }

    fn journey(&mut self, id: u64) -> Result<Option<Record>, Fault> {
        match self.journey_of(id) {
            None => Ok(None),
            Some(journey) => match journey.record(self.alloc) {
                Ok(record) => Ok(Some(record)),
                Err(_) => Err(Fault::Memory),
            },
        }
    }

    fn history(&mut self, id: u64) -> Result<Vec<Item>, Fault> {
        match self.journey_of(id) {
            None => Ok(Vec::new(self.alloc)),
            Some(journey) => match Vec::from_slice(self.alloc, &journey.items) {
                Ok(items) => Ok(items),
                Err(_) => Err(Fault::Memory),
            },
        }
    }

    fn first_unfinished(&mut self, after: u64) -> Result<Option<Brief>, Fault> {
        Ok(self.unfinished_above(after))
    }

    fn owned(&mut self, agent: &Agent, after: u64, most: usize) -> Result<Vec<Brief>, Fault> {
        match self.owned_briefs(agent, after, most) {
            Ok(briefs) => Ok(briefs),
            Err(_) => Err(Fault::Memory),
        }
    }

    fn kept(&mut self, agent: &Agent, key: &Key) -> Result<Option<Reply>, Fault> {
        Ok(self.answers.reply_under(agent, key))
    }

    fn counts(&mut self) -> Result<Counts, Fault> {
        Ok(Counts {
            events: self.events,
            journeys: self.journeys.as_slice().len() as u64,
            unfinished: self.unfinished_count(0) as u64,
        })
    }

    fn cells(&mut self, want: &Want) -> Result<Vec<(Night, Held)>, Fault> {
        match self.stock.nights_of(self.alloc, want) {
            Ok(nights) => Ok(nights),
            Err(_) => Err(Fault::Memory),
        }
    }

    fn stock(&mut self) -> Result<Vec<(Cell, Held)>, Fault> {
        match self.stock.rows(self.alloc) {
            Ok(rows) => Ok(rows),
            Err(_) => Err(Fault::Memory),
        }
    }

    fn trace(&mut self, id: u64) -> Result<Option<Trace>, Fault> {
        match self.journey_of(id) {
            None => Ok(None),
            Some(journey) => {
                let brief = journey.brief();
                match Vec::from_slice(self.alloc, &journey.items) {
                    Ok(items) => Ok(Some(Trace { brief, items })),
                    Err(_) => Err(Fault::Memory),
                }
            }
        }
    }

    fn unfinished(&mut self) -> Result<Vec<Brief>, Fault> {
        match self.unfinished_briefs(0) {
            Ok(briefs) => Ok(briefs),
            Err(_) => Err(Fault::Memory),
        }
    }
}
