//! One journey, with all that its next move needs beside its items.
ghost use Rattle.std.specs.Prelude.{◌≤◌, length};
ghost use Rattle.memory_book.specs.MemoryJourneys.{IsPlaced};

use allotment::Want;
use commands::{Agent, Ask, Cursor, Item, Phase};
use plan::{Marks, Plan, option_at};
use saga_core::{Brief, Record, cursor_after};
use std::alloc::{AllocError, Global};

/// The start of a journey.
const AT_START: Cursor = Cursor {
    pos: 0,
    phase: Phase::Run,
    used: 0,
};

/// A journey: its number, its agent, its plan, its items in order, and the state that follows from them.
#[derive(Drop)]
pub struct Journey {
    pub id: u64,
    pub agent: Agent,
    pub plan: Plan,
    pub cursor: Cursor,
    pub marks: Marks,
    /// The options that the standing steps took, in order of the steps.
    pub taken: Vec<usize>,
    pub items: Vec<Item>,
    ghost placed: { IsPlaced plan cursor taken.items },
    ghost refused: { cursor.used ≤ length items.items },
}

impl Journey {
    ghost use Rattle.std.specs.Prelude.{◌≡◌, ◌+◌, ◌-◌, ◌<◌, ◌≤◌, [], length, slice_index, OnOk, IfOk, IsTrue, Some};
    ghost use Rattle.std.specs.Option.{option_copied};
    ghost use Rattle.plan.specs.PlanModel.{is_plan};
    ghost use Rattle.plan.specs.Rules as rules;
    ghost use Rattle.commands.specs.declared.items.Phase.{Phase};
    ghost use Rattle.ledger.specs.History.{is_going_back};
    ghost use Rattle.ledger.specs.Answer.{asker};
    ghost use Rattle.ledger.specs.Replies.{sees};
    ghost use Rattle.memory_book.specs.Memory.{begun_as, brief_kept, record_kept, Tells};
    ghost use Rattle.memory_book.specs.MemoryJourneys.{IsOptionAt, IsNext};
    ghost use Rattle.memory_book.specs.Memory.{HasRoom, IsSameJourney, MakesOne};

    /// A journey that has made no item.
    pub fn new(alloc: Global, id: u64, agent: Agent, plan: Plan) -> Journey
        ensures begun { begun_as result ≡ record { agent = agent; plan = plan } }
        ensures limits { IsTrue (is_plan plan) }
        ensures told { Tells result id [] }
    {
        let _steps = plan.steps();
        Journey {
            id,
            agent,
            plan,
            cursor: AT_START,
            marks: Marks::none(),
            taken: Vec::new(alloc),
            items: Vec::new(alloc),
        }
    }

    /// Whether the asker sees the journey. An agent sees his own journeys, and the house sees all.
    pub fn is_seen_by(&self, ask: Option<&Ask>) -> bool
        ensures seen { result ≡ sees (asker (option_copied ask.entry)) (begun_as self.now) }
    {
        match ask {
            None => true,
            Some(ask) => ask.agent() == self.agent,
        }
    }

    /// The journey, as a book shows it. The only fault is out of memory.
    pub fn record(&self, alloc: Global) -> Result<Record, AllocError>
        ensures shown { IfOk result (λ r. r ≡ record_kept self.now) }
    {
        Ok(Record {
            agent: self.agent,
            plan: self.plan.clone(alloc)?,
            cursor: self.cursor,
            marks: self.marks,
        })
    }

    /// The summary of the journey.
    pub fn brief(&self) -> Brief
        ensures brief { result ≡ brief_kept self.now }
    {
        Brief {
            id: self.id,
            agent: self.agent,
            cursor: self.cursor,
        }
    }

    /// The option that the journey's next step takes. The precondition says that the journey is running.
    pub fn next_option(&self) -> usize
        requires running { self.now.cursor.phase ≡ Phase.Run }

        ensures option { result
            ≡ rules.next_option self.now.plan self.now.cursor.pos self.now.cursor.used }
        ensures in_step { IsOptionAt self.now.plan self.now.cursor.pos result }
    {
        option_at(&self.plan, self.cursor.pos + 1, self.cursor.used)
    }

    /// The want that the journey's next step takes. The precondition says that the journey is running.
    pub fn next_want(&self) -> Want
        requires running { self.now.cursor.phase ≡ Phase.Run }

        ensures want { rules.next_want self.now.plan self.now.cursor.pos self.now.cursor.used
            ≡ Some result }
    {
        self.plan.want(self.cursor.pos + 1, self.next_option())
    }

    /// The option that the journey's last standing step took. The precondition says that the journey goes back.
    pub fn last_option(&self) -> usize
        requires back { IsTrue (is_going_back self.now.cursor.phase) }

        ensures option { result ≡ slice_index self.now.taken.items (self.now.cursor.pos - 1) }
        ensures in_step { IsOptionAt self.now.plan (self.now.cursor.pos - 1) result }
    {
        self.taken[self.cursor.pos - 1]
    }

    /// Reserves capacity for one more item. The only fault is out of memory, which changes nothing but capacity.
    pub fn reserve(&mut self) -> Result<(), AllocError>
        ensures room { OnOk result (HasRoom self.new) }

        ensures same { IsSameJourney self.old self.new }
    {
        self.items.reserve(1)?;
        self.taken.reserve(1)?;
        Ok(())
    }

    /// Makes one more item. The precondition says that there is capacity for it.
    #[tactic(auto, using(crate::proofs::ReadyLemmas::next_within))]
    pub fn make(&mut self, item: Item)
        requires room { HasRoom self.old }
        requires next { IsNext self.old.plan self.old.cursor item }

        ensures made { MakesOne self.old self.new item }
    {
        self.cursor = cursor_after(&self.plan, self.cursor, item);
        match item {
            Item::Transaction { option, .. } => self.taken.push_reserved(option),
            Item::Compensation { .. } => {
                self.taken.pop();
                self.marks.cut(self.cursor.pos);
            }
            Item::Turn { .. } => {}
            Item::Save { position } => self.marks.add(position),
        }
        self.items.push_reserved(item);
    }
}
