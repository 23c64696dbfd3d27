//! The desk as a slow, plain program: it keeps only its events and the kept replies, and computes everything else from
//! them, by the definitions.
use allotment::{Cell, Want};
use commands::{Agent, Ask, Batch, Cause, Command, Item, Key, Phase, Refusal, Reply};
use plan::Plan;
use std::alloc::{AllocError, Global};

/// One event of the ledger.
#[derive(Drop)]
pub enum Event {
    Loaded(Batch),
    Began(Agent, Plan),
    Did(u64, Item),
}

/// A kept reply, with its agent, its key and its text.
#[derive(Drop)]
struct Kept {
    agent: Agent,
    key: Key,
    text: Vec<u8>,
    reply: Reply,
}

/// The events, and the kept replies.
#[derive(Drop)]
pub struct Plain {
    alloc: Global,
    events: Vec<Event>,
    kept: Vec<Kept>,
}

/// The transactions that no compensation of their step follows, each as step and option.
pub fn net(alloc: Global, items: &[Item]) -> Result<Vec<(usize, usize)>, AllocError> {
    let mut standing = Vec::new(alloc);
    for (i, item) in items.iter().enumerate() {
        if let Item::Transaction { step, option } = item {
            if !is_compensated(&items[i + 1..], *step) {
                standing.push((*step, *option))?;
            }
        }
    }
    Ok(standing)
}

/// Whether a compensation of this step is among the items.
fn is_compensated(items: &[Item], of: usize) -> bool {
    for item in items {
        if let Item::Compensation { step, .. } = item {
            if *step == of {
                return true;
            }
        }
    }
    false
}

/// How many turns were caused by a refused step.
pub fn used(items: &[Item]) -> usize {
    let mut count = 0usize;
    for item in items {
        if let Item::Turn { cause, .. } = item {
            if *cause == Cause::Refused {
                count = count.saturating_add(1);
            }
        }
    }
    count
}

/// Whether a save-point was taken at this position and still stands.
fn is_taken(items: &[Item], p: usize) -> bool {
    for (i, item) in items.iter().enumerate() {
        if *item == (Item::Save { position: p }) && !is_compensated(&items[i + 1..], p) {
            return true;
        }
    }
    false
}

/// Whether a save-point stands at this position.
fn is_save_point(plan: &Plan, items: &[Item], pos: usize, p: usize) -> bool {
    let marked = 1 <= p && p <= plan.steps() && plan.marked(p);
    (marked && p <= pos) || is_taken(items, p)
}

/// The last save-point, or 0.
fn last_save(plan: &Plan, items: &[Item], pos: usize) -> usize {
    let mut last = 0;
    for p in 0..plan.steps() {
        if is_save_point(plan, items, pos, p) {
            last = p;
        }
    }
    last
}

/// The phase of a journey with this plan, these items and so many standing steps.
pub fn phase(plan: &Plan, items: &[Item], pos: usize) -> Phase {
    let mut going = None;
    let mut was_sent_to_start = false;
    for item in items {
        match item {
            Item::Turn { target, .. } => {
                going = Some(*target);
                was_sent_to_start |= *target == 0;
            }
            Item::Transaction { .. } => going = None,
            Item::Compensation { .. } | Item::Save { .. } => {}
        }
    }
    if pos == plan.steps() {
        return Phase::Ended;
    }
    if was_sent_to_start && pos == 0 {
        return Phase::Undone;
    }
    match going {
        Some(target) if target < pos => Phase::Back(target),
        _ => Phase::Run,
    }
}

/// The want of an option of a step, if the plan has it.
fn want_of(plan: &Plan, step: usize, option: usize) -> Option<Want> {
    if step == 0 || step > plan.steps() {
        return None;
    }
    if option == 0 || option > plan.options(step) {
        return None;
    }
    Some(plan.want(step, option))
}

/// How many places of a cell a want takes.
fn places_in(want: &Want, cell: &Cell) -> u64 {
    for own in want.cells() {
        if own == *cell {
            return u64::from(want.count());
        }
    }
    0
}

impl Plain {
    pub fn new(alloc: Global) -> Plain {
        Plain {
            alloc,
            events: Vec::new(alloc),
            kept: Vec::new(alloc),
        }
    }

    /// The journey of this number, as it was begun.
    pub fn begun(&self, id: u64) -> Option<(&Agent, &Plan)> {
        let mut number = 0u64;
        for event in &self.events {
            if let Event::Began(agent, plan) = event {
                number = number.saturating_add(1);
                if number == id {
                    return Some((agent, plan));
                }
            }
        }
        None
    }

    /// How many journeys there are.
    pub fn count(&self) -> u64 {
        let mut number = 0u64;
        for event in &self.events {
            if let Event::Began(_, _) = event {
                number = number.saturating_add(1);
            }
        }
        number
    }

    /// The items of a journey.
    pub fn history(&self, id: u64) -> Result<Vec<Item>, AllocError> {
        let mut items = Vec::new(self.alloc);
        for event in &self.events {
            if let Event::Did(journey, item) = event {
                if *journey == id {
                    items.push(*item)?;
                }
            }
        }
        Ok(items)
    }

    /// The allotment of a cell.
    pub fn allotment(&self, cell: &Cell) -> Option<u64> {
        let mut places = None;
        for event in &self.events {
            if let Event::Loaded(batch) = event {
                for row in batch.rows() {
                    if row.cell() == *cell {
                        places = Some(u64::from(row.places()));
                    }
                }
            }
        }
        places
    }

    /// How many places of a cell one journey holds.
    fn held_by(&self, id: u64, plan: &Plan, cell: &Cell) -> Result<u64, AllocError> {
        let mut sum = 0u64;
        let items = self.history(id)?;
        for (step, option) in &net(self.alloc, &items)? {
            if let Some(want) = want_of(plan, *step, *option) {
                sum = sum.saturating_add(places_in(&want, cell));
            }
        }
        Ok(sum)
    }

    /// How many places of a cell all journeys hold.
    pub fn held(&self, cell: &Cell) -> Result<u64, AllocError> {
        let mut sum = 0u64;
        let mut id = 0u64;
        for event in &self.events {
            if let Event::Began(_, plan) = event {
                id = id.saturating_add(1);
                sum = sum.saturating_add(self.held_by(id, plan, cell)?);
            }
        }
        Ok(sum)
    }

    /// Whether a want fits.
    fn fits(&self, want: &Want) -> Result<bool, AllocError> {
        for cell in want.cells() {
            let needed = self.held(&cell)?.saturating_add(u64::from(want.count()));
            match self.allotment(&cell) {
                Some(places) if needed <= places => {}
                _ => return Ok(false),
            }
        }
        Ok(true)
    }

    /// The reply to a load, and its event.
    fn load(&self, batch: &Batch) -> Result<(Option<Event>, Reply), AllocError> {
        let loaded = Reply::Loaded {
            name: batch.name(),
            rows: batch.rows().len(),
        };
        for event in &self.events {
            if let Event::Loaded(known) = event {
                if known.name() == batch.name() {
                    let is_same = known.rows() == batch.rows();
                    let differs = Reply::Refused(Refusal::BatchDiffers);
                    return Ok((None, if is_same { loaded } else { differs }));
                }
            }
        }
        for (i, row) in batch.rows().iter().enumerate() {
            if u64::from(row.places()) < self.held(&row.cell())? {
                let row = i + 1;
                return Ok((None, Reply::Refused(Refusal::BelowHeld { row })));
            }
        }
        Ok((Some(Event::Loaded(batch.clone(self.alloc)?)), loaded))
    }

    /// The item that a command makes in a journey, or why there is none.
    fn item(
        &self,
        command: &Command,
        plan: &Plan,
        items: &[Item],
    ) -> Result<Result<Item, Refusal>, AllocError> {
        let standing = net(self.alloc, items)?;
        let pos = standing.len();
        let phase = phase(plan, items, pos);
        let last = last_save(plan, items, pos);
        let going = match phase {
            Phase::Ended | Phase::Undone => return Ok(Err(Refusal::Finished)),
            Phase::Run => None,
            Phase::Back(target) => Some(target),
        };
        Ok(match command {
            Command::Step(_) => match going {
                Some(_) => match standing.last() {
                    Some((step, option)) => Ok(Item::Compensation {
                        step: *step,
                        option: *option,
                    }),
                    None => Err(Refusal::NoSavePoint),
                },
                None => Ok(self.forward(plan, items, pos, last)?),
            },
            Command::Abort(_, p) => {
                let stands = *p == 0 || is_save_point(plan, items, pos, *p);
                let is_below = match going {
                    Some(target) => *p < target,
                    None => true,
                };
                if stands && is_below {
                    Ok(Item::Turn {
                        target: *p,
                        cause: Cause::Asked,
                    })
                } else {
                    Err(Refusal::NoSavePoint)
                }
            }
            Command::Stop(_) => match going {
                Some(_) => Err(Refusal::NoSavePoint),
                None => Ok(Item::Turn {
                    target: last,
                    cause: Cause::Stop,
                }),
            },
            _ => {
                if going.is_some() || pos == 0 || is_save_point(plan, items, pos, pos) {
                    Err(Refusal::NoSave)
                } else {
                    Ok(Item::Save { position: pos })
                }
            }
        })
    }

    /// The next transaction of a running journey, or its refused turn.
    fn forward(
        &self,
        plan: &Plan,
        items: &[Item],
        pos: usize,
        last: usize,
    ) -> Result<Item, AllocError> {
        let step = pos.saturating_add(1);
        let used = used(items);
        let options = if 1 <= step && step <= plan.steps() {
            plan.options(step)
        } else {
            0
        };
        let option = used.saturating_add(1).min(options);
        if let Some(want) = want_of(plan, step, option) {
            if self.fits(&want)? {
                return Ok(Item::Transaction { step, option });
            }
        }
        Ok(Item::Turn {
            target: if used < usize::from(plan.tries()) {
                last
            } else {
                0
            },
            cause: Cause::Refused,
        })
    }

    /// The reply to a move of a journey, and its event.
    fn move_on(
        &self,
        command: &Command,
        id: u64,
        who: Option<&Agent>,
    ) -> Result<(Option<Event>, Reply), AllocError> {
        let Some((agent, plan)) = self.begun(id) else {
            return Ok((None, Reply::Refused(Refusal::NoJourney)));
        };
        if let Some(who) = who {
            if *who != *agent {
                return Ok((None, Reply::Refused(Refusal::NoJourney)));
            }
        }
        let mut items = self.history(id)?;
        match self.item(command, plan, &items)? {
            Err(refusal) => Ok((None, Reply::Refused(refusal))),
            Ok(item) => {
                items.push(item)?;
                let pos = net(self.alloc, &items)?.len();
                let phase = phase(plan, &items, pos);
                let reply = Reply::Moved {
                    id,
                    item,
                    pos,
                    phase,
                };
                Ok((Some(Event::Did(id, item)), reply))
            }
        }
    }

    /// The reply to a command of this asker, and its event.
    fn answer(
        &self,
        command: &Command,
        who: Option<&Agent>,
    ) -> Result<(Option<Event>, Reply), AllocError> {
        match command {
            Command::Load(batch) => self.load(batch),
            Command::Begin(plan) => {
                let agent = match who {
                    Some(agent) => *agent,
                    None => Agent::house(),
                };
                let event = Event::Began(agent, plan.clone(self.alloc)?);
                let id = self.count().saturating_add(1);
                Ok((Some(event), Reply::Begun { id }))
            }
            Command::Step(id) | Command::Abort(id, _) | Command::Stop(id) | Command::Save(id) => {
                self.move_on(command, *id, who)
            }
        }
    }

    /// Answers a command, as a book does.
    pub fn act(&mut self, command: &Command, ask: Option<&Ask>) -> Result<Reply, AllocError> {
        if let Some(ask) = ask {
            for kept in &self.kept {
                if kept.agent == ask.agent() && kept.key == ask.key() {
                    let is_same = kept.text.as_slice() == ask.text();
                    let reused = Reply::Refused(Refusal::KeyReused);
                    return Ok(if is_same { kept.reply } else { reused });
                }
            }
        }
        let agent = ask.map(|ask| ask.agent());
        let (event, reply) = self.answer(command, agent.as_ref())?;
        if let Some(event) = event {
            self.events.push(event)?;
            if let Some(ask) = ask {
                self.kept.push(Kept {
                    agent: ask.agent(),
                    key: ask.key(),
                    text: Vec::from_slice(self.alloc, ask.text())?,
                    reply,
                })?;
            }
        }
        Ok(reply)
    }
}
