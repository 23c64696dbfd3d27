//! The reply to a move of a journey for whose ask no reply is kept.
//!
//! All reads come first, and none comes twice: the numbers of `meta`, the row of the journey, and then the rows of its
//! plan and its save-points. Then the item that the rules name is written in one commit, with its reply if there is an
//! ask. `step_outcome` executes a step, and comes here if its want does not fit, with what it has read.
ghost use Rattle.std.specs.Prelude.{◌≡◌, ◌≤◌, ℕ, false, IfOk, IfSome, IsOk};
ghost use Rattle.std.specs.Option.{option_copied as asked_by};
ghost use Rattle.ledger.specs.Answer.{State, asker};
ghost use Rattle.ledger.specs.Replies.{sees};
ghost use Rattle.sql_model.specs.Standing.{IsDesk};
ghost use Rattle.sql_writes.specs.Kinds.{IsSmall};
ghost use Rattle.sql_commands.specs.declared.moves.Motion.TheVariants as motion;
ghost use Rattle.plan.specs.Limits.{most_steps};
ghost use Rattle.plan.specs.PlanModel.{Planned, step_count};
ghost use Rattle.sql_commands.specs.Executing.{Replies};
ghost use Rattle.sql_commands.specs.Moving.{IsDue, IsMade, IsMove, IsNext, IsRead, LeadsToStart, SeesFound, asked_for, save_made, turn_made};
ghost use Rattle.sql_commands.specs.Placing.{IsPlacedIn};
ghost use Rattle.sql_commands.specs.Failing.{IsNewMove};
ghost use Rattle.commands.specs.declared.items.Phase.TheVariants.{Run};
ghost use Rattle.sql_reads.specs.Reads.{Read};

use crate::answering::{commit_answered, next_numbers};
use crate::cursors::{Found, Made, is_placed};
use commands::{Agent, Ask, Cause, Fault, Item, Phase, Refusal, Reply};
use plan::{MOST_STEPS, Turn};
use saga_core::{Move, Record, cursor_turned, decide, saved, turned};
use sql_reads::{LARGEST, Stand, read_record, read_stand};
use sql_writes::{Event, SaveMade, TurnMade};
use sqlite::{Alter, Connection};
use std::alloc::Global;

/// Whether a caller sees a journey of this agent: an agent sees its own journeys, and the house sees all.
pub(crate) fn is_seen_by(agent: Agent, ask: Option<&Ask>) -> bool
    ensures seen { (plan : Planned) → result
        ≡ sees (asker (asked_by ask.entry)) (record { agent = agent; plan = plan }) }
{
    match ask {
        None => true,
        Some(ask) => ask.agent() == agent,
    }
}

/// Reads what a move of the journey of that number starts from, if the caller sees it. An impossible cursor is a fault of the
/// store.
pub(crate) fn find_stand<S: Alter>(
    conn: &mut Connection<S>,
    id: u64,
    ask: Option<&Ask>,
) -> Result<Option<Found>, Fault>
    ensures read { Read S.Store conn.old conn.new result
        (SeesFound (asker (asked_by ask.entry)) id) }
    ensures number { IfOk result (λ found. IfSome found (λ it. it.id ≡ id)) }
{
    let numbers = next_numbers(conn)?;
    match read_stand(conn, id) {
        Ok(None) => Ok(None),
        Ok(Some(stand)) => {
            if !is_seen_by(stand.agent, ask) {
                return Ok(None);
            }
            if id <= LARGEST && stand.steps <= MOST_STEPS && is_placed(stand.steps, stand.cursor) {
                Ok(Some(Found { numbers, id, stand }))
            } else {
                Err(Fault::Store)
            }
        }
        Err(fault) => Err(fault),
    }
}

/// The turn of a journey back to a position, for this cause.
fn turn<'x>(found: &Found, target: usize, cause: Cause) -> Made<'x>
    requires { target ≤ most_steps }

    ensures turn { result ≡ turn_made found.now.id found.now.stand target cause }
    ensures small { IsSmall result.event }
{
    let cursor = cursor_turned(found.stand.cursor, target, cause);
    Made {
        item: Item::Turn { target, cause },
        event: Event::Turn(TurnMade {
            journey: found.id,
            target,
            cause,
            cursor,
        }),
        cursor,
    }
}

/// The save-point of a journey at its position.
fn save<'x>(found: &Found) -> Made<'x>
    ensures save { result ≡ save_made found.now.id found.now.stand }
    ensures small { IsSmall result.event }
{
    let cursor = found.stand.cursor;
    let position = cursor.pos;
    Made {
        item: Item::Save { position },
        event: Event::Save(SaveMade {
            journey: found.id,
            position,
        }),
        cursor,
    }
}

/// Writes an item of a journey by its event, unless the ledger is full.
pub(crate) fn make_event<S: Alter>(
    alloc: Global,
    conn: &mut Connection<S>,
    found: &Found,
    made: &Made<'_>,
    ask: Option<&Ask>,
) -> Result<Reply, Fault>
    requires outside { conn.old.in_transaction ≡ false }
    requires small { IsSmall made.now.event }

    ensures { (why : Motion) → Replies S.Store conn.old conn.new (asked_by ask.entry)
        (asked_for found.now.id why)
        (λ s. IsMade s (asked_by ask.entry) found.now why made.now) result }
{
    let reply = Reply::Moved {
        id: found.id,
        item: made.item,
        pos: made.cursor.pos,
        phase: made.cursor.phase,
    };
    commit_answered(alloc, conn, found.numbers, &made.event, reply, ask)
}

/// Returns the refusal, or writes the turn or the save-point, unless the ledger is full. A target that is no position of a
/// plan is a fault of the store.
fn carry_out<S: Alter>(
    alloc: Global,
    conn: &mut Connection<S>,
    found: &Found,
    next: Result<Item, Refusal>,
    ask: Option<&Ask>,
) -> Result<Reply, Fault>
    requires outside { conn.old.in_transaction ≡ false }
    requires kind { IfOk next (IsMove found.now.stand.cursor) }

    ensures { (why : Motion) → Replies S.Store conn.old conn.new (asked_by ask.entry)
        (asked_for found.now.id why)
        (λ s. IsDue s (asked_by ask.entry) found.now why next) result }
{
    match next {
        Err(refusal) => Ok(Reply::Refused(refusal)),
        Ok(item) => match item {
            Item::Turn { target, cause } => {
                if target > MOST_STEPS {
                    return Err(Fault::Store);
                }
                let made = turn(found, target, cause);
                make_event(alloc, conn, found, &made, ask)
            }
            Item::Save { .. } => {
                let made = save(found);
                make_event(alloc, conn, found, &made, ask)
            }
            // the rules answer a move by no step
            Item::Transaction { .. } => Err(Fault::Store),
            Item::Compensation { .. } => Err(Fault::Store),
        },
    }
}

/// A request about a journey.
#[derive(Clone, Copy)]
pub(crate) enum Motion {
    /// Its next step, whose want does not fit.
    Refused,
    /// A turn back to a position.
    Abort(usize),
    /// A turn back to its last save-point.
    Stop,
    /// A save-point at its position.
    Save,
}

/// The outcome of a request about a journey: a turn, a save-point, or a refusal. A journey that does not run, though its step is
/// refused, is a fault of the store.
fn next_of(journey: &Record, why: Motion) -> Result<Result<Item, Refusal>, Fault>
    requires placed { IsPlacedIn (step_count journey.now.plan) journey.now.cursor }

    ensures next { IfOk result (λ next. (id : ℕ) (s : State) → IsDesk s
        → IsNext id journey.now why s next) }
    ensures kind { IfOk result (λ next. IfOk next (IsMove journey.now.cursor)) }
    ensures there { (why ≡ motion.Refused → journey.now.cursor.phase ≡ Run) → IsOk result }
{
    let plan = &journey.plan;
    let marks = &journey.marks;
    match why {
        Motion::Refused => match decide(plan, marks, &journey.cursor, false) {
            Move::Turn(target) => Ok(Ok(Item::Turn {
                target,
                cause: Cause::Refused,
            })),
            Move::Take(..) | Move::Undo(_) | Move::Nothing => Err(Fault::Store),
        },
        Motion::Abort(position) => {
            let turn = Turn::Asked(position);
            Ok(turned(plan, marks, journey.cursor, turn, Cause::Asked))
        }
        Motion::Stop => Ok(turned(plan, marks, journey.cursor, Turn::Stop, Cause::Stop)),
        Motion::Save => Ok(saved(plan, marks, journey.cursor)),
    }
}

/// Why a move of a journey turns it back to its start, if it does so whatever the plan: its next want does not fit and no
/// try is left, or it runs and is asked to.
fn start_cause(stand: &Stand, why: Motion) -> Option<Cause>
    ensures start { IfSome result (LeadsToStart stand.now why) }
{
    match why {
        Motion::Refused if stand.cursor.used as u64 >= stand.tries => Some(Cause::Refused),
        Motion::Abort(0) if stand.cursor.phase == Phase::Run => Some(Cause::Asked),
        _ => None,
    }
}

/// Executes a move of a journey for whose ask no reply is kept, after the numbers of `meta` and the row of the journey were
/// read.
pub(crate) fn answer_motion<S: Alter>(
    alloc: Global,
    conn: &mut Connection<S>,
    found: &Found,
    why: Motion,
    ask: Option<&Ask>,
) -> Result<Reply, Fault>
    requires outside { conn.old.in_transaction ≡ false }

    ensures { Replies S.Store conn.old conn.new (asked_by ask.entry) (asked_for found.now.id why)
        (λ s. IsRead s (asked_by ask.entry) found.now why) result }
{
    let stand = &found.stand;
    if let Some(cause) = start_cause(stand, why) {
        let made = turn(found, 0, cause);
        return make_event(alloc, conn, found, &made, ask);
    }
    let journey = read_record(alloc, conn, found.id, stand)?;
    let next = next_of(&journey, why)?;
    carry_out(alloc, conn, found, next, ask)
}

/// Executes a move of a journey for whose ask no reply is kept.
pub(crate) fn answer_move<S: Alter>(
    alloc: Global,
    conn: &mut Connection<S>,
    id: u64,
    why: Motion,
    ask: Option<&Ask>,
) -> Result<Reply, Fault>
    requires outside { conn.old.in_transaction ≡ false }

    ensures { Replies S.Store conn.old conn.new (asked_by ask.entry) (asked_for id why)
        (IsNewMove (asked_by ask.entry) id why) result }
{
    match find_stand(conn, id, ask) {
        Ok(None) => Ok(Reply::Refused(Refusal::NoJourney)),
        Ok(Some(found)) => answer_motion(alloc, conn, &found, why, ask),
        Err(fault) => Err(fault),
    }
}
