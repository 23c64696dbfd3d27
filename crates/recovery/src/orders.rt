//! The order of one line.
ghost use Rattle.std.specs.Prelude.{◌≡◌, List, ℕ, IfOk, IfErr};
ghost use Rattle.allotment.specs.Texts.{blank, parts, cell_in, places_in};
ghost use Rattle.commands.specs.Orders.{request_of};
ghost use Rattle.commands.specs.Readings.{texts_of};
ghost use Rattle.plan.specs.PlanLine.{plan_in};
ghost use Rattle.recovery.specs.Lines.{begin_meaning, found_meaning, meaning_in, text_meaning};
ghost use Rattle.recovery.specs.Lines.{journey_in as journey_of, name_in, position_in as position_of};
ghost use Rattle.recovery.specs.Lines.{abort_of as abort_meant, load_of as load_meant, row_of as row_meant};
ghost use Rattle.recovery.specs.Lines.{request_of_two, request_of_three, request_of_four, request_of_words};
ghost use Rattle.recovery.specs.Orders.{meaning_of, request_if_any};
ghost use Rattle.recovery.specs.Reading.{Keeps};

use crate::runs::Line;
use allotment::{Cell, MOST_PLACES, Row};
use commands::{
    BadBatch, Batch, Command, MOST_EVENTS, MOST_NAMED_POSITION, Name, Refusal, number_between,
};
use plan::{Plan, PlanFault};
use saga_core::ServeFault;
use std::alloc::{AllocError, Global};
use std::str;

/// The order of a line: a command, or a refusal.
#[derive(Drop)]
pub(crate) enum Order {
    Do(Command),
    Refuse(Refusal),
}

/// The order of a line.
pub(crate) fn order_of(alloc: Global, line: &Line) -> Result<Order, ServeFault>
    ensures order { IfOk result (λ order. (text : List ℕ) → Keeps line.now text →
        meaning_of order ≡ meaning_in text) }
    ensures memory { IfErr result (λ fault. fault ≡ ServeFault.Memory) }
{
    if line.is_long {
        return Ok(Order::Refuse(Refusal::BadBody));
    }
    match str::from_utf8(line.kept.as_slice()) {
        Ok(text) => order_of_text(alloc, text),
        Err(_) => Ok(Order::Refuse(Refusal::BadBody)),
    }
}

/// The order of a line that is short enough and UTF-8. The only fault is out of memory.
fn order_of_text(alloc: Global, text: &str) -> Result<Order, ServeFault>
    ensures order { IfOk result (λ order. meaning_of order ≡ text_meaning text.now) }
    ensures memory { IfErr result (λ fault. fault ≡ ServeFault.Memory) }
{
    match text.strip_prefix("begin ") {
        Some(plan) => order_of_plan(alloc, plan),
        None => order_of_words(alloc, text),
    }
}

/// The order of a plan's line, which begins a journey. A bad plan is refused. The only fault is out of memory.
fn order_of_plan(alloc: Global, text: &str) -> Result<Order, ServeFault>
    ensures order { IfOk result (λ order. meaning_of order ≡ begin_meaning (plan_in text.now)) }
    ensures memory { IfErr result (λ fault. fault ≡ ServeFault.Memory) }
{
    match Plan::from_line(alloc, text) {
        Ok(plan) => Ok(Order::Do(Command::Begin(plan))),
        Err(PlanFault::Bad(bad)) => Ok(Order::Refuse(Refusal::BadPlan(bad))),
        Err(PlanFault::Memory) => Err(ServeFault::Memory),
    }
}

/// The order of a line of words with a blank between each two. The only fault is out of memory.
fn order_of_words(alloc: Global, text: &str) -> Result<Order, ServeFault>
    ensures order { IfOk result (λ order.
        meaning_of order ≡ found_meaning (request_of_words (parts blank text.now))) }
    ensures memory { IfErr result (λ fault. fault ≡ ServeFault.Memory) }
{
    let words = words_of(alloc, text)?;
    match command_of(alloc, &words)? {
        Some(command) => Ok(Order::Do(command)),
        None => Ok(Order::Refuse(Refusal::BadBody)),
    }
}

/// The words of a line, split at each blank.
fn words_of(alloc: Global, text: &str) -> Result<Vec<&str>, AllocError>
    ensures words { IfOk result (λ words. texts_of words.items ≡ parts blank text.now) }
{
    text.split(' ').collect(alloc)
}

/// The command that the words make. Returns `None` if they make none.
fn command_of(alloc: Global, words: &[&str]) -> Result<Option<Command>, AllocError>
    ensures command { IfOk result (λ command.
        request_if_any command ≡ request_of_words (texts_of words.now)) }
{
    match words.len() {
        2 => Ok(two_in(words[0], words[1])),
        3 => Ok(three_in(words[0], words[1], words[2])),
        4 => four_in(alloc, words[0], words[1], words[2], words[3]),
        _ => Ok(None),
    }
}

/// The command of a verb and a journey: a step or a save-point.
fn two_in(verb: &str, id: &str) -> Option<Command>
    ensures two { request_if_any result ≡ request_of_two verb.now id.now }
{
    match verb {
        "step" => journey_in(id).map(Command::Step),
        "save" => journey_in(id).map(Command::Save),
        _ => None,
    }
}

/// The command of a verb, a journey and a position: a turn.
fn three_in(verb: &str, id: &str, position: &str) -> Option<Command>
    ensures three { request_if_any result ≡ request_of_three verb.now id.now position.now }
{
    match verb {
        "abort" => abort_of(id, position),
        _ => None,
    }
}

/// The command of a verb, a name, a cell and places: a load.
fn four_in(
    alloc: Global,
    verb: &str,
    name: &str,
    cell: &str,
    places: &str,
) -> Result<Option<Command>, AllocError>
    ensures four { IfOk result (λ command.
        request_if_any command ≡ request_of_four verb.now name.now cell.now places.now) }
{
    match verb {
        "set" => load_of(alloc, name, cell, places),
        _ => Ok(None),
    }
}

/// The turn of a journey to a position.
fn abort_of(id: &str, position: &str) -> Option<Command>
    ensures abort { request_if_any result
        ≡ abort_meant (journey_of id.now) (position_of position.now) }
{
    let id = journey_in(id)?;
    let position = position_in(position)?;
    Some(Command::Abort(id, position))
}

/// The load of so many places of a cell, under a name.
fn load_of(
    alloc: Global,
    name: &str,
    cell: &str,
    places: &str,
) -> Result<Option<Command>, AllocError>
    ensures load { IfOk result
        (λ command. let row = row_meant (cell_in cell.now) (places_in places.now) in
        request_if_any command ≡ load_meant (name_in name.now) row) }
{
    let (Some(name), Some(row)) = (Name::parse(name), row_of(cell, places)) else {
        return Ok(None);
    };
    let rows = vec![in alloc; row]?;
    match Batch::new(alloc, name, rows) {
        Ok(batch) => Ok(Some(Command::Load(batch))),
        Err(BadBatch::Memory) => Err(AllocError),
        Err(BadBatch::Count | BadBatch::Twice) => Ok(None),
    }
}

/// So many places of a cell.
fn row_of(cell: &str, places: &str) -> Option<Row>
    ensures row { result ≡ row_meant (cell_in cell.now) (places_in places.now) }
{
    let cell = Cell::parse(cell)?;
    let places = number_between(places, 0, MOST_PLACES as usize)?;
    Some(Row::new(cell, places as u32))
}

/// The number of a journey in a word. Returns `None` if the word is no number of a journey.
pub fn journey_in(word: &str) -> Option<u64>
    ensures journey { result ≡ journey_of word.now }
{
    number_between(word, 1, MOST_EVENTS as usize).map(|id| id as u64)
}

/// The position in a word. Returns `None` if the word is no position that a line may name.
fn position_in(word: &str) -> Option<usize>
    ensures position { result ≡ position_of word.now }
{
    number_between(word, 0, MOST_NAMED_POSITION)
}
