//! The lines of reports, each as one text in memory.
ghost use Rattle.std.specs.Prelude.{◌≡◌, IfOk, string_bytes};
ghost use Rattle.allotment.specs.Nights.{night_text};
ghost use Rattle.reports.specs.Formats.{stock_head, unfinished_head};
ghost use Rattle.reports.specs.Layouts.{stock_line, journey_line};
ghost use Rattle.reports.specs.Parts.{history_head, history_tail, item_word};

use crate::columns::{night_digits, put_number, put_text};
use allotment::{Cell, Held, Night};
use commands::{Cursor, Item};
use saga_core::{Brief, Format, Record};
use std::alloc::{AllocError, Global};

/// The heading of the stock report in this format.
#[tactic(auto, unfolding(csv::specs::Writing::escaped, csv::specs::Writing::fields_text, csv::specs::Writing::is_blank))]
pub(crate) fn stock_head(format: Format) -> &'static str
    ensures head { result.now ≡ stock_head format }
{
    match format {
        Format::Text => "kind     supplier product  night       allot   held   free\n",
        Format::Json => "",
        Format::Csv => "kind,supplier,product,night,allot,held,free\r\n",
    }
}

/// The heading of the report of unfinished journeys in this format.
#[tactic(auto, unfolding(csv::specs::Writing::escaped, csv::specs::Writing::fields_text, csv::specs::Writing::is_blank))]
pub(crate) fn unfinished_head(format: Format) -> &'static str
    ensures head { result.now ≡ unfinished_head format }
{
    match format {
        Format::Text | Format::Json => "",
        Format::Csv => "journey,agent,state,pos,target\r\n",
    }
}

/// The line of a cell and its places: columns of 8, 8, 8, 10, 6, 6 and 6 bytes with a blank between each two.
pub(crate) fn stock_line(cell: &Cell, places: &Held) -> [u8; 59]
    ensures line { result ≡ stock_line (cell.now, places.now) }
{
    let held = places.held();
    let mut line = [b' '; 59];
    put_text(&mut line, 0, cell.kind.word().as_bytes());
    put_text(&mut line, 9, cell.supplier.as_str().as_bytes());
    put_text(&mut line, 18, cell.product.as_str().as_bytes());
    put_text(&mut line, 27, &night_digits(cell.night));
    put_number(&mut line, 44, places.allot);
    put_number(&mut line, 51, held);
    put_number(&mut line, 58, places.free);
    put_text(&mut line, 58, b"\n");
    line
}

/// The text of a night, as `2030-06-01`.
pub fn night_text(alloc: Global, night: Night) -> Result<String, AllocError>
    ensures text { IfOk result (λ text. string_bytes text ≡ night_text night) }
{
    format!(in alloc; "{night}")
}

/// The line of an unfinished journey.
#[tactic(auto, using(std::proofs::Common::string_bytes, std::proofs::Common::decimal, crate::proofs::FillLemmas::number_right, crate::proofs::FillLemmas::agent_left, crate::proofs::FillLemmas::three_words))]
pub(crate) fn journey_line(alloc: Global, brief: &Brief) -> Result<String, AllocError>
    ensures line { IfOk result (λ text. string_bytes text ≡ journey_line brief.now) }
{
    let id = brief.id;
    let agent = brief.agent.as_str();
    let state = brief.cursor.state(alloc)?;
    format!(in alloc; "{id:>12} {agent:<16} {state}\n")
}

/// The text of an item after one blank.
pub(crate) fn item_word(alloc: Global, item: &Item) -> Result<String, AllocError>
    ensures word { IfOk result (λ text. string_bytes text ≡ item_word item.now) }
{
    let word = item.text(alloc)?;
    format!(in alloc; " {word}")
}

/// The text before the items of a history: the journey's number and agent, its plan, and the word `items`.
pub(crate) fn history_head(alloc: Global, id: u64, journey: &Record) -> Result<String, AllocError>
    ensures head { IfOk result (λ text. string_bytes text ≡ history_head id journey.now) }
{
    let agent = journey.agent.as_str();
    let plan = journey.plan.line(alloc)?;
    format!(in alloc; "journey {id} agent {agent}\nplan {plan}\nitems")
}

/// The text after the items of a history: the journey's position and phase.
pub(crate) fn history_tail(alloc: Global, cursor: &Cursor) -> Result<String, AllocError>
    ensures line { IfOk result (λ text. string_bytes text ≡ history_tail cursor.now) }
{
    let state = cursor.state(alloc)?;
    format!(in alloc; "\nstate {state}\n")
}
