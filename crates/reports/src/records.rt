//! The rows of reports as CSV records (RFC 4180).
ghost use Rattle.std.specs.Prelude.{◌≡◌, [], ◌∷◌, ◌++◌, IfOk};
ghost use Rattle.reports.specs.Records.{csv_line, cell_fields, journey_fields, target_field, item_names, item_fields};

use crate::columns::night_digits;
use crate::fields::Fields;
use crate::pieces::{put_count, put_piece};
use allotment::{Cell, Held};
use commands::{Cursor, Item, Phase};
use saga_core::Brief;
use std::alloc::{AllocError, Global};

/// The heading of the items of a history.
#[tactic(auto, unfolding(csv::specs::Writing::escaped, csv::specs::Writing::fields_text, csv::specs::Writing::is_blank))]
pub(crate) fn item_heading() -> &'static str
    ensures heading { result.now ≡ csv_line item_names }
{
    "journey,item\r\n"
}

/// The record of a cell and its places. It has at most 60 bytes.
pub(crate) fn cell_record(alloc: Global, cell: &Cell, places: &Held) -> Result<Vec<u8>, AllocError>
    ensures fields { IfOk result
        (λ text. text.items ≡ csv_line (cell_fields (cell.now, places.now))) }
{
    let mut line = Vec::with_capacity(alloc, 60)?;
    put_piece(&mut line, "", cell.kind.word().as_bytes())?;
    put_piece(&mut line, ",", cell.supplier.as_str().as_bytes())?;
    put_piece(&mut line, ",", cell.product.as_str().as_bytes())?;
    put_piece(&mut line, ",", &night_digits(cell.night))?;
    put_count(&mut line, ",", places.allot)?;
    put_count(&mut line, ",", places.held())?;
    put_count(&mut line, ",", places.free)?;
    line.extend_from_slice(b"\r\n")?;
    Ok(line)
}

/// The record of an unfinished journey.
pub(crate) fn journey_record(alloc: Global, brief: &Brief) -> Result<Vec<u8>, AllocError>
    ensures fields { IfOk result (λ text. text.items ≡ csv_line (journey_fields brief.now)) }
{
    put_journey(alloc, Fields::new(alloc), brief)?.line(alloc)
}

/// The record of an item of a history.
pub(crate) fn item_record(alloc: Global, id: u64, item: &Item) -> Result<Vec<u8>, AllocError>
    ensures fields { IfOk result (λ text. text.items ≡ csv_line (item_fields id item.now)) }
{
    let text = item.text(alloc)?;
    let fields = Fields::new(alloc).with_number(alloc, id)?;
    fields.with(text.as_str())?.line(alloc)
}

/// Adds the fields of a journey with its agent, and of where it is: its number, agent, phase, position and target.
pub fn put_journey(alloc: Global, fields: Fields, brief: &Brief) -> Result<Fields, AllocError>
    ensures adds { IfOk result (λ all. all ≡ fields ++ journey_fields brief.now) }
{
    let Cursor { pos, phase, .. } = brief.cursor;
    let fields = fields.with_number(alloc, brief.id)?;
    let fields = fields.with(brief.agent.as_str())?;
    let fields = fields.with(phase.word())?;
    let fields = fields.with_number(alloc, pos as u64)?;
    put_target(alloc, fields, phase)
}

/// Adds the position to which a journey goes back; an empty field if it does not.
fn put_target(alloc: Global, fields: Fields, phase: Phase) -> Result<Fields, AllocError>
    ensures adds { IfOk result (λ all. all ≡ fields ++ target_field phase ∷ []) }
{
    match phase {
        Phase::Back(target) => fields.with_number(alloc, target as u64),
        _ => fields.with(""),
    }
}
