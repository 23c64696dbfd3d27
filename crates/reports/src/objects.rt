//! The rows of reports as JSON objects, each on a line.
ghost use Rattle.std.specs.Prelude.{◌≡◌, [], ◌∷◌, false, codes, IfOk, string_bytes};
ghost use Rattle.serde_json.specs.View.{view};
ghost use Rattle.serde_json.specs.Written.{has_float};
ghost use Rattle.reports.specs.Objects.{json_line, cell_data, journey_data, begin_data, item_data, state_data};
ghost use Rattle.commands.specs.Objects.{json, counts, says};

use crate::columns::night_digits;
use crate::pieces::{put_count, put_piece};
use allotment::{Cell, Held};
use commands::{Cursor, Item, put_standing, put_text, put_whole};
use saga_core::{Brief, Record};
use serde_json::{Map, Value};
use std::alloc::{AllocError, Global};

/// The line of a cell and its places. It has at most 127 bytes.
pub(crate) fn cell_object(alloc: Global, cell: &Cell, places: &Held) -> Result<Vec<u8>, AllocError>
    ensures line { IfOk result
        (λ line. line.items ≡ json_line (cell_data (cell.now, places.now))) }
{
    let mut line = Vec::with_capacity(alloc, 127)?;
    put_count(&mut line, "{\"allot\":", places.allot)?;
    put_count(&mut line, ",\"free\":", places.free)?;
    put_count(&mut line, ",\"held\":", places.held())?;
    put_piece(&mut line, ",\"kind\":\"", cell.kind.word().as_bytes())?;
    put_piece(&mut line, "\",\"night\":\"", &night_digits(cell.night))?;
    put_piece(
        &mut line,
        "\",\"product\":\"",
        cell.product.as_str().as_bytes(),
    )?;
    put_piece(
        &mut line,
        "\",\"supplier\":\"",
        cell.supplier.as_str().as_bytes(),
    )?;
    line.extend_from_slice(b"\"}\n")?;
    Ok(line)
}

/// The line of a journey with its agent, and of where it is.
pub fn journey_object(alloc: Global, brief: &Brief) -> Result<String, AllocError>
    ensures line { IfOk result (λ text. string_bytes text ≡ json_line (journey_data brief.now)) }
{
    let value = journey_value(alloc, brief)?;
    json_line(alloc, &value)
}

/// The line of a journey with its agent and plan.
pub(crate) fn begin_object(alloc: Global, id: u64, journey: &Record) -> Result<String, AllocError>
    ensures line { IfOk result (λ text. string_bytes text ≡ json_line (begin_data id journey.now)) }
{
    let plan = journey.plan.line(alloc)?;
    let value = begin_value(alloc, id, journey.agent.as_str(), plan.as_str())?;
    json_line(alloc, &value)
}

/// The line of an item of a history.
pub(crate) fn item_object(alloc: Global, id: u64, item: &Item) -> Result<String, AllocError>
    ensures line { IfOk result (λ text. string_bytes text ≡ json_line (item_data id item.now)) }
{
    let text = item.text(alloc)?;
    let value = item_value(alloc, id, text.as_str())?;
    json_line(alloc, &value)
}

/// The line of where a journey is.
pub(crate) fn state_object(alloc: Global, id: u64, cursor: &Cursor) -> Result<String, AllocError>
    ensures line { IfOk result (λ text. string_bytes text ≡ json_line (state_data id cursor.now)) }
{
    let value = state_value(alloc, id, cursor)?;
    json_line(alloc, &value)
}

/// The text of a value without floats, and a line end.
pub fn json_line(alloc: Global, value: &Value) -> Result<String, AllocError>
    ensures line { IfOk result (λ text. has_float (view value.now) ≡ false →
        string_bytes text ≡ json_line (view value.now)) }
{
    let mut text = value.to_string(alloc)?;
    text.push('\n')?;
    Ok(text)
}

/// The value of an unfinished journey.
fn journey_value(alloc: Global, brief: &Brief) -> Result<Value, AllocError>
    ensures value { IfOk result (λ value. view value ≡ journey_data brief.now) }
{
    let mut members = Map::new(alloc);
    put_text(alloc, &mut members, "agent", brief.agent.as_str())?;
    put_standing(
        alloc,
        &mut members,
        brief.id,
        brief.cursor.pos,
        brief.cursor.phase,
    )?;
    Ok(Value::Object(members))
}

/// The value of where a journey is.
fn state_value(alloc: Global, id: u64, cursor: &Cursor) -> Result<Value, AllocError>
    ensures value { IfOk result (λ value. view value ≡ state_data id cursor.now) }
{
    let mut members = Map::new(alloc);
    put_standing(alloc, &mut members, id, cursor.pos, cursor.phase)?;
    Ok(Value::Object(members))
}

/// The value of a journey with its agent and plan.
fn begin_value(alloc: Global, id: u64, agent: &str, plan: &str) -> Result<Value, AllocError>
    ensures value { IfOk result (λ value. view value ≡ json
        (says (codes "agent") agent.now ∷ counts (codes "journey") id
        ∷ says (codes "plan") plan.now ∷ [])) }
{
    let mut members = Map::new(alloc);
    put_text(alloc, &mut members, "agent", agent)?;
    put_whole(alloc, &mut members, "journey", id)?;
    put_text(alloc, &mut members, "plan", plan)?;
    Ok(Value::Object(members))
}

/// The value of an item of a history.
fn item_value(alloc: Global, id: u64, item: &str) -> Result<Value, AllocError>
    ensures value { IfOk result (λ value.
        view value ≡ json (says (codes "item") item.now ∷ counts (codes "journey") id ∷ [])) }
{
    let mut members = Map::new(alloc);
    put_text(alloc, &mut members, "item", item)?;
    put_whole(alloc, &mut members, "journey", id)?;
    Ok(Value::Object(members))
}
