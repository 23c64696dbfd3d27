//! The lines of a preview as JSON objects.
ghost use Rattle.std.specs.Prelude.{◌≡◌, [], ◌∷◌, false, codes, IfOk, Some, string_bytes};
ghost use Rattle.allotment.specs.Nights.{night_text};
ghost use Rattle.serde_json.specs.View.{view};
ghost use Rattle.reports.specs.Objects.{json_line};
ghost use Rattle.commands.specs.Objects.{counts, json, says};
ghost use Rattle.previews.specs.Layouts.{next_object, night_data, step_data};

use crate::lines::step_word;
use crate::nights::FreeNight;
use crate::steps::NextStep;
use commands::{Item, put_text, put_whole};
use reports::{json_line, night_text};
use serde_json::{Map, Value, json};
use std::alloc::{AllocError, Global};

/// The line of the next step and its want; nothing if there is none.
pub(crate) fn next_object(
    alloc: Global,
    id: u64,
    next: &Option<NextStep>,
) -> Result<String, AllocError>
    ensures line { IfOk result (λ text. string_bytes text ≡ next_object id next.now) }
{
    match next {
        Some(next) => object_of(alloc, id, next),
        None => Ok(String::new(alloc)),
    }
}

/// The line of a next step and its want.
fn object_of(alloc: Global, id: u64, next: &NextStep) -> Result<String, AllocError>
    ensures line { IfOk result (λ text. string_bytes text ≡ next_object id (Some next.now)) }
{
    let item = next.item.text(alloc)?;
    let want = next.want.text(alloc)?;
    let value = next_value(alloc, id, item.as_str(), want.as_str())?;
    json_line(alloc, &value)
}

/// The line of a night and what is free of it.
pub(crate) fn night_object(alloc: Global, id: u64, row: &FreeNight) -> Result<String, AllocError>
    ensures line { IfOk result
        (λ text. string_bytes text ≡ json_line (night_data id row.now.night row.now.free)) }
{
    let night = night_text(alloc, row.night)?;
    let value = night_value(alloc, id, night.as_str(), row)?;
    json_line(alloc, &value)
}

/// The line of what a step makes.
pub(crate) fn step_object(alloc: Global, id: u64, step: &Option<Item>) -> Result<String, AllocError>
    ensures line { IfOk result (λ text. string_bytes text ≡ json_line (step_data id step.now)) }
{
    let word = step_word(alloc, step)?;
    let value = step_value(alloc, id, word.as_str())?;
    json_line(alloc, &value)
}

/// The value of a next step with these texts of its item and want.
fn next_value(alloc: Global, id: u64, item: &str, want: &str) -> Result<Value, AllocError>
    ensures value { IfOk result (λ value. view value ≡ json
        (counts (codes "journey") id ∷ says (codes "next") item.now
        ∷ says (codes "want") want.now ∷ [])) }
{
    let mut members = Map::new(alloc);
    put_whole(alloc, &mut members, "journey", id)?;
    put_text(alloc, &mut members, "next", item)?;
    put_text(alloc, &mut members, "want", want)?;
    Ok(Value::Object(members))
}

/// The value of a night with this text, and what is free of it.
fn night_value(alloc: Global, id: u64, night: &str, row: &FreeNight) -> Result<Value, AllocError>
    ensures value { night.now ≡ night_text row.now.night →
        IfOk result (λ value. view value ≡ night_data id row.now.night row.now.free) }
{
    match row.free {
        Some(free) => json!(in alloc; {"free": free, "journey": id, "night": night}),
        None => json!(in alloc; {"journey": id, "night": night}),
    }
}

/// The value of what a step makes, in this word.
fn step_value(alloc: Global, id: u64, word: &str) -> Result<Value, AllocError>
    ensures value { IfOk result (λ value.
        view value ≡ json (counts (codes "journey") id ∷ says (codes "step") word.now ∷ [])) }
{
    let mut members = Map::new(alloc);
    put_whole(alloc, &mut members, "journey", id)?;
    put_text(alloc, &mut members, "step", word)?;
    Ok(Value::Object(members))
}
