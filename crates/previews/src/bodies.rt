//! A preview as one JSON object.
ghost use Rattle.std.specs.Prelude.{◌≡◌, IfOk, OnOk, codes, map, string_bytes};
ghost use Rattle.allotment.specs.Nights.{night_text};
ghost use Rattle.serde_json.specs.Data.{array, string};
ghost use Rattle.serde_json.specs.View.{items_of, members_view, view};
ghost use Rattle.serde_json.specs.Written.{compact_text};
ghost use Rattle.previews.specs.Layouts.{free_data, why_data};
ghost use Rattle.previews.specs.Members.{with_brief, with_next};
ghost use Rattle.previews.specs.declared.nights.FreeNight.{FreeNight};

use crate::lines::step_word;
use crate::nights::FreeNight;
use crate::steps::{NextStep, Preview};
use commands::{put_standing, put_text};
use reports::night_text;
use saga_core::Brief;
use serde_json::{Map, Value, json, put};
use std::alloc::{AllocError, Global};

/// The object of a preview, with what is free of each night of its next want, in its compact text. The only fault is out
/// of memory.
///
/// Its members are those of the lines of the report, and `nights` is the list of the objects of the nights.
#[tactic(auto, using(crate::proofs::FloatLemmas::no_float_in_why))]
pub fn why_body(
    alloc: Global,
    preview: &Preview,
    nights: &[FreeNight],
) -> Result<String, AllocError>
    ensures body { IfOk result
        (λ body. string_bytes body ≡ compact_text (why_data preview.now nights.now)) }
{
    let value = why_value(alloc, preview, nights)?;
    value.to_string(alloc)
}

/// The value of a preview with these nights.
fn why_value(alloc: Global, preview: &Preview, nights: &[FreeNight]) -> Result<Value, AllocError>
    ensures value { IfOk result (λ value. view value ≡ why_data preview.now nights.now) }
{
    let mut members = Map::new(alloc);
    put_brief(alloc, &mut members, &preview.brief)?;
    let step = step_word(alloc, &preview.step)?;
    put(&mut members, alloc, "step", Value::String(step))?;
    put(&mut members, alloc, "nights", nights_value(alloc, nights)?)?;
    put_next(alloc, &mut members, &preview.next)?;
    Ok(Value::Object(members))
}

/// Inserts whose a journey is, and where it is.
fn put_brief(
    alloc: Global,
    members: &mut Map<String, Value>,
    brief: &Brief,
) -> Result<(), AllocError>
    ensures brief { OnOk result (members_view members.new.entries
        ≡ with_brief brief.now (members_view members.old.entries)) }
{
    put_text(alloc, members, "agent", brief.agent.as_str())?;
    put_standing(
        alloc,
        members,
        brief.id,
        brief.cursor.pos,
        brief.cursor.phase,
    )
}

/// Inserts the item of the next step, and its want; nothing if there is none.
fn put_next(
    alloc: Global,
    members: &mut Map<String, Value>,
    next: &Option<NextStep>,
) -> Result<(), AllocError>
    ensures next { OnOk result (members_view members.new.entries
        ≡ with_next next.now (members_view members.old.entries)) }
{
    if let Some(next) = next {
        put(
            members,
            alloc,
            "next",
            Value::String(next.item.text(alloc)?),
        )?;
        put(
            members,
            alloc,
            "want",
            Value::String(next.want.text(alloc)?),
        )?;
    }
    Ok(())
}

/// The list of these nights.
fn nights_value(alloc: Global, nights: &[FreeNight]) -> Result<Value, AllocError>
    ensures value { IfOk result
        (λ value. view value
        ≡ array (items_of (map (λ (n : FreeNight). free_data n.night n.free) nights.now))) }
{
    let mut values = Vec::with_capacity(alloc, nights.len())?;
    for night in nights {
        values.push(night_value(alloc, night)?)?;
    }
    Ok(Value::Array(values))
}

/// The value of a night, and what is free of it.
fn night_value(alloc: Global, row: &FreeNight) -> Result<Value, AllocError>
    ensures value { IfOk result (λ value. view value ≡ free_data row.now.night row.now.free) }
{
    let night = night_text(alloc, row.night)?;
    let night = night.as_str();
    match row.free {
        Some(free) => json!(in alloc; {"free": free, "night": night}),
        None => json!(in alloc; {"night": night}),
    }
}
